//! A law of the spelling. The function does nothing: its contract is the law.
ghost use Rattle.std.specs.Prelude.{◌≡◌};
ghost use Rattle.lethe_manifest.specs.Manifests.{manifest_bytes, HasSpelling};
ghost use Rattle.lethe_manifest.specs.declared.manifest.Manifest.{Manifest};

/// Two manifests have different spellings.
pub fn one_manifest()
    ensures { (a b : Manifest) → HasSpelling a → HasSpelling b → manifest_bytes a ≡ manifest_bytes b → a ≡ b }
{}
