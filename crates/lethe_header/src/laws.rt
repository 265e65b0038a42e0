//! A law of the spelling. The function does nothing: its contract is the law.
ghost use Rattle.std.specs.Prelude.{◌≡◌};
ghost use Rattle.lethe_header.specs.Headers.{header_bytes, HasSpelling};
ghost use Rattle.lethe_header.specs.declared.header.Header.{Header};

/// Two headers have different spellings.
pub fn one_header()
    ensures { (a b : Header) → HasSpelling a → HasSpelling b → header_bytes a ≡ header_bytes b → a ≡ b }
{}
