//! Laws of the spelling of entries. The functions do nothing: their contracts are the laws.
ghost use Rattle.std.specs.Prelude.{◌≡◌, ◌++◌, ℕ, List};
ghost use Rattle.lethe_base.specs.Spelling.{entry_bytes, HasSpelling};
ghost use Rattle.lethe_base.specs.declared.entry.Entry.{Entry};

/// Two entries have different spellings, and no entry's spelling begins another's.
pub fn one_spelling()
    ensures different { (a b : Entry) → HasSpelling a → HasSpelling b
        → entry_bytes a ≡ entry_bytes b → a ≡ b }
    ensures no_prefix { (a b : Entry) (x y : List ℕ) → HasSpelling a → HasSpelling b
        → entry_bytes a ++ x ≡ entry_bytes b ++ y → (a ≡ b) × (x ≡ y) }
{}
