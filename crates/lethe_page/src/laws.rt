//! A law of the spelling. The function does nothing: its contract is the law.
ghost use Rattle.std.specs.Prelude.{◌≡◌, List};
ghost use Rattle.lethe_base.specs.declared.entry.Entry.{Entry};
ghost use Rattle.lethe_page.specs.Pages.{page_bytes, HasSpelling};
ghost use Rattle.lethe_page.specs.declared.class.Class.{Class};

/// Two pages have different spellings.
pub fn one_page()
    ensures { (a b : Class) (xs ys : List Entry) → HasSpelling a xs → HasSpelling b ys
        → page_bytes a xs ≡ page_bytes b ys → (a ≡ b) × (xs ≡ ys) }
{}
