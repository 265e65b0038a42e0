//! The bytes of pages, which contracts alone see.
ghost use Rattle.std.specs.Prelude.{◌≡◌, ℕ, List, [], ◌∷◌, ◌++◌};
ghost use Rattle.std.specs.Borrow.{ftrue};

use std::marker::Model;

// The bytes of each page of a list. Clauses read them as `pages`; they take no memory.
#[derive(Debug, Drop)]
pub(crate) struct Contents {
    pub ghost pages: { List (List ℕ) },
}

impl Model for Contents {
    ghost also_owns = { λ _. ftrue };
}

impl Contents {
    // Of no page.
    pub(crate) fn new() -> Contents
        ensures { result.pages ≡ [] }
    {
        Contents {}
    }

    // With one page more.
    pub(crate) fn with(&self, _bytes: &[u8]) -> Contents
        ensures { result.pages ≡ self.now.pages ++ _bytes.now ∷ [] }
    {
        Contents {}
    }
}
