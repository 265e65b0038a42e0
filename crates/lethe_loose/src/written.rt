//! Which pages a job has written.
ghost use Rattle.std.specs.Prelude.{◌≡◌, [], map};

use crate::Contents;
use lethe_base::Name;
use std::alloc::Global;
use std::marker::Model;

/// The pages that a job has written. Contracts see them with their bytes.
#[derive(Debug, Drop)]
pub struct Written {
    pub(crate) names: Vec<Name>,
    pub(crate) contents: Contents,
}

impl Model for Written {
    ghost use Rattle.std.specs.Prelude.{◌≡◌, ℕ, List, zip, length};
    ghost use Rattle.lethe_base.specs.declared.name.Name.{Name};

    ghost Value = { List (Name × List ℕ) };

    ghost view = { λ w. zip w.names.items w.contents.pages };

    ghost invariant = { λ w. length w.names.items ≡ length w.contents.pages };
}

impl Written {
    /// No page. It has taken no memory yet.
    pub fn new(alloc: Global) -> Written
        ensures { result ≡ [] }
    {
        Written {
            names: Vec::new(alloc),
            contents: Contents::new(),
        }
    }

    /// The names of the pages, in the order in which they were written.
    pub fn names(&self) -> &[Name]
        ensures { result.now ≡ map (λ named. named.0) self.now }
    {
        &self.names
    }
}
