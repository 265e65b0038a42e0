//! A count that contracts alone see.
ghost use Rattle.std.specs.Prelude.{◌≡◌, ℕ, ◌+◌};
ghost use Rattle.std.specs.Borrow.{ftrue};

use std::marker::Model;

/// How many fetches there were through a port. Clauses read it as `count`; it takes no bytes and has no last value. A
/// kind of disk keeps it in its ports.
#[derive(Drop)]
pub struct Fetches {
    pub ghost count: { ℕ },
}

impl Model for Fetches {
    ghost also_owns = { λ _. ftrue };
}

impl Fetches {
    /// No fetch.
    pub fn new() -> Fetches
        ensures { result.count ≡ 0 }
    {
        Fetches {}
    }

    /// One fetch more.
    pub fn next(&self) -> Fetches
        ensures { result.count ≡ self.now.count + 1 }
    {
        Fetches {}
    }
}
