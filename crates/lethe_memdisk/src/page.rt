//! The pages and ports of a disk in memory.
ghost use Rattle.std.specs.Prelude.{◌≡◌, ◌+◌, IfOk};

use lethe_disk::Fetches;
use std::alloc::{AllocError, Global};
use std::marker::Model;

/// A page of a disk in memory, a copy of what its object held when it was opened.
#[derive(Drop)]
pub struct MemPage {
    bytes: Vec<u8>,
}

impl Model for MemPage {
    ghost use Rattle.std.specs.Prelude.{List, ℕ};

    ghost Value = { List ℕ };

    ghost view = { λ p. p.bytes.items };
}

impl MemPage {
    pub fn of(bytes: Vec<u8>) -> MemPage
        ensures { result ≡ bytes.items }
    {
        MemPage { bytes }
    }

    /// A copy of its bytes.
    pub fn read(&self, alloc: Global) -> Result<Vec<u8>, AllocError>
        ensures { IfOk result (λ bytes. bytes.items ≡ self.now) }
    {
        self.bytes.to_vec(alloc)
    }
}

/// A port of a disk in memory. It never fails.
#[derive(Drop)]
pub struct MemPort {
    fetches: Fetches,
}

impl Model for MemPort {
    ghost use Rattle.std.specs.Prelude.{ℕ};

    ghost Value = { ℕ };

    ghost view = { λ p. p.fetches.count };
}

impl MemPort {
    pub fn new() -> MemPort
        ensures { result ≡ 0 }
    {
        MemPort {
            fetches: Fetches::new(),
        }
    }

    /// Counts a fetch.
    pub fn count(&mut self)
        ensures { self.new ≡ self.old + 1 }
    {
        self.fetches = self.fetches.next();
    }
}
