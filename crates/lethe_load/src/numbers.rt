//! The numbers of pages.
ghost use Rattle.std.specs.Prelude.{◌≡◌, ◌↔◌, ◌⊎◌, ℕ, Contains, IsTrue, OnOk};

use lethe_base::NoMemory;
use std::collections::BTreeSet;

/// The numbers that the pages of a store may have: those below the next, of which some are taken.
#[derive(Drop)]
pub struct PageNumbers {
    pub next: u64,
    pub taken: BTreeSet<u64>,
}

impl PageNumbers {
    ghost use Rattle.lethe_load.specs.Progress.{IsFree};

    /// Whether a page may have the number.
    pub fn is_free(&self, no: u64) -> bool
        ensures { IsTrue result ↔ IsFree self.now no }
    {
        no < self.next && !self.taken.contains(&no)
    }

    /// Takes the number.
    pub fn take(&mut self, no: u64) -> Result<(), NoMemory>
        ensures next { self.new.next ≡ self.old.next }
        ensures taken { OnOk result ((number : ℕ) → Contains self.new.taken.keys number ↔ (Contains self.old.taken.keys number ⊎ (no ≡ number))) }
    {
        self.taken.insert(no)?;
        Ok(())
    }
}
