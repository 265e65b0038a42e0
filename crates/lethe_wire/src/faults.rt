//! Counts of faults.
ghost use Rattle.std.specs.Prelude.{◌≡◌, ◌≤◌};
ghost use Rattle.lethe_base.specs.Counts.{counted};

use crate::WireFailed;

/// How often a source or a sink has failed. It never falls, and stays at 2^64 - 1 once it is there.
#[derive(Clone, Copy, Debug, PartialEq, Eq)]
pub(crate) struct Faults {
    pub count: u64,
}

impl Faults {
    pub(crate) fn none() -> Faults
        ensures { result.count ≡ 0 }
    {
        Faults { count: 0 }
    }

    /// Counts a fault, which is then told.
    pub(crate) fn rise(&mut self) -> WireFailed
        ensures count { self.new.count ≡ counted self.old.count }
        ensures later { self.old.count ≤ self.new.count }
    {
        self.count = self.count.saturating_add(1);
        WireFailed
    }
}
