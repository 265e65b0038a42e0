//! Ranges of delete keys.
ghost use Rattle.std.specs.Prelude.{◌≡◌, ◌<◌, ◌≤◌, ◌↔◌, IsNone, IfSome};

use std::marker::Model;

/// The delete keys from a lower end up to an upper end, the upper end excluded. There is at least one. Contracts see
/// the two ends, as `lo` and `hi`.
#[derive(Clone, Copy, Debug, PartialEq, Eq)]
pub struct Range {
    lo: u64,
    hi: u64,
}

impl Model for Range {
    ghost use Rattle.std.specs.Prelude.{◌<◌};
    ghost use Rattle.lethe_base.specs.Ranges.{Ends};

    ghost Value = { Ends };

    ghost view = { λ r. record { lo = r.lo; hi = r.hi } };

    ghost invariant = { λ r. r.lo < r.hi };

    ghost inverse = { λ e. record { lo = e.lo; hi = e.hi } };
}

impl Range {
    /// The range from `lo` up to `hi` excluded.
    pub fn new(lo: u64, hi: u64) -> Option<Range>
        ensures range { IfSome result (λ range. range ≡ record { lo = lo; hi = hi }) }
        ensures none { IsNone result ↔ (hi ≤ lo) }
    {
        if lo < hi {
            Some(Range { lo, hi })
        } else {
            None
        }
    }

    /// The lower end.
    pub fn lo(&self) -> u64
        ensures lo { result ≡ self.now.lo }
        ensures some { self.now.lo < self.now.hi }
    {
        self.lo
    }

    /// The upper end, which is excluded.
    pub fn hi(&self) -> u64
        ensures hi { result ≡ self.now.hi }
        ensures some { self.now.lo < self.now.hi }
    {
        self.hi
    }
}
