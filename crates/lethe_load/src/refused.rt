//! Why a disk couldn't be read.
ghost use Rattle.std.specs.Prelude.{◌≡◌};
ghost use Rattle.lethe_load.specs.declared.refused.RecoverRefused.TheVariants as refused;

use lethe_base::{Config, Name};
use std::alloc::AllocFailed;

/// Why a disk couldn't be read.
#[derive(Clone, Copy, Debug, PartialEq, Eq)]
pub enum RecoverRefused {
    /// An object is missing, isn't spelled as one of its kind, is another's, is cited twice, or doesn't agree with what cites it. Objects are
    /// looked at in the order of the manifest of the greatest gate, its segments, then each file's header followed by its pages, and
    /// this is the first such one. Where each of them is sound it is the manifest, whose files of a level behind level 0 are out of order.
    Damaged { name: Name },
    /// The disk failed, and its count of faults went from `before` to `after`.
    Fault { before: u64, after: u64 },
    /// There was no memory.
    NoMemory,
    /// The manifest of the greatest gate is of another configuration. Nothing that it cites was looked at.
    OtherConfig { kept: Config },
}

impl<T: Drop> From<AllocFailed<T>> for RecoverRefused {
    ghost from_gives = { λ _ why. why ≡ refused.NoMemory };

    fn from(_: AllocFailed<T>) -> Self {
        RecoverRefused::NoMemory
    }
}

impl From<lethe_base::NoMemory> for RecoverRefused {
    ghost from_gives = { λ _ why. why ≡ refused.NoMemory };

    fn from(_: lethe_base::NoMemory) -> Self {
        RecoverRefused::NoMemory
    }
}
