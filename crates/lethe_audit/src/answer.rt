//! What an audit answers.
ghost use Rattle.std.specs.Prelude.{◌≡◌};
ghost use Rattle.lethe_audit.specs.declared.answer.AuditRefused.TheVariants as refused;

use lethe_base::Name;
use std::alloc::AllocFailed;

/// What the bytes of a disk say of a certificate.
#[derive(Clone, Copy, Debug, PartialEq, Eq)]
pub enum Audit {
    /// It is true of them. `puts` is how many puts all objects hold, each object counted once, up to the end of the type.
    Yes { puts: u64 },
    /// It isn't, for this reason.
    No { why: NoWhy },
}

/// Why a certificate isn't true of a disk: the first of these that applies, in this order. Of the third to the fifth, and of the gate, the
/// first object counts that one of them applies to.
#[derive(Clone, Copy, Debug, PartialEq, Eq)]
pub enum NoWhy {
    /// There is no gate.
    Gate,
    /// The manifest of the greatest gate is missing or no spelling, or it isn't the one that the certificate tells of: its digest is another, or the
    /// number, the clock or `before` of its last certificate; or `before` isn't the clock less the threshold.
    Manifest,
    /// A cited object is missing. Objects are looked at in the order of the segments, then each file's header followed by its pages.
    Missing { name: Name },
    /// A cited object is no spelling, down to its last byte. The greatest gate, which has no bytes, is told so too, before the manifest is looked at.
    Spelling { name: Name },
    /// A cited object is a spelling of another digest than the one cited.
    Digest { name: Name },
    /// The first name that is neither the greatest gate, nor its manifest, nor cited.
    Uncited { name: Name },
    /// The first entry that an object holds, by the order of the objects' names, with a time at `before` or earlier: its place and that time.
    Old { seq: u64, since: u64 },
    /// The first erase that is pending, of the manifest and then of the segments, with a time at `before` or earlier: its place and that time.
    Pending { seq: u64, time: u64 },
}

/// Why nothing is said of a certificate.
#[derive(Clone, Copy, Debug, PartialEq, Eq)]
pub enum AuditRefused {
    /// The disk failed, and its count of faults went from `before` to `after`.
    Fault { before: u64, after: u64 },
    /// There was no memory.
    NoMemory,
}

impl<T: Drop> From<AllocFailed<T>> for AuditRefused {
    ghost from_gives = { λ _ why. why ≡ refused.NoMemory };

    fn from(_: AllocFailed<T>) -> Self {
        AuditRefused::NoMemory
    }
}

impl From<lethe_base::NoMemory> for AuditRefused {
    ghost from_gives = { λ _ why. why ≡ refused.NoMemory };

    fn from(_: lethe_base::NoMemory) -> Self {
        AuditRefused::NoMemory
    }
}
