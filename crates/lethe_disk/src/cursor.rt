//! Reading entries one after another, and why that is refused.
ghost use Rattle.std.specs.Prelude.{◌≡◌, ◌≤◌, ◌<◌, ◌+◌, ℕ, List, None, Ok, IfOk, IfSome, OnOk, IsErrOf};
ghost use Rattle.lethe_base.specs.Entries.{IsAscending};
ghost use Rattle.lethe_base.specs.declared.entry.Entry.{Entry};
ghost use Rattle.lethe_base.specs.declared.name.Name.{Name};
ghost use Rattle.lethe_disk.specs.declared.cursor.ReadRefused.TheVariants.{NoMemory, Damaged};
ghost use Rattle.lethe_disk.specs.Reads.{IsNext, HasReadCause, IsFault, refused_since};

use crate::Disk;
use lethe_base::{Entry, Name};
use std::alloc::{AllocError, AllocFailed, Global};

/// Why entries could not be read.
#[derive(Clone, Copy, Debug, PartialEq, Eq)]
pub enum ReadRefused {
    /// A fetch failed. The counts are the port's count of faults before the call and after it; it rose, up to the end of
    /// its type.
    ReadFault { before: u64, after: u64 },
    /// A page isn't the one that was written: its bytes have another digest than its header says, or they spell no
    /// page, or don't agree with the page's line. A read on a disk that tells nothing may give any bytes, so there it
    /// may come at any fetch. It never comes on a disk that tells what it holds, where the pages are sound.
    Damaged { name: Name },
    /// There was no memory.
    NoMemory,
}

impl ReadRefused {
    /// The refusal of several reads one of which was refused so: with the count of faults before the first of them.
    pub fn since(self, before: u64) -> ReadRefused
        ensures { result ≡ refused_since before self }
    {
        match self {
            ReadRefused::ReadFault { after, .. } => ReadRefused::ReadFault { before, after },
            ReadRefused::Damaged { name } => ReadRefused::Damaged { name },
            ReadRefused::NoMemory => ReadRefused::NoMemory,
        }
    }
}

impl From<AllocError> for ReadRefused {
    ghost from_gives = { λ _ e. e ≡ NoMemory };

    fn from(_: AllocError) -> Self {
        ReadRefused::NoMemory
    }
}

impl From<lethe_base::NoMemory> for ReadRefused {
    ghost from_gives = { λ _ e. e ≡ NoMemory };

    fn from(_: lethe_base::NoMemory) -> Self {
        ReadRefused::NoMemory
    }
}

impl<T: Drop> From<AllocFailed<T>> for ReadRefused {
    ghost from_gives = { λ _ e. e ≡ NoMemory };

    fn from(_: AllocFailed<T>) -> Self {
        ReadRefused::NoMemory
    }
}

/// Gives entries one after another, ascending by key.
///
/// What it gives is said of disks that tell what they hold. On others a fetch may give any bytes, so the reader compares
/// the page's digest with its header and answers `Damaged` where they differ.
pub trait Cursor<D: Disk> {
    /// It may be asked: no earlier `next` was refused.
    ghost may_ask: { Self → Type 0 };

    /// Its pages agree with what their file says of them. It holds of every cursor after a successful opening.
    ghost sound: { Self → Type 0 };

    /// The entries that it has still to give.
    ghost left: { Self → List Entry };

    /// How many fetches it has still to make, up to its end.
    ghost awaits: { Self → ℕ };

    /// The names that it may tell as damaged: those of pages that are still to be fetched and whose bytes are another page's.
    ghost damages: { Self → Name → Type 0 };

    /// The entries that it may give, on any disk.
    ghost gives: { Self → Entry → Type 0 };

    /// The next entry, and None at the end.
    fn next(&mut self, alloc: Global, port: &mut D::Port) -> Result<Option<Entry>, ReadRefused>
        requires { may_ask self.old }
        ensures given { D.tells → sound self.old → IfOk result (λ next. IsNext next (left self.old) (left self.new)) }
        ensures again { OnOk result (may_ask self.new) }
        ensures still_sound { sound self.old → OnOk result (sound self.new) }

        // On any disk.
        ensures among { IfOk result (λ next. IfSome next (gives self.old)) }
        ensures no_more { OnOk result ((entry : Entry) → gives self.new entry → gives self.old entry) }

        // It makes the fetches that were awaited, each once.
        ensures once { OnOk result (D.fetches port.new + awaits self.new ≡ D.fetches port.old + awaits self.old) }
        ensures at_most { D.fetches port.new ≤ D.fetches port.old + awaits self.old }

        ensures ended { result ≡ Ok None → awaits self.new ≡ 0 }

        // Where a page is told as damaged, a fetch was made in this call.
        ensures damaged { (name : Name) → IsErrOf result (Damaged name) → damages self.old name × (D.fetches port.old < D.fetches port.new) }
        ensures fewer { OnOk result ((name : Name) → damages self.new name → damages self.old name) }
        ensures undamaged { D.tells → sound self.old → (name : Name) → IsErrOf result (Damaged name) → ⊥ }
        ensures cause { HasReadCause (D.port_faults port.old) (D.port_faults port.new) result }
        ensures can_fail { IsFault result → D.ports_fail }
        ensures fetches { D.fetches port.old ≤ D.fetches port.new };

    /// They ascend.
    ghost ascends: { (c : Self) → may_ask c → sound c → IsAscending (left c) };
}
