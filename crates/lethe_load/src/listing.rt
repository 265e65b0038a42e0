//! What a disk told at the start.
ghost use Rattle.std.specs.Prelude.{◌≡◌, ◌↔◌, IsTrue, IsSome};
ghost use Rattle.std.specs.FinMap.{keys};
ghost use Rattle.lethe_base.specs.Counts.{Rose};
ghost use Rattle.lethe_disk.specs.Directory.{Directory, object};
ghost use Rattle.lethe_disk.specs.declared.disk.DiskRefused.TheVariants.{Failed};
ghost use Rattle.lethe_load.specs.Refused.{IsInterrupted};

use crate::RecoverRefused;
use lethe_base::Name;
use lethe_disk::{Disk, DiskRefused};

/// What a disk told before anything was read: its count of faults and all names.
#[derive(Drop)]
pub struct Listing {
    pub faults: u64,
    pub names: Vec<Name>,
}

impl Listing {
    /// Whether there is an object of that name, by a binary search.
    pub fn has(&self, name: Name) -> bool
        ensures { (d : Directory) → self.now.names.items ≡ keys d → IsTrue result ↔ IsSome (object d name) }
    {
        self.names.binary_search(&name).is_ok()
    }

    /// Why reading stopped where the disk refused a call: it failed, or there was no memory.
    pub fn interrupted<D: Disk>(&self, disk: &D, why: DiskRefused) -> RecoverRefused
        requires { why ≡ Failed → Rose self.now.faults (D.faults disk.now) }
        ensures { IsInterrupted self.now.faults (D.faults disk.now) result }
    {
        interrupted(disk, self.faults, why)
    }
}

/// Why reading stopped where the disk refused a call, with the count of faults before.
pub fn interrupted<D: Disk>(disk: &D, before: u64, why: DiskRefused) -> RecoverRefused
    requires { why ≡ Failed → Rose before (D.faults disk.now) }
    ensures { IsInterrupted before (D.faults disk.now) result }
{
    match why {
        DiskRefused::Failed => RecoverRefused::Fault {
            before,
            after: disk.faults(),
        },
        DiskRefused::NoMemory => RecoverRefused::NoMemory,
    }
}
