//! Telling why a store wasn't opened.
ghost use Rattle.std.specs.Prelude.{◌≡◌};
ghost use Rattle.lethe_base.specs.Counts.{Rose};
ghost use Rattle.lethe_disk.specs.declared.disk.DiskRefused.TheVariants.{Failed};
ghost use Rattle.lethe_recover.specs.Opening.{IsCut, since_start};

use crate::OpenWhy;
use lethe_disk::{Disk, DiskRefused};
use lethe_load::RecoverRefused;

/// Why nothing is opened where the disk refused a call: it failed, or there was no memory.
pub(crate) fn failure<D: Disk>(disk: &D, before: u64, why: DiskRefused) -> OpenWhy
    requires { why ≡ Failed → Rose before (D.faults disk.now) }
    ensures { IsCut ⊥ before (D.faults disk.now) result }
{
    match why {
        DiskRefused::Failed => OpenWhy::Fault {
            before,
            after: disk.faults(),
        },
        DiskRefused::NoMemory => OpenWhy::NoMemory,
    }
}

/// The same refusal, with the count of faults from the start of the call on.
pub(crate) fn since_start(before: u64, why: RecoverRefused) -> OpenWhy
    ensures { result ≡ since_start before why }
{
    match why {
        RecoverRefused::Damaged { name } => OpenWhy::Damaged { name },
        RecoverRefused::Fault { after, .. } => OpenWhy::Fault { before, after },
        RecoverRefused::NoMemory => OpenWhy::NoMemory,
        RecoverRefused::OtherConfig { kept } => OpenWhy::OtherConfig { kept },
    }
}
