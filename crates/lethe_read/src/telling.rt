//! Refusals of reads.
ghost use Rattle.std.specs.Prelude.{◌≡◌};
ghost use Rattle.lethe_read.specs.Refusals.{told_as};

use lethe_base::Refused;
use lethe_disk::ReadRefused;

/// The same refusal, as the store tells it.
pub fn told_as(why: ReadRefused) -> Refused
    ensures { result ≡ told_as why }
{
    match why {
        ReadRefused::ReadFault { before, after } => Refused::ReadFault { before, after },
        ReadRefused::Damaged { name } => Refused::Damaged { name },
        ReadRefused::NoMemory => Refused::NoMemory,
    }
}
