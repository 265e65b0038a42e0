//! Where a walk along the list stops.
ghost use Rattle.std.specs.Prelude.{◌≡◌, ◌<◌, ◌==◌};
ghost use Rattle.lethe_due.specs.Linked.{stops_at};

use crate::DueFile;

/// The first file that a walk stops at.
#[derive(Clone, Copy)]
pub enum Stop {
    /// That goes behind this one.
    Behind(DueFile),
    /// Of this number.
    Number(u64),
}

/// Whether a walk stops at that file.
pub fn stops(stop: &Stop, file: &DueFile) -> bool
    ensures { result ≡ stops_at stop.now file.now }
{
    match *stop {
        Stop::Behind(other) => {
            other.oldest < file.oldest || other.oldest == file.oldest && other.no < file.no
        }
        Stop::Number(no) => file.no == no,
    }
}
