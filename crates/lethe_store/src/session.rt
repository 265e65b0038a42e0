//! A caller of a shared store.
ghost use Rattle.std.specs.Prelude.{◌≡◌};
ghost use Rattle.std.specs.Borrow.{sem};
ghost use Rattle.lethe_store.specs.Ports.{LendsPort};

use crate::lent::Lent;
use crate::log::Log;
use lethe_disk::Disk;
use lethe_turn::Seat;

/// A caller of a shared store: its number, what it has seen of the one history and its own part in that, and a port to read through. One thread has it at a time, and it may go to
/// another.
#[derive(Drop)]
pub struct Session<D: Disk, L: Log> {
    pub(crate) caller: u64,
    pub(crate) seat: Seat<Lent<D, L>>,
    pub(crate) port: D::Port,
}

impl<D: Disk, L: Log> Session<D, L> {
    /// The port through which it reads, for what a snapshot holds. Nothing else of the session is changed through it.
    pub fn port(&mut self) -> &mut D::Port
        ensures* lends { sem 𝓛 (LendsPort D.row L.row D.Page.row D.Port.row L.Entry.row L.Mark.row self.entry result) }
        ensures port { result.now ≡ self.old.port }
    {
        &mut self.port
    }
}
