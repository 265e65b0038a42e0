//! What a snapshot shows, before its pin is made.
ghost use Rattle.std.specs.Prelude.{◌≡◌, Option, IfOk, option_map};
ghost use Rattle.std.specs.Option.{option_copied};
ghost use Rattle.lethe_base.specs.History.{History};
ghost use Rattle.lethe_advance.specs.Shown.{parts_by_level};
ghost use Rattle.lethe_pins.specs.declared.held_pin.HeldPin.{HeldPin};
ghost use Rattle.lethe_state.specs.Remembered.{IsFrozenIn, Remembers};
ghost use Rattle.lethe_stored.specs.Kept.{IsFor};
ghost use Rattle.lethe_stored.specs.Stored.{Segment, Stored};
ghost use Rattle.lethe_snapshot.specs.Points.{IsOf, IsTaken, snapshot_of};

use crate::sharing::share;
use lethe_base::{List, NoMemory, Pending};
use lethe_disk::Disk;
use lethe_mem::{Buffer, VecBuffer};
use lethe_state::State;
use lethe_version::Version;
use std::alloc::Global;

/// What a store holds at a point: its files, which are shared, and copies of its buffers and pending erases. With a pin it is a snapshot.
#[derive(Drop)]
pub struct Contents<D: Disk> {
    pub(crate) active: VecBuffer,
    pub(crate) frozen: Option<VecBuffer>,
    pub(crate) version: Version<D>,
    pub(crate) pending: List<Pending>,
    pub(crate) point: u64,
}

impl<D: Disk> Contents<D> {
    /// What the store holds now. It makes no device call.
    pub fn of(alloc: Global, state: &State, version: &Version<D>) -> Result<Contents<D>, NoMemory>
        ensures of { (s : Stored) (h : History) → Remembers s state.now (parts_by_level version.now) → IsFor h s → IfOk result (λ contents. (pin : HeldPin) → IsOf h (snapshot_of contents pin)) }

        // On any disk.
        ensures taken { IfOk result (λ contents. (pin : HeldPin) → IsTaken state.now (parts_by_level version.now) (snapshot_of contents pin)) }
        ensures point { IfOk result (λ contents. contents.point ≡ state.now.count) }
    {
        Ok(Contents {
            active: state.active().copy()?,
            frozen: copy_of(state.frozen())?,
            version: share(alloc, version)?,
            pending: List::of(state.pending().to_vec(alloc)?),
            point: state.count(),
        })
    }
}

/// A copy of the frozen buffer, if there is one.
fn copy_of(frozen: Option<&VecBuffer>) -> Result<Option<VecBuffer>, NoMemory>
    ensures frozen { (o : Option Segment) → IsFrozenIn o (option_copied frozen.entry) → IfOk result (IsFrozenIn o) }
    ensures same { IfOk result (λ copy. option_map (λ buffer. buffer.entries) copy ≡ option_map (λ buffer. buffer.entries) (option_copied frozen.entry)) }
{
    match frozen {
        Some(buffer) => Ok(Some(buffer.copy()?)),
        None => Ok(None),
    }
}
