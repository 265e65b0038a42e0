//! Flushing both buffers, where a record has been in them as long as it may.
ghost use Rattle.std.specs.Prelude.{◌≡◌, ◌⊎◌, None, IfErr, OnOk};
ghost use Rattle.std.specs.Result.{result_err};
ghost use Rattle.lethe_stored.specs.Stored.{Stored};
ghost use Rattle.lethe_state.specs.Room.{IsShortToFlush, IsShortToFreeze, IsUnfrozen};
ghost use Rattle.lethe_core.specs.Keeps.{Keeps, MayStep};
ghost use Rattle.lethe_core.specs.Reasons.{HasReason};
ghost use Rattle.lethe_core.specs.Running.{Holds};
ghost use Rattle.lethe_core.specs.Steps.{IsDoneInPart, IsUndone};
ghost use Rattle.lethe_core.specs.View.{view_of};
ghost use Rattle.lethe_tick.specs.Ripened.{AreBuffersFlushed, AreFlushedInPart, IsFrozenIfAny, IsRipened, IsRipenedInPart};

use lethe_base::Refused;
use lethe_core::Core;
use lethe_disk::Disk;
use std::alloc::Global;

/// Flushes both buffers where a record is as old at a time as level 0 may have it: the frozen one, if there is one, and the active one, where its segment has a record.
/// `before` is the count of faults from which a failure is told.
pub(crate) fn ripen_buffers<D: Disk>(
    core: &mut Core<D>,
    alloc: Global,
    before: u64,
    to: u64,
) -> Result<(), Refused>
    requires { MayStep D.tells (view_of core.old) before }
    ensures keeps { Keeps D.tells (view_of core.old) (view_of core.new) (result_err result) }
    ensures partly { IfErr result (IsDoneInPart D.tells (IsRipenedInPart to) (view_of core.old) (view_of core.new)) }
    ensures done { D.tells → (s : Stored) → Holds (view_of core.old) s → OnOk result ((t : Stored) × IsRipened to s t × Holds (view_of core.new) t) }
    ensures why { IfErr result (HasReason (IsShortToFlush core.new.state ⊎ IsShortToFreeze core.new.state) core.old.state before (D.faults core.new.disk)) }
    ensures retired { core.new.retired ≡ core.old.retired }
    ensures flights { core.new.flights ≡ core.old.flights }
    ensures begun { core.new.begun ≡ core.old.begun }
{
    if core.state.has_young_records(to) {
        return Ok(());
    }
    flush_buffers(core, alloc, before)
}

/// Flushes the frozen buffer, if there is one, and then the active one, where its segment has a record.
fn flush_buffers<D: Disk>(core: &mut Core<D>, alloc: Global, before: u64) -> Result<(), Refused>
    requires { MayStep D.tells (view_of core.old) before }
    ensures keeps { Keeps D.tells (view_of core.old) (view_of core.new) (result_err result) }
    ensures partly { IfErr result (IsDoneInPart D.tells (λ s t. (t ≡ s) ⊎ AreFlushedInPart s t) (view_of core.old) (view_of core.new)) }
    ensures done { D.tells → (s : Stored) → Holds (view_of core.old) s → OnOk result ((t : Stored) × AreBuffersFlushed s t × Holds (view_of core.new) t) }
    ensures why { IfErr result (HasReason (IsShortToFlush core.new.state ⊎ IsShortToFreeze core.new.state) core.old.state before (D.faults core.new.disk)) }
    ensures retired { core.new.retired ≡ core.old.retired }
    ensures flights { core.new.flights ≡ core.old.flights }
    ensures begun { core.new.begun ≡ core.old.begun }
{
    flush_frozen(core, alloc, before)?;
    freeze_if_any(core, alloc, before)?;
    flush_frozen(core, alloc, before)
}

/// Flushes the frozen buffer, if there is one.
fn flush_frozen<D: Disk>(core: &mut Core<D>, alloc: Global, before: u64) -> Result<(), Refused>
    requires { MayStep D.tells (view_of core.old) before }
    ensures keeps { Keeps D.tells (view_of core.old) (view_of core.new) (result_err result) }
    ensures undone { IfErr result (IsUndone D.tells (view_of core.old) (view_of core.new)) }
    ensures done { D.tells → (s : Stored) → Holds (view_of core.old) s → OnOk result ((t : Stored) × IsUnfrozen s t × Holds (view_of core.new) t) }
    ensures frozen { OnOk result (core.new.state.frozen ≡ None) }
    ensures why { IfErr result (HasReason (IsShortToFlush core.old.state) core.old.state before (D.faults core.new.disk)) }
    ensures retired { core.new.retired ≡ core.old.retired }
    ensures flights { core.new.flights ≡ core.old.flights }
    ensures begun { core.new.begun ≡ core.old.begun }
{
    if core.state.frozen().is_none() {
        return Ok(());
    }
    core.flush_now(alloc, before)
}

/// Freezes the active buffer, where its segment has a record and none is frozen.
fn freeze_if_any<D: Disk>(core: &mut Core<D>, alloc: Global, before: u64) -> Result<(), Refused>
    requires may { MayStep D.tells (view_of core.old) before }
    requires unfrozen { core.old.state.frozen ≡ None }
    ensures keeps { Keeps D.tells (view_of core.old) (view_of core.new) (result_err result) }
    ensures undone { IfErr result (IsUndone D.tells (view_of core.old) (view_of core.new)) }
    ensures done { D.tells → (s : Stored) → Holds (view_of core.old) s → OnOk result ((t : Stored) × IsFrozenIfAny s t × Holds (view_of core.new) t) }
    ensures why { IfErr result (HasReason (IsShortToFreeze core.old.state) core.old.state before (D.faults core.new.disk)) }
    ensures retired { core.new.retired ≡ core.old.retired }
    ensures flights { core.new.flights ≡ core.old.flights }
    ensures begun { core.new.begun ≡ core.old.begun }
{
    if core.state.records() == 0 {
        return Ok(());
    }
    core.freeze_now(alloc, before)
}
