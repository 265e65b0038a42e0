//! A record that waits behind its closed gate, until the sync of the next one makes it count.
ghost use Rattle.std.specs.Prelude.{◌≡◌, ◌≤◌, ◌<◌, ◌+◌, ◌-◌, ℕ, false, true, Ok, Some, length, slice_index, IfOk, IfErr, OnOk, IsErrOf};
ghost use Rattle.std.specs.Result.{result_err};
ghost use Rattle.lethe_base.specs.History.{History};
ghost use Rattle.lethe_base.specs.Limits.{max_place};
ghost use Rattle.lethe_base.specs.declared.call.Call.{Call};
ghost use Rattle.lethe_base.specs.declared.config.Fields.{Fields};
ghost use Rattle.lethe_base.specs.declared.refused.Refused.TheVariants as refused;
ghost use Rattle.lethe_disk.specs.Directory.{Directory};
ghost use Rattle.lethe_segment.specs.Records.{RecordHasSpelling, record_seq};
ghost use Rattle.lethe_cover.specs.Steps.{with_done};
ghost use Rattle.lethe_stored.specs.Kept.{IsFor, IsKept};
ghost use Rattle.lethe_stored.specs.Left.{IsKeptOr, is_work};
ghost use Rattle.lethe_stored.specs.Numbers.{GoesFrom};
ghost use Rattle.lethe_stored.specs.Stored.{appended, segment_name};
ghost use Rattle.lethe_state.specs.Records.{IsLike, halted};
ghost use Rattle.lethe_state.specs.Writable.{IsWritable};
ghost use Rattle.lethe_core.specs.Asked.{Makes, behind, counted, done_by, stopped_by};
ghost use Rattle.lethe_core.specs.Keeps.{MayStep};
ghost use Rattle.lethe_core.specs.Pinned.{AreKept};
ghost use Rattle.lethe_core.specs.Reasons.{HasReason};
ghost use Rattle.lethe_core.specs.Running.{IsSound};
ghost use Rattle.lethe_core.specs.StandsNow.{StandsNow};
ghost use Rattle.lethe_core.specs.View.{view_of};
ghost use Rattle.lethe_row.specs.Rests.{IsAtRest, IsCountedIn, at_rest};

use lethe_base::{Kind, Name, Refused};
use lethe_chain::{append_first, append_last, append_next};
use lethe_core::Core;
use lethe_disk::{Disk, DiskRefused};
use lethe_segment::Record;
use lethe_state::{Prepared, Waiting};
use std::alloc::Global;
use std::mem;

/// Writes the record of the next change behind the closed gate that ends the active segment, which has room, with a closed gate behind it. The record doesn't count yet. Its memory
/// is taken before the first device call. It takes two device calls, of which one is a sync.
///
/// # Errors
///
/// `Fault`, which stops the store: the record doesn't count. `NoMemory`.
pub fn hold<D: Disk>(
    core: &mut Core<D>,
    alloc: Global,
    before: u64,
    next: Record,
) -> Result<Waiting, Refused>
    requires may { MayStep D.tells (view_of core.old) before }
    requires room { core.old.state.records < core.old.state.manifest.config.buffer }
    requires spelled { RecordHasSpelling next }
    requires place { record_seq next ≡ core.old.state.count + 1 }
    // It waits, and at rest the store is what it was.
    ensures waits { IfOk result (λ waiting. (waiting.record ≡ next) × IsAtRest D.tells (view_of core.new) (D.seen core.old.disk).directory waiting) }
    ensures rests { D.tells → (config : Fields) (h : History) → StandsNow config h (view_of core.old) → OnOk result (StandsNow config h (at_rest (view_of core.new) (D.seen core.old.disk).directory)) }
    ensures like { OnOk result (IsLike core.old.state core.new.state) }
    ensures sound { IfErr result (λ why. IsSound D.tells (view_of core.new)) }
    ensures count { (call : Call) → IfErr result (λ why. core.new.state.count ≡ counted (Makes call) (Some why) core.old.state.count) }
    ensures stopped { IfErr result (λ why. core.new.state.stopped ≡ stopped_by (Some why) core.old.state.stopped) }
    ensures why { IfErr result (HasReason ⊥ core.old.state before (D.faults core.new.disk)) }
    ensures untouched { IsErrOf result refused.NoMemory → IsLike core.old.state core.new.state × (D.tells → (D.seen core.new.disk).directory ≡ (D.seen core.old.disk).directory) }
    ensures stands { D.tells → (config : Fields) (h : History) (caller : ℕ) (call : Call) → is_work call ≡ false → StandsNow config h (view_of core.old)
        → IfErr result (λ why. StandsNow config (behind h caller (Makes call) (Some why)) (view_of core.new)) }

    // A crash at any moment of the call leaves what is kept for the history.
    ensures any_moment { D.tells → (config : Fields) (h : History) → StandsNow config h (view_of core.old)
        → GoesFrom core.old.state.next (λ c. IsKept config c h) (D.seen core.old.disk) (D.seen core.new.disk) }
    ensures calls { D.tells → OnOk result ((D.seen core.new.disk).moment ≡ (D.seen core.old.disk).moment + 2) }
    ensures manifest { core.new.state.manifest ≡ core.old.state.manifest }
    ensures version { core.new.version ≡ core.old.version }
    ensures retired { core.new.retired ≡ core.old.retired }
    ensures flights { core.new.flights ≡ core.old.flights }
    ensures begun { core.new.begun ≡ core.old.begun }
    ensures pins { core.new.pins ≡ core.old.pins }
    ensures pinned { D.tells → AreKept (view_of core.old).pins.pins (D.seen core.old.disk).directory (D.seen core.new.disk).directory }
    ensures numbers { D.tells → core.new.state.next + (D.seen core.old.disk).moment ≤ core.old.state.next + (D.seen core.new.disk).moment }
    ensures drawn { core.old.state.next ≤ core.new.state.next }
    ensures faults { D.faults core.old.disk ≤ D.faults core.new.disk }
{
    let Ok(Prepared { body, end, pending }) = core.state.prepare(alloc, &next) else {
        return Err(Refused::NoMemory);
    };
    let segment = active_segment(core);
    match append_first(alloc, &mut core.disk, segment, core.state.end(), &body) {
        Ok(()) => Ok(Waiting {
            record: next,
            end,
            pending,
        }),
        Err(DiskRefused::Failed) => Err(stop(core, before)),
        Err(DiskRefused::NoMemory) => Err(Refused::NoMemory),
    }
}

/// Makes the record that waits count and writes the next one behind it, which waits then, with one sync. It answers whether there was memory for that: where there wasn't, nothing is
/// done, and the record waits still. It takes three device calls.
///
/// # Errors
///
/// `Fault`, which stops the store: the record that waited may count or not, and the next one doesn't.
pub fn pass_on<D: Disk>(
    core: &mut Core<D>,
    alloc: Global,
    before: u64,
    waiting: &mut Waiting,
    next: Record,
) -> Result<bool, Refused>
    requires rest { (d : Directory) × IsAtRest D.tells (view_of core.old) d waiting.old }
    requires told_from { before ≤ D.faults core.old.disk }
    requires room { core.old.state.records + 1 < core.old.state.manifest.config.buffer }
    requires fits { core.old.state.count + 1 < max_place }
    requires spelled { RecordHasSpelling next }
    requires place { record_seq next ≡ core.old.state.count + 2 }

    // It counts, and the next one waits.
    ensures passed { (d : Directory) → IsAtRest D.tells (view_of core.old) d waiting.old → result ≡ Ok true
        → (waiting.new.record ≡ next) × ((c : Directory) × IsAtRest D.tells (view_of core.new) c waiting.new
        × IsCountedIn D.tells waiting.old (at_rest (view_of core.old) d) (at_rest (view_of core.new) c)) }

    // Nothing was done.
    ensures stays { (d : Directory) → IsAtRest D.tells (view_of core.old) d waiting.old → result ≡ Ok false
        → (waiting.new ≡ waiting.old) × IsLike core.old.state core.new.state × IsAtRest D.tells (view_of core.new) d waiting.old
        × ((config : Fields) (h : History) → StandsNow config h (at_rest (view_of core.old) d) → StandsNow config h (at_rest (view_of core.new) d)) }
    ensures sound { IfErr result (λ why. IsSound D.tells (view_of core.new)) }
    ensures count { (call : Call) → IfErr result (λ why. core.new.state.count ≡ counted (Makes call) (Some why) core.old.state.count) }
    ensures stopped { IfErr result (λ why. core.new.state.stopped ≡ stopped_by (Some why) core.old.state.stopped) }
    ensures why { IfErr result (HasReason ⊥ core.old.state before (D.faults core.new.disk)) }
    ensures memory { IsErrOf result refused.NoMemory → ⊥ }
    ensures stands { D.tells → (d : Directory) → IsAtRest D.tells (view_of core.old) d waiting.old → (config : Fields) (h : History) (caller : ℕ) (call : Call) → is_work call ≡ false
        → (stands : StandsNow config h (at_rest (view_of core.old) d)) → IsFor (with_done h caller call) (appended stands.stored waiting.old.record)
        → IfErr result (λ why. StandsNow config (behind h caller (Makes call) (Some why)) (view_of core.new)) }

    // A crash at any moment of the call leaves what is kept for the history, or for that with the change of the record that waited.
    ensures any_moment { D.tells → (d : Directory) → IsAtRest D.tells (view_of core.old) d waiting.old → (config : Fields) (h : History) (caller : ℕ) (call : Call)
        → (stands : StandsNow config h (at_rest (view_of core.old) d)) → IsFor (with_done h caller call) (appended stands.stored waiting.old.record)
        → GoesFrom core.old.state.next (IsKeptOr config h (Some (done_by caller call))) (D.seen core.old.disk) (D.seen core.new.disk) }
    ensures calls { D.tells → result ≡ Ok true → (D.seen core.new.disk).moment ≡ (D.seen core.old.disk).moment + 3 }
    ensures manifest { core.new.state.manifest ≡ core.old.state.manifest }
    ensures version { core.new.version ≡ core.old.version }
    ensures retired { core.new.retired ≡ core.old.retired }
    ensures flights { core.new.flights ≡ core.old.flights }
    ensures begun { core.new.begun ≡ core.old.begun }
    ensures pins { core.new.pins ≡ core.old.pins }
    ensures pinned { D.tells → AreKept (view_of core.old).pins.pins (D.seen core.old.disk).directory (D.seen core.new.disk).directory }
    ensures numbers { D.tells → core.new.state.next + (D.seen core.old.disk).moment ≤ core.old.state.next + (D.seen core.new.disk).moment }
    ensures drawn { core.old.state.next ≤ core.new.state.next }
    ensures faults { D.faults core.old.disk ≤ D.faults core.new.disk }
{
    let Ok(Prepared { body, end, pending }) = core.state.prepare_behind(alloc, waiting, &next)
    else {
        return Ok(false);
    };
    let segment = active_segment(core);
    let gate = core.state.end();
    match append_next(alloc, &mut core.disk, segment, gate, waiting.end, &body) {
        Ok(()) => {
            let behind = Waiting {
                record: next,
                end,
                pending,
            };
            let front = mem::replace(waiting, behind);
            core.state.enter(front.record, front.end, front.pending);
            Ok(true)
        }
        Err(DiskRefused::Failed) => Err(stop(core, before)),
        Err(DiskRefused::NoMemory) => Ok(false),
    }
}

/// Makes the record that waits count, and answers the place of its change in the history. It takes two device calls, of which one is a sync, and no memory.
///
/// # Errors
///
/// `Fault`, which stops the store: the record may count or not.
pub fn count_last<D: Disk>(
    core: &mut Core<D>,
    before: u64,
    waiting: Waiting,
) -> Result<u64, Refused>
    requires rest { (d : Directory) × IsAtRest D.tells (view_of core.old) d waiting }
    requires told_from { before ≤ D.faults core.old.disk }
    ensures sound { IsSound D.tells (view_of core.new) }
    ensures counted { (d : Directory) → IsAtRest D.tells (view_of core.old) d waiting → OnOk result (IsCountedIn D.tells waiting (at_rest (view_of core.old) d) (view_of core.new)) }
    ensures place { IfOk result (λ place. place ≡ core.old.state.count + 1) }
    ensures count { (call : Call) → core.new.state.count ≡ counted (Makes call) (result_err result) core.old.state.count }
    ensures stopped { core.new.state.stopped ≡ stopped_by (result_err result) core.old.state.stopped }
    ensures why { IfErr result (HasReason ⊥ core.old.state before (D.faults core.new.disk)) }
    ensures memory { IsErrOf result refused.NoMemory → ⊥ }
    ensures stands { D.tells → (d : Directory) → IsAtRest D.tells (view_of core.old) d waiting → (config : Fields) (h : History) (caller : ℕ) (call : Call) → is_work call ≡ false
        → (stands : StandsNow config h (at_rest (view_of core.old) d)) → IsFor (with_done h caller call) (appended stands.stored waiting.record)
        → StandsNow config (behind h caller (Makes call) (result_err result)) (view_of core.new) }

    // A crash at any moment of the call leaves what is kept for the history, or for that with the record's change.
    ensures any_moment { D.tells → (d : Directory) → IsAtRest D.tells (view_of core.old) d waiting → (config : Fields) (h : History) (caller : ℕ) (call : Call)
        → (stands : StandsNow config h (at_rest (view_of core.old) d)) → IsFor (with_done h caller call) (appended stands.stored waiting.record)
        → GoesFrom core.old.state.next (IsKeptOr config h (Some (done_by caller call))) (D.seen core.old.disk) (D.seen core.new.disk) }
    ensures calls { D.tells → OnOk result ((D.seen core.new.disk).moment ≡ (D.seen core.old.disk).moment + 2) }
    ensures manifest { core.new.state.manifest ≡ core.old.state.manifest }
    ensures version { core.new.version ≡ core.old.version }
    ensures retired { core.new.retired ≡ core.old.retired }
    ensures flights { core.new.flights ≡ core.old.flights }
    ensures begun { core.new.begun ≡ core.old.begun }
    ensures pins { core.new.pins ≡ core.old.pins }
    ensures pinned { D.tells → AreKept (view_of core.old).pins.pins (D.seen core.old.disk).directory (D.seen core.new.disk).directory }
    ensures numbers { D.tells → core.new.state.next + (D.seen core.old.disk).moment ≤ core.old.state.next + (D.seen core.new.disk).moment }
    ensures drawn { core.old.state.next ≤ core.new.state.next }
    ensures faults { D.faults core.old.disk ≤ D.faults core.new.disk }
{
    let segment = active_segment(core);
    match append_last(&mut core.disk, segment, core.state.end()) {
        Ok(()) => {
            core.state
                .enter(waiting.record, waiting.end, waiting.pending);
            Ok(core.state.count())
        }
        Err(_) => Err(stop(core, before)),
    }
}

/// The name of the active segment.
fn active_segment<D: Disk>(core: &Core<D>) -> Name
    requires { IsWritable core.now.state }
    ensures { result ≡ segment_name (slice_index core.now.state.manifest.segments (length core.now.state.manifest.segments - 1)) }
{
    Name {
        kind: Kind::Segment,
        no: core.active_number(),
    }
}

/// The disk failed in the next change: the store is stopped.
fn stop<D: Disk>(core: &mut Core<D>, before: u64) -> Refused
    requires writable { IsWritable core.old.state }
    requires fits { core.old.state.count < max_place }
    ensures is { result ≡ refused.Fault (core.old.state.count + 1) before (D.faults core.old.disk) }
    ensures state { core.new ≡ record core.old { state = halted core.old.state } }
{
    let place = core.state.stop();
    Refused::Fault {
        place,
        before,
        after: core.disk.faults(),
    }
}
