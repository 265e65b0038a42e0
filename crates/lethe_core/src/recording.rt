//! Appending the record of a change.
ghost use Rattle.std.specs.Prelude.{◌≡◌, ◌≤◌, ◌<◌, ◌+◌, ℕ, false, IfOk, IfErr, OnOk};
ghost use Rattle.std.specs.Result.{result_err};
ghost use Rattle.lethe_base.specs.History.{History};
ghost use Rattle.lethe_base.specs.declared.call.Call.{Call};
ghost use Rattle.lethe_base.specs.declared.config.Fields.{Fields};
ghost use Rattle.lethe_segment.specs.declared.record.Record.{Record};
ghost use Rattle.lethe_segment.specs.Records.{RecordHasSpelling, record_seq};
ghost use Rattle.lethe_cover.specs.Steps.{with_done};
ghost use Rattle.lethe_stored.specs.Kept.{IsFor};
ghost use Rattle.lethe_stored.specs.Left.{IsKeptOr, is_work};
ghost use Rattle.lethe_stored.specs.Numbers.{GoesFrom};
ghost use Rattle.lethe_stored.specs.Stored.{Stored, appended};
ghost use Rattle.lethe_state.specs.Records.{HasEntered};
ghost use Rattle.lethe_core.specs.Asked.{Makes, behind, counted, stopped_by, written_by};
ghost use Rattle.lethe_core.specs.Changes.{with_record};
ghost use Rattle.lethe_core.specs.Keeps.{MayStep};
ghost use Rattle.lethe_core.specs.Pinned.{AreKept};
ghost use Rattle.lethe_core.specs.Reasons.{HasReason};
ghost use Rattle.lethe_core.specs.Running.{Holds, IsSound};
ghost use Rattle.lethe_core.specs.StandsNow.{StandsNow};
ghost use Rattle.lethe_core.specs.Steps.{IsUndone};
ghost use Rattle.lethe_core.specs.View.{view_of};

use crate::Core;
use lethe_base::{Kind, Name, Refused};
use lethe_commit::append;
use lethe_disk::{Disk, DiskRefused};
use lethe_segment::Record;
use lethe_state::Prepared;
use std::alloc::Global;

impl<D: Disk> Core<D> {
    /// Appends the record of a change to the active segment, which has room, and enters it. Its memory is reserved before its first device call.
    pub fn record(&mut self, alloc: Global, before: u64, next: Record) -> Result<u64, Refused>
        requires may { MayStep D.tells (view_of self.old) before }
        requires room { self.old.state.records < self.old.state.manifest.config.buffer }
        requires spelled { RecordHasSpelling next }
        requires place { record_seq next ≡ self.old.state.count + 1 }
        ensures sound { IsSound D.tells (view_of self.new) }
        ensures count { (call : Call) → self.new.state.count ≡ counted (Makes call) (result_err result) self.old.state.count }
        ensures stopped { self.new.state.stopped ≡ stopped_by (result_err result) self.old.state.stopped }
        ensures undone { IfErr result (IsUndone D.tells (view_of self.old) (view_of self.new)) }
        ensures place { IfOk result (λ place. place ≡ self.old.state.count + 1) }
        ensures why { IfErr result (HasReason ⊥ self.old.state before (D.faults self.new.disk)) }
        ensures stands { D.tells → (config : Fields) (h : History) (caller : ℕ) (call : Call) → is_work call ≡ false
            → (stands : StandsNow config h (view_of self.old)) → IsFor (with_done h caller call) (appended stands.stored next)
            → StandsNow config (behind h caller (Makes call) (result_err result)) (view_of self.new) }
        ensures any_moment { D.tells → (config : Fields) (h : History) (caller : ℕ) (call : Call)
            → (stands : StandsNow config h (view_of self.old)) → IsFor (with_done h caller call) (appended stands.stored next)
            → GoesFrom self.old.state.next (IsKeptOr config h (written_by caller (Makes call) (result_err result))) (D.seen self.old.disk) (D.seen self.new.disk) }
        ensures written { D.tells → (s : Stored) → Holds (view_of self.old) s
            → OnOk result (Holds (view_of self.new) (appended s next) × ((D.seen self.new.disk).directory ≡ with_record (D.seen self.old.disk).directory s next)) }
        // The buffers have it, on any disk. The manifest stays, whatever is answered.
        ensures entered { OnOk result (HasEntered next self.old.state self.new.state) }
        ensures manifest { self.new.state.manifest ≡ self.old.state.manifest }
        ensures version { self.new.version ≡ self.old.version }
        ensures retired { self.new.retired ≡ self.old.retired }
        ensures flights { self.new.flights ≡ self.old.flights }
        ensures begun { self.new.begun ≡ self.old.begun }
        ensures pins { self.new.pins ≡ self.old.pins }
        ensures pinned { D.tells → AreKept (view_of self.old).pins.pins (D.seen self.old.disk).directory (D.seen self.new.disk).directory }
        ensures calls { D.tells → OnOk result ((D.seen self.new.disk).moment ≡ (D.seen self.old.disk).moment + 4) }
        ensures numbers { D.tells → self.new.state.next + (D.seen self.old.disk).moment ≤ self.old.state.next + (D.seen self.new.disk).moment }
        ensures drawn { self.old.state.next ≤ self.new.state.next }
        ensures faults { D.faults self.old.disk ≤ D.faults self.new.disk }
    {
        let Ok(Prepared { body, end, pending }) = self.state.prepare(alloc, &next) else {
            return Err(Refused::NoMemory);
        };
        let no = self.active_number();
        let segment = Name {
            kind: Kind::Segment,
            no,
        };
        match append(alloc, &mut self.disk, segment, self.state.end(), &body) {
            Ok(()) => {
                self.state.enter(next, end, pending);
                Ok(self.state.count())
            }
            Err(DiskRefused::Failed) => {
                let place = self.state.stop();
                Err(Refused::Fault {
                    place,
                    before,
                    after: self.disk.faults(),
                })
            }
            Err(DiskRefused::NoMemory) => Err(Refused::NoMemory),
        }
    }
}
