//! Changes of a store.
ghost use Rattle.std.specs.Prelude.{◌≡◌, ◌<◌, ◌≤◌, ◌+◌, ℕ, List, Some, None, IfOk, IfErr, OnOk, IsErrOf};
ghost use Rattle.std.specs.Result.{result_err};
ghost use Rattle.lethe_base.specs.Limits.{max_place};
ghost use Rattle.lethe_base.specs.declared.call.Call.TheVariants as call;
ghost use Rattle.lethe_base.specs.declared.name.Name.{Name};
ghost use Rattle.lethe_base.specs.declared.refused.Refused.TheVariants.{Stopped, Exhausted, Damaged};
ghost use Rattle.lethe_segment.specs.declared.record.Record.{Record};
ghost use Rattle.lethe_stored.specs.Stored.{Stored, appended};
ghost use Rattle.lethe_state.specs.Records.{HasEntered, IsDeleteRecord, erase_record, headers_in, put_record};
ghost use Rattle.lethe_state.specs.Room.{HasRoom};
ghost use Rattle.lethe_core.specs.Asked.{Makes};
ghost use Rattle.lethe_core.specs.Changes.{erase_over, put_over, with_record};
ghost use Rattle.lethe_core.specs.Merges.{IsRoomMadeBy, Outcome, pages_of, AreRetiredBehind};
ghost use Rattle.lethe_core.specs.Reasons.{HasDamagedPage};
ghost use Rattle.lethe_core.specs.Running.{Holds, IsSound};
ghost use Rattle.lethe_core.specs.View.{face_of, view_of};
ghost use Rattle.lethe_engine.specs.Answers.{Answers};
ghost use Rattle.lethe_row.specs.Deletes.{IsDeleteOver};
ghost use Rattle.lethe_engine.specs.Refusals.{HasReasonOfChange};

use crate::Engine;
use lethe_base::{Key, Range, Refused, Value};
use lethe_disk::Disk;
use std::alloc::Global;

impl<D: Disk> Engine<D> {
    /// Puts a value, and its delete key, under a key. It answers the place of the change in the store's history. Where the active segment is
    /// full, room is made first: the frozen buffer is flushed, if there is one, and the active one is frozen. Where level 0 has at least twice as many files as the
    /// ratio then, and no job is in flight, the merges and sweeps that are due are carried out, and their files are read through the port.
    ///
    /// # Errors
    ///
    /// `Stopped`, `Exhausted`, `NoMemory`, `Fault`, which stops the store, and where a merge or a sweep is carried out `ReadFault`, and on a disk that tells nothing `Damaged`. Want
    /// of memory for the record comes before its first device call. Room that was made stays made.
    pub fn put(
        &mut self,
        alloc: Global,
        port: &mut D::Port,
        key: Key,
        dkey: u64,
        value: Value,
    ) -> Result<u64, Refused>
        // Opening gives this, and each call leaves it so.
        requires { IsSound D.tells (view_of self.old.core) }
        ensures answers { Answers D.tells (Makes (call.Put key dkey value)) (result_err result) (face_of (view_of self.old.core)) (view_of self.old.core) (view_of self.new.core) }
        ensures place { IfOk result (λ place. place ≡ self.old.core.state.count + 1) }

        // A refusal has its reason, and a store that is stopped or whose places are used up is as it was.
        ensures why { IfErr result (HasReasonOfChange D.tells D.ports_fail (view_of self.old.core) (view_of self.new.core) (D.port_faults port.old) (D.port_faults port.new)) }
        ensures stopped { (at : ℕ) → self.old.core.state.stopped ≡ Some at → IsErrOf result (Stopped at) × (self.new ≡ self.old) }
        ensures exhausted { self.old.core.state.stopped ≡ None → self.old.core.state.count ≡ max_place → IsErrOf result (Exhausted max_place) × (self.new ≡ self.old) }

        // Acknowledged: room was made, for which the port has fetched each page of the merges' inputs once, and of a swept file those that its header tells, and the record is
        // behind the others in the active segment.
        ensures written { D.tells → (s : Stored) → Holds (view_of self.old.core) s
            → OnOk result ((t : Stored) × (outcomes : List Outcome) × IsRoomMadeBy (view_of self.old.core).flights s outcomes t
            × Holds (view_of self.new.core) (appended t (put_over t key dkey value)) × (D.fetches port.new ≡ D.fetches port.old + pages_of outcomes)
            × AreRetiredBehind outcomes (view_of self.old.core).pins.pins (view_of self.old.core).retired (view_of self.new.core).retired) }

        // Where there was room, the record was entered into what is in memory, on any disk.
        ensures entered { self.old.core.state.records < self.old.core.state.manifest.config.buffer
            → OnOk result (HasEntered (put_record self.old.core.state key dkey value) self.old.core.state self.new.core.state) }

        // Where there was room, the active segment is the one object that changes, and nothing is fetched.
        ensures room { D.tells → (s : Stored) → Holds (view_of self.old.core) s → HasRoom s
            → OnOk result (((D.seen self.new.core.disk).directory ≡ with_record (D.seen self.old.core.disk).directory s (put_over s key dkey value))
            × ((D.seen self.new.core.disk).moment ≡ (D.seen self.old.core.disk).moment + 4) × (port.new ≡ port.old)) }

        ensures port_faults { D.port_faults port.old ≤ D.port_faults port.new }

        // On any disk: where a page is told as damaged, a fetch was made in this call, and it is one of a file of the version behind it.
        ensures damaged { (name : Name) → IsErrOf result (Damaged name) → HasDamagedPage self.new.core name × (D.fetches port.old < D.fetches port.new) }
        ensures fetches { D.fetches port.old ≤ D.fetches port.new }
        ensures certificates { self.new.certificates ≡ self.old.certificates }
        ensures pins { self.new.core.pins ≡ self.old.core.pins }
    {
        self.core.state.may_change()?;
        let before = self.core.disk.faults();
        self.core.make_room(alloc, port, before)?;
        let next = self.core.state.put_record(key, dkey, value);
        self.core.record(alloc, before, next)
    }

    /// Erases the values whose delete keys lie in a range: no read finds one that was put before, and the range is applied to the files as they are merged or swept. It answers
    /// the place of the change in the store's history. Where the active segment is full, room is made first: the frozen buffer is flushed, if there is one, and the active one
    /// is frozen. Where level 0 has at least twice as many files as the ratio then, and no job is in flight, the merges and sweeps that are due are carried out, and their files
    /// are read through the port.
    ///
    /// # Errors
    ///
    /// `Stopped`, `Exhausted`, `NoMemory`, `Fault`, which stops the store, and where a merge or a sweep is carried out `ReadFault`, and on a disk that tells nothing `Damaged`. Want
    /// of memory for the record comes before its first device call. Room that was made stays made.
    pub fn erase(&mut self, alloc: Global, port: &mut D::Port, range: Range) -> Result<u64, Refused>
        // Opening gives this, and each call leaves it so.
        requires { IsSound D.tells (view_of self.old.core) }
        ensures answers { Answers D.tells (Makes (call.Erase range)) (result_err result) (face_of (view_of self.old.core)) (view_of self.old.core) (view_of self.new.core) }
        ensures place { IfOk result (λ place. place ≡ self.old.core.state.count + 1) }

        // A refusal has its reason, and a store that is stopped or whose places are used up is as it was.
        ensures why { IfErr result (HasReasonOfChange D.tells D.ports_fail (view_of self.old.core) (view_of self.new.core) (D.port_faults port.old) (D.port_faults port.new)) }
        ensures stopped { (at : ℕ) → self.old.core.state.stopped ≡ Some at → IsErrOf result (Stopped at) × (self.new ≡ self.old) }
        ensures exhausted { self.old.core.state.stopped ≡ None → self.old.core.state.count ≡ max_place → IsErrOf result (Exhausted max_place) × (self.new ≡ self.old) }

        // Acknowledged: room was made, for which the port has fetched each page of the merges' inputs once, and of a swept file those that its header tells, and the record is
        // behind the others in the active segment.
        ensures written { D.tells → (s : Stored) → Holds (view_of self.old.core) s
            → OnOk result ((t : Stored) × (outcomes : List Outcome) × IsRoomMadeBy (view_of self.old.core).flights s outcomes t
            × Holds (view_of self.new.core) (appended t (erase_over t range)) × (D.fetches port.new ≡ D.fetches port.old + pages_of outcomes)
            × AreRetiredBehind outcomes (view_of self.old.core).pins.pins (view_of self.old.core).retired (view_of self.new.core).retired) }

        // Where there was room, the record was entered into what is in memory, on any disk.
        ensures entered { self.old.core.state.records < self.old.core.state.manifest.config.buffer
            → OnOk result (HasEntered (erase_record self.old.core.state range) self.old.core.state self.new.core.state) }

        // Where there was room, the active segment is the one object that changes, and nothing is fetched.
        ensures room { D.tells → (s : Stored) → Holds (view_of self.old.core) s → HasRoom s
            → OnOk result (((D.seen self.new.core.disk).directory ≡ with_record (D.seen self.old.core.disk).directory s (erase_over s range))
            × ((D.seen self.new.core.disk).moment ≡ (D.seen self.old.core.disk).moment + 4) × (port.new ≡ port.old)) }

        ensures port_faults { D.port_faults port.old ≤ D.port_faults port.new }

        // On any disk: where a page is told as damaged, a fetch was made in this call, and it is one of a file of the version behind it.
        ensures damaged { (name : Name) → IsErrOf result (Damaged name) → HasDamagedPage self.new.core name × (D.fetches port.old < D.fetches port.new) }
        ensures fetches { D.fetches port.old ≤ D.fetches port.new }
        ensures certificates { self.new.certificates ≡ self.old.certificates }
        ensures pins { self.new.core.pins ≡ self.old.core.pins }
    {
        self.core.state.may_change()?;
        let before = self.core.disk.faults();
        self.core.make_room(alloc, port, before)?;
        let next = self.core.state.erase_record(range);
        self.core.record(alloc, before, next)
    }

    /// Removes a key. Where a buffer has an entry of the key, a put's or a tombstone's, or a page of a file may have one, it leaves a tombstone, and
    /// else only its place.
    ///
    /// # Errors
    ///
    /// As for `put`.
    pub fn delete(&mut self, alloc: Global, port: &mut D::Port, key: Key) -> Result<u64, Refused>
        // Opening gives this, and each call leaves it so.
        requires { IsSound D.tells (view_of self.old.core) }
        ensures answers { Answers D.tells (Makes (call.Delete key)) (result_err result) (face_of (view_of self.old.core)) (view_of self.old.core) (view_of self.new.core) }
        ensures place { IfOk result (λ place. place ≡ self.old.core.state.count + 1) }

        // A refusal has its reason, and a store that is stopped or whose places are used up is as it was.
        ensures why { IfErr result (HasReasonOfChange D.tells D.ports_fail (view_of self.old.core) (view_of self.new.core) (D.port_faults port.old) (D.port_faults port.new)) }
        ensures stopped { (at : ℕ) → self.old.core.state.stopped ≡ Some at → IsErrOf result (Stopped at) × (self.new ≡ self.old) }
        ensures exhausted { self.old.core.state.stopped ≡ None → self.old.core.state.count ≡ max_place → IsErrOf result (Exhausted max_place) × (self.new ≡ self.old) }

        // Acknowledged: room was made, for which the port has fetched each page of the merges' inputs once, and of a swept file those that its header tells, and the record is
        // behind the others in the active segment.
        ensures written { D.tells → (s : Stored) → Holds (view_of self.old.core) s
            → OnOk result ((t : Stored) × (outcomes : List Outcome) × (next : Record) × IsRoomMadeBy (view_of self.old.core).flights s outcomes t
            × IsDeleteOver t (headers_in (view_of self.new.core).levels) key next
            × Holds (view_of self.new.core) (appended t next) × (D.fetches port.new ≡ D.fetches port.old + pages_of outcomes)
            × AreRetiredBehind outcomes (view_of self.old.core).pins.pins (view_of self.old.core).retired (view_of self.new.core).retired) }

        // Where there was room, the record was entered into what is in memory, on any disk.
        ensures entered { self.old.core.state.records < self.old.core.state.manifest.config.buffer
            → OnOk result ((next : Record) × IsDeleteRecord self.old.core.state (headers_in (view_of self.old.core).levels) key next
            × HasEntered next self.old.core.state self.new.core.state) }

        // Where there was room, the active segment is the one object that changes, and nothing is fetched.
        ensures room { D.tells → (s : Stored) → Holds (view_of self.old.core) s → HasRoom s
            → OnOk result ((next : Record) × IsDeleteOver s (headers_in (view_of self.old.core).levels) key next
            × ((D.seen self.new.core.disk).directory ≡ with_record (D.seen self.old.core.disk).directory s next) × ((D.seen self.new.core.disk).moment ≡ (D.seen self.old.core.disk).moment + 4) × (port.new ≡ port.old)) }

        ensures port_faults { D.port_faults port.old ≤ D.port_faults port.new }

        // On any disk: where a page is told as damaged, a fetch was made in this call, and it is one of a file of the version behind it.
        ensures damaged { (name : Name) → IsErrOf result (Damaged name) → HasDamagedPage self.new.core name × (D.fetches port.old < D.fetches port.new) }
        ensures fetches { D.fetches port.old ≤ D.fetches port.new }
        ensures certificates { self.new.certificates ≡ self.old.certificates }
        ensures pins { self.new.core.pins ≡ self.old.core.pins }
    {
        self.core.state.may_change()?;
        let before = self.core.disk.faults();
        self.core.make_room(alloc, port, before)?;
        let next = self.core.state.delete_record(&self.core.version, key);
        self.core.record(alloc, before, next)
    }
}
