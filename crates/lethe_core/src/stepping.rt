//! Freezing, flushing and making room, as steps of a call.
ghost use Rattle.std.specs.Prelude.{◌≡◌, ◌≤◌, ◌<◌, ◌+◌, ◌-◌, ◌*◌, ◌⊎◌, ℕ, List, [], None, Some, length, Contains, All, IfErr, IsErrOf, IsOk, IsSome, OnOk};
ghost use Rattle.std.specs.Result.{result_err};
ghost use Rattle.lethe_base.specs.declared.name.Name.{Name};
ghost use Rattle.lethe_base.specs.History.{History};
ghost use Rattle.lethe_base.specs.declared.refused.Refused.TheVariants as refused;
ghost use Rattle.lethe_disk.specs.Directory.{object};
ghost use Rattle.lethe_build.specs.Built.{most_numbers};
ghost use Rattle.lethe_header.specs.Headers as header;
ghost use Rattle.lethe_manifest.specs.Manifests.{HasSpelling, manifest_bytes};
ghost use Rattle.lethe_commit.specs.Gates.{gate_name};
ghost use Rattle.lethe_commit.specs.Place.{insert_all};
ghost use Rattle.lethe_stored.specs.Kept.{IsFor, IsKept};
ghost use Rattle.lethe_stored.specs.Levels.{HasFiles};
ghost use Rattle.lethe_stored.specs.Numbers.{GoesFrom};
ghost use Rattle.lethe_stored.specs.Stored.{Stored, part_names};
ghost use Rattle.lethe_advance.specs.Calls.{most_calls};
ghost use Rattle.lethe_advance.specs.Settled.{HasOnly, IsSettled};
ghost use Rattle.lethe_advance.specs.Shown.{parts_by_level};
ghost use Rattle.lethe_advance.specs.Steps.{HasStayed, IsStep};
ghost use Rattle.lethe_state.specs.Room.{IsFlushed, IsFrozen, IsShortToFlush, IsShortToFreeze, IsUnfrozen, frozen_len};
ghost use Rattle.lethe_core.specs.Keeps.{Keeps, MayStep};
ghost use Rattle.lethe_core.specs.Merges.{Outcome, IsRoomBegun, IsRoomMadeBy, pages_of, AreRetiredBehind};
ghost use Rattle.lethe_core.specs.Reasons.{HasDamagedPage, HasReason, IsShort, IsShortOfRoom, IsUnreadable};
ghost use Rattle.lethe_core.specs.Running.{Holds, IsRunning};
ghost use Rattle.lethe_core.specs.Steps.{IsDoneInPart, IsEmptied, IsHindered, IsReady, IsReadyToFreeze, IsUndone, IsUnfrozenAfter};
ghost use Rattle.lethe_core.specs.View.{beside_in, view_of};

use crate::Core;
use lethe_advance::{NewHeader, Step, advance};
use lethe_base::Refused;
use lethe_disk::{Disk, DiskRefused};
use lethe_manifest::write_manifest;
use std::alloc::Global;

impl<D: Disk> Core<D> {
    /// Makes room for one more record, where there is none: flushes the frozen buffer, if there is one, and freezes the active one. Where level 0 is crowded
    /// then and no job is in flight, it carries out the merges that are due, and reads their inputs through the port. `before` is the count of faults from which a
    /// failure is told.
    pub fn make_room(
        &mut self,
        alloc: Global,
        port: &mut D::Port,
        before: u64,
    ) -> Result<(), Refused>
        requires { MayStep D.tells (view_of self.old) before }
        ensures keeps { Keeps D.tells (view_of self.old) (view_of self.new) (result_err result) }
        ensures partly { IfErr result (IsDoneInPart D.tells (IsRoomBegun (view_of self.old).flights) (view_of self.old) (view_of self.new)) }
        ensures done { D.tells → (s : Stored) → Holds (view_of self.old) s
            → OnOk result ((t : Stored) × (outcomes : List Outcome) × IsRoomMadeBy (view_of self.old).flights s outcomes t × Holds (view_of self.new) t
            × (D.fetches port.new ≡ D.fetches port.old + pages_of outcomes) × AreRetiredBehind outcomes (view_of self.old).pins.pins (view_of self.old).retired (view_of self.new).retired) }
        ensures room { self.old.state.records < self.old.state.manifest.config.buffer → IsOk result × (self.new ≡ self.old) × (port.new ≡ port.old) }
        ensures ready { OnOk result (IsReady self.old.state self.new.state) }
        ensures why { IfErr result (λ why. HasReason (IsShortOfRoom D.tells self.old.state (view_of self.new)) self.old.state before (D.faults self.new.disk) why
            ⊎ IsUnreadable D.tells D.ports_fail (D.port_faults port.old) (D.port_faults port.new) why) }
        ensures flights { self.new.flights ≡ self.old.flights }
        ensures begun { self.new.begun ≡ self.old.begun }
        ensures port_faults { D.port_faults port.old ≤ D.port_faults port.new }
        // On any disk: where a page is told as damaged, a fetch was made in this call, and it is one of a file of the version behind it.
        ensures damaged { (name : Name) → IsErrOf result (refused.Damaged name) → HasDamagedPage self.new name × (D.fetches port.old < D.fetches port.new) }
        ensures fetches { D.fetches port.old ≤ D.fetches port.new }
    {
        if self.state.has_room() {
            return Ok(());
        }
        self.unfreeze(alloc, before)?;
        self.freeze_now(alloc, before)?;
        self.merge_due(alloc, port, before)
    }

    /// Flushes the frozen buffer, if there is one. `before` is the count of faults from which a failure is told.
    pub fn unfreeze(&mut self, alloc: Global, before: u64) -> Result<(), Refused>
        requires { MayStep D.tells (view_of self.old) before }
        ensures keeps { Keeps D.tells (view_of self.old) (view_of self.new) (result_err result) }
        ensures undone { IfErr result (IsUndone D.tells (view_of self.old) (view_of self.new)) }
        ensures done { D.tells → (s : Stored) → Holds (view_of self.old) s → OnOk result ((t : Stored) × IsUnfrozen s t × Holds (view_of self.new) t) }
        ensures ready { OnOk result (IsReadyToFreeze self.old.state self.new.state) }
        // Each number that was drawn but the manifest's is one of an object, which is created and, where it is a page, opened.
        ensures most { D.tells → OnOk result ((D.seen self.new.disk).moment ≤ (D.seen self.old.disk).moment + 2 * (self.new.state.next - self.old.state.next) + 7) }
        ensures soon { D.tells → (D.seen self.new.disk).moment ≤ (D.seen self.old.disk).moment + 3 * most_numbers (frozen_len self.old.state.frozen) + 9 }
        ensures why { IfErr result (HasReason (IsShort self.old.state) self.old.state before (D.faults self.new.disk)) }
        ensures retired { self.new.retired ≡ self.old.retired }
        ensures flights { self.new.flights ≡ self.old.flights }
        ensures begun { self.new.begun ≡ self.old.begun }
    {
        if self.state.frozen().is_none() {
            return Ok(());
        }
        self.flush_now(alloc, before)
    }

    /// Flushes the frozen buffer, which is there. `before` is the count of faults from which a failure is told.
    pub fn flush_now(&mut self, alloc: Global, before: u64) -> Result<(), Refused>
        requires may { MayStep D.tells (view_of self.old) before }
        requires frozen { IsSome self.old.state.frozen }
        ensures keeps { Keeps D.tells (view_of self.old) (view_of self.new) (result_err result) }
        ensures undone { IfErr result (IsUndone D.tells (view_of self.old) (view_of self.new)) }
        ensures done { D.tells → (s : Stored) → Holds (view_of self.old) s → OnOk result ((t : Stored) × IsFlushed s t × Holds (view_of self.new) t) }
        ensures ready { OnOk result (IsUnfrozenAfter self.old.state self.new.state) }
        // Each number that was drawn but the manifest's is one of an object, which is created and, where it is a page, opened.
        ensures most { D.tells → OnOk result ((D.seen self.new.disk).moment ≤ (D.seen self.old.disk).moment + 2 * (self.new.state.next - self.old.state.next) + 7) }
        ensures soon { D.tells → (D.seen self.new.disk).moment ≤ (D.seen self.old.disk).moment + 3 * most_numbers (frozen_len self.old.state.frozen) + 9 }
        ensures why { IfErr result (HasReason (IsShortToFlush self.old.state) self.old.state before (D.faults self.new.disk)) }
        ensures retired { self.new.retired ≡ self.old.retired }
        ensures flights { self.new.flights ≡ self.old.flights }
        ensures begun { self.new.begun ≡ self.old.begun }
    {
        let (headers, step) = self.state.flushing(alloc, &self.version)?;
        self.carry_out(alloc, before, headers, &step)?;
        self.state.flush(step);
        Ok(())
    }

    /// Freezes the active segment, where none is frozen. `before` is the count of faults from which a failure is told.
    pub fn freeze_now(&mut self, alloc: Global, before: u64) -> Result<(), Refused>
        requires may { MayStep D.tells (view_of self.old) before }
        requires unfrozen { self.old.state.frozen ≡ None }
        ensures keeps { Keeps D.tells (view_of self.old) (view_of self.new) (result_err result) }
        ensures undone { IfErr result (IsUndone D.tells (view_of self.old) (view_of self.new)) }
        ensures done { D.tells → (s : Stored) → Holds (view_of self.old) s → OnOk result ((t : Stored) × IsFrozen s t × Holds (view_of self.new) t) }
        ensures ready { OnOk result (IsEmptied self.old.state self.new.state) }
        // The segment, the manifest and its gate are created, each with a sync, the older two are removed, and it syncs once more.
        ensures most { D.tells → OnOk result ((D.seen self.new.disk).moment ≤ (D.seen self.old.disk).moment + 9) }
        ensures soon { D.tells → (D.seen self.new.disk).moment ≤ (D.seen self.old.disk).moment + 10 }
        ensures why { IfErr result (HasReason (IsShortToFreeze self.old.state) self.old.state before (D.faults self.new.disk)) }
        ensures retired { self.new.retired ≡ self.old.retired }
        ensures flights { self.new.flights ≡ self.old.flights }
        ensures begun { self.new.begun ≡ self.old.begun }
    {
        let step = self.state.freezing(alloc)?;
        self.carry_out(alloc, before, Vec::new(alloc), &step)?;
        self.state.freeze(alloc, step);
        Ok(())
    }

    /// Carries a step out on the disk, and takes the files that it leaves. Where the disk fails the store is stopped. `before` is the count of faults from which a failure is told.
    pub fn carry_out(
        &mut self,
        alloc: Global,
        before: u64,
        headers: Vec<NewHeader>,
        step: &Step,
    ) -> Result<(), Refused>
        requires may { MayStep D.tells (view_of self.old) before }
        requires spelled { HasSpelling step.now.manifest }
        requires headers { All (λ new. header.HasSpelling new.header) headers.items }
        requires levels { All (λ new. new.level ≤ self.old.state.manifest.config.levels) headers.items }
        requires step { D.tells → (s t : Stored) × (left : List (Name × List ℕ)) × IsRunning (view_of self.old) s × IsStep s (beside_in (view_of self.old)) t left headers.items step.now }

        // What was stored may stand for one history, and what is stored next for another: then each crash leaves what is kept for one of the two.
        ensures moments { D.tells → (s t : Stored) (left : List (Name × List ℕ)) → IsRunning (view_of self.old) s → IsStep s (beside_in (view_of self.old)) t left headers.items step.now
            → (h g : History) → IsFor h s → IsFor g t → s.manifest.next ≤ self.old.state.next → t.manifest.next ≤ self.old.state.next + length step.now.objects.items + 1
            → GoesFrom self.old.state.next (λ c. IsKept s.manifest.config c h ⊎ IsKept s.manifest.config c g) (D.seen self.old.disk) (D.seen self.new.disk) }

        // Where there was no memory it is what is kept for the first.
        ensures unmoved { D.tells → (s t : Stored) (left : List (Name × List ℕ)) → IsRunning (view_of self.old) s → IsStep s (beside_in (view_of self.old)) t left headers.items step.now
            → (h : History) → IsFor h s → s.manifest.next ≤ self.old.state.next → IsErrOf result refused.NoMemory
            → GoesFrom self.old.state.next (λ c. IsKept s.manifest.config c h) (D.seen self.old.disk) (D.seen self.new.disk) }

        ensures done { D.tells → (s t : Stored) (left : List (Name × List ℕ)) → IsRunning (view_of self.old) s → IsStep s (beside_in (view_of self.old)) t left headers.items step.now
            → OnOk result (IsSettled (D.seen self.new.disk) t × HasOnly t left (D.seen self.new.disk).directory) }
        ensures kept { D.tells → (s t : Stored) (left : List (Name × List ℕ)) → IsRunning (view_of self.old) s → IsStep s (beside_in (view_of self.old)) t left headers.items step.now
            → OnOk result ((name : Name) → Contains (part_names t) name
            → object (D.seen self.new.disk).directory name ≡ object (insert_all step.now.objects.items (D.seen self.old.disk).directory) name) }
        // Each object that was there, and is cited next or left beside that, is as it was, whatever is answered.
        ensures stays { D.tells → (s t : Stored) (left : List (Name × List ℕ)) → IsRunning (view_of self.old) s → IsStep s (beside_in (view_of self.old)) t left headers.items step.now
            → HasStayed t left (D.seen self.old.disk).directory (D.seen self.new.disk).directory }
        ensures gate { D.tells → (s t : Stored) (left : List (Name × List ℕ)) → IsRunning (view_of self.old) s → IsStep s (beside_in (view_of self.old)) t left headers.items step.now
            → OnOk result (object (D.seen self.new.disk).directory (gate_name t.manifest.no) ≡ Some []) }
        ensures files { D.tells → (s t : Stored) (left : List (Name × List ℕ)) → IsRunning (view_of self.old) s → IsStep s (beside_in (view_of self.old)) t left headers.items step.now
            → HasFiles s (parts_by_level self.old.version) → OnOk result (HasFiles t (parts_by_level self.new.version)) }
        ensures state { OnOk result (self.new.state ≡ self.old.state) }
        ensures levels { length (parts_by_level self.new.version) ≡ length (parts_by_level self.old.version) }
        ensures refused { IfErr result (IsHindered D.tells (view_of self.old) (view_of self.new) before) }
        ensures retired { self.new.retired ≡ self.old.retired }
        ensures flights { self.new.flights ≡ self.old.flights }
        ensures begun { self.new.begun ≡ self.old.begun }
        ensures pins { self.new.pins ≡ self.old.pins }
        ensures calls { D.tells → OnOk result ((D.seen self.old.disk).moment + length step.now.objects.items + 4 ≤ (D.seen self.new.disk).moment) }
        ensures most { D.tells → OnOk result ((D.seen self.new.disk).moment ≤ (D.seen self.old.disk).moment + most_calls headers.items step.now) }
        // Where it is refused, the objects that it made may be removed again.
        ensures soon { D.tells → (D.seen self.new.disk).moment ≤ (D.seen self.old.disk).moment + most_calls headers.items step.now + length step.now.objects.items }
        ensures later { D.tells → (D.seen self.old.disk).moment ≤ (D.seen self.new.disk).moment }
        ensures faults { D.faults self.old.disk ≤ D.faults self.new.disk }
    {
        let Ok(manifest) = write_manifest(alloc, &step.manifest) else {
            return Err(Refused::NoMemory);
        };
        self.carry_out_spelled(alloc, before, headers, step, &manifest)
    }

    /// Carries a step out on the disk, whose manifest is spelled by these bytes, and takes the files that it leaves. Where the disk fails the store is stopped. `before` is the count of faults from which a failure is told.
    pub fn carry_out_spelled(
        &mut self,
        alloc: Global,
        before: u64,
        headers: Vec<NewHeader>,
        step: &Step,
        manifest: &[u8],
    ) -> Result<(), Refused>
        requires may { MayStep D.tells (view_of self.old) before }
        requires bytes { manifest.now ≡ manifest_bytes step.now.manifest }
        requires headers { All (λ new. header.HasSpelling new.header) headers.items }
        requires levels { All (λ new. new.level ≤ self.old.state.manifest.config.levels) headers.items }
        requires step { D.tells → (s t : Stored) × (left : List (Name × List ℕ)) × IsRunning (view_of self.old) s × IsStep s (beside_in (view_of self.old)) t left headers.items step.now }

        // What was stored may stand for one history, and what is stored next for another: then each crash leaves what is kept for one of the two.
        ensures moments { D.tells → (s t : Stored) (left : List (Name × List ℕ)) → IsRunning (view_of self.old) s → IsStep s (beside_in (view_of self.old)) t left headers.items step.now
            → (h g : History) → IsFor h s → IsFor g t → s.manifest.next ≤ self.old.state.next → t.manifest.next ≤ self.old.state.next + length step.now.objects.items + 1
            → GoesFrom self.old.state.next (λ c. IsKept s.manifest.config c h ⊎ IsKept s.manifest.config c g) (D.seen self.old.disk) (D.seen self.new.disk) }

        // Where there was no memory it is what is kept for the first.
        ensures unmoved { D.tells → (s t : Stored) (left : List (Name × List ℕ)) → IsRunning (view_of self.old) s → IsStep s (beside_in (view_of self.old)) t left headers.items step.now
            → (h : History) → IsFor h s → s.manifest.next ≤ self.old.state.next → IsErrOf result refused.NoMemory
            → GoesFrom self.old.state.next (λ c. IsKept s.manifest.config c h) (D.seen self.old.disk) (D.seen self.new.disk) }

        ensures done { D.tells → (s t : Stored) (left : List (Name × List ℕ)) → IsRunning (view_of self.old) s → IsStep s (beside_in (view_of self.old)) t left headers.items step.now
            → OnOk result (IsSettled (D.seen self.new.disk) t × HasOnly t left (D.seen self.new.disk).directory) }
        ensures kept { D.tells → (s t : Stored) (left : List (Name × List ℕ)) → IsRunning (view_of self.old) s → IsStep s (beside_in (view_of self.old)) t left headers.items step.now
            → OnOk result ((name : Name) → Contains (part_names t) name
            → object (D.seen self.new.disk).directory name ≡ object (insert_all step.now.objects.items (D.seen self.old.disk).directory) name) }
        // Each object that was there, and is cited next or left beside that, is as it was, whatever is answered.
        ensures stays { D.tells → (s t : Stored) (left : List (Name × List ℕ)) → IsRunning (view_of self.old) s → IsStep s (beside_in (view_of self.old)) t left headers.items step.now
            → HasStayed t left (D.seen self.old.disk).directory (D.seen self.new.disk).directory }
        ensures gate { D.tells → (s t : Stored) (left : List (Name × List ℕ)) → IsRunning (view_of self.old) s → IsStep s (beside_in (view_of self.old)) t left headers.items step.now
            → OnOk result (object (D.seen self.new.disk).directory (gate_name t.manifest.no) ≡ Some []) }
        ensures files { D.tells → (s t : Stored) (left : List (Name × List ℕ)) → IsRunning (view_of self.old) s → IsStep s (beside_in (view_of self.old)) t left headers.items step.now
            → HasFiles s (parts_by_level self.old.version) → OnOk result (HasFiles t (parts_by_level self.new.version)) }
        ensures state { OnOk result (self.new.state ≡ self.old.state) }
        ensures levels { length (parts_by_level self.new.version) ≡ length (parts_by_level self.old.version) }
        ensures refused { IfErr result (IsHindered D.tells (view_of self.old) (view_of self.new) before) }
        ensures retired { self.new.retired ≡ self.old.retired }
        ensures flights { self.new.flights ≡ self.old.flights }
        ensures begun { self.new.begun ≡ self.old.begun }
        ensures pins { self.new.pins ≡ self.old.pins }
        ensures calls { D.tells → OnOk result ((D.seen self.old.disk).moment + length step.now.objects.items + 4 ≤ (D.seen self.new.disk).moment) }
        ensures most { D.tells → OnOk result ((D.seen self.new.disk).moment ≤ (D.seen self.old.disk).moment + most_calls headers.items step.now) }
        // Where it is refused, the objects that it made may be removed again.
        ensures soon { D.tells → (D.seen self.new.disk).moment ≤ (D.seen self.old.disk).moment + most_calls headers.items step.now + length step.now.objects.items }
        ensures later { D.tells → (D.seen self.old.disk).moment ≤ (D.seen self.new.disk).moment }
        ensures faults { D.faults self.old.disk ≤ D.faults self.new.disk }
    {
        match advance(
            alloc,
            &mut self.disk,
            &self.version,
            headers,
            step,
            manifest,
        ) {
            Ok(version) => {
                self.version = version;
                Ok(())
            }
            Err(DiskRefused::Failed) => {
                let place = self.state.stop();
                Err(Refused::Fault {
                    place,
                    before,
                    after: self.disk.faults(),
                })
            }
            Err(DiskRefused::NoMemory) => Err(Refused::NoMemory),
        }
    }
}
