//! Merges and sweeps that a store carries out itself, and the step of one.
ghost use Rattle.std.specs.Prelude.{◌≡◌, ◌≤◌, ◌+◌, ◌⊎◌, ◌↔◌, [], true, false, IsTrue, List, Ok, All, IfOk, IfErr, OnErr, OnOk, ◌<◌, IsErrOf, length};
ghost use Rattle.std.specs.Result.{result_err};
ghost use Rattle.lethe_base.specs.History.{History};
ghost use Rattle.lethe_base.specs.declared.config.Fields.{Fields};
ghost use Rattle.lethe_base.specs.declared.name.Name.{Name};
ghost use Rattle.lethe_base.specs.declared.refused.Refused.TheVariants as refused;
ghost use Rattle.lethe_header.specs.Headers as header;
ghost use Rattle.lethe_stored.specs.Stored.{Stored};
ghost use Rattle.lethe_advance.specs.Calls.{most_calls};
ghost use Rattle.lethe_state.specs.Clock.{clock_of};
ghost use Rattle.lethe_state.specs.Room.{IsStepFrom};
ghost use Rattle.lethe_state.specs.Writable.{segments_for};
ghost use Rattle.lethe_job.specs.Jobs.{told_as};
ghost use Rattle.lethe_job.specs.Works.{PlainTask, reads_of};
ghost use Rattle.lethe_core.specs.Descent.{HasCountedErases, jobs_at_most, jobs_left};
ghost use Rattle.lethe_core.specs.Keeps.{Keeps, MayStep};
ghost use Rattle.lethe_core.specs.Merges.{AreOutcomesBy, AreSomeOutcomesBy, HasNoMergeBy, IsOutcomeBy, IsShortToMergeBy, chosen_by, due_choice};
ghost use Rattle.lethe_core.specs.Merges.{IsCrowded, IsMergedInPart, IsShortToMerge, IsUncrowded, AreRetiredBehind, MayMerge, Outcome, flights_behind, pages_of};
ghost use Rattle.lethe_core.specs.Pinned.{AreNamed};
ghost use Rattle.lethe_core.specs.Reasons.{HasDamagedPage, HasReason, IsUnreadable, told_since};
ghost use Rattle.lethe_core.specs.Running.{Holds, IsSound};
ghost use Rattle.lethe_core.specs.StandsNow.{IsCounted, StandsNow};
ghost use Rattle.lethe_core.specs.Steps.{IsDoneInPart, IsSteady, IsUndone};
ghost use Rattle.lethe_core.specs.View.{view_of};

use crate::Core;
use crate::choosing::Choice;
use crate::descent::{are_counted, steps_down, unswept_pairs};
use lethe_base::{NoMemory, Refused};
use lethe_disk::{Disk, ReadRefused};
use lethe_follows::Company;
use lethe_install::{Installation, installing};
use lethe_job::cited_files;
use std::alloc::Global;

/// More than there are pairs of a file and a pending erase.
const MORE_THAN_PAIRS: u128 = 1 << 64;

impl<D: Disk> Core<D> {
    /// Carries out the merges and sweeps that are due, one after another until none is, where level 0 is crowded and no job is in flight.
    pub fn merge_due(
        &mut self,
        alloc: Global,
        port: &mut D::Port,
        before: u64,
    ) -> Result<(), Refused>
        requires may { MayStep D.tells (view_of self.old) before }
        ensures keeps { Keeps D.tells (view_of self.old) (view_of self.new) (result_err result) }
        ensures partly { IfErr result (IsDoneInPart D.tells (IsMergedInPart (view_of self.old).flights) (view_of self.old) (view_of self.new)) }
        ensures done { D.tells → (s : Stored) → Holds (view_of self.old) s
            → OnOk result ((t : Stored) × (outcomes : List Outcome) × IsUncrowded (view_of self.old).flights s outcomes t × Holds (view_of self.new) t
            × (D.fetches port.new ≡ D.fetches port.old + pages_of outcomes) × AreRetiredBehind outcomes (view_of self.old).pins.pins (view_of self.old).retired (view_of self.new).retired) }
        ensures steady { OnOk result (IsSteady self.old.state self.new.state) }
        ensures why { IfErr result (λ why. HasReason (IsShortToMerge D.tells (view_of self.new)) self.old.state before (D.faults self.new.disk) why
            ⊎ IsUnreadable D.tells D.ports_fail (D.port_faults port.old) (D.port_faults port.new) why) }
        ensures flights { self.new.flights ≡ self.old.flights }
        ensures begun { self.new.begun ≡ self.old.begun }
        ensures port_faults { D.port_faults port.old ≤ D.port_faults port.new }
        // On any disk: where a page is told as damaged, a fetch was made in this call, and it is one of a file of the version behind it.
        ensures damaged { (name : Name) → IsErrOf result (refused.Damaged name) → HasDamagedPage self.new name × (D.fetches port.old < D.fetches port.new) }
        ensures fetches { D.fetches port.old ≤ D.fetches port.new }
    {
        if !self.flights.is_empty() || !self.is_crowded() {
            return Ok(());
        }
        self.merge_all(alloc, port, before, Choice::Room)
    }

    /// Carries out the merges and sweeps that are due at a time, one after another until none is, where no job is in flight.
    pub fn ripen(
        &mut self,
        alloc: Global,
        port: &mut D::Port,
        before: u64,
        to: u64,
    ) -> Result<(), Refused>
        requires may { MayStep D.tells (view_of self.old) before }
        requires free { self.old.flights ≡ [] }
        ensures keeps { Keeps D.tells (view_of self.old) (view_of self.new) (result_err result) }
        ensures partly { IfErr result (IsDoneInPart D.tells (λ s t. (outcomes : List Outcome) × AreSomeOutcomesBy (due_choice to) s outcomes t) (view_of self.old) (view_of self.new)) }
        ensures done { D.tells → (s : Stored) → Holds (view_of self.old) s
            → OnOk result ((t : Stored) × (outcomes : List Outcome) × AreOutcomesBy (due_choice to) s outcomes t × Holds (view_of self.new) t
            × (D.fetches port.new ≡ D.fetches port.old + pages_of outcomes) × AreRetiredBehind outcomes (view_of self.old).pins.pins (view_of self.old).retired (view_of self.new).retired) }
        ensures steady { OnOk result (IsSteady self.old.state self.new.state) }
        ensures why { IfErr result (λ why. HasReason (IsShortToMergeBy (due_choice to) D.tells (view_of self.new)) self.old.state before (D.faults self.new.disk) why
            ⊎ IsUnreadable D.tells D.ports_fail (D.port_faults port.old) (D.port_faults port.new) why) }
        ensures free { self.new.flights ≡ [] }
        ensures begun { self.new.begun ≡ self.old.begun }
        ensures port_faults { D.port_faults port.old ≤ D.port_faults port.new }
        // On any disk: where a page is told as damaged, a fetch was made in this call, and it is one of a file of the version behind it.
        ensures damaged { (name : Name) → IsErrOf result (refused.Damaged name) → HasDamagedPage self.new name × (D.fetches port.old < D.fetches port.new) }
        ensures fetches { D.fetches port.old ≤ D.fetches port.new }
    {
        self.merge_all(alloc, port, before, Choice::DueAt(to))
    }

    /// Whether level 0 has at least twice as many files as the ratio.
    fn is_crowded(&self) -> bool
        requires { IsSound D.tells (view_of self.now) }
        ensures { D.tells → (s : Stored) → Holds (view_of self.now) s → IsTrue result ↔ IsCrowded s }
    {
        let ratio = self.state.manifest().config.fields().ratio;
        self.version.files(0).len() as u64 >= 2 * ratio
    }

    /// Carries out the merges and sweeps that are chosen, one after another until none is, where no job is in flight.
    fn merge_all(
        &mut self,
        alloc: Global,
        port: &mut D::Port,
        before: u64,
        choice: Choice,
    ) -> Result<(), Refused>
        requires may { MayStep D.tells (view_of self.old) before }
        requires free { self.old.flights ≡ [] }
        ensures keeps { Keeps D.tells (view_of self.old) (view_of self.new) (result_err result) }
        ensures partly { IfErr result (IsDoneInPart D.tells (λ s t. (outcomes : List Outcome) × AreSomeOutcomesBy (chosen_by choice) s outcomes t) (view_of self.old) (view_of self.new)) }
        ensures done { D.tells → (s : Stored) → Holds (view_of self.old) s
            → OnOk result ((t : Stored) × (outcomes : List Outcome) × AreOutcomesBy (chosen_by choice) s outcomes t × Holds (view_of self.new) t
            × (D.fetches port.new ≡ D.fetches port.old + pages_of outcomes) × AreRetiredBehind outcomes (view_of self.old).pins.pins (view_of self.old).retired (view_of self.new).retired) }
        ensures steady { OnOk result (IsSteady self.old.state self.new.state) }
        ensures why { IfErr result (λ why. HasReason (IsShortToMergeBy (chosen_by choice) D.tells (view_of self.new)) self.old.state before (D.faults self.new.disk) why
            ⊎ IsUnreadable D.tells D.ports_fail (D.port_faults port.old) (D.port_faults port.new) why) }
        ensures free { self.new.flights ≡ [] }
        ensures begun { self.new.begun ≡ self.old.begun }
        ensures port_faults { D.port_faults port.old ≤ D.port_faults port.new }
        // On any disk: where a page is told as damaged, a fetch was made in this call, and it is one of a file of the version behind it.
        ensures damaged { (name : Name) → IsErrOf result (refused.Damaged name) → HasDamagedPage self.new name × (D.fetches port.old < D.fetches port.new) }
        ensures fetches { D.fetches port.old ≤ D.fetches port.new }
    {
        let earlier = D::port_faults(port);
        // Each job leaves less to do, so there are no more of them than that, and in one round more there is none.
        let rounds = self.most_jobs(alloc)?.saturating_add(1);

        for _ in 0..rounds {
            match self.merge_next(alloc, port, before, choice) {
                Ok(true) => {}
                Ok(false) => return Ok(()),
                Err(why) => return Err(told_since(why, earlier)),
            }
        }
        Ok(())
    }

    /// No fewer than there may still be of merges and sweeps, one after another, by the headers of the files.
    fn most_jobs(&self, alloc: Global) -> Result<u128, Refused>
        requires { IsSound D.tells (view_of self.now) }
        ensures most { (s : Stored) → Holds (view_of self.now) s → IfOk result (λ most. (HasCountedErases s × (most ≡ jobs_left s)) ⊎ ((HasCountedErases s → ⊥) × (most ≡ jobs_at_most s))) }
        ensures refused { IfErr result (λ why. why ≡ refused.NoMemory) }
    {
        let manifest = self.state.manifest();
        let erases = self.state.pending();
        match cited_files(alloc, &self.version, manifest.files.items()) {
            Ok(files) => {
                let steps = steps_down(&files, manifest.config.fields().levels);
                let pairs = unswept_pairs(&files, erases);
                // What a merge makes waits for no erase whose place is counted. An altered manifest may have others, and so a step counts for more than all pairs there.
                if are_counted(erases, self.state.count()) {
                    Ok(steps as u128 + pairs as u128)
                } else {
                    Ok(steps as u128 * MORE_THAN_PAIRS + pairs as u128)
                }
            }
            Err(NoMemory) => Err(Refused::NoMemory),
        }
    }

    /// Carries out the merge or sweep that is chosen, and answers whether there was one, where no job is in flight.
    fn merge_next(
        &mut self,
        alloc: Global,
        port: &mut D::Port,
        before: u64,
        choice: Choice,
    ) -> Result<bool, Refused>
        requires may { MayStep D.tells (view_of self.old) before }
        requires free { self.old.flights ≡ [] }
        ensures keeps { Keeps D.tells (view_of self.old) (view_of self.new) (result_err result) }
        ensures undone { IfErr result (IsUndone D.tells (view_of self.old) (view_of self.new)) }
        ensures ended { result ≡ Ok false → (self.new ≡ self.old) × (D.fetches port.new ≡ D.fetches port.old) × ((s : Stored) → Holds (view_of self.old) s → HasNoMergeBy (chosen_by choice) s) }
        ensures done { D.tells → (s : Stored) → Holds (view_of self.old) s → result ≡ Ok true
            → (outcome : Outcome) × IsOutcomeBy (chosen_by choice) s outcome × Holds (view_of self.new) outcome.to
            × (D.fetches port.new ≡ D.fetches port.old + reads_of outcome.task) }
        ensures steady { OnOk result (IsSteady self.old.state self.new.state) }
        ensures retired { result ≡ Ok true → AreNamed (view_of self.new).pins.pins (view_of self.new).retired }
        ensures why { IfErr result (λ why. HasReason (IsShortToMergeBy (chosen_by choice) D.tells (view_of self.new)) self.old.state before (D.faults self.new.disk) why
            ⊎ IsUnreadable D.tells D.ports_fail (D.port_faults port.old) (D.port_faults port.new) why) }
        ensures free { self.new.flights ≡ [] }
        ensures begun { self.new.begun ≡ self.old.begun }
        ensures port_faults { D.port_faults port.old ≤ D.port_faults port.new }
        // On any disk: where a page is told as damaged, a fetch was made in this call, and it is one of a file of the version behind it.
        ensures damaged { (name : Name) → IsErrOf result (refused.Damaged name) → HasDamagedPage self.new name × (D.fetches port.old < D.fetches port.new) }
        ensures fetches { D.fetches port.old ≤ D.fetches port.new }
    {
        let task = match self.next_task(alloc, choice) {
            Ok(Some(task)) => task,
            Ok(None) => return Ok(false),
            Err(NoMemory) => return Err(Refused::NoMemory),
        };
        let outcome = match task.outcome(alloc, port) {
            Ok(outcome) => outcome,
            Err(why) => return Err(told_as(why)),
        };
        let made = installing(
            alloc,
            Company::Last,
            &self.state,
            &self.version,
            &task,
            outcome,
            &[],
            &self.retired,
            &self.pins,
        )?;
        self.merge_now(alloc, before, None, made)?;
        Ok(true)
    }

    /// Carries out the step of a merge or a sweep, and lets the job of a number go that it ends, if it ends one: its pages are cited then. The others stay in flight.
    pub(crate) fn merge_now(
        &mut self,
        alloc: Global,
        before: u64,
        ends: Option<u64>,
        made: Installation,
    ) -> Result<(), Refused>
        requires may { MayStep D.tells (view_of self.old) before }
        requires headers { All (λ new. header.HasSpelling new.header) made.headers.items }
        requires from { IsStepFrom (segments_for self.old.state.frozen) (clock_of self.old.state.manifest) self.old.state made.headers.items made.step }
        requires merges { D.tells → (s : Stored) → Holds (view_of self.old) s → (task : PlainTask) × (t : Stored) × MayMerge (view_of self.old) (flights_behind ends self.old.flights) s task t made
            × ((config : Fields) (h : History) → StandsNow config h (view_of self.old) → IsCounted task) }
        requires named { AreNamed (view_of self.old).pins.pins made.left.items }
        ensures keeps { Keeps D.tells (view_of self.old) (view_of self.new) (result_err result) }
        ensures undone { IfErr result (IsUndone D.tells (view_of self.old) (view_of self.new)) }
        ensures done { D.tells → (s : Stored) (task : PlainTask) (t : Stored) → Holds (view_of self.old) s → MayMerge (view_of self.old) (flights_behind ends self.old.flights) s task t made
            → OnOk result (Holds (view_of self.new) t) }
        ensures steady { OnOk result (IsSteady self.old.state self.new.state) }
        ensures ended { OnOk result (self.new.flights ≡ flights_behind ends self.old.flights) }
        ensures retired { OnOk result (self.new.retired ≡ made.left) }
        ensures kept { IfErr result (λ why. (self.new.flights ≡ self.old.flights) × (self.new.retired ≡ self.old.retired)) }
        ensures begun { self.new.begun ≡ self.old.begun }
        ensures drawn { OnErr result (self.new.state.next ≡ self.old.state.next) }
        ensures why { IfErr result (HasReason ⊥ self.old.state before (D.faults self.new.disk)) }
        ensures most { D.tells → OnOk result ((D.seen self.new.disk).moment ≤ (D.seen self.old.disk).moment + most_calls made.headers.items made.step) }
        ensures soon { D.tells → (D.seen self.new.disk).moment ≤ (D.seen self.old.disk).moment + most_calls made.headers.items made.step + length made.step.objects.items }
    {
        let Installation {
            headers,
            step,
            left,
        } = made;
        self.carry_out(alloc, before, headers, &step)?;
        self.retired = left;
        if let Some(number) = ends {
            self.flights.end(number);
        }
        let company = self.flights.company();
        self.state.install(alloc, company, step);
        Ok(())
    }
}

/// The same refusal of a read, as the store tells it.
fn told_as(why: ReadRefused) -> Refused
    ensures { result ≡ told_as why }
{
    match why {
        ReadRefused::ReadFault { before, after } => Refused::ReadFault { before, after },
        ReadRefused::Damaged { name } => Refused::Damaged { name },
        ReadRefused::NoMemory => Refused::NoMemory,
    }
}

/// The same refusal of several reads, with the count of a port's faults before the first of them.
fn told_since(why: Refused, earlier: u64) -> Refused
    ensures { result ≡ told_since earlier why }
{
    match why {
        Refused::ReadFault { after, .. } => Refused::ReadFault {
            before: earlier,
            after,
        },
        why => why,
    }
}
