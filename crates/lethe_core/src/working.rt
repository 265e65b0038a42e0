//! The steps of a job: begun, written page by page, installed or given up.
ghost use Rattle.std.specs.Prelude.{◌≡◌, ◌≤◌, ◌+◌, ◌-◌, ◌++◌, [], Ok, Some, None, filter, length, map, not, IfOk, IfErr, IfSome, IsErrOf, IsSome, OnErr, OnOk};
ghost use Rattle.std.specs.Result.{result_err};
ghost use Rattle.std.specs.FinMap.{insert};
ghost use Rattle.lethe_base.specs.History.{History};
ghost use Rattle.lethe_base.specs.Limits.{max_place};
ghost use Rattle.lethe_base.specs.declared.config.Fields.{Fields};
ghost use Rattle.lethe_base.specs.declared.refused.Refused.TheVariants as refused;
ghost use Rattle.lethe_clean.specs.Copied.{IsCopiedOf};
ghost use Rattle.lethe_disk.specs.Disk.{IsIdle};
ghost use Rattle.lethe_file.specs.Agreement.{page_name};
ghost use Rattle.lethe_stored.specs.Files.{file_of};
ghost use Rattle.lethe_stored.specs.Stored.{Stored};
ghost use Rattle.lethe_install.specs.Outcomes.{AreFirst, IsInstalledWith};
ghost use Rattle.lethe_job.specs.MadeOf.{numbers_in};
ghost use Rattle.lethe_job.specs.Works.{IsBegunIn, inputs_in, plain_task, plan_of};
ghost use Rattle.lethe_core.specs.Flights.{company_of, flying_by, loose_in, with_page_of, without};
ghost use Rattle.lethe_core.specs.Jobs.{AreOutputsOf, IsAtWork, with_begun};
ghost use Rattle.lethe_core.specs.Keeps.{Keeps, MayStep};
ghost use Rattle.lethe_core.specs.Merges.{HasNoMerge, IsNextPlan};
ghost use Rattle.lethe_core.specs.Pinned.{AreNamed};
ghost use Rattle.lethe_core.specs.Reasons.{HasReason};
ghost use Rattle.lethe_core.specs.Running.{Holds, IsSound};
ghost use Rattle.lethe_core.specs.StandsNow.{StandsNow};
ghost use Rattle.lethe_core.specs.Steps.{IsDoneInPart, IsSteady, IsUndone};
ghost use Rattle.lethe_core.specs.View.{face_of, view_of};
ghost use Rattle.lethe_pins.specs.Held.{is_named};
ghost use Rattle.lethe_advance.specs.Settled.{names_in};

use crate::Core;
use crate::choosing::Choice;
use lethe_base::{MAX_PLACE, Name, NoMemory, Refused};
use lethe_disk::{Disk, DiskRefused};
use lethe_install::installing;
use lethe_job::{Job, Made};
use lethe_loose::{remove_named, remove_pages};
use std::alloc::Global;
use std::sync::Arc;

impl<D: Disk> Core<D> {
    /// The job of the merge or the sweep that is due, where none is in flight: now it is, with its claim. None where none is due. It reads no page and makes no device call.
    pub fn begin_now(&mut self, alloc: Global) -> Result<Option<Job<D>>, NoMemory>
        requires sound { IsSound D.tells (view_of self.old) }
        requires runs { self.old.state.stopped ≡ None }
        requires free { self.old.flights ≡ [] }
        ensures sound { IsSound D.tells (view_of self.new) }
        ensures stands { D.tells → (config : Fields) (h : History) → StandsNow config h (view_of self.old) → StandsNow config h (view_of self.new) }
        ensures held { D.tells → (s : Stored) → Holds (view_of self.old) s → Holds (view_of self.new) s }
        ensures none { (s : Stored) → Holds (view_of self.old) s → result ≡ Ok None → HasNoMerge s }
        ensures begun { (s : Stored) → Holds (view_of self.old) s → IfOk result (λ found. IfSome found (λ job. IsBegunIn s (plain_task job.task.value))) }

        // On any disk:
        ensures unpicked { result ≡ Ok None → IsNextPlan (view_of self.old) None }
        ensures picked { IfOk result (λ found. IfSome found (λ job. IsNextPlan (view_of self.old) (Some (plan_of (plain_task job.task.value))))) }
        ensures works { IfOk result (λ found. IfSome found (IsAtWork D.tells (view_of self.new))) }
        ensures unmade { IfOk result (λ found. IfSome found (λ job. job.made ≡ None)) }
        ensures port { IfOk result (λ found. IfSome found (λ job. (D.fetches job.port ≡ 0) × (D.port_faults job.port ≡ 0))) }
        ensures face { IfOk result (λ found. IfSome found (λ job. face_of (view_of self.new) ≡ with_begun (face_of (view_of self.old)) (plain_task job.task.value))) }
        ensures none_begun { result ≡ Ok None → face_of (view_of self.new) ≡ face_of (view_of self.old) }
        ensures kept { OnErr result (face_of (view_of self.new) ≡ face_of (view_of self.old)) }
        ensures state { self.new.state ≡ self.old.state }
        ensures version { self.new.version ≡ self.old.version }
        ensures retired { self.new.retired ≡ self.old.retired }
        ensures pins { self.new.pins ≡ self.old.pins }
        ensures idle { D.tells → IsIdle (D.seen self.old.disk) (D.seen self.new.disk) }
        ensures faults { D.faults self.new.disk ≡ D.faults self.old.disk }
    {
        let Some(task) = self.next_task(alloc, Choice::Room)? else {
            return Ok(None);
        };
        let number = self.begun.jobs;
        // No store begins so many jobs: one that would counts as one for which there is no memory.
        let begun = number.checked_add(1).ok_or(NoMemory)?;
        let claim = task.claim()?;
        let port = self.disk.port(alloc)?;
        let task = Arc::new(alloc, task)?;
        let shared = Arc::clone(&task)?;
        self.flights.begin(alloc, number, shared, claim)?;
        self.begun.jobs = begun;
        Ok(Some(Job::begun(number, self.begun.rounds, task, port)))
    }

    /// Writes the next page of the job of the number, under the next number of an object, and syncs. The page has no put but those of the job's inputs. The other jobs stay as they are.
    pub fn write_now(&mut self, before: u64, number: u64, bytes: &[u8]) -> Result<(), Refused>
        requires may { MayStep D.tells (view_of self.old) before }
        requires flies { IsSome (flying_by number self.old.flights) }
        requires copied { D.tells → (s : Stored) → Holds (view_of self.old) s
            → IfSome (flying_by number self.old.flights) (λ flying. IsCopiedOf (map file_of (inputs_in flying.task)) (page_name self.old.state.next, bytes.now)) }
        ensures keeps { Keeps D.tells (view_of self.old) (view_of self.new) (result_err result) }
        ensures undone { IfErr result (IsUndone D.tells (view_of self.old) (view_of self.new)) }
        ensures held { D.tells → (s : Stored) → Holds (view_of self.old) s → OnOk result (Holds (view_of self.new) s) }
        ensures written { OnOk result (self.new.flights ≡ with_page_of number (page_name self.old.state.next, bytes.now) self.old.flights) }
        ensures kept { OnErr result (self.new.flights ≡ self.old.flights) }
        ensures retired { self.new.retired ≡ self.old.retired }
        ensures begun { self.new.begun ≡ self.old.begun }
        ensures drawn { OnErr result (self.new.state.next ≡ self.old.state.next) }
        ensures steady { OnOk result (IsSteady self.old.state self.new.state) }
        ensures why { IfErr result (HasReason (max_place ≤ self.old.state.next) self.old.state before (D.faults self.new.disk)) }

        // The page is the one object that comes.
        ensures page { D.tells → OnOk result ((D.seen self.new.disk).directory ≡ insert (D.seen self.old.disk).directory (page_name self.old.state.next) bytes.now) }
        ensures calls { D.tells → OnOk result ((D.seen self.new.disk).moment ≡ (D.seen self.old.disk).moment + 2) }
    {
        let Some(no) = self.state.free_number() else {
            return Err(Refused::Exhausted { last: MAX_PLACE });
        };
        match self.flights.write(&mut self.disk, number, no, bytes) {
            Ok(()) => {
                self.state.draw();
                Ok(())
            }
            Err(DiskRefused::Failed) => {
                let place = self.state.stop();
                Err(Refused::Fault {
                    place,
                    before,
                    after: self.disk.faults(),
                })
            }
            Err(DiskRefused::NoMemory) => Err(Refused::NoMemory),
        }
    }

    /// Cites what the job of the number made in the place of what goes. The other jobs stay in flight, and beside one no erase leaves the list.
    pub fn install_now(
        &mut self,
        alloc: Global,
        before: u64,
        number: u64,
        made: Made,
    ) -> Result<(), Refused>
        requires may { MayStep D.tells (view_of self.old) before }
        requires flies { IsSome (flying_by number self.old.flights) }
        requires outputs { IfSome (flying_by number self.old.flights) (λ flying. AreOutputsOf D.tells flying made) }
        ensures keeps { Keeps D.tells (view_of self.old) (view_of self.new) (result_err result) }
        ensures undone { IfErr result (IsUndone D.tells (view_of self.old) (view_of self.new)) }
        ensures done { D.tells → (s : Stored) → Holds (view_of self.old) s
            → IfSome (flying_by number self.old.flights) (λ flying. OnOk result ((t : Stored) × IsInstalledWith (company_of (without number self.old.flights)) s flying.task t × Holds (view_of self.new) t
            × AreFirst (names_in flying.written) s t)) }
        ensures steady { OnOk result (IsSteady self.old.state self.new.state) }
        ensures ended { OnOk result ((self.new.flights ≡ without number self.old.flights) × AreNamed (view_of self.new).pins.pins (view_of self.new).retired) }
        ensures kept { IfErr result (λ why. (self.new.flights ≡ self.old.flights) × (self.new.retired ≡ self.old.retired)) }
        ensures begun { self.new.begun ≡ self.old.begun }
        ensures drawn { OnErr result (self.new.state.next ≡ self.old.state.next) }
        ensures why { IfErr result (HasReason (IfSome (flying_by number self.old.flights) (λ flying. max_place ≤ self.old.state.next + (numbers_in made - length flying.written)))
            self.old.state before (D.faults self.new.disk)) }
    {
        let Some(flight) = self.flights.find(number) else {
            unreachable!()
        };
        let company = self.flights.company_for(number);
        let made = installing(
            alloc,
            company,
            &self.state,
            &self.version,
            &flight.task,
            made,
            flight.written.names(),
            &self.retired,
            &self.pins,
        )?;
        self.merge_now(alloc, before, Some(number), made)
    }

    /// Gives the job of the number up: its pages are removed, and the other jobs stay in flight. Where none has the number nothing is done. It takes no memory.
    pub fn cancel_now(&mut self, before: u64, number: u64) -> Result<(), Refused>
        requires may { MayStep D.tells (view_of self.old) before }
        ensures keeps { Keeps D.tells (view_of self.old) (view_of self.new) (result_err result) }
        ensures held { D.tells → (s : Stored) → Holds (view_of self.old) s → OnOk result (Holds (view_of self.new) s) }
        ensures undone { IfErr result (IsUndone D.tells (view_of self.old) (view_of self.new)) }
        ensures ended { self.new.flights ≡ without number self.old.flights }
        ensures retired { self.new.retired ≡ self.old.retired }
        ensures begun { self.new.begun ≡ self.old.begun }
        ensures state { OnOk result (self.new.state ≡ self.old.state) }
        ensures version { self.new.version ≡ self.old.version }
        ensures why { IfErr result (HasReason ⊥ self.old.state before (D.faults self.new.disk)) }
        ensures no_memory { IsErrOf result refused.NoMemory → ⊥ }
    {
        let Some(written) = self.flights.end(number) else {
            return Ok(());
        };
        match remove_pages(&mut self.disk, written) {
            Ok(()) => Ok(()),
            Err(_) => {
                let place = self.state.stop();
                Err(Refused::Fault {
                    place,
                    before,
                    after: self.disk.faults(),
                })
            }
        }
    }

    /// Gives all jobs in flight up, one after another. It takes no memory.
    fn cancel_all(&mut self, before: u64) -> Result<(), Refused>
        requires may { MayStep D.tells (view_of self.old) before }
        ensures keeps { Keeps D.tells (view_of self.old) (view_of self.new) (result_err result) }
        ensures held { D.tells → (s : Stored) → Holds (view_of self.old) s → OnOk result (Holds (view_of self.new) s) }
        ensures undone { IfErr result (IsUndone D.tells (view_of self.old) (view_of self.new)) }
        ensures free { self.new.flights ≡ [] }
        ensures retired { self.new.retired ≡ self.old.retired }
        ensures begun { self.new.begun ≡ self.old.begun }
        ensures state { OnOk result (self.new.state ≡ self.old.state) }
        ensures version { self.new.version ≡ self.old.version }
        ensures why { IfErr result (HasReason ⊥ self.old.state before (D.faults self.new.disk)) }
        ensures no_memory { IsErrOf result refused.NoMemory → ⊥ }
    {
        while let Some(number) = self.flights.first() {
            if let Err(why) = self.cancel_now(before, number) {
                self.flights.clear();
                return Err(why);
            }
        }
        Ok(())
    }

    /// Gives all jobs in flight up, and removes their pages and the retired ones that no held pin names, in one clear; it makes no device call where there are none. Where there is no
    /// memory for their names the jobs alone are given up.
    pub fn clear_now(&mut self, alloc: Global, before: u64) -> Result<(), Refused>
        requires may { MayStep D.tells (view_of self.old) before }
        ensures keeps { Keeps D.tells (view_of self.old) (view_of self.new) (result_err result) }
        ensures held { D.tells → (s : Stored) → Holds (view_of self.old) s → OnOk result (Holds (view_of self.new) s) }
        ensures partly { IfErr result (IsDoneInPart D.tells (λ s t. t ≡ s) (view_of self.old) (view_of self.new)) }
        ensures free { self.new.flights ≡ [] }
        ensures retired { OnOk result ((view_of self.new).retired ≡ filter (is_named (view_of self.old).pins.pins) (view_of self.old).retired) }
        ensures begun { self.new.begun ≡ self.old.begun }
        ensures state { OnOk result (self.new.state ≡ self.old.state) }
        ensures version { self.new.version ≡ self.old.version }
        ensures why { IfErr result (HasReason ⊥ self.old.state before (D.faults self.new.disk)) }
        ensures idle { loose_in self.old.flights ≡ [] → AreNamed (view_of self.old).pins.pins (view_of self.old).retired → OnOk result (self.new.disk ≡ self.old.disk) }
    {
        let Ok(names) = self.unneeded(alloc) else {
            self.cancel_all(before)?;
            return Err(Refused::NoMemory);
        };
        self.flights.clear();
        if names.is_empty() {
            return Ok(());
        }
        match remove_named(&mut self.disk, &names) {
            Ok(()) => {
                let pins = &self.pins;
                self.retired.retain(|name| pins.holds(*name));
                Ok(())
            }
            Err(_) => {
                let place = self.state.stop();
                Err(Refused::Fault {
                    place,
                    before,
                    after: self.disk.faults(),
                })
            }
        }
    }

    /// The names of the retired pages that no held pin names, and of the pages of the jobs in flight.
    fn unneeded(&self, alloc: Global) -> Result<Vec<Name>, NoMemory>
        ensures { IfOk result (λ names. names.items ≡ filter (λ name. not (is_named (view_of self.now).pins.pins name)) (view_of self.now).retired ++ names_in (loose_in self.now.flights)) }
    {
        let mut names = self.pins.retired_free(alloc, &self.retired)?;
        self.flights.add_names(&mut names)?;
        Ok(names)
    }
}
