//! The jobs of a store: merges and sweeps that run beside its other calls.
ghost use Rattle.std.specs.Prelude.{◌≡◌, ◌≢◌, ◌≤◌, ◌<◌, ◌+◌, ◌⊎◌, ℕ, [], true, Some, None, length, IfOk, IfErr, IfSome, IsErrOf, IsOk, IsSome, OnErr, OnOk, option_map};
ghost use Rattle.std.specs.Result.{result_err};
ghost use Rattle.std.specs.FinMap.{insert};
ghost use Rattle.lethe_advance.specs.Settled.{names_in};
ghost use Rattle.lethe_base.specs.Limits.{max_place};
ghost use Rattle.lethe_base.specs.declared.call.Call.TheVariants.{Work};
ghost use Rattle.lethe_base.specs.declared.refused.Refused.TheVariants as refused;
ghost use Rattle.lethe_disk.specs.Disk.{IsIdle};
ghost use Rattle.lethe_file.specs.Agreement.{page_name};
ghost use Rattle.lethe_stored.specs.Stored.{Stored};
ghost use Rattle.lethe_job.specs.Jobs.{next_bytes};
ghost use Rattle.lethe_job.specs.MadeOf.{pages_of};
ghost use Rattle.lethe_job.specs.Works.{IsBegunIn, plain_task, plan_of};
ghost use Rattle.lethe_core.specs.Pinned.{AreNamed};
ghost use Rattle.lethe_core.specs.Asked.{Serves};
ghost use Rattle.lethe_core.specs.Flights.{company_of, flying_by, without};
ghost use Rattle.lethe_core.specs.Jobs.{IsAtWork, IsInFlight, IsWhole};
ghost use Rattle.lethe_core.specs.Merges.{AreFirst, IsInstalledWith, IsNextPlan};
ghost use Rattle.lethe_core.specs.Running.{Holds, IsSound};
ghost use Rattle.lethe_core.specs.View.{face_of, view_of};
ghost use Rattle.lethe_engine.specs.Answers.{Answers};
ghost use Rattle.lethe_engine.specs.Jobs.{IsNextPage, IsPast, IsShortToInstall, begun_face, cancelled_face, ended_face, written_face};
ghost use Rattle.lethe_engine.specs.Refusals.{HasReasonOfBegin, HasReasonOfJob, HasReasonOfWork};

use crate::Engine;
use lethe_base::{MAX_PLACE, NoMemory, Refused};
use lethe_disk::Disk;
use lethe_job::{Job, Piece};
use std::alloc::Global;

impl<D: Disk> Engine<D> {
    /// Begins the merge or the sweep that is due, as a job with a port of its own. It reads no page and makes no device call. Until the job is installed or given up no other
    /// begins.
    ///
    /// # Errors
    ///
    /// `Stopped`, `NothingDue` where nothing is due or a job is in flight, `NoMemory`.
    pub fn begin(&mut self, alloc: Global) -> Result<Job<D>, Refused>
        // Opening gives this, and each call leaves it so.
        requires { IsSound D.tells (view_of self.old.core) }
        ensures answers { Answers D.tells (Serves Work) (result_err result) (begun_face (face_of (view_of self.old.core)) result) (view_of self.old.core) (view_of self.new.core) }

        // The job has the next number and the present round, and has made and fetched nothing. Its task is that of the first merge or sweep that is due.
        ensures begun { D.tells → (s : Stored) → Holds (view_of self.old.core) s → IfOk result (λ job. IsBegunIn s (plain_task job.task.value) × Holds (view_of self.new.core) s) }

        // On any disk: the plan of its task is that of the shape in memory, and `NothingDue` where no job is in flight says that there is none.
        ensures picked { IfOk result (λ job. IsNextPlan (view_of self.old.core) (Some (plan_of (plain_task job.task.value)))) }
        ensures unpicked { self.old.core.flights ≡ [] → IsErrOf result refused.NothingDue → IsNextPlan (view_of self.old.core) None }
        ensures number { IfOk result (λ job. (job.number ≡ self.old.core.begun.jobs) × (job.round ≡ self.old.core.begun.rounds)) }
        ensures works { IfOk result (IsAtWork D.tells (view_of self.new.core)) }
        ensures unmade { IfOk result (λ job. (job.made ≡ None) × (D.fetches job.port ≡ 0) × (D.port_faults job.port ≡ 0)) }

        // A refusal has its reason.
        ensures why { IfErr result (HasReasonOfBegin D.tells (view_of self.old.core)) }
        ensures stopped { (at : ℕ) → self.old.core.state.stopped ≡ Some at → IsErrOf result (refused.Stopped at) × (self.new ≡ self.old) }
        ensures busy { self.old.core.state.stopped ≡ None → self.old.core.flights ≢ [] → IsErrOf result refused.NothingDue × (self.new ≡ self.old) }

        // All else is as it was.
        ensures same { (self.new.core.state ≡ self.old.core.state) × (self.new.core.version ≡ self.old.core.version) × (self.new.core.retired ≡ self.old.core.retired) }
        ensures idle { D.tells → IsIdle (D.seen self.old.core.disk) (D.seen self.new.core.disk) }
        ensures faults { D.faults self.new.core.disk ≡ D.faults self.old.core.disk }
        ensures certificates { self.new.certificates ≡ self.old.certificates }
        ensures pins { self.new.core.pins ≡ self.old.core.pins }
    {
        if let Some(at) = self.core.state.stopped() {
            return Err(Refused::Stopped { at });
        }
        if !self.core.flights.is_empty() {
            return Err(Refused::NothingDue);
        }
        match self.core.begin_now(alloc) {
            Ok(Some(job)) => Ok(job),
            Ok(None) => Err(Refused::NothingDue),
            Err(NoMemory) => Err(Refused::NoMemory),
        }
    }

    /// Writes the job's next page, and syncs. The page has the next object number, and no manifest cites it yet.
    ///
    /// # Errors
    ///
    /// `Stopped`, `Cancelled` where the job was begun in an earlier round, `Exhausted` where the last place is taken or no number is left, `NoMemory`, `Fault`, which
    /// stops the store. After each of these the job can only be given up.
    pub fn write_out(&mut self, job: &mut Job<D>, piece: Piece) -> Result<(), Refused>
        // Opening gives this, and each call leaves it so.
        requires sound { IsSound D.tells (view_of self.old.core) }
        requires works { IsAtWork D.tells (view_of self.old.core) job.old ⊎ IsPast (view_of self.old.core) job.old }
        requires next { IsNextPage job.old piece }
        ensures answers { Answers D.tells (Serves Work) (result_err result) (written_face job.old.number (face_of (view_of self.old.core)) (page_name self.old.core.state.next, next_bytes job.old) result) (view_of self.old.core) (view_of self.new.core) }

        // Acknowledged: the page is there beside what is stored, and is the one object that came.
        ensures works { OnOk result (IsAtWork D.tells (view_of self.new.core) job.new) }
        ensures written { OnOk result (job.new.written ≡ job.old.written + 1) }
        ensures unwritten { OnErr result (job.new.written ≡ job.old.written) }
        ensures held { D.tells → (s : Stored) → Holds (view_of self.old.core) s → OnOk result (Holds (view_of self.new.core) s) }
        ensures page { D.tells → OnOk result ((D.seen self.new.core.disk).directory ≡ insert (D.seen self.old.core.disk).directory (page_name self.old.core.state.next) (next_bytes job.old)) }

        // A job in flight stays so, and where it was refused it can only be given up.
        ensures flies { IsInFlight (view_of self.old.core) job.old → IsInFlight (view_of self.new.core) job.new }
        ensures refused { OnErr result (job.new.refused ≡ true) }
        ensures same { (job.new.made ≡ job.old.made) × (job.new.task ≡ job.old.task) × (job.new.port ≡ job.old.port) × (job.new.number ≡ job.old.number) × (job.new.round ≡ job.old.round) }

        // A refusal has its reason.
        ensures why { IfErr result (HasReasonOfJob (max_place ≤ self.old.core.state.next) job.old (view_of self.old.core) (view_of self.new.core)) }
        ensures retired { self.new.core.retired ≡ self.old.core.retired }
        ensures drawn { OnErr result (self.new.core.state.next ≡ self.old.core.state.next) }
        ensures stopped { (at : ℕ) → self.old.core.state.stopped ≡ Some at → IsErrOf result (refused.Stopped at) × (self.new ≡ self.old) }
        ensures past { self.old.core.state.stopped ≡ None → IsPast (view_of self.old.core) job.old
            → IsErrOf result (refused.Cancelled job.old.round self.old.core.begun.rounds) × (self.new ≡ self.old) }
        ensures exhausted { self.old.core.state.stopped ≡ None → IsInFlight (view_of self.old.core) job.old → self.old.core.state.count ≡ max_place
            → IsErrOf result (refused.Exhausted max_place) × (self.new ≡ self.old) }
        ensures certificates { self.new.certificates ≡ self.old.certificates }
        ensures pins { self.new.core.pins ≡ self.old.core.pins }
    {
        // The piece says only that this page is the next one.
        drop(piece);
        let written = self.write_next(job);
        if written.is_ok() {
            job.count_written();
        } else {
            job.refuse();
        }
        written
    }

    /// Whether the job may go on in a store that isn't stopped: one of an earlier round is refused.
    fn check_round(&self, job: &Job<D>) -> Result<(), Refused>
        ensures refused { IfErr result (λ why. (why ≡ refused.Cancelled job.now.round self.now.core.begun.rounds) × (self.now.core.state.stopped ≡ None) × IsPast (view_of self.now.core) job.now) }
        ensures present { OnOk result (self.now.core.state.stopped ≡ None → IsPast (view_of self.now.core) job.now → ⊥) }
    {
        let now = self.rounds();
        if self.core.state.stopped().is_none() && job.round() < now {
            return Err(Refused::Cancelled {
                begun: job.round(),
                now,
            });
        }
        Ok(())
    }

    /// Writes the job's next page.
    fn write_next(&mut self, job: &Job<D>) -> Result<(), Refused>
        requires sound { IsSound D.tells (view_of self.old.core) }
        requires works { IsAtWork D.tells (view_of self.old.core) job.now ⊎ IsPast (view_of self.old.core) job.now }
        requires made { IsSome job.now.made }
        requires left { IfSome job.now.made (λ made. job.now.written < length (pages_of made)) }
        ensures answers { Answers D.tells (Serves Work) (result_err result) (written_face job.now.number (face_of (view_of self.old.core)) (page_name self.old.core.state.next, next_bytes job.now) result) (view_of self.old.core) (view_of self.new.core) }
        ensures held { D.tells → (s : Stored) → Holds (view_of self.old.core) s → OnOk result (Holds (view_of self.new.core) s) }
        ensures page { D.tells → OnOk result ((D.seen self.new.core.disk).directory ≡ insert (D.seen self.old.core.disk).directory (page_name self.old.core.state.next) (next_bytes job.now)) }
        ensures present { OnOk result (IsAtWork D.tells (view_of self.old.core) job.now) }
        ensures why { IfErr result (HasReasonOfJob (max_place ≤ self.old.core.state.next) job.now (view_of self.old.core) (view_of self.new.core)) }
        ensures retired { self.new.core.retired ≡ self.old.core.retired }
        ensures drawn { OnErr result (self.new.core.state.next ≡ self.old.core.state.next) }
        ensures stopped { (at : ℕ) → self.old.core.state.stopped ≡ Some at → IsErrOf result (refused.Stopped at) × (self.new ≡ self.old) }
        ensures past { self.old.core.state.stopped ≡ None → IsPast (view_of self.old.core) job.now
            → IsErrOf result (refused.Cancelled job.now.round self.old.core.begun.rounds) × (self.new ≡ self.old) }
        ensures exhausted { self.old.core.state.stopped ≡ None → IsInFlight (view_of self.old.core) job.now → self.old.core.state.count ≡ max_place
            → IsErrOf result (refused.Exhausted max_place) × (self.new ≡ self.old) }
        ensures certificates { self.new.certificates ≡ self.old.certificates }
        ensures pins { self.new.core.pins ≡ self.old.core.pins }
    {
        self.check_round(job)?;
        self.core.state.may_change()?;
        let before = self.core.disk.faults();
        self.core.write_now(before, job.number(), job.next_page())
    }

    /// Installs what a job made, whose pages are all written: it takes the place of the files that go, and what no manifest cites any more is removed, but for the
    /// pages that a held pin names.
    ///
    /// # Errors
    ///
    /// As for `write_out`. The job is handed back, and can only be given up.
    pub fn install(&mut self, alloc: Global, job: Job<D>) -> Result<(), (Job<D>, Refused)>
        // Opening gives this, and each call leaves it so.
        requires sound { IsSound D.tells (view_of self.old.core) }
        requires works { IsAtWork D.tells (view_of self.old.core) job ⊎ IsPast (view_of self.old.core) job }
        requires whole { IsWhole job }
        ensures answers { Answers D.tells (Serves Work) (option_map (λ back. back.1) (result_err result)) (ended_face job.number (face_of (view_of self.old.core)) result) (view_of self.old.core) (view_of self.new.core) }

        // Acknowledged: what is stored is the outcome of the task, whose new pages begin with those of the job in flight. Beside another job no erase leaves the list.
        ensures done { D.tells → (s : Stored) → Holds (view_of self.old.core) s
            → OnOk result ((t : Stored) × IsInstalledWith (company_of (without job.number self.old.core.flights)) s (plain_task job.task.value) t × Holds (view_of self.new.core) t
            × IfSome (flying_by job.number self.old.core.flights) (λ flying. AreFirst (names_in flying.written) s t)) }

        // Of the pages that no manifest cites any more exactly those stay that a held pin names.
        ensures named { OnOk result (AreNamed (view_of self.new.core).pins.pins (view_of self.new.core).retired) }

        // A refusal has its reason. A job in flight stays so, and can only be given up.
        ensures back { IfErr result (λ back. (IsInFlight (view_of self.old.core) job → IsInFlight (view_of self.new.core) back.0) × (back.0.refused ≡ true)) }
        ensures handed { IfErr result (λ back. (back.0.task ≡ job.task) × (back.0.number ≡ job.number) × (back.0.round ≡ job.round)) }
        ensures why { IfErr result (λ back. HasReasonOfJob (IsShortToInstall (view_of self.old.core) job) job (view_of self.old.core) (view_of self.new.core) back.1) }
        ensures left { OnErr result (self.new.core.retired ≡ self.old.core.retired) }
        ensures drawn { OnErr result (self.new.core.state.next ≡ self.old.core.state.next) }
        ensures stopped { (at : ℕ) → self.old.core.state.stopped ≡ Some at → IfErr result (λ back. back.1 ≡ refused.Stopped at) × OnOk result ⊥ × (self.new ≡ self.old) }
        ensures past { self.old.core.state.stopped ≡ None → IsPast (view_of self.old.core) job
            → IfErr result (λ back. back.1 ≡ refused.Cancelled job.round self.old.core.begun.rounds) × OnOk result ⊥ × (self.new ≡ self.old) }
        ensures exhausted { self.old.core.state.stopped ≡ None → IsInFlight (view_of self.old.core) job → self.old.core.state.count ≡ max_place
            → IfErr result (λ back. back.1 ≡ refused.Exhausted max_place) × OnOk result ⊥ × (self.new ≡ self.old) }
        ensures certificates { self.new.certificates ≡ self.old.certificates }
        ensures pins { self.new.core.pins ≡ self.old.core.pins }
    {
        let mut job = job;
        match self.install_whole(alloc, &mut job) {
            Ok(()) => Ok(()),
            Err(why) => {
                job.refuse();
                Err((job, why))
            }
        }
    }

    /// Installs what the job made, and takes that from it where it is needed.
    fn install_whole(&mut self, alloc: Global, job: &mut Job<D>) -> Result<(), Refused>
        requires sound { IsSound D.tells (view_of self.old.core) }
        requires works { IsAtWork D.tells (view_of self.old.core) job.old ⊎ IsPast (view_of self.old.core) job.old }
        requires whole { IsWhole job.old }
        ensures answers { Answers D.tells (Serves Work) (result_err result) (ended_face job.old.number (face_of (view_of self.old.core)) result) (view_of self.old.core) (view_of self.new.core) }
        ensures done { D.tells → (s : Stored) → Holds (view_of self.old.core) s
            → OnOk result ((t : Stored) × IsInstalledWith (company_of (without job.old.number self.old.core.flights)) s (plain_task job.old.task.value) t × Holds (view_of self.new.core) t
            × IfSome (flying_by job.old.number self.old.core.flights) (λ flying. AreFirst (names_in flying.written) s t)) }
        ensures named { OnOk result (AreNamed (view_of self.new.core).pins.pins (view_of self.new.core).retired) }
        ensures job { job.new ≡ record job.old { made = job.new.made } }
        ensures why { IfErr result (HasReasonOfJob (IsShortToInstall (view_of self.old.core) job.old) job.old (view_of self.old.core) (view_of self.new.core)) }
        ensures left { OnErr result (self.new.core.retired ≡ self.old.core.retired) }
        ensures drawn { OnErr result (self.new.core.state.next ≡ self.old.core.state.next) }
        ensures stopped { (at : ℕ) → self.old.core.state.stopped ≡ Some at → IsErrOf result (refused.Stopped at) × (self.new ≡ self.old) }
        ensures past { self.old.core.state.stopped ≡ None → IsPast (view_of self.old.core) job.old
            → IsErrOf result (refused.Cancelled job.old.round self.old.core.begun.rounds) × (self.new ≡ self.old) }
        ensures exhausted { self.old.core.state.stopped ≡ None → IsInFlight (view_of self.old.core) job.old → self.old.core.state.count ≡ max_place
            → IsErrOf result (refused.Exhausted max_place) × (self.new ≡ self.old) }
        ensures certificates { self.new.certificates ≡ self.old.certificates }
        ensures pins { self.new.core.pins ≡ self.old.core.pins }
    {
        self.check_round(job)?;
        self.core.state.may_change()?;
        let before = self.core.disk.faults();
        let made = job.take_made().unwrap();
        self.core.install_now(alloc, before, job.number(), made)
    }

    /// Gives a job up, and removes its pages. It takes no memory. Where the last place of the history is taken nothing can be removed: then the job's pages stay, and it
    /// counts as in flight, until the store is opened again. A job of an earlier round was given up when that ended, and nothing is left to be done.
    ///
    /// # Errors
    ///
    /// `Stopped`, `Fault`, which stops the store.
    pub fn cancel(&mut self, job: Job<D>) -> Result<(), Refused>
        // Opening gives this, and each call leaves it so.
        requires sound { IsSound D.tells (view_of self.old.core) }
        requires flies { IsInFlight (view_of self.old.core) job ⊎ IsPast (view_of self.old.core) job }
        ensures answers { Answers D.tells (Serves Work) (result_err result) (cancelled_face (view_of self.old.core) job) (view_of self.old.core) (view_of self.new.core) }

        // What is stored stays, and where nothing can be removed, all does.
        ensures retired { self.new.core.retired ≡ self.old.core.retired }
        ensures held { D.tells → (s : Stored) → Holds (view_of self.old.core) s → OnOk result (Holds (view_of self.new.core) s) }
        ensures last { self.old.core.state.stopped ≡ None → self.old.core.state.count ≡ max_place → IsOk result × (self.new ≡ self.old) }
        ensures past { IsPast (view_of self.old.core) job → (self.old.core.state.stopped ≡ None → IsOk result) × (self.new ≡ self.old) }

        // A refusal has its reason: an earlier call failed, or the disk failed in this one.
        ensures why { IfErr result (HasReasonOfWork ⊥ (view_of self.old.core) (view_of self.new.core)) }
        ensures no_memory { IsErrOf result refused.NoMemory → ⊥ }
        ensures exhausted { (last : ℕ) → IsErrOf result (refused.Exhausted last) → ⊥ }
        ensures stopped { (at : ℕ) → self.old.core.state.stopped ≡ Some at → IsErrOf result (refused.Stopped at) × (self.new.core.state ≡ self.old.core.state) }
        ensures certificates { self.new.certificates ≡ self.old.certificates }
        ensures pins { self.new.core.pins ≡ self.old.core.pins }
    {
        if job.round() < self.rounds() {
            if let Some(at) = self.core.state.stopped() {
                return Err(Refused::Stopped { at });
            }
            return Ok(());
        }
        let number = job.number();
        drop(job);
        if let Some(at) = self.core.state.stopped() {
            self.core.flights.end(number);
            return Err(Refused::Stopped { at });
        }
        if self.core.state.count() >= MAX_PLACE {
            return Ok(());
        }
        let before = self.core.disk.faults();
        self.core.cancel_now(before, number)
    }
}
