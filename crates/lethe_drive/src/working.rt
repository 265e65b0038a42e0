//! The events of jobs.
ghost use Rattle.std.specs.Prelude.{◌≡◌, ◌≤◌, ◌<◌, ◌+◌, ◌^◌, ℕ, List, [], true, false, Ok, Some, None, IsErrOf, IsSome, OnErr, OnOk};
ghost use Rattle.std.specs.Result.{result_err};
ghost use Rattle.lethe_base.specs.declared.call.Call.TheVariants.{Work};
ghost use Rattle.lethe_base.specs.History.{History};
ghost use Rattle.lethe_base.specs.declared.config.Fields.{Fields};
ghost use Rattle.lethe_base.specs.declared.refused.Refused.TheVariants.{ReadFault};
ghost use Rattle.lethe_stored.specs.Stored.{Stored};
ghost use Rattle.lethe_job.specs.Tasks.{AreSound};
ghost use Rattle.lethe_job.specs.Works.{inputs_in, plain_task};
ghost use Rattle.lethe_core.specs.Asked.{Serves, behind};
ghost use Rattle.lethe_core.specs.Jobs.{IsAtWork, IsInFlight, IsWhole};
ghost use Rattle.lethe_core.specs.Running.{IsSound};
ghost use Rattle.lethe_core.specs.View.{view_of};
ghost use Rattle.lethe_cert.specs.declared.certificate.Certificate.{Certificate};
ghost use Rattle.lethe_engine.specs.StandsFor.{Opened, StandsFor};
ghost use Rattle.lethe_drive.specs.Answers.{IsInstall, IsWriteOut};
ghost use Rattle.lethe_drive.specs.Certificates.{certificates_of};
ghost use Rattle.lethe_drive.specs.Driving.{IsPinnedKept, IsTheirs, IsWritingOn, pages_left};
ghost use Rattle.lethe_drive.specs.Moments.{IsKnown, going_of, moment_of, there_of};
ghost use Rattle.lethe_drive.specs.Steps.{IsStep};
ghost use Rattle.lethe_drive.specs.declared.event.Event.TheVariants as event;

use crate::answering::{flagged, united};
use crate::event::Reply;
use crate::jobs::{Jobs, Numbered};
use lethe_base::Refused;
use lethe_disk::Disk;
use lethe_engine::Engine;
use lethe_job::Job;
use std::alloc::Global;

/// Begins a job.
pub(crate) fn begin<D: Disk>(engine: &mut Engine<D>, alloc: Global, jobs: &mut Jobs<D>) -> Reply
    requires sound { IsSound D.tells (view_of engine.old.core) }
    requires jobs { IsTheirs D.tells (view_of engine.old.core) jobs.old }
    requires room { jobs.old.begun < 2 ^ 63 }
    ensures sound { IsSound D.tells (view_of engine.new.core) }
    ensures jobs { IsTheirs D.tells (view_of engine.new.core) jobs.new }
    ensures step { D.tells → (config : Fields) (opened : Opened) (h : History) (answered : List Certificate) → StandsFor config opened h (view_of engine.old.core) answered → (s : Stored) → IsKnown config h (view_of engine.old.core) s → (fetches faults : ℕ) (snapshots : List ℕ)
        → (g : History) × (t : Stored) × IsKnown config g (view_of engine.new.core) t × StandsFor config opened g (view_of engine.new.core) answered
        × IsStep D.ports_fail h (moment_of (view_of engine.old.core) s fetches faults jobs.old.begun (there_of jobs.old) snapshots) event.Begin result g (moment_of (view_of engine.new.core) t fetches faults jobs.new.begun (there_of jobs.new) snapshots) }
    ensures rounds { engine.new.core.begun.rounds ≡ engine.old.core.begun.rounds }
    ensures pinned { D.tells → IsPinnedKept (view_of engine.old.core) (view_of engine.new.core) }
    ensures certificates { engine.new.certificates ≡ engine.old.certificates }
    ensures none { certificates_of result ≡ [] }
    ensures faults { D.faults engine.old.core.disk ≤ D.faults engine.new.core.disk }
    ensures begun { jobs.new.begun ≤ jobs.old.begun + 1 }
{
    match engine.begin(alloc) {
        Ok(job) => {
            let number = jobs.begun;
            jobs.begun = number + 1;
            jobs.there = Some(Numbered { number, job });
            Reply::Job(number)
        }
        Err(why) => Reply::Refused(why),
    }
}

/// Takes the job's next page and writes it.
pub(crate) fn write_out<D: Disk>(
    engine: &mut Engine<D>,
    alloc: Global,
    jobs: &mut Jobs<D>,
    number: usize,
) -> Reply
    requires sound { IsSound D.tells (view_of engine.old.core) }
    requires jobs { IsTheirs D.tells (view_of engine.old.core) jobs.old }
    ensures sound { IsSound D.tells (view_of engine.new.core) }
    ensures jobs { IsTheirs D.tells (view_of engine.new.core) jobs.new }
    ensures step { D.tells → (config : Fields) (opened : Opened) (h : History) (answered : List Certificate) → StandsFor config opened h (view_of engine.old.core) answered → (s : Stored) → IsKnown config h (view_of engine.old.core) s → (fetches faults : ℕ) (snapshots : List ℕ)
        → (g : History) × (t : Stored) × IsKnown config g (view_of engine.new.core) t × StandsFor config opened g (view_of engine.new.core) answered
        × IsStep D.ports_fail h (moment_of (view_of engine.old.core) s fetches faults jobs.old.begun (there_of jobs.old) snapshots) (event.WriteOut number) result g (moment_of (view_of engine.new.core) t fetches faults jobs.new.begun (there_of jobs.new) snapshots) }
    ensures rounds { engine.new.core.begun.rounds ≡ engine.old.core.begun.rounds }
    ensures pinned { D.tells → IsPinnedKept (view_of engine.old.core) (view_of engine.new.core) }
    ensures certificates { engine.new.certificates ≡ engine.old.certificates }
    ensures none { certificates_of result ≡ [] }
    ensures faults { D.faults engine.old.core.disk ≤ D.faults engine.new.core.disk }
    ensures begun { jobs.new.begun ≡ jobs.old.begun }
{
    match &mut jobs.there {
        Some(numbered) if numbered.number == number && !numbered.job.is_refused() => {
            flagged(write_next(engine, alloc, &mut numbered.job))
        }
        _ => Reply::NoSuch,
    }
}

/// Takes the job's next page and writes it, and answers whether there was one.
fn write_next<D: Disk>(
    engine: &mut Engine<D>,
    alloc: Global,
    job: &mut Job<D>,
) -> Result<bool, Refused>
    requires sound { IsSound D.tells (view_of engine.old.core) }
    requires works { IsAtWork D.tells (view_of engine.old.core) job.old }
    requires reads { D.tells → AreSound (inputs_in (plain_task job.old.task.value)) }
    ensures sound { IsSound D.tells (view_of engine.new.core) }
    ensures flies { IsInFlight (view_of engine.new.core) job.new }
    ensures works { OnOk result (IsAtWork D.tells (view_of engine.new.core) job.new) }
    ensures whole { result ≡ Ok false → IsWhole job.new }
    ensures fewer { result ≡ Ok true → pages_left job.new < pages_left job.old }
    ensures refused { OnErr result (job.new.refused ≡ true) }
    ensures drawn { OnErr result (engine.new.core.state.next ≡ engine.old.core.state.next) }
    ensures task { job.new.task.value ≡ job.old.task.value }
    ensures number { job.new.number ≡ job.old.number }
    ensures round { job.new.round ≡ job.old.round }
    // Once its outputs are made nothing is read.
    ensures read { IsSome job.old.made → (before now : ℕ) → IsErrOf result (ReadFault before now) → ⊥ }
    ensures made { OnOk result (IsSome job.new.made) }
    ensures step { D.tells → (config : Fields) (opened : Opened) (h : History) (answered : List Certificate) → StandsFor config opened h (view_of engine.old.core) answered → (s : Stored) → IsKnown config h (view_of engine.old.core) s → (number fetches faults begun : ℕ) (snapshots : List ℕ)
        → (t : Stored) × IsKnown config (behind h 0 (Serves Work) (result_err result)) (view_of engine.new.core) t × StandsFor config opened (behind h 0 (Serves Work) (result_err result)) (view_of engine.new.core) answered
        × IsWriteOut D.ports_fail (going_of number job.old) h (moment_of (view_of engine.old.core) s fetches faults begun (Some (going_of number job.old)) snapshots) result
        (behind h 0 (Serves Work) (result_err result)) (moment_of (view_of engine.new.core) t fetches faults begun (Some (going_of number job.new)) snapshots) }
    ensures rounds { engine.new.core.begun.rounds ≡ engine.old.core.begun.rounds }
    ensures pins { engine.new.core.pins ≡ engine.old.core.pins }
    ensures pinned { D.tells → IsPinnedKept (view_of engine.old.core) (view_of engine.new.core) }
    ensures certificates { engine.new.certificates ≡ engine.old.certificates }
    ensures faults { D.faults engine.old.core.disk ≤ D.faults engine.new.core.disk }
{
    match job.next_piece(alloc)? {
        Some(piece) => {
            engine.write_out(job, piece)?;
            Ok(true)
        }
        None => Ok(false),
    }
}

/// Takes and writes the pages of the job that are left, and installs it.
pub(crate) fn install<D: Disk>(
    engine: &mut Engine<D>,
    alloc: Global,
    jobs: &mut Jobs<D>,
    number: usize,
) -> Reply
    requires sound { IsSound D.tells (view_of engine.old.core) }
    requires jobs { IsTheirs D.tells (view_of engine.old.core) jobs.old }
    ensures sound { IsSound D.tells (view_of engine.new.core) }
    ensures jobs { IsTheirs D.tells (view_of engine.new.core) jobs.new }
    ensures step { D.tells → (config : Fields) (opened : Opened) (h : History) (answered : List Certificate) → StandsFor config opened h (view_of engine.old.core) answered → (s : Stored) → IsKnown config h (view_of engine.old.core) s → (fetches faults : ℕ) (snapshots : List ℕ)
        → (g : History) × (t : Stored) × IsKnown config g (view_of engine.new.core) t × StandsFor config opened g (view_of engine.new.core) answered
        × IsStep D.ports_fail h (moment_of (view_of engine.old.core) s fetches faults jobs.old.begun (there_of jobs.old) snapshots) (event.Install number) result g (moment_of (view_of engine.new.core) t fetches faults jobs.new.begun (there_of jobs.new) snapshots) }
    ensures rounds { engine.new.core.begun.rounds ≡ engine.old.core.begun.rounds }
    ensures pinned { D.tells → IsPinnedKept (view_of engine.old.core) (view_of engine.new.core) }
    ensures certificates { engine.new.certificates ≡ engine.old.certificates }
    ensures none { certificates_of result ≡ [] }
    ensures faults { D.faults engine.old.core.disk ≤ D.faults engine.new.core.disk }
    ensures begun { jobs.new.begun ≡ jobs.old.begun }
{
    let Some(numbered) = jobs.there.take() else {
        return Reply::NoSuch;
    };
    if numbered.number != number || numbered.job.is_refused() {
        jobs.there = Some(numbered);
        return Reply::NoSuch;
    }
    united(install_whole(engine, alloc, jobs, numbered))
}

/// Writes what is left of a job, and installs it. Where that is refused the job is there still.
fn install_whole<D: Disk>(
    engine: &mut Engine<D>,
    alloc: Global,
    jobs: &mut Jobs<D>,
    numbered: Numbered<D>,
) -> Result<(), Refused>
    requires sound { IsSound D.tells (view_of engine.old.core) }
    requires works { IsAtWork D.tells (view_of engine.old.core) numbered.job }
    requires reads { D.tells → AreSound (inputs_in (plain_task numbered.job.task.value)) }
    requires none { jobs.old.there ≡ None }
    ensures sound { IsSound D.tells (view_of engine.new.core) }
    ensures jobs { IsTheirs D.tells (view_of engine.new.core) jobs.new }
    ensures step { D.tells → (config : Fields) (opened : Opened) (h : History) (answered : List Certificate) → StandsFor config opened h (view_of engine.old.core) answered → (s : Stored) → IsKnown config h (view_of engine.old.core) s → (fetches faults : ℕ) (snapshots : List ℕ)
        → (t : Stored) × IsKnown config (behind h 0 (Serves Work) (result_err result)) (view_of engine.new.core) t × StandsFor config opened (behind h 0 (Serves Work) (result_err result)) (view_of engine.new.core) answered
        × IsInstall D.ports_fail (going_of numbered.number numbered.job) h
        (moment_of (view_of engine.old.core) s fetches faults jobs.old.begun (Some (going_of numbered.number numbered.job)) snapshots) result
        (behind h 0 (Serves Work) (result_err result)) (moment_of (view_of engine.new.core) t fetches faults jobs.new.begun (there_of jobs.new) snapshots) }
    ensures begun { jobs.new.begun ≡ jobs.old.begun }
    ensures rounds { engine.new.core.begun.rounds ≡ engine.old.core.begun.rounds }
    ensures pinned { D.tells → IsPinnedKept (view_of engine.old.core) (view_of engine.new.core) }
    ensures certificates { engine.new.certificates ≡ engine.old.certificates }
    ensures faults { D.faults engine.old.core.disk ≤ D.faults engine.new.core.disk }
{
    let Numbered { number, mut job } = numbered;
    if let Err(why) = write_rest(engine, alloc, &mut job) {
        jobs.there = Some(Numbered { number, job });
        return Err(why);
    }
    match engine.install(alloc, job) {
        Ok(()) => Ok(()),
        Err((job, why)) => {
            jobs.there = Some(Numbered { number, job });
            Err(why)
        }
    }
}

/// Writes the pages of the job that are left.
fn write_rest<D: Disk>(
    engine: &mut Engine<D>,
    alloc: Global,
    job: &mut Job<D>,
) -> Result<(), Refused>
    requires sound { IsSound D.tells (view_of engine.old.core) }
    requires works { IsAtWork D.tells (view_of engine.old.core) job.old }
    requires reads { D.tells → AreSound (inputs_in (plain_task job.old.task.value)) }
    ensures sound { IsSound D.tells (view_of engine.new.core) }
    ensures flies { IsInFlight (view_of engine.new.core) job.new }
    ensures works { OnOk result (IsAtWork D.tells (view_of engine.new.core) job.new) }
    ensures whole { OnOk result (IsWhole job.new) }
    ensures refused { OnErr result (job.new.refused ≡ true) }
    ensures task { job.new.task.value ≡ job.old.task.value }
    ensures number { job.new.number ≡ job.old.number }
    ensures round { job.new.round ≡ job.old.round }
    ensures step { D.tells → (config : Fields) (opened : Opened) (h : History) (answered : List Certificate) → StandsFor config opened h (view_of engine.old.core) answered → (s : Stored) → IsKnown config h (view_of engine.old.core) s
        → (t : Stored) × IsKnown config (behind h 0 (Serves Work) (result_err result)) (view_of engine.new.core) t × StandsFor config opened (behind h 0 (Serves Work) (result_err result)) (view_of engine.new.core) answered
        × IsWritingOn D.ports_fail job.old.number (view_of engine.old.core) (view_of engine.new.core) (D.port_faults job.old.port) (D.port_faults job.new.port) s t result }
    ensures rounds { engine.new.core.begun.rounds ≡ engine.old.core.begun.rounds }
    ensures pins { engine.new.core.pins ≡ engine.old.core.pins }
    ensures pinned { D.tells → IsPinnedKept (view_of engine.old.core) (view_of engine.new.core) }
    ensures certificates { engine.new.certificates ≡ engine.old.certificates }
    ensures faults { D.faults engine.old.core.disk ≤ D.faults engine.new.core.disk }
{
    while write_next(engine, alloc, job)? {}
    Ok(())
}

/// Gives the job up.
pub(crate) fn cancel<D: Disk>(engine: &mut Engine<D>, jobs: &mut Jobs<D>, number: usize) -> Reply
    requires sound { IsSound D.tells (view_of engine.old.core) }
    requires jobs { IsTheirs D.tells (view_of engine.old.core) jobs.old }
    ensures sound { IsSound D.tells (view_of engine.new.core) }
    ensures jobs { IsTheirs D.tells (view_of engine.new.core) jobs.new }
    ensures step { D.tells → (config : Fields) (opened : Opened) (h : History) (answered : List Certificate) → StandsFor config opened h (view_of engine.old.core) answered → (s : Stored) → IsKnown config h (view_of engine.old.core) s → (fetches faults : ℕ) (snapshots : List ℕ)
        → (g : History) × (t : Stored) × IsKnown config g (view_of engine.new.core) t × StandsFor config opened g (view_of engine.new.core) answered
        × IsStep D.ports_fail h (moment_of (view_of engine.old.core) s fetches faults jobs.old.begun (there_of jobs.old) snapshots) (event.Cancel number) result g (moment_of (view_of engine.new.core) t fetches faults jobs.new.begun (there_of jobs.new) snapshots) }
    ensures rounds { engine.new.core.begun.rounds ≡ engine.old.core.begun.rounds }
    ensures pinned { D.tells → IsPinnedKept (view_of engine.old.core) (view_of engine.new.core) }
    ensures certificates { engine.new.certificates ≡ engine.old.certificates }
    ensures none { certificates_of result ≡ [] }
    ensures faults { D.faults engine.old.core.disk ≤ D.faults engine.new.core.disk }
    ensures begun { jobs.new.begun ≡ jobs.old.begun }
{
    let Some(numbered) = jobs.there.take() else {
        return Reply::NoSuch;
    };
    if numbered.number != number {
        jobs.there = Some(numbered);
        return Reply::NoSuch;
    }
    united(engine.cancel(numbered.job))
}
