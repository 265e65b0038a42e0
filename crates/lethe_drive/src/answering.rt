//! Answering one event.
ghost use Rattle.std.specs.Prelude.{◌≡◌, ◌⊎◌, ◌≤◌, ◌<◌, ◌+◌, ◌++◌, ◌^◌, ℕ, List, None, length, vec_capacity};
ghost use Rattle.lethe_base.specs.Limits.{max_time};
ghost use Rattle.lethe_base.specs.History.{History};
ghost use Rattle.lethe_base.specs.declared.config.Fields.{Fields};
ghost use Rattle.lethe_stored.specs.Stored.{Stored};
ghost use Rattle.lethe_core.specs.Running.{IsSound};
ghost use Rattle.lethe_core.specs.View.{view_of};
ghost use Rattle.lethe_cert.specs.declared.certificate.Certificate.{Certificate};
ghost use Rattle.lethe_engine.specs.StandsFor.{Opened, StandsFor};
ghost use Rattle.lethe_engine.specs.Ticks.{answered_by};
ghost use Rattle.lethe_drive.specs.Certificates.{certificates_of};
ghost use Rattle.lethe_drive.specs.Driving.{IsPinnedKept, IsTheirs};
ghost use Rattle.lethe_drive.specs.Moments.{IsKnown, moment_of, numbers_of, there_of};
ghost use Rattle.lethe_drive.specs.Past.{IsTickAsked};
ghost use Rattle.lethe_drive.specs.Steps.{IsStep};
ghost use Rattle.lethe_drive.specs.Ticks.{IsTick};
ghost use Rattle.lethe_drive.specs.Replies as replies;

use crate::event::{Event, Reply};
use crate::jobs::Jobs;
use crate::pinning::{pin, release};
use crate::working::{begin, cancel, install, write_out};
use lethe_base::{List, Refused};
use lethe_disk::Disk;
use lethe_engine::{Engine, Ticked};
use lethe_snapshot::Snapshot;
use std::alloc::Global;

/// Makes the call that the event asks for.
pub(crate) fn answer<D: Disk>(
    engine: &mut Engine<D>,
    alloc: Global,
    port: &mut D::Port,
    jobs: &mut Jobs<D>,
    snapshots: &mut Vec<Snapshot<D>>,
    event: Event,
) -> Reply
    requires sound { IsSound D.tells (view_of engine.old.core) }
    requires jobs { IsTheirs D.tells (view_of engine.old.core) jobs.old }
    requires room { jobs.old.begun < 2 ^ 63 }
    requires space { length snapshots.old.items < vec_capacity snapshots.old }
    ensures sound { IsSound D.tells (view_of engine.new.core) }
    ensures jobs { IsTheirs D.tells (view_of engine.new.core) jobs.new }
    ensures step { D.tells → (config : Fields) (opened : Opened) (h : History) (answered : List Certificate) → StandsFor config opened h (view_of engine.old.core) answered → (s : Stored) → IsKnown config h (view_of engine.old.core) s
        → (g : History) × (t : Stored) × IsKnown config g (view_of engine.new.core) t × StandsFor config opened g (view_of engine.new.core) (answered ++ certificates_of result)
        × IsStep D.ports_fail h (moment_of (view_of engine.old.core) s (D.fetches port.old) (D.port_faults port.old) jobs.old.begun (there_of jobs.old) (numbers_of snapshots.old.items)) event result g (moment_of (view_of engine.new.core) t (D.fetches port.new) (D.port_faults port.new) jobs.new.begun (there_of jobs.new) (numbers_of snapshots.new.items)) }
    ensures pinned { D.tells → IsPinnedKept (view_of engine.old.core) (view_of engine.new.core) }
    ensures certificates { engine.new.certificates.items ≡ engine.old.certificates.items ++ certificates_of result }
    ensures faults { D.faults engine.old.core.disk ≤ D.faults engine.new.core.disk }
    ensures port_faults { D.port_faults port.old ≤ D.port_faults port.new }
    ensures begun { jobs.new.begun ≤ jobs.old.begun + 1 }
    ensures more { length snapshots.new.items ≤ length snapshots.old.items + 1 }
    ensures space { vec_capacity snapshots.old ≤ vec_capacity snapshots.new }
    // Only a tick ends a round, and then no job is there.
    ensures rounds { (engine.new.core.begun.rounds ≡ engine.old.core.begun.rounds) ⊎ (IsTickAsked event × (engine.new.core.begun.rounds ≡ engine.old.core.begun.rounds + 1) × (jobs.new.there ≡ None)) }
{
    match event {
        Event::Put { key, dkey, value } => placed(engine.put(alloc, port, key, dkey, value)),
        Event::Delete { key } => placed(engine.delete(alloc, port, key)),
        Event::Erase { range } => placed(engine.erase(alloc, port, range)),
        Event::Tick { to } => told(tick(engine, alloc, port, jobs, to.get())),
        Event::Get { key } => match engine.get(alloc, port, &key) {
            Ok(held) => Reply::Got(held),
            Err(why) => Reply::Refused(why),
        },
        Event::Scan { lo, hi } => match engine.scan(alloc, port, &lo, &hi) {
            Ok(pairs) => Reply::Pairs(List::of(pairs)),
            Err(why) => Reply::Refused(why),
        },
        Event::Freeze => flagged(engine.freeze(alloc)),
        Event::Flush => flagged(engine.flush(alloc)),
        Event::Begin => begin(engine, alloc, jobs),
        Event::WriteOut { job } => write_out(engine, alloc, jobs, job),
        Event::Install { job } => install(engine, alloc, jobs, job),
        Event::Cancel { job } => cancel(engine, jobs, job),
        Event::Pin => pin(engine, alloc, snapshots),
        Event::Release { pin } => release(engine, snapshots, pin),
    }
}

/// The reply of a change.
fn placed(answer: Result<u64, Refused>) -> Reply
    ensures { result ≡ replies.placed answer }
{
    match answer {
        Ok(place) => Reply::Place(place),
        Err(why) => Reply::Refused(why),
    }
}

/// Moves the clock to a time up to the greatest. Where that ends the round, no job of it is there.
fn tick<D: Disk>(
    engine: &mut Engine<D>,
    alloc: Global,
    port: &mut D::Port,
    jobs: &mut Jobs<D>,
    to: u64,
) -> Result<Ticked, Refused>
    requires sound { IsSound D.tells (view_of engine.old.core) }
    requires jobs { IsTheirs D.tells (view_of engine.old.core) jobs.old }
    requires within { to ≤ max_time }
    ensures sound { IsSound D.tells (view_of engine.new.core) }
    ensures jobs { IsTheirs D.tells (view_of engine.new.core) jobs.new }
    ensures step { D.tells → (config : Fields) (opened : Opened) (h : History) (answered : List Certificate) → StandsFor config opened h (view_of engine.old.core) answered → (s : Stored) → IsKnown config h (view_of engine.old.core) s → (snapshots : List ℕ)
        → (g : History) × (t : Stored) × IsKnown config g (view_of engine.new.core) t × StandsFor config opened g (view_of engine.new.core) (answered ++ answered_by result)
        × IsTick D.ports_fail to h (moment_of (view_of engine.old.core) s (D.fetches port.old) (D.port_faults port.old) jobs.old.begun (there_of jobs.old) snapshots) result g (moment_of (view_of engine.new.core) t (D.fetches port.new) (D.port_faults port.new) jobs.new.begun (there_of jobs.new) snapshots) }
    ensures pinned { D.tells → IsPinnedKept (view_of engine.old.core) (view_of engine.new.core) }
    ensures certificates { engine.new.certificates.items ≡ engine.old.certificates.items ++ answered_by result }
    ensures faults { D.faults engine.old.core.disk ≤ D.faults engine.new.core.disk }
    ensures port_faults { D.port_faults port.old ≤ D.port_faults port.new }
    ensures begun { jobs.new.begun ≡ jobs.old.begun }
    ensures rounds { ((engine.new.core.begun.rounds ≡ engine.old.core.begun.rounds) × (jobs.new ≡ jobs.old)) ⊎ ((engine.new.core.begun.rounds ≡ engine.old.core.begun.rounds + 1) × (jobs.new.there ≡ None)) }
{
    let rounds = engine.rounds();
    let answer = engine.tick(alloc, port, to);
    if engine.rounds() > rounds {
        jobs.there = None;
    }
    answer
}

/// The reply of a tick.
fn told(answer: Result<Ticked, Refused>) -> Reply
    ensures { result ≡ replies.told answer }
{
    match answer {
        Ok(ticked) => Reply::Ticked(ticked),
        Err(why) => Reply::Refused(why),
    }
}

/// The reply of a call that tells whether there was anything to do.
pub(crate) fn flagged(answer: Result<bool, Refused>) -> Reply
    ensures { result ≡ replies.flagged answer }
{
    match answer {
        Ok(flag) => Reply::Flag(flag),
        Err(why) => Reply::Refused(why),
    }
}

/// The reply of a call that ends a job.
pub(crate) fn united(answer: Result<(), Refused>) -> Reply
    ensures { result ≡ replies.united answer }
{
    match answer {
        Ok(()) => Reply::Unit,
        Err(why) => Reply::Refused(why),
    }
}
