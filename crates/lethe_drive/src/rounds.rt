//! Answering one event of a run, in which rounds end.
ghost use Rattle.std.specs.Prelude.{◌≡◌, ◌≤◌, ◌<◌, ◌+◌, ◌++◌, ◌^◌, List, length, vec_capacity};
ghost use Rattle.lethe_base.specs.History.{History};
ghost use Rattle.lethe_base.specs.declared.config.Fields.{Fields};
ghost use Rattle.lethe_stored.specs.Stored.{Stored};
ghost use Rattle.lethe_core.specs.Running.{IsSound};
ghost use Rattle.lethe_core.specs.View.{view_of};
ghost use Rattle.lethe_cert.specs.declared.certificate.Certificate.{Certificate};
ghost use Rattle.lethe_engine.specs.StandsFor.{Opened, StandsFor};
ghost use Rattle.lethe_drive.specs.Certificates.{certificates_of};
ghost use Rattle.lethe_drive.specs.Driving.{IsPinnedKept, IsTheirs};
ghost use Rattle.lethe_drive.specs.Moments.{IsKnown};
ghost use Rattle.lethe_drive.specs.Past.{AreEarlier};
ghost use Rattle.lethe_drive.specs.Runs.{run_of};
ghost use Rattle.lethe_drive.specs.Steps.{IsEvent};

use crate::answering::answer;
use crate::event::{Event, Reply};
use crate::jobs::Jobs;
use crate::past::{Past, give_up, place_of, refuse};
use lethe_disk::Disk;
use lethe_engine::Engine;
use lethe_snapshot::Snapshot;
use std::alloc::Global;

/// Makes the call that the event asks for, of a job of an earlier round too.
pub(crate) fn answer_any<D: Disk>(
    engine: &mut Engine<D>,
    alloc: Global,
    port: &mut D::Port,
    jobs: &mut Jobs<D>,
    past: &mut Vec<Past>,
    snapshots: &mut Vec<Snapshot<D>>,
    event: Event,
) -> Reply
    requires sound { IsSound D.tells (view_of engine.old.core) }
    requires jobs { IsTheirs D.tells (view_of engine.old.core) jobs.old }
    requires earlier { AreEarlier engine.old.core.begun.rounds past.old.items }
    requires room { jobs.old.begun < 2 ^ 63 }
    requires space { length past.old.items < vec_capacity past.old }
    requires pins { length snapshots.old.items < vec_capacity snapshots.old }
    ensures sound { IsSound D.tells (view_of engine.new.core) }
    ensures jobs { IsTheirs D.tells (view_of engine.new.core) jobs.new }
    ensures earlier { AreEarlier engine.new.core.begun.rounds past.new.items }
    ensures event { D.tells → (config : Fields) (opened : Opened) (h : History) (answered : List Certificate) → StandsFor config opened h (view_of engine.old.core) answered → (s : Stored) → IsKnown config h (view_of engine.old.core) s
        → (g : History) × (t : Stored) × IsKnown config g (view_of engine.new.core) t × StandsFor config opened g (view_of engine.new.core) (answered ++ certificates_of result)
        × IsEvent D.ports_fail h (run_of (view_of engine.old.core) s (D.fetches port.old) (D.port_faults port.old) jobs.old snapshots.old.items past.old.items) event result g (run_of (view_of engine.new.core) t (D.fetches port.new) (D.port_faults port.new) jobs.new snapshots.new.items past.new.items) }
    ensures pinned { D.tells → IsPinnedKept (view_of engine.old.core) (view_of engine.new.core) }
    ensures certificates { engine.new.certificates.items ≡ engine.old.certificates.items ++ certificates_of result }
    ensures faults { D.faults engine.old.core.disk ≤ D.faults engine.new.core.disk }
    ensures port_faults { D.port_faults port.old ≤ D.port_faults port.new }
    ensures begun { jobs.new.begun ≤ jobs.old.begun + 1 }
    ensures more { length past.new.items ≤ length past.old.items + 1 }
    ensures space { vec_capacity past.old ≤ vec_capacity past.new }
    ensures more_pins { length snapshots.new.items ≤ length snapshots.old.items + 1 }
    ensures pins { vec_capacity snapshots.old ≤ vec_capacity snapshots.new }
{
    if let Some(number) = event.job() {
        if let Some(place) = place_of(past, number) {
            return match event {
                Event::Cancel { .. } => give_up(engine, past, place),
                _ => refuse(engine, past, place),
            };
        }
    }
    let left = jobs.left();
    let rounds = engine.rounds();
    let reply = answer(engine, alloc, port, jobs, snapshots, event);
    if engine.rounds() > rounds {
        if let Some(job) = left {
            past.push(job).unwrap();
        }
    }
    reply
}
