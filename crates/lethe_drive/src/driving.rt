//! Driving a store through a run of events.
ghost use Rattle.std.specs.Prelude.{◌≡◌, ◌≤◌, ◌+◌, ◌*◌, ◌++◌, ℕ, List, [], None, IfOk, IfErr, IfSome};
ghost use Rattle.lethe_base.specs.History.{History};
ghost use Rattle.lethe_base.specs.declared.config.Fields.{Fields};
ghost use Rattle.lethe_stored.specs.Stored.{Stored};
ghost use Rattle.lethe_core.specs.Running.{IsSound};
ghost use Rattle.lethe_core.specs.View.{view_of};
ghost use Rattle.lethe_cert.specs.declared.certificate.Certificate.{Certificate};
ghost use Rattle.lethe_engine.specs.StandsFor.{Opened, StandsFor};
ghost use Rattle.lethe_drive.specs.Certificates.{certificates_in};
ghost use Rattle.lethe_drive.specs.Driving.{IsDriven};
ghost use Rattle.lethe_drive.specs.Moments.{IsKnown, moment_of};

use crate::event::{Event, Reply};
use crate::jobs::Jobs;
use crate::past::give_up;
use crate::pinning::release_all;
use crate::rounds::answer_any;
use crate::working::cancel;
use lethe_base::NoMemory;
use lethe_disk::Disk;
use lethe_engine::Engine;
use std::alloc::Global;

/// Makes the calls that the events ask for, in order, and reads through the port. Jobs are numbered by their begin, from 0. At the end the jobs that haven't ended are
/// given up, and the reply of each stands behind those of the events. Then the pins that the run made and hasn't let go are let go, without replies.
///
/// # Errors
///
/// `NoMemory` where there is no room for all replies, jobs and pins: it is taken before the first event, and then nothing was made.
pub fn drive<D: Disk>(
    engine: &mut Engine<D>,
    alloc: Global,
    port: &mut D::Port,
    events: Vec<Event>,
) -> Result<Vec<Reply>, NoMemory>
    // Opening gives this, and each call leaves it so.
    requires sound { IsSound D.tells (view_of engine.old.core) }
    ensures sound { IsSound D.tells (view_of engine.new.core) }

    // Over a store that stands for a history and some certificates, the replies are those of the steps from it to another history, for which the store stands behind them, and for these
    // certificates followed by those of the replies.
    ensures driven { D.tells → (config : Fields) (opened : Opened) (h : History) (answered : List Certificate) → StandsFor config opened h (view_of engine.old.core) answered
        → (s : Stored) → IsKnown config h (view_of engine.old.core) s
        → IfOk result (λ replies. (g : History) × (t : Stored) × IsKnown config g (view_of engine.new.core) t × StandsFor config opened g (view_of engine.new.core) (answered ++ certificates_in replies.items)
        × (begun : ℕ) × IsDriven D.ports_fail config h (moment_of (view_of engine.old.core) s (D.fetches port.old) (D.port_faults port.old) 0 None []) events.items replies.items g
        (moment_of (view_of engine.new.core) t (D.fetches port.new) (D.port_faults port.new) begun None [])) }
    ensures certificates { IfOk result (λ replies. engine.new.certificates.items ≡ engine.old.certificates.items ++ certificates_in replies.items) }
    ensures untouched { IfErr result (λ why. (engine.new ≡ engine.old) × (port.new ≡ port.old)) }
    ensures faults { D.faults engine.old.core.disk ≤ D.faults engine.new.core.disk }
{
    let count = events.len();
    let Some(room) = room_for(count) else {
        return Err(NoMemory);
    };
    let mut replies = Vec::with_capacity(alloc, room)?;
    let mut past = Vec::with_capacity(alloc, count)?;
    let mut snapshots = Vec::with_capacity(alloc, count)?;
    let mut jobs = Jobs {
        begun: 0,
        there: None,
    };
    for event in events {
        let reply = answer_any(
            engine,
            alloc,
            port,
            &mut jobs,
            &mut past,
            &mut snapshots,
            event,
        );
        replies.push(reply).unwrap();
    }
    while !past.is_empty() {
        replies.push(give_up(engine, &mut past, 0)).unwrap();
    }
    if let Some(number) = jobs.number() {
        replies.push(cancel(engine, &mut jobs, number)).unwrap();
    }
    release_all(engine, snapshots);
    Ok(replies)
}

/// For how many replies there has to be room: one of each event, and one of each job that hasn't ended, of which no more are of earlier rounds than there are ticks, and
/// one is of the present.
fn room_for(events: usize) -> Option<usize>
    ensures { IfSome result (λ room. room ≡ 2 * events + 1) }
{
    events.checked_mul(2)?.checked_add(1)
}
