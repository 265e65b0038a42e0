//! The events of pins.
ghost use Rattle.std.specs.Prelude.{◌≡◌, ◌≤◌, ◌<◌, ◌+◌, ◌==◌, ℕ, List, [], Option, length, position, IfSome, vec_capacity};
ghost use Rattle.lethe_base.specs.History.{History};
ghost use Rattle.lethe_base.specs.declared.config.Fields.{Fields};
ghost use Rattle.lethe_stored.specs.Stored.{Stored};
ghost use Rattle.lethe_core.specs.Running.{Holds, IsSound};
ghost use Rattle.lethe_core.specs.View.{view_of};
ghost use Rattle.lethe_cert.specs.declared.certificate.Certificate.{Certificate};
ghost use Rattle.lethe_engine.specs.StandsFor.{Opened, StandsFor};
ghost use Rattle.lethe_drive.specs.Certificates.{certificates_of};
ghost use Rattle.lethe_drive.specs.Moments.{Going, IsKnown, moment_of, numbers_of};
ghost use Rattle.lethe_drive.specs.Pins.{released};
ghost use Rattle.lethe_drive.specs.Steps.{IsStep};
ghost use Rattle.lethe_drive.specs.declared.event.Event.TheVariants as event;

use crate::event::Reply;
use lethe_disk::Disk;
use lethe_engine::Engine;
use lethe_snapshot::Snapshot;
use std::alloc::Global;

/// Pins what the store holds now.
pub(crate) fn pin<D: Disk>(
    engine: &mut Engine<D>,
    alloc: Global,
    snapshots: &mut Vec<Snapshot<D>>,
) -> Reply
    requires sound { IsSound D.tells (view_of engine.old.core) }
    requires space { length snapshots.old.items < vec_capacity snapshots.old }
    ensures sound { IsSound D.tells (view_of engine.new.core) }
    ensures step { D.tells → (config : Fields) (opened : Opened) (h : History) (answered : List Certificate) → StandsFor config opened h (view_of engine.old.core) answered → (s : Stored) → IsKnown config h (view_of engine.old.core) s
        → (fetches faults begun : ℕ) (there : Option Going)
        → (g : History) × (t : Stored) × IsKnown config g (view_of engine.new.core) t × StandsFor config opened g (view_of engine.new.core) answered
        × IsStep D.ports_fail h (moment_of (view_of engine.old.core) s fetches faults begun there (numbers_of snapshots.old.items)) event.Pin result g (moment_of (view_of engine.new.core) t fetches faults begun there (numbers_of snapshots.new.items)) }
    ensures none { certificates_of result ≡ [] }
    // The jobs are as they were, and no device call was made.
    ensures same { engine.new ≡ record engine.old { core = record engine.old.core { pins = engine.new.core.pins } } }
    ensures more { length snapshots.new.items ≤ length snapshots.old.items + 1 }
    ensures space { vec_capacity snapshots.old ≤ vec_capacity snapshots.new }
{
    match engine.pin(alloc) {
        Ok(snapshot) => {
            let number = snapshot.number();
            snapshots.push(snapshot).unwrap();
            Reply::Pinned(number)
        }
        Err(why) => Reply::Refused(why),
    }
}

/// Where the pin of this number is among those of the run.
fn pin_place<D: Disk>(snapshots: &[Snapshot<D>], number: u64) -> Option<usize>
    ensures within { IfSome result (λ place. place < length snapshots.now) }
    ensures first { result ≡ position (λ snapshot. snapshot.pin.number == number) snapshots.now }
{
    snapshots
        .iter()
        .position(|snapshot| snapshot.number() == number)
}

/// Lets the run's pin of this number go.
pub(crate) fn release<D: Disk>(
    engine: &mut Engine<D>,
    snapshots: &mut Vec<Snapshot<D>>,
    number: u64,
) -> Reply
    requires sound { IsSound D.tells (view_of engine.old.core) }
    ensures sound { IsSound D.tells (view_of engine.new.core) }
    ensures step { D.tells → (config : Fields) (opened : Opened) (h : History) (answered : List Certificate) → StandsFor config opened h (view_of engine.old.core) answered → (s : Stored) → IsKnown config h (view_of engine.old.core) s
        → (fetches faults begun : ℕ) (there : Option Going)
        → (g : History) × (t : Stored) × IsKnown config g (view_of engine.new.core) t × StandsFor config opened g (view_of engine.new.core) answered
        × IsStep D.ports_fail h (moment_of (view_of engine.old.core) s fetches faults begun there (numbers_of snapshots.old.items)) (event.Release number) result g (moment_of (view_of engine.new.core) t fetches faults begun there (numbers_of snapshots.new.items)) }
    ensures none { certificates_of result ≡ [] }
    // The jobs are as they were, and no device call was made.
    ensures same { engine.new ≡ record engine.old { core = record engine.old.core { pins = engine.new.core.pins } } }
    ensures fewer { length snapshots.new.items ≤ length snapshots.old.items }
    ensures space { vec_capacity snapshots.new ≡ vec_capacity snapshots.old }
{
    let Some(place) = pin_place(snapshots, number) else {
        return Reply::NoSuch;
    };
    engine.release(snapshots.remove(place));
    Reply::Unit
}

/// Lets all pins of the run go.
pub(crate) fn release_all<D: Disk>(engine: &mut Engine<D>, mut snapshots: Vec<Snapshot<D>>)
    requires sound { IsSound D.tells (view_of engine.old.core) }
    ensures sound { IsSound D.tells (view_of engine.new.core) }
    ensures stands { D.tells → (config : Fields) (opened : Opened) (h : History) (answered : List Certificate) → StandsFor config opened h (view_of engine.old.core) answered → StandsFor config opened h (view_of engine.new.core) answered }
    ensures held { D.tells → (s : Stored) → Holds (view_of engine.old.core) s → Holds (view_of engine.new.core) s }
    ensures pins { engine.new ≡ record engine.old { core = record engine.old.core { pins = record engine.old.core.pins { pins = released (numbers_of snapshots.items) engine.old.core.pins.pins } } } }
{
    while let Some(snapshot) = snapshots.pop() {
        engine.release(snapshot);
    }
    snapshots.destroy_empty();
}
