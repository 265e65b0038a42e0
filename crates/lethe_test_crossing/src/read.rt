//! A snapshot that one thread makes and another reads, through a port of its own, while a third changes the store.
ghost use Rattle.lethe_core.specs.Running.{IsSound};
ghost use Rattle.lethe_core.specs.View.{view_of};

use crate::common::{is_value, put_into};
use lethe_base::Refused;
use lethe_disk::Disk;
use lethe_engine::Engine;
use lethe_snapshot::Snapshot;
use lethe_test_values::key_of;
use std::alloc::Global;
use std::thread::{Threads, join};

fn pin<D: Disk>(alloc: Global, mut engine: Engine<D>) -> (Engine<D>, Result<Snapshot<D>, Refused>)
    requires { IsSound D.tells (view_of engine.core) }
    ensures { IsSound D.tells (view_of result.0.core) }
{
    let snapshot = engine.pin(alloc);
    (engine, snapshot)
}

/// Pins in another thread, and answers the store with the snapshot.
fn pin_there<D: Disk, R: Threads + Sync>(
    rt: &R,
    alloc: Global,
    engine: Engine<D>,
) -> (Engine<D>, Result<Snapshot<D>, Refused>)
    requires { IsSound D.tells (view_of engine.core) }
    ensures { IsSound D.tells (view_of result.0.core) }
{
    let (there, _) = join(
        rt,
        move || -> (Engine<D>, Result<Snapshot<D>, Refused>)
            requires { IsSound D.tells (view_of engine.core) }
            ensures { IsSound D.tells (view_of result.0.core) }
        { pin(alloc, engine) },
        || true,
    );
    there
}

/// Whether the snapshot has the old value.
fn reads<D: Disk>(alloc: Global, snapshot: &Snapshot<D>, mut port: D::Port) -> bool {
    let Ok(key) = key_of(alloc, "a") else {
        return false;
    };
    matches!(snapshot.get(alloc, &mut port, &key), Ok(found) if is_value(&found, "old"))
}

/// The store, into which one thread has put the new value, and whether a snapshot had the old one, which another thread read beside that.
pub fn read_beside<D: Disk, R: Threads + Sync>(
    rt: &R,
    alloc: Global,
    engine: Engine<D>,
) -> (Engine<D>, bool)
    requires { IsSound D.tells (view_of engine.core) }
    ensures { IsSound D.tells (view_of result.0.core) }
{
    let (mut engine, pinned) = pin_there(rt, alloc, engine);
    let Ok(snapshot) = pinned else {
        return (engine, false);
    };
    let Ok(port) = engine.new_port(alloc) else {
        engine.release(snapshot);
        return (engine, false);
    };
    let held = &snapshot;
    let (is_there, mut engine) = join(
        rt,
        move || reads(alloc, held, port),
        move || -> Engine<D>
            requires { IsSound D.tells (view_of engine.core) }
            ensures { IsSound D.tells (view_of result.core) }
        { put_into(alloc, engine, "new") },
    );
    engine.release(snapshot);
    (engine, is_there)
}
