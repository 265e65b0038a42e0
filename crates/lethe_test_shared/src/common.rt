//! A shared store, and calls of its sessions that end the process where they can't go on.
ghost use Rattle.std.specs.Prelude.{◌≡◌, IfOk};
ghost use Rattle.lethe_core.specs.Running.{IsSound};
ghost use Rattle.lethe_core.specs.View.{view_of};
ghost use Rattle.lethe_store.specs.StoreViews.{store_view};
ghost use Rattle.lethe_store.specs.Since.{all_counted};
ghost use Rattle.lethe_store.specs.Sessions.{IsReady};

use lethe_base::{Config, Fields, Key, Pick, Value};
use lethe_disk::Disk;
use lethe_engine::Engine;
use lethe_store::{Changes, Session, Store};
use std::alloc::Global;
use std::process::Abort;
use std::sync::Wait;

/// A store whose sessions enter their changes.
pub(crate) type Shared<D> = Store<D, Changes>;

/// A session of it.
pub(crate) type Caller<D> = Session<D, Changes>;

const SMALL: Fields = Fields {
    threshold: 100,
    ratio: 2,
    levels: 2,
    page: 2,
    tile: 2,
    file: 2,
    buffer: 4,
    pick: Pick::So,
};

pub(crate) fn key_of(alloc: Global, rt: &impl Abort, text: &str) -> Key {
    let bytes = text.as_bytes().to_vec(alloc).expect(rt, "memory");
    Key::new(bytes).expect(rt, "a key")
}

pub(crate) fn value_of(alloc: Global, rt: &impl Abort, text: &str) -> Value {
    let bytes = text.as_bytes().to_vec(alloc).expect(rt, "memory");
    Value::new(bytes).expect(rt, "a value")
}

/// The store of a disk.
pub(crate) fn opened<D: Disk>(alloc: Global, rt: &impl Abort, disk: D) -> Engine<D>
    ensures { IsSound D.tells (view_of result.core) }
{
    let config = Config::new(SMALL).expect(rt, "a configuration");
    match Engine::open(alloc, disk, &config) {
        Ok(engine) => engine,
        Err(_) => panic!(rt; "the store isn't opened"),
    }
}

/// The store, shared, with its first session.
pub(crate) fn shared<D: Disk>(
    alloc: Global,
    rt: &impl Abort,
    engine: Engine<D>,
) -> (Shared<D>, Caller<D>)
    requires { IsSound D.tells (view_of engine.core) }
    ensures of { result.1.seat.table_id ≡ result.0.turn.table.shared.table_id }
    ensures ready { IsReady all_counted (λ o. store_view o.engine) result.1.seat.me }
    ensures parts { result.1.seat.me.0.parts ≡ 4611686018427387904 }
{
    match Store::open(alloc, engine) {
        Ok(opened) => opened,
        Err(_) => panic!(rt; "memory"),
    }
}
