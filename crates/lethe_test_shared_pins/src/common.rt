//! A shared store of small files, its sessions, and what its disk holds.
ghost use Rattle.std.specs.Prelude.{◌≡◌, ◌-◌, ◌/◌, ◌<◌, Ok};
ghost use Rattle.lethe_core.specs.Running.{IsSound};
ghost use Rattle.lethe_core.specs.View.{view_of};
ghost use Rattle.lethe_store.specs.StoreViews.{store_view};
ghost use Rattle.lethe_store.specs.Since.{all_counted};
ghost use Rattle.lethe_store.specs.Sessions.{IsReady};

use lethe_base::Config;
use lethe_disk::Disk;
use lethe_engine::Engine;
use lethe_images::{objects_of, roomy_disk};
use lethe_memdisk::MemDisk;
use lethe_snapshot::Snapshot;
use lethe_store::{Changes, Session, Store};
use lethe_test_values::SMALL;
use std::alloc::Global;
use std::process::Abort;
use std::sync::Wait;
use std::test::Fail;

/// A store whose sessions enter their changes.
pub type Shared<D> = Store<D, Changes>;

/// A session of it.
pub type Caller<D> = Session<D, Changes>;

/// The value of each put of a row.
pub const VALUE: &[u8] = b"12 Elm Street";

fn must<T>(rt: &impl Abort, made: Result<T, Fail>) -> T
    ensures { made ≡ Ok result }
{
    match made {
        Ok(value) => value,
        Err(_) => panic!(rt; "it isn't made"),
    }
}

/// An empty disk, with room for many calls.
pub fn empty_disk(alloc: Global, rt: &impl Abort) -> MemDisk {
    must(rt, roomy_disk(alloc))
}

/// The store of a disk.
fn opened<D: Disk>(alloc: Global, rt: &impl Abort, disk: D) -> Engine<D>
    ensures { IsSound D.tells (view_of result.core) }
{
    let config = Config::new(SMALL).expect(rt, "a configuration");
    match Engine::open(alloc, disk, &config) {
        Ok(engine) => engine,
        Err(_) => panic!(rt; "the store isn't opened"),
    }
}

/// The store of a disk, shared, with its first session.
pub fn shared<D: Disk>(alloc: Global, rt: &impl Abort, disk: D) -> (Shared<D>, Caller<D>)
    ensures of { result.1.seat.table_id ≡ result.0.turn.table.shared.table_id }
    ensures ready { IsReady all_counted (λ o. store_view o.engine) result.1.seat.me }
    ensures parts { result.1.seat.me.0.parts ≡ 4611686018427387904 }
{
    match Store::open(alloc, opened(alloc, rt, disk)) {
        Ok(opened) => opened,
        Err(_) => panic!(rt; "memory"),
    }
}

/// Another session of the store.
pub fn split<D: Disk, R: Wait + Abort>(
    alloc: Global,
    rt: &R,
    store: &Shared<D>,
    session: &mut Caller<D>,
    caller: u64,
) -> Caller<D>
    requires of { session.old.seat.table_id ≡ store.now.turn.table.shared.table_id }
    requires ready { IsReady all_counted (λ o. store_view o.engine) session.old.seat.me }
    requires parts { 1 < session.old.seat.me.0.parts }
    ensures of { (session.new.seat.table_id ≡ session.old.seat.table_id) × (result.seat.table_id ≡ session.old.seat.table_id) }
    ensures ready { IsReady all_counted (λ o. store_view o.engine) session.new.seat.me × IsReady all_counted (λ o. store_view o.engine) result.seat.me }
    ensures parts { session.new.seat.me.0.parts ≡ session.old.seat.me.0.parts - session.old.seat.me.0.parts / 2 }
{
    match store.split(rt, alloc, session, caller) {
        Ok(other) => other,
        Err(_) => panic!(rt; "memory"),
    }
}

/// A snapshot of what the store holds now.
pub fn snapshot_of<D: Disk, R: Wait + Abort>(
    alloc: Global,
    rt: &R,
    store: &Shared<D>,
    session: &mut Caller<D>,
) -> Snapshot<D>
    requires of { session.old.seat.table_id ≡ store.now.turn.table.shared.table_id }
    requires ready { IsReady all_counted (λ o. store_view o.engine) session.old.seat.me }
    ensures of { session.new.seat.table_id ≡ session.old.seat.table_id }
    ensures ready { IsReady all_counted (λ o. store_view o.engine) session.new.seat.me }
{
    match store.pin(rt, alloc, session) {
        Ok(snapshot) => snapshot,
        Err(_) => panic!(rt; "a pin was refused"),
    }
}

/// Whether these are the value of a put of a row.
pub fn is_value(bytes: &[u8]) -> bool {
    bytes == VALUE
}

fn has_value(bytes: &[u8]) -> bool {
    bytes.windows(VALUE.len()).any(|window| is_value(window))
}

/// Whether an object has the value of a put of a row.
pub fn holds_value(alloc: Global, rt: &impl Abort, disk: &mut MemDisk) -> bool {
    let objects = must(rt, objects_of(alloc, disk));
    objects.iter().any(|object| has_value(&object.1))
}
