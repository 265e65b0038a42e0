//! Fifty puts and gets of each of two sessions, each in a thread of its own.
ghost use Rattle.std.specs.Prelude.{◌≡◌};
ghost use Rattle.lethe_core.specs.Running.{IsSound};
ghost use Rattle.lethe_core.specs.View.{view_of};
ghost use Rattle.lethe_store.specs.StoreViews.{store_view};
ghost use Rattle.lethe_store.specs.Since.{all_counted};
ghost use Rattle.lethe_store.specs.Sessions.{IsReady};

use crate::common::{Caller, Shared, opened, shared};
use lethe_base::{Key, Value};
use lethe_dirdisk::DirDisk;
use lethe_disk::Disk;
use lethe_memdisk::MemDisk;
use std::alloc::Global;
use std::fs;
use std::process::Abort;
use std::sync::Wait;
use std::thread::{Threads, join};

const FOLDER: &str = "lethe_shared_folder";

fn key_at(alloc: Global, rt: &impl Abort, name: u8, number: u8) -> Key {
    let bytes = [name, number].to_vec(alloc).expect(rt, "memory");
    Key::new(bytes).expect(rt, "a key")
}

fn value_at(alloc: Global, rt: &impl Abort, name: u8, number: u8) -> Value {
    let bytes = [number, name].to_vec(alloc).expect(rt, "memory");
    Value::new(bytes).expect(rt, "a value")
}

/// Puts the value of a number under its key, gets it, and answers the place of the put. The get has to have the value, at a point that has the put.
fn put_and_get<D: Disk, R: Wait + Abort>(
    alloc: Global,
    rt: &R,
    store: &Shared<D>,
    session: &mut Caller<D>,
    name: u8,
    number: u8,
) -> u64
    requires of { session.old.seat.table_id ≡ store.now.turn.table.shared.table_id }
    requires ready { IsReady all_counted (λ o. store_view o.engine) session.old.seat.me }
    ensures of { session.new.seat.table_id ≡ session.old.seat.table_id }
    ensures ready { IsReady all_counted (λ o. store_view o.engine) session.new.seat.me }
{
    let value = value_at(alloc, rt, name, number);
    let put = store.put(
        rt,
        alloc,
        session,
        key_at(alloc, rt, name, number),
        7,
        value,
    );
    let Ok(place) = put else {
        panic!(rt; "a put was refused")
    };
    let Ok(read) = store.get(rt, alloc, session, &key_at(alloc, rt, name, number)) else {
        panic!(rt; "a get was refused")
    };
    let wanted = value_at(alloc, rt, name, number);
    let found = matches!(&read.answer, Some((7, value)) if value.bytes() == wanted.bytes());
    assert!(rt; found && place <= read.at, "{place} at {}", read.at);
    place
}

/// Fifty times, and answers the places.
fn fifty<D: Disk, R: Wait + Abort>(
    alloc: Global,
    rt: &R,
    store: &Shared<D>,
    mut session: Caller<D>,
    name: u8,
) -> (Caller<D>, Vec<u64>)
    requires of { session.seat.table_id ≡ store.now.turn.table.shared.table_id }
    requires ready { IsReady all_counted (λ o. store_view o.engine) session.seat.me }
    ensures of { result.0.seat.table_id ≡ session.seat.table_id }
    ensures ready { IsReady all_counted (λ o. store_view o.engine) result.0.seat.me }
{
    let mut places = Vec::new(alloc);
    for number in 0..50 {
        let place = put_and_get(alloc, rt, store, &mut session, name, number);
        places.push(place).expect(rt, "memory");
    }
    (session, places)
}

/// Both sessions, each in a thread of its own.
fn beside<D: Disk, R: Threads + Wait + Abort + Sync>(
    alloc: Global,
    rt: &R,
    store: &Shared<D>,
    one: Caller<D>,
    other: Caller<D>,
) -> ((Caller<D>, Vec<u64>), (Caller<D>, Vec<u64>))
    requires of { (one.seat.table_id ≡ store.now.turn.table.shared.table_id) × (other.seat.table_id ≡ store.now.turn.table.shared.table_id) }
    requires ready { IsReady all_counted (λ o. store_view o.engine) one.seat.me × IsReady all_counted (λ o. store_view o.engine) other.seat.me }
    ensures of { (result.0.0.seat.table_id ≡ store.now.turn.table.shared.table_id) × (result.1.0.seat.table_id ≡ store.now.turn.table.shared.table_id) }
    ensures ready { IsReady all_counted (λ o. store_view o.engine) result.0.0.seat.me × IsReady all_counted (λ o. store_view o.engine) result.1.0.seat.me }
{
    join(
        rt,
        move || -> (Caller<D>, Vec<u64>)
            requires { (one.seat.table_id ≡ store.now.turn.table.shared.table_id) × IsReady all_counted (λ o. store_view o.engine) one.seat.me }
            ensures { (result.0.seat.table_id ≡ one.seat.table_id) × IsReady all_counted (λ o. store_view o.engine) result.0.seat.me }
        { fifty(alloc, rt, store, one, 1) },
        move || -> (Caller<D>, Vec<u64>)
            requires { (other.seat.table_id ≡ store.now.turn.table.shared.table_id) × IsReady all_counted (λ o. store_view o.engine) other.seat.me }
            ensures { (result.0.seat.table_id ≡ other.seat.table_id) × IsReady all_counted (λ o. store_view o.engine) result.0.seat.me }
        { fifty(alloc, rt, store, other, 2) },
    )
}

fn is_ascending(places: &[u64]) -> bool {
    let mut last = 0;
    for place in places {
        if *place <= last {
            return false;
        }
        last = *place;
    }
    true
}

/// The places have to be 1 to 100, each once, ascending for each session.
fn check_places(rt: &impl Abort, one: &[u64], other: &[u64]) {
    assert!(rt; one.len() == 50 && other.len() == 50);
    assert!(rt;
        is_ascending(one) && is_ascending(other),
        "{one:?} {other:?}"
    );
    for place in 1..101 {
        assert!(rt; one.contains(&place) != other.contains(&place), "{place}");
    }
}

fn check_fifty<D: Disk, R: Threads + Wait + Abort + Sync>(alloc: Global, rt: &R, disk: D) {
    let (store, mut one) = shared(alloc, rt, opened(alloc, rt, disk));
    let Ok(other) = store.split(rt, alloc, &mut one, 1) else {
        panic!(rt; "memory")
    };
    let ((mut one, places), (other, places_beside)) = beside(alloc, rt, &store, one, other);
    check_places(rt, &places, &places_beside);
    store.join(&mut one, other);
    let engine = store.finish(rt, one);
    assert!(rt; engine.count() == 100);
}

#[test]
fn in_memory_two_threads_have_a_hundred_places(rt: HostRuntime) {
    let alloc = rt.alloc();
    let disk = MemDisk::new(alloc, 20_000, Vec::new(alloc)).expect(&rt, "memory");
    check_fifty(alloc, &rt, disk);
}

#[test]
fn in_a_folder_two_threads_have_a_hundred_places(rt: HostRuntime) {
    let alloc = rt.alloc();
    let _ = fs::remove_dir_all(&rt, FOLDER);
    let Ok(disk) = DirDisk::open(&rt, alloc, FOLDER) else {
        panic!(rt; "the folder isn't opened")
    };
    check_fifty(alloc, &rt, disk);
    let _ = fs::remove_dir_all(&rt, FOLDER);
}
