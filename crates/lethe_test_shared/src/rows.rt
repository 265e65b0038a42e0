//! Sessions one after another, in one thread.
ghost use Rattle.std.specs.Prelude.{◌≡◌};
ghost use Rattle.lethe_store.specs.StoreViews.{store_view};
ghost use Rattle.lethe_store.specs.Since.{all_counted};
ghost use Rattle.lethe_store.specs.Sessions.{IsReady};

use crate::common::{Caller, Shared, key_of, opened, shared, value_of};
use crate::many::put_two_hundred;
use lethe_disk::Disk;
use lethe_memdisk::MemDisk;
use std::alloc::Global;
use std::process::Abort;
use std::sync::Wait;

/// Puts the value, which has to be the change at this place.
fn puts_at<D: Disk, R: Wait + Abort>(
    alloc: Global,
    rt: &R,
    store: &Shared<D>,
    session: &mut Caller<D>,
    put: (&str, &str),
    place: u64,
)
    requires of { session.old.seat.table_id ≡ store.now.turn.table.shared.table_id }
    requires ready { IsReady all_counted (λ o. store_view o.engine) session.old.seat.me }
    ensures of { session.new.seat.table_id ≡ session.old.seat.table_id }
    ensures ready { IsReady all_counted (λ o. store_view o.engine) session.new.seat.me }
    ensures parts { session.new.seat.me.0.parts ≡ session.old.seat.me.0.parts }
{
    let (key, value) = (key_of(alloc, rt, put.0), value_of(alloc, rt, put.1));
    let answer = store.put(rt, alloc, session, key, 7, value);
    assert!(rt; answer == Ok(place), "{answer:?}");
}

/// The key has to have the value, behind so many changes.
fn has_at<D: Disk, R: Wait + Abort>(
    alloc: Global,
    rt: &R,
    store: &Shared<D>,
    session: &mut Caller<D>,
    put: (&str, &str),
    at: u64,
)
    requires of { session.old.seat.table_id ≡ store.now.turn.table.shared.table_id }
    requires ready { IsReady all_counted (λ o. store_view o.engine) session.old.seat.me }
    ensures of { session.new.seat.table_id ≡ session.old.seat.table_id }
    ensures ready { IsReady all_counted (λ o. store_view o.engine) session.new.seat.me }
    ensures parts { session.new.seat.me.0.parts ≡ session.old.seat.me.0.parts }
{
    let key = key_of(alloc, rt, put.0);
    let Ok(read) = store.get(rt, alloc, session, &key) else {
        panic!(rt; "a get was refused")
    };
    let found = matches!(&read.answer, Some((7, value)) if value.bytes() == put.1.as_bytes());
    assert!(rt; found && read.at == at, "{} at {}", put.0, read.at);
}

/// Puts ten keys, the first changes of the store.
fn ten<D: Disk, R: Wait + Abort>(alloc: Global, rt: &R, store: &Shared<D>, session: &mut Caller<D>)
    requires of { session.old.seat.table_id ≡ store.now.turn.table.shared.table_id }
    requires ready { IsReady all_counted (λ o. store_view o.engine) session.old.seat.me }
    ensures of { session.new.seat.table_id ≡ session.old.seat.table_id }
    ensures ready { IsReady all_counted (λ o. store_view o.engine) session.new.seat.me }
    ensures parts { session.new.seat.me.0.parts ≡ session.old.seat.me.0.parts }
{
    let rows = [
        ("a", 1),
        ("b", 2),
        ("c", 3),
        ("d", 4),
        ("e", 5),
        ("f", 6),
        ("g", 7),
        ("h", 8),
        ("i", 9),
        ("j", 10),
    ];
    for row in rows {
        puts_at(alloc, rt, store, session, (row.0, "value"), row.1);
    }
}

fn empty(alloc: Global, rt: &impl Abort) -> MemDisk {
    MemDisk::new(alloc, 20_000, Vec::new(alloc)).expect(rt, "memory")
}

#[test]
fn two_sessions_put_and_get_one_after_another(rt: HostRuntime) {
    let alloc = rt.alloc();
    let (store, mut one) = shared(alloc, &rt, opened(alloc, &rt, empty(alloc, &rt)));
    let Ok(mut other) = store.split(&rt, alloc, &mut one, 2) else {
        panic!(rt; "memory")
    };
    puts_at(alloc, &rt, &store, &mut one, ("a", "first"), 1);
    has_at(alloc, &rt, &store, &mut other, ("a", "first"), 1);
    puts_at(alloc, &rt, &store, &mut other, ("a", "second"), 2);
    has_at(alloc, &rt, &store, &mut one, ("a", "second"), 2);
    store.join(&mut one, other);
    let engine = store.finish(&rt, one);
    assert!(rt; engine.count() == 2);
}

#[test]
fn a_session_split_from_one_that_has_seen_ten_changes_sees_ten(rt: HostRuntime) {
    let alloc = rt.alloc();
    let (store, mut one) = shared(alloc, &rt, opened(alloc, &rt, empty(alloc, &rt)));
    ten(alloc, &rt, &store, &mut one);
    let Ok(mut other) = store.split(&rt, alloc, &mut one, 2) else {
        panic!(rt; "memory")
    };
    let stat = store.stat(&rt, &mut other);
    assert!(rt; stat.at == 10 && stat.answer.clock == 0);
    has_at(alloc, &rt, &store, &mut other, ("j", "value"), 10);
    store.join(&mut one, other);
    let engine = store.finish(&rt, one);
    assert!(rt; engine.count() == 10);
}

#[test]
fn a_snapshot_is_read_through_the_port_of_a_session(rt: HostRuntime) {
    let alloc = rt.alloc();
    let mut engine = opened(alloc, &rt, empty(alloc, &rt));
    let Ok(snapshot) = engine.pin(alloc) else {
        panic!(rt; "memory")
    };
    let (store, mut one) = shared(alloc, &rt, engine);
    puts_at(alloc, &rt, &store, &mut one, ("a", "later"), 1);
    let found = snapshot.get(alloc, one.port(), &key_of(alloc, &rt, "a"));
    assert!(rt; matches!(found, Ok(None)));
    has_at(alloc, &rt, &store, &mut one, ("a", "later"), 1);
    let mut engine = store.finish(&rt, one);
    engine.release(snapshot);
}

#[test]
fn two_hundred_sessions_put_once_each(rt: HostRuntime) {
    let alloc = rt.alloc();
    let engine = opened(alloc, &rt, empty(alloc, &rt));
    let Ok((engine, done)) = put_two_hundred(&rt, alloc, engine) else {
        panic!(rt; "memory")
    };
    assert!(rt; done == 200 && engine.count() == 200, "{done}");
}
