//! A device that fails in one session's put, and ports that fail for one session.
ghost use Rattle.std.specs.Prelude.{◌≡◌};
ghost use Rattle.lethe_core.specs.Running.{IsSound};
ghost use Rattle.lethe_core.specs.View.{view_of};
ghost use Rattle.lethe_store.specs.StoreViews.{store_view};
ghost use Rattle.lethe_store.specs.Since.{all_counted};
ghost use Rattle.lethe_store.specs.Sessions.{IsReady};

use crate::common::{Caller, Shared, key_of, opened, shared, value_of};
use lethe_base::Refused;
use lethe_disk::Disk;
use lethe_engine::Engine;
use lethe_memdisk::{FlakyDisk, MemDisk};
use std::alloc::Global;
use std::process::Abort;
use std::sync::Wait;

fn put<D: Disk, R: Wait + Abort>(
    alloc: Global,
    rt: &R,
    store: &Shared<D>,
    session: &mut Caller<D>,
    text: &str,
) -> Result<u64, Refused>
    requires of { session.old.seat.table_id ≡ store.now.turn.table.shared.table_id }
    requires ready { IsReady all_counted (λ o. store_view o.engine) session.old.seat.me }
    ensures of { session.new.seat.table_id ≡ session.old.seat.table_id }
    ensures ready { IsReady all_counted (λ o. store_view o.engine) session.new.seat.me }
{
    let (key, value) = (key_of(alloc, rt, text), value_of(alloc, rt, text));
    store.put(rt, alloc, session, key, 7, value)
}

/// How many changes a get of the key had seen that found it, and None where it was refused by its port.
fn get<D: Disk, R: Wait + Abort>(
    alloc: Global,
    rt: &R,
    store: &Shared<D>,
    session: &mut Caller<D>,
    text: &str,
) -> Option<u64>
    requires of { session.old.seat.table_id ≡ store.now.turn.table.shared.table_id }
    requires ready { IsReady all_counted (λ o. store_view o.engine) session.old.seat.me }
    ensures of { session.new.seat.table_id ≡ session.old.seat.table_id }
    ensures ready { IsReady all_counted (λ o. store_view o.engine) session.new.seat.me }
{
    match store.get(rt, alloc, session, &key_of(alloc, rt, text)) {
        Ok(read) => {
            assert!(rt; read.answer.is_some(), "{text}");
            Some(read.at)
        }
        Err(why) => {
            assert!(rt;
                why == Refused::ReadFault {
                    before: 0,
                    after: 1
                },
                "{why:?}"
            );
            None
        }
    }
}

/// Puts until the device fails in a put, and answers the place of that one.
fn puts_to_the_fault<D: Disk, R: Wait + Abort>(
    alloc: Global,
    rt: &R,
    store: &Shared<D>,
    session: &mut Caller<D>,
) -> u64
    requires of { session.old.seat.table_id ≡ store.now.turn.table.shared.table_id }
    requires ready { IsReady all_counted (λ o. store_view o.engine) session.old.seat.me }
    ensures of { session.new.seat.table_id ≡ session.old.seat.table_id }
    ensures ready { IsReady all_counted (λ o. store_view o.engine) session.new.seat.me }
{
    for place in 1..100 {
        match put(alloc, rt, store, session, "a") {
            Ok(done) => assert!(rt; done == place, "{done} for {place}"),
            Err(
                Refused::Fault {
                    place: failed,
                    before: 0,
                    after: 1,
                },
            ) => {
                assert!(rt; failed == place, "{failed} for {place}");
                return place;
            }
            Err(why) => panic!(rt; "{why:?}"),
        }
    }
    panic!(rt; "the device didn't fail")
}

/// A disk in memory whose calls fail from the seventeenth on.
fn fused(alloc: Global, rt: &impl Abort) -> MemDisk {
    let mut disk = MemDisk::new(alloc, 20_000, Vec::new(alloc)).expect(rt, "memory");
    disk.fuse(16);
    disk
}

#[test]
fn where_the_device_fails_in_one_put_the_others_are_stopped_by_it_and_read_on(rt: HostRuntime) {
    let alloc = rt.alloc();
    let (store, mut one) = shared(alloc, &rt, opened(alloc, &rt, fused(alloc, &rt)));
    let Ok(mut other) = store.split(&rt, alloc, &mut one, 2) else {
        panic!(rt; "memory")
    };
    let place = puts_to_the_fault(alloc, &rt, &store, &mut one);
    let refused = put(alloc, &rt, &store, &mut other, "b");
    assert!(rt;
        refused == Err(Refused::Stopped { at: place }),
        "{refused:?} {place}"
    );
    let refused = put(alloc, &rt, &store, &mut one, "c");
    assert!(rt;
        refused == Err(Refused::Stopped { at: place }),
        "{refused:?} {place}"
    );
    assert!(rt; get(alloc, &rt, &store, &mut other, "a") == Some(place));
    store.join(&mut one, other);
    let engine = store.finish(&rt, one);
    assert!(rt; engine.count() == place && engine.stopped() == Some(place));
}

/// A store on a disk each of whose ports fails at its first fetch, with a file that has the key `a`.
fn flaky(alloc: Global, rt: &impl Abort) -> FlakyDisk {
    let disk = MemDisk::new(alloc, 20_000, Vec::new(alloc)).expect(rt, "memory");
    let mut first = Vec::new(alloc);
    first.push(1).expect(rt, "memory");
    FlakyDisk::new(disk, first)
}

/// Puts four keys, and writes them as a file.
fn filled<D: Disk>(alloc: Global, rt: &impl Abort, engine: &mut Engine<D>)
    requires { IsSound D.tells (view_of engine.old.core) }
    ensures { IsSound D.tells (view_of engine.new.core) }
{
    let mut port = engine.new_port(alloc).expect(rt, "memory");
    for text in ["a", "b", "c", "d"] {
        let (key, value) = (key_of(alloc, rt, text), value_of(alloc, rt, text));
        let _ = engine.put(alloc, &mut port, key, 7, value);
    }
    let frozen = engine.freeze(alloc);
    let flushed = engine.flush(alloc);
    assert!(rt; frozen.is_ok() && flushed.is_ok());
}

#[test]
fn a_port_that_fails_fails_for_its_own_session_alone(rt: HostRuntime) {
    let alloc = rt.alloc();
    let mut engine = opened(alloc, &rt, flaky(alloc, &rt));
    filled(alloc, &rt, &mut engine);
    let (store, mut one) = shared(alloc, &rt, engine);
    let Ok(mut other) = store.split(&rt, alloc, &mut one, 2) else {
        panic!(rt; "memory")
    };
    assert!(rt; get(alloc, &rt, &store, &mut one, "a").is_none());
    assert!(rt; get(alloc, &rt, &store, &mut one, "a") == Some(4));
    assert!(rt; get(alloc, &rt, &store, &mut other, "a").is_none());
    assert!(rt; get(alloc, &rt, &store, &mut one, "a") == Some(4));
    store.join(&mut one, other);
    let engine = store.finish(&rt, one);
    assert!(rt; engine.count() == 4);
}
