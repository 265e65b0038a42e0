//! Scans of one session beside puts of another, over files of level 0 and a frozen buffer.
ghost use Rattle.std.specs.Prelude.{◌≡◌};
ghost use Rattle.lethe_core.specs.Running.{IsSound};
ghost use Rattle.lethe_core.specs.View.{view_of};
ghost use Rattle.lethe_store.specs.StoreViews.{store_view};
ghost use Rattle.lethe_store.specs.Since.{all_counted};
ghost use Rattle.lethe_store.specs.Sessions.{IsReady};

use crate::common::{Caller, Shared, opened, shared};
use lethe_base::{Key, Value};
use lethe_disk::Disk;
use lethe_engine::Engine;
use lethe_memdisk::MemDisk;
use std::alloc::Global;
use std::process::Abort;
use std::sync::Wait;
use std::thread::{Threads, join};

/// How many keys the store has before it is shared: two files of level 0 and a frozen buffer, of four each.
const BEFORE: u8 = 12;

/// How many keys are put behind them.
const BESIDE: u8 = 30;

fn key_at(alloc: Global, rt: &impl Abort, number: u8) -> Key {
    let bytes = [number].to_vec(alloc).expect(rt, "memory");
    Key::new(bytes).expect(rt, "a key")
}

fn value_at(alloc: Global, rt: &impl Abort, number: u8) -> Value {
    let bytes = [number, number].to_vec(alloc).expect(rt, "memory");
    Value::new(bytes).expect(rt, "a value")
}

/// Puts four keys from this one on, and freezes the buffer.
fn four<D: Disk>(alloc: Global, rt: &impl Abort, engine: &mut Engine<D>, first: u8)
    requires sound { IsSound D.tells (view_of engine.old.core) }
    ensures { IsSound D.tells (view_of engine.new.core) }
{
    let mut port = engine.new_port(alloc).expect(rt, "memory");
    for more in 0..4 {
        let number = first.saturating_add(more);
        let (key, value) = (key_at(alloc, rt, number), value_at(alloc, rt, number));
        let put = engine.put(alloc, &mut port, key, 7, value);
        assert!(rt; put.is_ok());
    }
    let frozen = engine.freeze(alloc);
    assert!(rt; frozen.is_ok());
}

/// Puts four keys from this one on, and writes them as a file.
fn file_of_four<D: Disk>(alloc: Global, rt: &impl Abort, engine: &mut Engine<D>, first: u8)
    requires sound { IsSound D.tells (view_of engine.old.core) }
    ensures { IsSound D.tells (view_of engine.new.core) }
{
    four(alloc, rt, engine, first);
    let flushed = engine.flush(alloc);
    assert!(rt; flushed.is_ok());
}

/// Two files of level 0, and a buffer that is frozen.
fn filled<D: Disk>(alloc: Global, rt: &impl Abort, engine: &mut Engine<D>)
    requires { IsSound D.tells (view_of engine.old.core) }
    ensures { IsSound D.tells (view_of engine.new.core) }
{
    file_of_four(alloc, rt, engine, 0);
    file_of_four(alloc, rt, engine, 4);
    four(alloc, rt, engine, 8);
}

/// Puts the keys behind those, one after another.
fn puts<D: Disk, R: Wait + Abort>(
    alloc: Global,
    rt: &R,
    store: &Shared<D>,
    mut session: Caller<D>,
) -> Caller<D>
    requires of { session.seat.table_id ≡ store.now.turn.table.shared.table_id }
    requires ready { IsReady all_counted (λ o. store_view o.engine) session.seat.me }
    ensures of { result.seat.table_id ≡ session.seat.table_id }
    ensures ready { IsReady all_counted (λ o. store_view o.engine) result.seat.me }
{
    for number in BEFORE..BEFORE + BESIDE {
        let (key, value) = (key_at(alloc, rt, number), value_at(alloc, rt, number));
        let place = store.put(rt, alloc, &mut session, key, 7, value);
        assert!(rt; place == Ok(number as u64 + 1), "{place:?}");
    }
    session
}

/// Scans all keys, thirty times. Each scan has to be the map at its point: the keys below it, each with its value.
fn scans<D: Disk, R: Wait + Abort>(
    alloc: Global,
    rt: &R,
    store: &Shared<D>,
    mut session: Caller<D>,
) -> Caller<D>
    requires of { session.seat.table_id ≡ store.now.turn.table.shared.table_id }
    requires ready { IsReady all_counted (λ o. store_view o.engine) session.seat.me }
    ensures of { result.seat.table_id ≡ session.seat.table_id }
    ensures ready { IsReady all_counted (λ o. store_view o.engine) result.seat.me }
{
    let (lo, hi) = (key_at(alloc, rt, 0), key_at(alloc, rt, 255));
    for _ in 0..30 {
        let Ok(read) = store.scan(rt, alloc, &mut session, &lo, &hi) else {
            panic!(rt; "a scan was refused")
        };
        check_scan(alloc, rt, &read.answer, read.at);
    }
    session
}

fn check_scan(alloc: Global, rt: &impl Abort, pairs: &[(Key, u64, Value)], at: u64) {
    assert!(rt; pairs.len() as u64 == at, "{} at {at}", pairs.len());
    let mut number: u8 = 0;
    for (key, dkey, value) in pairs {
        let is_key = key.bytes() == key_at(alloc, rt, number).bytes();
        let is_value = value.bytes() == value_at(alloc, rt, number).bytes();
        assert!(rt; is_key && is_value && *dkey == 7, "{number} at {at}");
        number = number.saturating_add(1);
    }
}

fn beside<D: Disk, R: Threads + Wait + Abort + Sync>(
    alloc: Global,
    rt: &R,
    store: &Shared<D>,
    one: Caller<D>,
    other: Caller<D>,
) -> (Caller<D>, Caller<D>)
    requires of { (one.seat.table_id ≡ store.now.turn.table.shared.table_id) × (other.seat.table_id ≡ store.now.turn.table.shared.table_id) }
    requires ready { IsReady all_counted (λ o. store_view o.engine) one.seat.me × IsReady all_counted (λ o. store_view o.engine) other.seat.me }
    ensures of { (result.0.seat.table_id ≡ store.now.turn.table.shared.table_id) × (result.1.seat.table_id ≡ store.now.turn.table.shared.table_id) }
    ensures ready { IsReady all_counted (λ o. store_view o.engine) result.0.seat.me × IsReady all_counted (λ o. store_view o.engine) result.1.seat.me }
{
    join(
        rt,
        move || -> Caller<D>
            requires { (one.seat.table_id ≡ store.now.turn.table.shared.table_id) × IsReady all_counted (λ o. store_view o.engine) one.seat.me }
            ensures { (result.seat.table_id ≡ one.seat.table_id) × IsReady all_counted (λ o. store_view o.engine) result.seat.me }
        { puts(alloc, rt, store, one) },
        move || -> Caller<D>
            requires { (other.seat.table_id ≡ store.now.turn.table.shared.table_id) × IsReady all_counted (λ o. store_view o.engine) other.seat.me }
            ensures { (result.seat.table_id ≡ other.seat.table_id) × IsReady all_counted (λ o. store_view o.engine) result.seat.me }
        { scans(alloc, rt, store, other) },
    )
}

#[test]
fn a_scan_beside_puts_is_the_map_at_its_point(rt: HostRuntime) {
    let alloc = rt.alloc();
    let disk = MemDisk::new(alloc, 20_000, Vec::new(alloc)).expect(&rt, "memory");
    let mut engine = opened(alloc, &rt, disk);
    filled(alloc, &rt, &mut engine);
    let (store, mut one) = shared(alloc, &rt, engine);
    let Ok(other) = store.split(&rt, alloc, &mut one, 1) else {
        panic!(rt; "memory")
    };
    let (mut one, other) = beside(alloc, &rt, &store, one, other);
    store.join(&mut one, other);
    let engine = store.finish(&rt, one);
    assert!(rt; engine.count() == 42);
}
