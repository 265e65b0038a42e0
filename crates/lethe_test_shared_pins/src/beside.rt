//! Fifty pins of each of two sessions beside fifty ticks of a third, each in a thread of its own.
ghost use Rattle.std.specs.Prelude.{◌≡◌};
ghost use Rattle.lethe_store.specs.StoreViews.{store_view};
ghost use Rattle.lethe_store.specs.Since.{all_counted};
ghost use Rattle.lethe_store.specs.Sessions.{IsReady};

use crate::checks::{check_numbers, check_pins, check_places, check_ticks};
use crate::common::{Caller, Shared, empty_disk, shared, split};
use crate::turns::{ONE, OTHER, Pin, Tick, fifty_pins, fifty_ticks};
use lethe_disk::Disk;
use std::alloc::Global;
use std::process::Abort;
use std::sync::Wait;
use std::thread::{Threads, join};

/// The pins of the one session beside the ticks of the other, each in a thread of its own.
fn pins_beside_ticks<D: Disk, R: Threads + Wait + Abort + Sync>(
    alloc: Global,
    rt: &R,
    store: &Shared<D>,
    one: Caller<D>,
    other: Caller<D>,
) -> ((Caller<D>, Vec<Pin>), (Caller<D>, Vec<Tick>))
    requires of { (one.seat.table_id ≡ store.now.turn.table.shared.table_id) × (other.seat.table_id ≡ store.now.turn.table.shared.table_id) }
    requires ready { IsReady all_counted (λ o. store_view o.engine) one.seat.me × IsReady all_counted (λ o. store_view o.engine) other.seat.me }
    ensures of { (result.0.0.seat.table_id ≡ store.now.turn.table.shared.table_id) × (result.1.0.seat.table_id ≡ store.now.turn.table.shared.table_id) }
    ensures ready { IsReady all_counted (λ o. store_view o.engine) result.0.0.seat.me × IsReady all_counted (λ o. store_view o.engine) result.1.0.seat.me }
{
    join(
        rt,
        move || -> (Caller<D>, Vec<Pin>)
            requires { (one.seat.table_id ≡ store.now.turn.table.shared.table_id) × IsReady all_counted (λ o. store_view o.engine) one.seat.me }
            ensures { (result.0.seat.table_id ≡ one.seat.table_id) × IsReady all_counted (λ o. store_view o.engine) result.0.seat.me }
        { fifty_pins(alloc, rt, store, one, (OTHER, ONE)) },
        move || -> (Caller<D>, Vec<Tick>)
            requires { (other.seat.table_id ≡ store.now.turn.table.shared.table_id) × IsReady all_counted (λ o. store_view o.engine) other.seat.me }
            ensures { (result.0.seat.table_id ≡ other.seat.table_id) × IsReady all_counted (λ o. store_view o.engine) result.0.seat.me }
        { fifty_ticks(alloc, rt, store, other) },
    )
}

/// The pins of another session beside both of them.
fn pins_beside_both<D: Disk, R: Threads + Wait + Abort + Sync>(
    alloc: Global,
    rt: &R,
    store: &Shared<D>,
    one: Caller<D>,
    others: (Caller<D>, Caller<D>),
) -> (
    (Caller<D>, Vec<Pin>),
    ((Caller<D>, Vec<Pin>), (Caller<D>, Vec<Tick>)),
)
    requires of { (one.seat.table_id ≡ store.now.turn.table.shared.table_id) × (others.0.seat.table_id ≡ store.now.turn.table.shared.table_id) × (others.1.seat.table_id ≡ store.now.turn.table.shared.table_id) }
    requires ready { IsReady all_counted (λ o. store_view o.engine) one.seat.me × IsReady all_counted (λ o. store_view o.engine) others.0.seat.me × IsReady all_counted (λ o. store_view o.engine) others.1.seat.me }
    ensures of { (result.0.0.seat.table_id ≡ store.now.turn.table.shared.table_id) × (result.1.0.0.seat.table_id ≡ store.now.turn.table.shared.table_id) × (result.1.1.0.seat.table_id ≡ store.now.turn.table.shared.table_id) }
    ensures ready { IsReady all_counted (λ o. store_view o.engine) result.0.0.seat.me × IsReady all_counted (λ o. store_view o.engine) result.1.0.0.seat.me × IsReady all_counted (λ o. store_view o.engine) result.1.1.0.seat.me }
{
    let (other, third) = others;
    join(
        rt,
        move || -> (Caller<D>, Vec<Pin>)
            requires { (one.seat.table_id ≡ store.now.turn.table.shared.table_id) × IsReady all_counted (λ o. store_view o.engine) one.seat.me }
            ensures { (result.0.seat.table_id ≡ one.seat.table_id) × IsReady all_counted (λ o. store_view o.engine) result.0.seat.me }
        { fifty_pins(alloc, rt, store, one, (ONE, OTHER)) },
        move || -> ((Caller<D>, Vec<Pin>), (Caller<D>, Vec<Tick>))
            requires of { (other.seat.table_id ≡ store.now.turn.table.shared.table_id) × (third.seat.table_id ≡ store.now.turn.table.shared.table_id) }
            requires ready { IsReady all_counted (λ o. store_view o.engine) other.seat.me × IsReady all_counted (λ o. store_view o.engine) third.seat.me }
            ensures of { (result.0.0.seat.table_id ≡ store.entry.now.turn.table.shared.table_id) × (result.1.0.seat.table_id ≡ store.entry.now.turn.table.shared.table_id) }
            ensures ready { IsReady all_counted (λ o. store_view o.engine) result.0.0.seat.me × IsReady all_counted (λ o. store_view o.engine) result.1.0.seat.me }
        { pins_beside_ticks(alloc, rt, store, other, third) },
    )
}

fn check_all(rt: &impl Abort, one: &[Pin], other: &[Pin], ticks: &[Tick]) -> u64 {
    check_numbers(rt, one, other);
    check_pins(rt, one, other, ticks);
    check_pins(rt, other, one, ticks);
    check_ticks(rt, one, other, ticks);
    check_places(rt, one, other, ticks)
}

#[test]
fn two_threads_pin_beside_the_ticks_of_a_third(rt: HostRuntime) {
    let alloc = rt.alloc();
    let (store, mut one) = shared(alloc, &rt, empty_disk(alloc, &rt));
    let other = split(alloc, &rt, &store, &mut one, 1);
    let third = split(alloc, &rt, &store, &mut one, 2);
    let ((mut one, pins), ((other, others), (third, ticks))) = pins_beside_both(
        alloc,
        &rt,
        &store,
        one,
        (other, third),
    );
    let changes = check_all(&rt, &pins, &others, &ticks);
    store.join(&mut one, other);
    store.join(&mut one, third);
    let engine = store.finish(&rt, one);
    assert!(rt; engine.count() == changes);
}
