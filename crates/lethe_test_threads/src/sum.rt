//! A sum behind a turn, by two threads and by eight.
ghost use Rattle.std.specs.Prelude.{◌≡◌, ◌<◌, None};
ghost use Rattle.lethe_test_turn.specs.Sessions.{IsReady};

use lethe_test_turn::{Refused, Store, Sum, add, add_both, limit, run};
use lethe_turn::Seat;
use std::sync::Wait;
use std::test::Fail;
use std::thread::join;

fn empty() -> Sum
    ensures { (result.count ≡ 0) × (result.ceiling ≡ None) }
{
    Sum {
        value: 0,
        count: 0,
        ceiling: None,
    }
}

// Adds so often, in a turn each time.
fn add_many<R: Wait>(rt: &R, store: &Store, mut seat: Seat<Sum>, by: u64, times: u32) -> Seat<Sum>
    requires { (seat.table_id ≡ store.now.table.shared.table_id) × IsReady seat.me }
    ensures { (result.table_id ≡ seat.table_id) × IsReady result.me }
{
    for _ in 0..times {
        let _ = add(rt, store, &mut seat, by, by);
    }
    seat
}

fn add_once<R: Wait>(
    rt: &R,
    store: &Store,
    mut seat: Seat<Sum>,
    amount: u64,
) -> (Seat<Sum>, Result<u64, Refused>)
    requires { (seat.table_id ≡ store.now.table.shared.table_id) × IsReady seat.me }
    ensures { (result.0.table_id ≡ seat.table_id) × IsReady result.0.me }
{
    let place = add(rt, store, &mut seat, 2, amount);
    (seat, place)
}

fn limit_once<R: Wait>(rt: &R, store: &Store, mut seat: Seat<Sum>, ceiling: u64) -> Seat<Sum>
    requires { (seat.table_id ≡ store.now.table.shared.table_id) × IsReady seat.me × (0 < ceiling) }
    ensures { (result.table_id ≡ seat.table_id) × IsReady result.me }
{
    limit(rt, store, &mut seat, ceiling);
    seat
}

#[test]
fn two_threads_add_a_thousand_times_each(rt: HostRuntime) -> Result<(), Fail> {
    let Ok((store, mut seat)) = Store::new(rt.alloc(), empty(), 0) else {
        panic!(rt; "there was memory")
    };
    let other = store.split(&mut seat);
    let shared = &store;
    let host = &rt;
    let (mut one, two) = join(
        &rt,
        move || add_many(host, shared, seat, 1, 1_000),
        move || add_many(host, shared, other, 2, 1_000),
    );
    store.join(&mut one, two);
    let sum = store.finish(&rt, one);
    assert_eq!(rt; sum.value, 3_000);
    assert_eq!(rt; sum.count, 2_000);
    Ok(())
}

#[test]
fn two_threads_have_the_two_places(rt: HostRuntime) -> Result<(), Fail> {
    let Ok((sum, first, second)) = add_both(&rt, rt.alloc(), empty(), 30, 12) else {
        panic!(rt; "there was memory")
    };
    assert_eq!(rt; sum.value, 42);
    let in_order = first == Ok(1) && second == Ok(2);
    let in_turn = first == Ok(2) && second == Ok(1);
    assert!(rt; in_order || in_turn);
    Ok(())
}

#[test]
fn eight_threads_add_to_a_sum_with_a_past(rt: HostRuntime) -> Result<(), Fail> {
    let sum = Sum {
        value: 5,
        count: 3,
        ceiling: None,
    };
    let Ok((sum, accepted)) = run(&rt, rt.alloc(), sum, &[1, 2, 4, 8, 16, 32, 64, 128]) else {
        panic!(rt; "there was memory")
    };
    assert_eq!(rt; accepted, 8);
    assert_eq!(rt; sum.value, 260);
    assert_eq!(rt; sum.count, 11);
    Ok(())
}

#[test]
fn a_ceiling_of_one_thread_refuses_the_next_turn_of_another(rt: HostRuntime) -> Result<(), Fail> {
    let Ok((store, mut seat)) = Store::new(rt.alloc(), empty(), 0) else {
        panic!(rt; "there was memory")
    };
    let other = store.split(&mut seat);
    let shared = &store;
    let host = &rt;
    let (mut one, two) = join(
        &rt,
        move || limit_once(host, shared, seat, 10),
        move || add_once(host, shared, other, 5),
    );
    let (mut two, first) = two;
    assert_eq!(rt; first, Ok(1));
    assert_eq!(rt; add(&rt, &store, &mut two, 2, 6), Err(Refused::Ceiling(10)));
    assert_eq!(rt; add(&rt, &store, &mut two, 2, 5), Ok(2));
    store.join(&mut one, two);
    let sum = store.finish(&rt, one);
    assert_eq!(rt; sum.value, 10);
    Ok(())
}
