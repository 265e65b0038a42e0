//! Threads that add beside each other, and what the sum is then.
ghost use Rattle.std.specs.Prelude.{◌≡◌, ◌+◌, ◌-◌, ◌*◌, ◌/◌, ◌^◌, ◌<◌, ◌≤◌, List, ◌++◌, length, None, IfOk};
ghost use Rattle.std.specs.Thread.{IsSync};
ghost use Rattle.lethe_test_turn.specs.Sums.{addition, Stands};
ghost use Rattle.lethe_test_turn.specs.Sessions.{IsReady, Acted, StoodAt, answered};

use crate::session::{Store, add};
use crate::sum::{Entry, Refused, Sum};
use lethe_turn::{NoMemory, Seat};
use std::alloc::Global;
use std::sync::Wait;
use std::thread::{Threads, join};

/// One addition. Answers how many were accepted: 1, or none.
fn add_one<R: Wait>(
    rt: &R,
    store: &Store,
    mut seat: Seat<Sum>,
    by: u64,
    amount: u64,
) -> (Seat<Sum>, u64)
    requires of { seat.table_id ≡ store.now.table.shared.table_id }
    requires ready { IsReady seat.me }
    ensures of { (result.0.table_id ≡ seat.table_id) × IsReady result.0.me }
    ensures acted { Acted result.1 seat.me.0 result.0.me.0 × (result.1 ≤ 1) }
{
    let accepted = match add(rt, store, &mut seat, by, amount) {
        Ok(_) => 1,
        Err(_) => 0,
    };
    (seat, accepted)
}

/// Each amount is added by a thread of its own, made by recursive fork and join. Answers how many were accepted.
fn add_all<R: Threads + Wait + Sync>(
    rt: &R,
    store: &Store,
    mut seat: Seat<Sum>,
    first: u64,
    amounts: &[u64],
) -> (Seat<Sum>, u64)
    requires of { (seat.table_id ≡ store.now.table.shared.table_id) × IsReady seat.me }
    requires parts { length amounts.now ≤ seat.me.0.parts }
    ensures of { (result.0.table_id ≡ seat.table_id) × IsReady result.0.me }
    ensures acted { Acted result.1 seat.me.0 result.0.me.0 × (result.1 ≤ length amounts.entry.now) }
{
    if amounts.is_empty() {
        return (seat, 0);
    }
    if amounts.len() == 1 {
        return add_one(rt, store, seat, first, amounts[0]);
    }
    let half = amounts.len() / 2;
    let (left, right) = amounts.split_at(amounts.len() - half);
    let other = store.split(&mut seat);
    let next = first.wrapping_add(left.len() as u64);
    let (one, two) = join(
        rt,
        move || -> (Seat<Sum>, u64)
            requires { IsSync R.row × (seat.table_id ≡ store.now.table.shared.table_id) × IsReady seat.me × (length left.now ≤ seat.me.0.parts) }
            ensures { (result.0.table_id ≡ seat.table_id) × IsReady result.0.me × Acted result.1 seat.me.0 result.0.me.0 × (result.1 ≤ length left.entry.now) }
        { add_all(rt, store, seat, first, left) },
        move || -> (Seat<Sum>, u64)
            requires { IsSync R.row × (other.table_id ≡ store.now.table.shared.table_id) × IsReady other.me × (length right.now ≤ other.me.0.parts) }
            ensures { (result.0.table_id ≡ other.table_id) × IsReady result.0.me × Acted result.1 other.me.0 result.0.me.0 × (result.1 ≤ length right.entry.now) }
        { add_all(rt, store, other, next, right) },
    );
    let (mut seat, here) = one;
    let (spent, there) = two;
    store.join(&mut seat, spent);
    (seat, here + there)
}

/// Opens the turn, adds each amount by a thread of its own, and takes the sum out. Whatever history it stood for, it
/// stands for that with as many additions as were accepted.
pub fn run<R: Threads + Wait + Sync>(
    rt: &R,
    alloc: Global,
    sum: Sum,
    amounts: &[u64],
) -> Result<(Sum, u64), (Sum, NoMemory)>
    requires { (sum.count < 2 ^ 62) × (sum.ceiling ≡ None) × (length amounts.now < 2 ^ 61) }
    ensures { IfOk result (λ r. (additions : List Entry) × (length additions ≡ r.1)
        × ((history : List Entry) → Stands history sum → Stands (history ++ additions) r.0)) }
{
    let count = sum.count;
    let (store, seat) = Store::new(alloc, sum, count)?;
    let (seat, accepted) = add_all(rt, &store, seat, 1, amounts);
    Ok((store.finish(rt, seat), accepted))
}

/// Two threads add once each. The sum is that of one history, in which each addition that was answered stands at its
/// place, and no other.
pub fn add_both<R: Threads + Wait + Sync>(
    rt: &R,
    alloc: Global,
    sum: Sum,
    first: u64,
    second: u64,
) -> Result<(Sum, Result<u64, Refused>, Result<u64, Refused>), (Sum, NoMemory)>
    requires { (sum.count < 2 ^ 62) × (sum.ceiling ≡ None) }
    ensures { IfOk result (λ r. (additions : List Entry) × ((history : List Entry) → Stands history sum → Stands (history ++ additions) r.0)
        × StoodAt sum.count additions (addition 1 first) r.1 × StoodAt sum.count additions (addition 2 second) r.2
        × (length additions ≡ answered r.1 + answered r.2)) }
{
    let count = sum.count;
    let (store, mut seat) = Store::new(alloc, sum, count)?;
    let mut other = store.split(&mut seat);
    let shared = &store;
    let (one, two) = join(
        rt,
        move || {
            let place = add(rt, shared, &mut seat, 1, first);
            (seat, place)
        },
        move || {
            let place = add(rt, shared, &mut other, 2, second);
            (other, place)
        },
    );
    let (mut seat, first_place) = one;
    let (spent, second_place) = two;
    store.join(&mut seat, spent);
    Ok((store.finish(rt, seat), first_place, second_place))
}
