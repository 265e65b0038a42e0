//! What a session does in each of its fifty turns beside the others, and what it is told.
ghost use Rattle.std.specs.Prelude.{◌≡◌, ◌≤◌};
ghost use Rattle.lethe_base.specs.Limits.{max_time};
ghost use Rattle.lethe_store.specs.StoreViews.{store_view};
ghost use Rattle.lethe_store.specs.Since.{all_counted};
ghost use Rattle.lethe_store.specs.Sessions.{IsReady};

use crate::common::{Caller, Shared, snapshot_of};
use lethe_base::{Key, Refused, Value};
use lethe_disk::Disk;
use lethe_engine::Ticked;
use lethe_snapshot::Snapshot;
use lethe_test_values::{key_of, value_of};
use std::alloc::Global;
use std::process::Abort;
use std::sync::Wait;

/// The keys of the sessions that pin. Each puts the number of a pin under its own once that is let go.
pub const ONE: &str = "one";

pub const OTHER: &str = "other";

/// A pin that was made and let go: its number, point and limit, the numbers that its snapshot has under the session's own key and under the other's, 0 where it has none, and the place of the
/// put behind its release.
#[derive(Clone, Copy, Drop)]
pub struct Pin {
    pub number: u64,
    pub point: u64,
    pub limit: u64,
    pub own: u64,
    pub beside: u64,
    pub put: u64,
}

/// A tick, with the numbers of the last pins that it knew as let go, and what it was told: its place, or the pin that barred it.
#[derive(Clone, Copy, Drop)]
pub struct Tick {
    pub to: u64,
    pub one: u64,
    pub other: u64,
    pub told: Result<Ticked, (u64, u64)>,
}

/// The number under a key, and 0 where there is none.
fn number_in(found: &Option<(u64, Value)>) -> u64 {
    match found {
        Some((_, value)) => value.bytes().last().map_or(0, |byte| u64::from(*byte)),
        None => 0,
    }
}

fn number_at<D: Disk>(
    alloc: Global,
    rt: &impl Abort,
    snapshot: &Snapshot<D>,
    port: &mut D::Port,
    text: &str,
) -> u64 {
    let key = key_of(alloc, text).expect(rt, "a key");
    match snapshot.get(alloc, port, &key) {
        Ok(found) => number_in(&found),
        Err(_) => panic!(rt; "a get of a snapshot was refused"),
    }
}

fn number_now<D: Disk, R: Wait + Abort>(
    alloc: Global,
    rt: &R,
    store: &Shared<D>,
    session: &mut Caller<D>,
    text: &str,
) -> u64
    requires of { session.old.seat.table_id ≡ store.now.turn.table.shared.table_id }
    requires ready { IsReady all_counted (λ o. store_view o.engine) session.old.seat.me }
    ensures of { session.new.seat.table_id ≡ session.old.seat.table_id }
    ensures ready { IsReady all_counted (λ o. store_view o.engine) session.new.seat.me }
{
    let key: Key = key_of(alloc, text).expect(rt, "a key");
    match store.get(rt, alloc, session, &key) {
        Ok(read) => number_in(&read.answer),
        Err(_) => panic!(rt; "a get was refused"),
    }
}

fn put_number<D: Disk, R: Wait + Abort>(
    alloc: Global,
    rt: &R,
    store: &Shared<D>,
    session: &mut Caller<D>,
    text: &str,
    number: u64,
) -> u64
    requires of { session.old.seat.table_id ≡ store.now.turn.table.shared.table_id }
    requires ready { IsReady all_counted (λ o. store_view o.engine) session.old.seat.me }
    ensures of { session.new.seat.table_id ≡ session.old.seat.table_id }
    ensures ready { IsReady all_counted (λ o. store_view o.engine) session.new.seat.me }
{
    let key = key_of(alloc, text).expect(rt, "a key");
    let value = value_of(alloc, &number.to_be_bytes()).expect(rt, "a value");
    match store.put(rt, alloc, session, key, 7, value) {
        Ok(place) => place,
        Err(_) => panic!(rt; "a put was refused"),
    }
}

/// What is told of a snapshot, before the put behind its release.
fn told_of<D: Disk>(
    alloc: Global,
    rt: &impl Abort,
    snapshot: &Snapshot<D>,
    port: &mut D::Port,
    keys: (&str, &str),
) -> Pin {
    Pin {
        number: snapshot.number(),
        point: snapshot.point(),
        limit: snapshot.limit(),
        own: number_at(alloc, rt, snapshot, port, keys.0),
        beside: number_at(alloc, rt, snapshot, port, keys.1),
        put: 0,
    }
}

/// Pins, reads its own key and the other's through the snapshot, lets it go, and puts its number under its own key.
fn pin_once<D: Disk, R: Wait + Abort>(
    alloc: Global,
    rt: &R,
    store: &Shared<D>,
    session: &mut Caller<D>,
    keys: (&str, &str),
) -> Pin
    requires of { session.old.seat.table_id ≡ store.now.turn.table.shared.table_id }
    requires ready { IsReady all_counted (λ o. store_view o.engine) session.old.seat.me }
    ensures of { session.new.seat.table_id ≡ session.old.seat.table_id }
    ensures ready { IsReady all_counted (λ o. store_view o.engine) session.new.seat.me }
{
    let snapshot = snapshot_of(alloc, rt, store, session);
    let mut told = told_of(alloc, rt, &snapshot, session.port(), keys);
    let _ = store.release(rt, session, snapshot);
    told.put = put_number(alloc, rt, store, session, keys.0, told.number);
    told
}

/// Fifty pins, under its own key and beside the other's.
pub fn fifty_pins<D: Disk, R: Wait + Abort>(
    alloc: Global,
    rt: &R,
    store: &Shared<D>,
    mut session: Caller<D>,
    keys: (&str, &str),
) -> (Caller<D>, Vec<Pin>)
    requires of { session.seat.table_id ≡ store.now.turn.table.shared.table_id }
    requires ready { IsReady all_counted (λ o. store_view o.engine) session.seat.me }
    ensures of { result.0.seat.table_id ≡ session.seat.table_id }
    ensures ready { IsReady all_counted (λ o. store_view o.engine) result.0.seat.me }
{
    let mut pins = Vec::new(alloc);
    for _ in 0..50 {
        let told = pin_once(alloc, rt, store, &mut session, keys);
        pins.push(told).expect(rt, "memory");
    }
    (session, pins)
}

/// What is told of a tick that was done or barred.
fn told_tick(rt: &impl Abort, answer: Result<Ticked, Refused>) -> Result<Ticked, (u64, u64)> {
    match answer {
        Ok(told) => Ok(told),
        Err(Refused::Pinned { pin, limit }) => Err((pin, limit)),
        Err(_) => panic!(rt; "a tick was refused"),
    }
}

/// A tick, behind gets of the last pins that were let go.
fn tick_once<D: Disk, R: Wait + Abort>(
    alloc: Global,
    rt: &R,
    store: &Shared<D>,
    session: &mut Caller<D>,
    to: u64,
) -> Tick
    requires of { session.old.seat.table_id ≡ store.now.turn.table.shared.table_id }
    requires ready { IsReady all_counted (λ o. store_view o.engine) session.old.seat.me }
    requires within { to ≤ max_time }
    ensures of { session.new.seat.table_id ≡ session.old.seat.table_id }
    ensures ready { IsReady all_counted (λ o. store_view o.engine) session.new.seat.me }
{
    let one = number_now(alloc, rt, store, session, ONE);
    let other = number_now(alloc, rt, store, session, OTHER);
    let answer = store.tick(rt, alloc, session, to);
    Tick {
        to,
        one,
        other,
        told: told_tick(rt, answer),
    }
}

/// Fifty ticks, a threshold apart: each of them is barred by whatever pin is held.
pub fn fifty_ticks<D: Disk, R: Wait + Abort>(
    alloc: Global,
    rt: &R,
    store: &Shared<D>,
    mut session: Caller<D>,
) -> (Caller<D>, Vec<Tick>)
    requires of { session.seat.table_id ≡ store.now.turn.table.shared.table_id }
    requires ready { IsReady all_counted (λ o. store_view o.engine) session.seat.me }
    ensures of { result.0.seat.table_id ≡ session.seat.table_id }
    ensures ready { IsReady all_counted (λ o. store_view o.engine) result.0.seat.me }
{
    let mut ticks = Vec::new(alloc);
    for turn in 1..51 {
        let told = tick_once(alloc, rt, store, &mut session, 100 * turn);
        ticks.push(told).expect(rt, "memory");
    }
    (session, ticks)
}
