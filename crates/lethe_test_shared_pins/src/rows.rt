//! Ticks and pins of two sessions, one call after another.
ghost use Rattle.std.specs.Prelude.{◌≡◌};
ghost use Rattle.lethe_store.specs.StoreViews.{store_view};
ghost use Rattle.lethe_store.specs.Since.{all_counted};
ghost use Rattle.lethe_store.specs.Sessions.{IsReady};

use crate::asks::{Ask, BARRED, Held, Row, Told, Which, check_row, check_rows, let_go};
use crate::common::{Caller, Shared, empty_disk, holds_value, shared, split};
use lethe_base::Refused;
use lethe_disk::Disk;
use std::alloc::Global;
use std::process::Abort;
use std::sync::Wait;

/// Which of two sessions is asked.
#[derive(Clone, Copy)]
enum Who {
    A,
    B,
}

const BEHIND: Told = Told::Refused(Refused::Backwards { clock: 100 });

/// A tick has a certificate from the threshold on, and one to the time of another session's has a place and a certificate of its own.
const TICKS: [(Who, Row); 8] = [
    (Who::A, (Ask::Put, Told::Place(1))),
    (Who::B, (Ask::Tick(99), Told::Ticked(2, None))),
    (Who::A, (Ask::Tick(100), Told::Ticked(3, Some((1, 0))))),
    (Who::B, (Ask::Tick(100), Told::Ticked(4, Some((2, 0))))),
    (Who::A, (Ask::Tick(99), BEHIND)),
    (Who::B, (Ask::Tick(99), BEHIND)),
    (Who::B, (Ask::Delete, Told::Place(5))),
    (Who::A, (Ask::Tick(250), Told::Ticked(6, Some((3, 150))))),
];

/// A pin of a value that is deleted then: it bars the tick that would let the value go, of whichever session.
const DELETED: [(Who, Row); 10] = [
    (Who::A, (Ask::Put, Told::Place(1))),
    (Who::A, (Ask::Pin(Which::One), FIRST)),
    (Who::B, (Ask::Delete, Told::Place(2))),
    (Who::A, (Ask::Tick(99), Told::Ticked(3, None))),
    (Who::A, (Ask::Tick(100), BARRED)),
    (Who::B, (Ask::Tick(100), BARRED)),
    (Who::B, (Ask::Read(Which::One), Told::Read(true))),
    (Who::A, (Ask::Tick(100), BARRED)),
    (Who::B, (Ask::Release(Which::One), Told::At(3))),
    (Who::A, (Ask::Tick(100), Told::Ticked(4, Some((1, 0))))),
];

const FIRST: Told = Told::Pin {
    number: 1,
    point: 1,
    limit: 100,
};

/// Pins of two sessions, of which the one that was made first has the lesser limit. A number comes once.
const LIMITS: [(Who, Row); 13] = [
    (Who::A, (Ask::Put, Told::Place(1))),
    (Who::A, (Ask::Pin(Which::One), FIRST)),
    (Who::B, (Ask::Tick(10), Told::Ticked(2, None))),
    (Who::B, (Ask::Pin(Which::Other), SECOND)),
    (Who::A, (Ask::Tick(100), BARRED)),
    (Who::B, (Ask::Tick(110), BARRED)),
    (Who::B, (Ask::Release(Which::One), Told::At(2))),
    (Who::B, (Ask::Tick(109), Told::Ticked(3, Some((1, 9))))),
    (Who::A, (Ask::Tick(110), BARRED_BY_SECOND)),
    (Who::A, (Ask::Pin(Which::One), THIRD)),
    (Who::A, (Ask::Release(Which::Other), Told::At(3))),
    (Who::B, (Ask::Tick(208), Told::Ticked(4, Some((2, 108))))),
    (Who::B, (Ask::Read(Which::One), Told::Read(true))),
];

const SECOND: Told = Told::Pin {
    number: 2,
    point: 2,
    limit: 110,
};

const BARRED_BY_SECOND: Told = Told::Refused(Refused::Pinned { pin: 2, limit: 110 });

const THIRD: Told = Told::Pin {
    number: 3,
    point: 3,
    limit: 209,
};

/// Of two pins of one limit the one that was made first is told. What was deleted before a pin it doesn't show.
const EQUAL: [(Who, Row); 9] = [
    (Who::A, (Ask::Put, Told::Place(1))),
    (Who::B, (Ask::Pin(Which::One), FIRST)),
    (Who::A, (Ask::Delete, Told::Place(2))),
    (Who::A, (Ask::Pin(Which::Other), SAME_LIMIT)),
    (Who::B, (Ask::Tick(100), BARRED)),
    (Who::A, (Ask::Read(Which::Other), Told::Read(false))),
    (Who::A, (Ask::Release(Which::One), Told::At(2))),
    (Who::B, (Ask::Tick(100), BARRED_BY_SAME_LIMIT)),
    (Who::B, (Ask::Release(Which::Other), Told::At(2))),
];

const SAME_LIMIT: Told = Told::Pin {
    number: 2,
    point: 2,
    limit: 100,
};

const BARRED_BY_SAME_LIMIT: Told = Told::Refused(Refused::Pinned { pin: 2, limit: 100 });

/// The rows of both sessions have to go so.
fn check_both<D: Disk, R: Wait + Abort>(
    alloc: Global,
    rt: &R,
    store: &Shared<D>,
    one: &mut Caller<D>,
    other: &mut Caller<D>,
    rows: &[(Who, Row)],
)
    requires of { (one.old.seat.table_id ≡ store.now.turn.table.shared.table_id) × (other.old.seat.table_id ≡ store.now.turn.table.shared.table_id) }
    requires ready { IsReady all_counted (λ o. store_view o.engine) one.old.seat.me × IsReady all_counted (λ o. store_view o.engine) other.old.seat.me }
    ensures of { (one.new.seat.table_id ≡ one.old.seat.table_id) × (other.new.seat.table_id ≡ other.old.seat.table_id) }
    ensures ready { IsReady all_counted (λ o. store_view o.engine) one.new.seat.me × IsReady all_counted (λ o. store_view o.engine) other.new.seat.me }
{
    let mut held = Held::none();
    for row in rows {
        match row.0 {
            Who::A => check_row(alloc, rt, store, one, &mut held, row.1),
            Who::B => check_row(alloc, rt, store, other, &mut held, row.1),
        }
    }
    let_go(rt, store, one, held);
}

/// Behind the rows an object has the value or none does.
fn check_table<R: Wait + Abort>(alloc: Global, rt: &R, rows: &[(Who, Row)], has: bool) {
    let (store, mut one) = shared(alloc, rt, empty_disk(alloc, rt));
    let mut other = split(alloc, rt, &store, &mut one, 1);
    check_both(alloc, rt, &store, &mut one, &mut other, rows);
    store.join(&mut one, other);
    let mut disk = store.finish(rt, one).into_disk();
    assert!(rt; holds_value(alloc, rt, &mut disk) == has);
}

#[test]
fn ticks_of_two_sessions_have_places_and_certificates_of_their_own(rt: HostRuntime) {
    check_table(rt.alloc(), &rt, &TICKS, false);
}

#[test]
fn a_pin_bars_the_ticks_of_each_session_from_its_limit_on(rt: HostRuntime) {
    check_table(rt.alloc(), &rt, &DELETED, false);
}

#[test]
fn the_least_limit_of_two_sessions_pins_bars_a_tick(rt: HostRuntime) {
    check_table(rt.alloc(), &rt, &LIMITS, true);
}

#[test]
fn of_two_pins_of_one_limit_the_first_bars_a_tick(rt: HostRuntime) {
    check_table(rt.alloc(), &rt, &EQUAL, true);
}

const PINNED: [Row; 3] = [
    (Ask::Put, Told::Place(1)),
    (Ask::Pin(Which::One), FIRST),
    (Ask::Tick(100), BARRED),
];

const FREE: [Row; 3] = [
    (Ask::Tick(100), Told::Ticked(2, Some((1, 0)))),
    (Ask::Read(Which::One), Told::Read(true)),
    (Ask::Release(Which::One), Told::At(2)),
];

const PINNED_STILL: [Row; 1] = [(Ask::Tick(100), BARRED)];

#[test]
fn a_snapshot_of_another_store_lets_go_the_pin_of_its_number(rt: HostRuntime) {
    let alloc = rt.alloc();
    let (store, mut one) = shared(alloc, &rt, empty_disk(alloc, &rt));
    let (other_store, mut other) = shared(alloc, &rt, empty_disk(alloc, &rt));
    let mut held = Held::none();
    let mut others = Held::none();
    check_rows(alloc, &rt, &store, &mut one, &mut held, &PINNED);
    check_rows(alloc, &rt, &other_store, &mut other, &mut others, &PINNED);
    let_go(&rt, &store, &mut one, others);
    check_rows(alloc, &rt, &store, &mut one, &mut held, &FREE);
    check_rows(
        alloc,
        &rt,
        &other_store,
        &mut other,
        &mut held,
        &PINNED_STILL,
    );
    let_go(&rt, &store, &mut one, held);
    let _ = store.finish(&rt, one).into_disk();
    let _ = other_store.finish(&rt, other).into_disk();
}
