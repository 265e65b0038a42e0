//! Ticks to the limit of a pin that is held, and what the objects hold meanwhile.

use crate::asks::{Ask, Told, Which, told_over};
use crate::common::{empty_disk, holds_value};
use lethe_base::Refused;
use std::alloc::Global;
use std::process::Abort;

/// What is asked, what is told, and whether an object has a value then.
type Row = (Ask, Told, bool);

const BARRED: Told = Told::Refused(Refused::Pinned { pin: 1, limit: 100 });

/// A pin of a value that is deleted then: it bars the tick that would let the value go.
pub const DELETED: [Row; 10] = [
    (Ask::Put("a"), Told::Place(1), true),
    (Ask::File(&[]), Told::Done, true),
    (
        Ask::Pin(Which::One),
        Told::Pin {
            number: 1,
            point: 1,
            limit: 100,
        },
        true,
    ),
    (Ask::Delete("a"), Told::Place(2), true),
    (Ask::Tick(99), Told::Ticked(3, None), true),
    (Ask::Tick(100), BARRED, true),
    (Ask::Read(Which::One, &["a"]), Told::Read(1, 0), true),
    (Ask::Tick(100), BARRED, true),
    (Ask::Release(Which::One), Told::Done, true),
    (Ask::Tick(100), Told::Ticked(4, Some(1)), false),
];

/// Two pins, of which the one that was made first has the lesser limit. A number comes once.
const TWO: [Row; 12] = [
    (Ask::Put("a"), Told::Place(1), true),
    (
        Ask::Pin(Which::One),
        Told::Pin {
            number: 1,
            point: 1,
            limit: 100,
        },
        true,
    ),
    (Ask::Tick(10), Told::Ticked(2, None), true),
    (
        Ask::Pin(Which::Other),
        Told::Pin {
            number: 2,
            point: 2,
            limit: 110,
        },
        true,
    ),
    (Ask::Tick(100), BARRED, true),
    (Ask::Tick(110), BARRED, true),
    (Ask::Release(Which::One), Told::Done, true),
    (Ask::Tick(109), Told::Ticked(3, Some(1)), true),
    (
        Ask::Tick(110),
        Told::Refused(Refused::Pinned { pin: 2, limit: 110 }),
        true,
    ),
    (
        Ask::Pin(Which::One),
        Told::Pin {
            number: 3,
            point: 3,
            limit: 209,
        },
        true,
    ),
    (Ask::Release(Which::Other), Told::Done, true),
    (Ask::Tick(208), Told::Ticked(4, Some(2)), true),
];

/// What is asked up to that row.
pub fn asks_of(alloc: Global, rt: &impl Abort, rows: &[Row], count: usize) -> Vec<Ask> {
    let mut asks = Vec::new(alloc);
    for (ask, _, _) in rows.iter().take(count) {
        asks.push(*ask).expect(rt, "memory");
    }
    asks
}

/// Whether that is told up to that row.
fn are_told(told: &[Told], rows: &[Row], count: usize) -> bool {
    told.len() == count && told.iter().zip(rows).all(|(told, row)| *told == row.1)
}

/// Whether an object has a value behind so many rows.
fn has_behind(rows: &[Row], count: usize) -> bool {
    let mut has = false;
    for (_, _, value) in rows.iter().take(count) {
        has = *value;
    }
    has
}

/// That many of the rows have to go so.
fn check_rows(alloc: Global, rt: &impl Abort, rows: &[Row], count: usize) {
    let asks = asks_of(alloc, rt, rows, count);
    let (told, mut disk) = told_over(alloc, rt, empty_disk(alloc, rt), &asks);
    assert!(rt; are_told(&told, rows, count), "behind {count}");
    let holds = holds_value(alloc, rt, &mut disk);
    assert!(rt; holds == has_behind(rows, count), "behind {count}");
}

#[test]
fn a_pin_bars_ticks_from_its_limit_on(rt: HostRuntime) {
    for count in 0..=DELETED.len() {
        check_rows(rt.alloc(), &rt, &DELETED, count);
    }
}

#[test]
fn the_least_limit_of_two_pins_bars_a_tick(rt: HostRuntime) {
    for count in 0..=TWO.len() {
        check_rows(rt.alloc(), &rt, &TWO, count);
    }
}
