//! What fifty pins of each of two sessions and fifty ticks have to have told, whatever their order was.

use crate::turns::{Pin, Tick};
use lethe_engine::Ticked;
use std::process::Abort;

fn has_number(pins: &[Pin], number: u64) -> bool {
    pins.iter().any(|pin| pin.number == number)
}

/// The numbers have to be 1 to 100, each once.
pub fn check_numbers(rt: &impl Abort, one: &[Pin], other: &[Pin]) {
    assert!(rt; one.len() == 50 && other.len() == 50);
    for number in 1..101 {
        let (here, there) = (has_number(one, number), has_number(other, number));
        assert!(rt; here != there, "{number}");
    }
}

/// The number that a session had put under its key behind so many changes, and 0 where it had put none.
fn number_behind(pins: &[Pin], changes: u64) -> u64 {
    let mut number = 0;
    for pin in pins {
        if pin.put <= changes {
            number = pin.number;
        }
    }
    number
}

/// The place of a tick that was done behind so many changes or fewer.
fn is_within(tick: &Tick, changes: u64) -> bool {
    matches!(&tick.told, Ok(told) if told.place <= changes)
}

/// The clock behind so many changes.
fn clock_behind(ticks: &[Tick], changes: u64) -> u64 {
    let mut clock = 0;
    for tick in ticks {
        if is_within(tick, changes) {
            clock = tick.to;
        }
    }
    clock
}

/// Each pin has to have a limit above the clock of its point and at most a threshold above it, and its reads have to be those of its point.
pub fn check_pins(rt: &impl Abort, pins: &[Pin], others: &[Pin], ticks: &[Tick]) {
    for pin in pins {
        let clock = clock_behind(ticks, pin.point);
        let above = pin.limit.saturating_sub(clock);
        assert!(rt; 0 < above && above <= 100, "{above} above {clock}");
        let (own, beside) = (
            number_behind(pins, pin.point),
            number_behind(others, pin.point),
        );
        assert!(rt; pin.own == own && pin.beside == beside, "at {}", pin.point);
    }
}

/// Whether such a pin was made, and behind that one of its session's which is known as let go.
fn is_held(pins: &[Pin], known: u64, barring: (u64, u64)) -> bool {
    let (number, limit) = barring;
    pins.iter().any(|pin| pin.number == number && pin.limit == limit && known < number)
}

/// A tick has to have been barred by a pin that was made and isn't known as let go.
fn is_barred(one: &[Pin], other: &[Pin], tick: &Tick, barring: (u64, u64)) -> bool {
    let held = is_held(one, tick.one, barring) || is_held(other, tick.other, barring);
    held && barring.1 <= tick.to
}

/// Whether it has the next certificate, of a threshold before its time.
fn is_certified(told: &Ticked, to: u64, number: u64) -> bool {
    let before = to.saturating_sub(100);
    let certified =
        matches!(told.certificate, Some(cert) if cert.number == number && cert.before == before);
    certified && told.clock == to
}

/// Each tick has to have been done, with the next certificate, or barred.
pub fn check_ticks(rt: &impl Abort, one: &[Pin], other: &[Pin], ticks: &[Tick]) {
    let mut number: u64 = 1;
    for tick in ticks {
        match tick.told {
            Ok(told) => {
                assert!(rt; is_certified(&told, tick.to, number), "{}", tick.to);
                number = number.saturating_add(1);
            }
            Err(barring) => assert!(rt; is_barred(one, other, tick, barring), "{}", tick.to),
        }
    }
}

fn has_put_at(pins: &[Pin], place: u64) -> bool {
    pins.iter().any(|pin| pin.put == place)
}

fn has_tick_at(ticks: &[Tick], place: u64) -> bool {
    ticks.iter().any(|tick| matches!(&tick.told, Ok(told) if told.place == place))
}

fn count_done(ticks: &[Tick]) -> u64 {
    let mut done: u64 = 0;
    for tick in ticks {
        if tick.told.is_ok() {
            done = done.saturating_add(1);
        }
    }
    done
}

/// How many changes there were: each has to be a put of one of the sessions or a tick.
pub fn check_places(rt: &impl Abort, one: &[Pin], other: &[Pin], ticks: &[Tick]) -> u64 {
    let changes = count_done(ticks).saturating_add(100);
    for place in 1..changes.saturating_add(1) {
        let put = has_put_at(one, place) || has_put_at(other, place);
        assert!(rt; put != has_tick_at(ticks, place), "{place}");
    }
    changes
}
