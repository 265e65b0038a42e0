//! Where a walk along the pins stops.
ghost use Rattle.std.specs.Prelude.{◌≡◌, ◌<◌, ◌==◌};
ghost use Rattle.lethe_pins.specs.Held.{Ascend, has_name};
ghost use Rattle.lethe_pins.specs.Linked.{stops_at};

use crate::Pin;
use lethe_base::Name;

/// The first pin that a walk stops at.
#[derive(Clone, Copy)]
pub enum Stop {
    /// Of a greater limit.
    Limit(u64),
    /// Of this number.
    Number(u64),
    /// That keeps this name.
    Name(Name),
}

/// Whether the name is one of them, by a binary search.
fn has(names: &[Name], name: Name) -> bool
    requires { Ascend names.now }
    ensures { result ≡ has_name names.now name }
{
    names.binary_search(&name).is_ok()
}

/// Whether a walk stops at that pin.
pub fn stops(stop: &Stop, pin: &Pin) -> bool
    requires { Ascend pin.now.names }
    ensures { result ≡ stops_at stop.now pin.now }
{
    match *stop {
        Stop::Limit(limit) => limit < pin.limit,
        Stop::Number(number) => pin.number == number,
        Stop::Name(name) => has(pin.names.items(), name),
    }
}
