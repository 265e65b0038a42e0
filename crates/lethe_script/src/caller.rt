//! The callers of a script.
ghost use Rattle.std.specs.Prelude.{◌≡◌, ◌+◌, ◌<◌, ◌≤◌, ◌↔◌, IsSome, IfSome};

use std::marker::Model;

/// How many callers a script may have.
pub const CALLERS: usize = 8;

/// One of the eight callers of a script. Contracts see its number, from 1 to 8.
#[derive(Debug, Drop)]
pub struct Caller {
    number: u64,
}

impl Model for Caller {
    ghost use Rattle.std.specs.Prelude.{ℕ, ◌≤◌};

    ghost Value = { ℕ };

    ghost view = { λ c. c.number };

    ghost invariant = { λ c. (1 ≤ c.number) × (c.number ≤ 8) };
}

impl Caller {
    /// The caller of this number. There is none at 0 and from 9 on.
    pub fn new(number: u64) -> Option<Caller>
        ensures caller { IfSome result (λ caller. caller ≡ number) }
        ensures some { IsSome result ↔ ((1 ≤ number) × (number ≤ 8)) }
    {
        if 1 <= number && number <= CALLERS as u64 {
            Some(Caller { number })
        } else {
            None
        }
    }

    /// Its number.
    pub fn get(&self) -> u64
        ensures number { result ≡ self.now }
        ensures least { 1 ≤ self.now }
        ensures most { self.now ≤ 8 }
    {
        self.number
    }

    /// Where what is its own stands in a list of all eight.
    pub fn index(&self) -> usize
        ensures index { result + 1 ≡ self.now }
        ensures within { result < 8 }
    {
        (self.number - 1) as usize
    }
}
