//! The slots in which a caller holds pins.
ghost use Rattle.std.specs.Prelude.{◌≡◌, ◌<◌, ◌≤◌, ◌↔◌, None, IfSome};

use std::marker::Model;

/// How many slots a caller has.
pub const SLOTS: usize = 10;

/// One of the ten slots of a caller, in which it holds a pin. Contracts see its number, from 0 to 9.
#[derive(Debug, Drop)]
pub struct Slot {
    at: usize,
}

impl Model for Slot {
    ghost use Rattle.std.specs.Prelude.{ℕ, ◌<◌};

    ghost Value = { ℕ };

    ghost view = { λ s. s.at };

    ghost invariant = { λ s. s.at < 10 };
}

impl Slot {
    /// The slot of this number. There is none from 10 on.
    pub fn new(at: usize) -> Option<Slot>
        ensures slot { IfSome result (λ slot. slot ≡ at) }
        ensures none { (result ≡ None) ↔ (10 ≤ at) }
    {
        if at < SLOTS { Some(Slot { at }) } else { None }
    }

    /// Its number.
    pub fn get(&self) -> usize
        ensures number { result ≡ self.now }
        ensures limit { self.now < 10 }
    {
        self.at
    }
}
