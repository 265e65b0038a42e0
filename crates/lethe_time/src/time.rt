//! Times that a tick may be given.
ghost use Rattle.std.specs.Prelude.{◌≡◌, ◌≤◌, ◌<◌, ◌↔◌, None, IfSome};
ghost use Rattle.lethe_base.specs.Limits.{max_time};

use lethe_base::MAX_TIME;
use std::marker::Model;

/// A time up to 2^62, the greatest that a store's clock may show. Contracts see the number.
#[derive(Debug, Drop)]
pub struct Time {
    at: u64,
}

impl Model for Time {
    ghost use Rattle.std.specs.Prelude.{ℕ, ◌≤◌};
    ghost use Rattle.lethe_base.specs.Limits.{max_time};

    ghost Value = { ℕ };

    ghost view = { λ t. t.at };

    ghost invariant = { λ t. t.at ≤ max_time };
}

impl Time {
    /// The time of this number. There is none above 2^62.
    pub fn new(at: u64) -> Option<Time>
        ensures time { IfSome result (λ time. time ≡ at) }
        ensures none { (result ≡ None) ↔ (max_time < at) }
    {
        if at > MAX_TIME {
            None
        } else {
            Some(Time { at })
        }
    }

    /// Its number.
    pub fn get(&self) -> u64
        ensures number { result ≡ self.now }
        ensures limit { self.now ≤ max_time }
    {
        self.at
    }
}
