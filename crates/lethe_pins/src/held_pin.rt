//! What the maker of a pin has of it.
ghost use Rattle.std.specs.Prelude.{◌≡◌};

/// A pin that is held, as its maker has it. `Pins::pin` alone makes it, and it can't be dropped: it goes back to the pins that gave it.
#[derive(Debug)]
pub struct HeldPin {
    pub(crate) number: u64,
    pub(crate) limit: u64,
}

impl HeldPin {
    /// The pins of a store are numbered from 1 in the order in which they are made.
    pub fn number(&self) -> u64
        ensures { result ≡ self.now.number }
    {
        self.number
    }

    /// The first time that a tick may not move the clock to while it is held.
    pub fn limit(&self) -> u64
        ensures { result ≡ self.now.limit }
    {
        self.limit
    }
}
