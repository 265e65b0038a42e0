//! The pins of a store, by which readers of an older version keep pages that no manifest cites any more.
#![tactic(auto)]

mod held_pin;
mod linking;
mod node;
mod pin;
mod pins;
mod stop;

pub use held_pin::HeldPin;
pub use pin::Pin;
pub use pins::Pins;
