//! A tick of a store: what has been in the buffers or in a level as long as it may goes on, and then the clock moves.
#![tactic(auto)]

mod clock;
mod laws;
mod ripening;
mod ticking;

pub use laws::tick_is_bounded;
pub use ticking::tick;
