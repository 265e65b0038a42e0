//! Times that a store's clock may show.
#![tactic(auto)]

mod time;

pub use time::Time;
