//! A client of the turn: a sum that threads add to, whose replies and result stand for one history.
#![tactic(auto)]

mod phase;
mod session;
mod sum;

pub use phase::{add_both, run};
pub use session::{Store, add, limit};
pub use sum::{Entry, Mark, Refused, Sum};
