//! Records appended to a segment of the journal one behind another, with one sync for each.
#![tactic(auto)]

mod chain;

pub use chain::{append_first, append_last, append_next};
