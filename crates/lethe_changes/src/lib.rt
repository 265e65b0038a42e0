//! Lists of changes of a store: rows of them, with room made between.
#![tactic(auto)]

mod changes;
mod laws;

pub use changes::{Changed, change_all};
pub use laws::certificates_stay_in_list;
