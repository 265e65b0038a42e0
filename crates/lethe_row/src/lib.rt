//! Records of changes that are written one behind another, with one sync each.
#![tactic(auto)]

mod asking;
mod laws;
mod row;
mod waiting;

pub use asking::Asked;
pub use laws::change_is_recorded;
pub use row::{Row, record_row};
pub use waiting::{count_last, hold, pass_on};
