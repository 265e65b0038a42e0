//! Level times, and the choice of the next job.
#![tactic(auto)]

mod choice;
mod claim;
mod due;
mod expired;
mod laws;
mod level_times;
mod merge;
mod plan;
mod rank;
mod saturation;
mod span;
mod sweeps;

pub use choice::pick;
pub use claim::Claim;
pub use due::pick_due;
pub use expired::is_passed;
pub use laws::{
    choice_is_free, deadlines_rise, due_is_first, expired_come_in_order, files_come_in_order,
    meeting_is_sharing, sweeps_come_in_order,
};
pub use level_times::cum;
pub use plan::Plan;
