//! The step that installs what a job made: from what a store remembers to what is stored once that has taken the place of what goes.
#![tactic(auto)]

mod inputs;
mod laws;
mod left;
mod names;
mod outcome;
mod placing;
mod steps;
mod sweeping;

pub use laws::{install_is_remembered, task_stays_beside};
pub use outcome::installing;
pub use steps::Installation;
