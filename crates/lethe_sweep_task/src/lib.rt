//! What a job that sweeps a file is to do, and what it makes of the file.
#![tactic(auto)]

mod task;

pub use task::SweepTask;
