//! Whole runs of events over a store: what is asked, what is answered, and what the steps of a run are.
#![tactic(auto)]

mod answering;
mod driving;
mod event;
mod jobs;
mod laws;
mod past;
mod pinning;
mod rounds;
mod working;

pub use driving::drive;
pub use event::{Event, Reply};
pub use jobs::{Jobs, Numbered};
pub use laws::{a_job_has_its_outcome, puts_are_read};
pub use lethe_engine::{Engine, Stat};
pub use lethe_time::Time;
pub use past::Past;
