//! The core of a store: what it has in memory and on its disk, and the steps that its calls are made of.
#![tactic(auto)]

mod choosing;
mod descent;
mod flight;
mod flights;
mod holding;
mod laws;
mod merging;
mod pinning;
mod recording;
mod stepping;
mod working;

pub use flight::Flight;
pub use flights::Flights;
pub use holding::Core;
pub use laws::{
    any_job_goes_on, erases_are_counted, job_goes_on, jobs_are_bounded, jobs_are_few,
    room_is_bounded,
};
pub use lethe_snapshot::Snapshot;
