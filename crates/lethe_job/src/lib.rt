//! A job: the merge or the sweep that is due, what it makes, and the pages that it writes.
#![tactic(auto)]

mod claim;
mod filed;
mod inputs;
mod job;
mod laws;
mod made;
mod merge;
mod merging;
mod number;
mod reach;
mod reading;
mod shape;
mod sweep;
mod task;

pub use filed::{Filed, cited_files};
pub use job::{Job, Piece};
pub use laws::{
    claim_is_chosen, plan_is_in_the_store, plan_is_named, shape_is_of_the_layout, task_is_free,
    task_stays,
};
pub use made::Made;
pub use merge::MergeTask;
pub use number::Begun;
pub use shape::shape_of;
pub use task::{Task, task_of};
