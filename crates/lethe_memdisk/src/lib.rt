//! A disk in memory, which fails at the calls that it is told, and what a crash at any of its calls leaves.
#![tactic(auto)]

mod crash;
mod disk;
mod flaky;
mod objects;
mod page;
mod past;

pub use disk::MemDisk;
pub use flaky::{FlakyDisk, FlakyPort};
pub use page::{MemPage, MemPort};
