//! Clients of the top call. Each is proved of the call's contract alone: what it runs ends as it says, and prints just that.
#![tactic(auto)]

mod client;
mod disk;
mod sink;
mod source;
#[cfg(test)]
mod tests;

pub use client::{Left, put_and_get, put_and_tick};
pub use disk::RoomyDisk;
pub use sink::RoomySink;
pub use source::SteadySource;
