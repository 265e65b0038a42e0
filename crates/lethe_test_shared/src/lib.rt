//! Tests of a shared store: sessions one after another and beside each other, over a disk in memory, over a folder, and where the device or a port fails.
#![tactic(auto)]

mod both;
#[cfg(test)]
mod common;
#[cfg(test)]
mod faults;
#[cfg(test)]
mod fifty;
mod many;
#[cfg(test)]
mod rows;
#[cfg(test)]
mod scans;

pub use both::{Both, Put, put_both};
pub use many::{put_each, put_two_hundred};
