//! Tests of what crosses threads, over any disk: a store that goes to another thread and back, a snapshot that is read in one while another changes the store,
//! and a store behind a turn that two threads hold.
#![tactic(auto)]

#[cfg(test)]
mod common;
#[cfg(test)]
mod disks;
#[cfg(test)]
mod moved;
#[cfg(test)]
mod read;
#[cfg(test)]
mod shared;
