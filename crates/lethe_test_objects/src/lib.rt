//! Tests of what a store's disk holds: each object is read back.
#![tactic(auto)]

#[cfg(test)]
mod common;
#[cfg(test)]
mod faults;
#[cfg(test)]
mod flight;
#[cfg(test)]
mod rounds;
#[cfg(test)]
mod scripts;
#[cfg(test)]
mod ticks;
