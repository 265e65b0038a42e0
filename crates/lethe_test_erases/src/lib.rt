//! Tests of erases in a store: which are still to be done, which of them a manifest keeps, what a job leaves that was begun before one, and which files are swept of them in turn.
#![tactic(auto)]

#[cfg(test)]
mod common;
#[cfg(test)]
mod jobs;
#[cfg(test)]
mod kept;
#[cfg(test)]
mod stores;
#[cfg(test)]
mod sweeps;
