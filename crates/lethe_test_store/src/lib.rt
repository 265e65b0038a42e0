//! Tests of a store's calls, and of whole runs of events.
#![tactic(auto)]

#[cfg(test)]
mod common;
#[cfg(test)]
mod drive;
#[cfg(test)]
mod engine;
