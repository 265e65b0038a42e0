//! Tests of the time of each level, and of the choice of the next merge or sweep.
#![tactic(auto)]

#[cfg(test)]
mod common;
#[cfg(test)]
mod merges;
#[cfg(test)]
mod sweeps;
