//! Tests of reads that are told of damage, and of how many pages a scan fetches.
#![tactic(auto)]

#[cfg(test)]
mod common;
#[cfg(test)]
mod damage;
#[cfg(test)]
mod fetches;
#[cfg(test)]
mod lying;
