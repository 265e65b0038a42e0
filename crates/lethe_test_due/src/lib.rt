//! Tests of the order of files by their oldest times.
#![tactic(auto)]

#[cfg(test)]
mod due;
