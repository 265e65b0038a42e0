//! Tests of threads: a value behind a turn.
#![tactic(auto)]

#[cfg(test)]
mod sum;
