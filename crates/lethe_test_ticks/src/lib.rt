//! Tests of ticks: what they make of a store and of its certificates.
#![tactic(auto)]

#[cfg(test)]
mod certificates;
