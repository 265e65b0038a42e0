//! Tests of the pins of a store.
#![tactic(auto)]

#[cfg(test)]
mod pins;
