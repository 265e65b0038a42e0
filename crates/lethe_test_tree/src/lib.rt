//! Tests of the buffer over a balanced tree, beside the one over a sorted vector.
#![tactic(auto)]

#[cfg(test)]
mod common;
#[cfg(test)]
mod keys;
#[cfg(test)]
mod memory;
#[cfg(test)]
mod orders;
