//! Tests of what a store remembers: how it is opened, what a buffer becomes, and what is frozen and flushed.
#![tactic(auto)]

#[cfg(test)]
mod common;
#[cfg(test)]
mod flush;
#[cfg(test)]
mod recover;
#[cfg(test)]
mod state;
