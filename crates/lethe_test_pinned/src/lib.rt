//! Tests of pins that are held in a store: which ticks they bar, which pages they keep, what a snapshot reads then, and what a crash leaves of that.
#![tactic(auto)]

#[cfg(test)]
mod asks;
#[cfg(test)]
mod barred;
#[cfg(test)]
mod common;
#[cfg(test)]
mod kept;
#[cfg(test)]
mod stops;
