//! Tests of ticks and pins of a shared store: two sessions one after another, a snapshot that another session reads and lets go in another thread, and pins of two sessions beside ticks of a third.
#![tactic(auto)]

#[cfg(test)]
mod asks;
#[cfg(test)]
mod beside;
#[cfg(test)]
mod checks;
#[cfg(test)]
mod common;
#[cfg(test)]
mod handed;
#[cfg(test)]
mod rows;
#[cfg(test)]
mod turns;
