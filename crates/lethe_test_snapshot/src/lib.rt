//! Tests of what a store held at a point, and of how long that may be held.
#![tactic(auto)]

#[cfg(test)]
mod common;
#[cfg(test)]
mod files;
#[cfg(test)]
mod limits;
#[cfg(test)]
mod places;
#[cfg(test)]
mod points;
