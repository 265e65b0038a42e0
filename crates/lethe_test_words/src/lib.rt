//! Tests of the words of a command.
#![tactic(auto)]

#[cfg(test)]
mod asked;
#[cfg(test)]
mod bad;
#[cfg(test)]
mod by_hand;
#[cfg(test)]
mod common;
#[cfg(test)]
mod drawn;
