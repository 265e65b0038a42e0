//! Tests of the texts of reasons.
#![tactic(auto)]

#[cfg(test)]
mod folders;
#[cfg(test)]
mod lines;
#[cfg(test)]
mod shown;
#[cfg(test)]
mod stores;
#[cfg(test)]
mod words;
