//! Tests of sweeps of files.
#![tactic(auto)]

#[cfg(test)]
mod files;
#[cfg(test)]
mod rows;
#[cfg(test)]
mod texts;
