//! Tests of scripts over disks that are stopped, crashed and run over again.
#![tactic(auto)]

#[cfg(test)]
mod common;
#[cfg(test)]
mod journal;
#[cfg(test)]
mod levels;
#[cfg(test)]
mod rows;
#[cfg(test)]
mod sweeps;
