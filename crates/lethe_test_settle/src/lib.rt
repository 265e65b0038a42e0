//! Tests of settling: a number that is counted down, job by job, through a tree that borrows it.
#![tactic(auto)]

#[cfg(test)]
mod countdown;
#[cfg(test)]
mod settling;
