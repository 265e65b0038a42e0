//! Tests of records that are appended in a row.
#![tactic(auto)]

#[cfg(test)]
mod disks;
#[cfg(test)]
mod records;
#[cfg(test)]
mod rows;
