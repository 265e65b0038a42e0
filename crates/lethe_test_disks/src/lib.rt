//! Tests of disks in memory and in a folder, and of what is written to and loaded from them.
#![tactic(auto)]

#[cfg(test)]
mod appends;
#[cfg(test)]
mod common;
#[cfg(test)]
mod dirdisk;
#[cfg(test)]
mod loads;
#[cfg(test)]
mod loose;
#[cfg(test)]
mod memdisk;
#[cfg(test)]
mod switches;
#[cfg(test)]
mod vectors;
