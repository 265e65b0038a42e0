//! Tests of buffers, files, versions, merges and reads.
#![tactic(auto)]

#[cfg(test)]
mod agreement;
#[cfg(test)]
mod build;
#[cfg(test)]
mod common;
#[cfg(test)]
mod copies;
#[cfg(test)]
mod file;
#[cfg(test)]
mod files;
#[cfg(test)]
mod mem;
#[cfg(test)]
mod merge;
#[cfg(test)]
mod opening;
#[cfg(test)]
mod read;
#[cfg(test)]
mod version;
