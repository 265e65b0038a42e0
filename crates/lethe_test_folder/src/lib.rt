//! Tests of what a folder's disk does to the folder, of which no contract speaks.
#![tactic(auto)]

#[cfg(test)]
mod tests;
