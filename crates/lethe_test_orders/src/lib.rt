//! Tests of the orders of a store's levels, and of the first expired file.
#![tactic(auto)]

#[cfg(test)]
mod apart;
#[cfg(test)]
mod common;
#[cfg(test)]
mod firsts;
#[cfg(test)]
mod links;
