//! Tests of looking for a key in the bytes of a page.
#![tactic(auto)]

#[cfg(test)]
mod alike;
#[cfg(test)]
mod files;
#[cfg(test)]
mod pages;
