//! Tests of what is spelled and read back: numbers, entries, records, pages, tiles, headers, manifests, scripts, and the bytes of a run.
#![tactic(auto)]

#[cfg(test)]
mod common;
#[cfg(test)]
mod entries;
#[cfg(test)]
mod header;
#[cfg(test)]
mod manifest;
#[cfg(test)]
mod page;
#[cfg(test)]
mod script;
#[cfg(test)]
mod segment;
#[cfg(test)]
mod tile;
#[cfg(test)]
mod types;
#[cfg(test)]
mod wire;
