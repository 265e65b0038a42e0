//! The reads of a store: the pair of a key, and the pairs between two keys, over its two buffers and its files.
#![tactic(auto)]

mod found;
mod part;
mod scanning;
mod telling;

pub use found::get;
pub use scanning::scan;
pub use telling::told_as;
