//! Merging: cursors side by side, given out as one.
#![tactic(auto)]

mod gathering;
mod joining;
mod laws;
mod least;
mod merger;
mod settling;
mod source;

pub use gathering::merge_entries;
pub use laws::one_merged;
pub use merger::Merger;
pub use settling::settle;
