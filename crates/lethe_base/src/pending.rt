//! Erases that are still to be carried out.

use crate::Range;

/// An accepted erase by a range of delete keys: its place in the history, the clock when it was accepted, and its range.
#[derive(Clone, Copy, Debug, PartialEq, Eq)]
pub struct Pending {
    pub seq: u64,
    pub time: u64,
    pub range: Range,
}
