//! What a job is named by.

/// A job of a shape: a merge, or the sweep of a pending erase through a file.
#[derive(Clone, Copy, Debug, PartialEq, Eq)]
pub struct Plan {
    /// The number of the file that is merged or swept. A merge of level 0 takes all its files: it has the number of one that is expired, or the least of their numbers.
    pub file: u64,
    /// The place of the erase that is swept. None for a merge.
    pub erase: Option<u64>,
}
