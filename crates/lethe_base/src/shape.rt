//! What the choice of a job looks at: the facts of the files, and the erases that are still to be carried out.

use crate::{Key, List, Pending};

/// The facts of a file, without its entries.
#[derive(Debug, Drop)]
pub struct FileFacts {
    /// The number of the file's object, from 0 to 2^62 - 1.
    pub no: u64,
    /// The level that the file stands in, from 0.
    pub level: u64,
    /// The lower bound of its keys: the first tile's lower key.
    pub lo: Key,
    /// The upper bound of its keys, which they may reach: the last tile's upper key.
    pub hi: Key,
    /// The least `since` of its entries, a time from 0 to 2^62. None where no entry has one.
    pub oldest: Option<u64>,
    /// How many of its entries are tombstones.
    pub tombs: u64,
    /// How many entries it has, tombstones included.
    pub entries: u64,
    /// The greatest place in the history of one of its entries.
    pub max_seq: u64,
    /// Each accepted erase of a place up to this one has been applied to the file.
    pub swept: u64,
}

/// The facts of all files and the pending erases.
#[derive(Debug, Drop)]
pub struct Shape {
    /// The levels from level 0 down. In level 0 the newest file stands first, in the others the one of the lowest keys.
    pub levels: List<List<FileFacts>>,
    /// The erases that are still to be carried out.
    pub erases: List<Pending>,
}
