//! What is left of a file.

use lethe_base::{Entry, Key, List};

/// A page of what is left of a tile.
#[derive(Debug, Drop)]
pub enum Part {
    /// The page at this place in the order of the file's page lines stays as it is.
    Kept(usize),
    /// A new page has these entries. There is at least one, and they are all puts or all tombstones.
    Fresh(List<Entry>),
}

/// What is left of a tile. Its keys are those that the tile had.
#[derive(Debug, Drop)]
pub struct SweptTile {
    /// No key in it is below this one.
    pub lo: Key,
    /// No key in it is above this one.
    pub hi: Key,
    /// At least one. A page of tombstones is the first; behind it are the pages of puts in the order in which they stood.
    pub parts: List<Part>,
}

/// What is left of a file: of its tiles those that keep a page or get a new one.
#[derive(Debug, Drop)]
pub struct SweptFile {
    pub tiles: List<SweptTile>,
}
