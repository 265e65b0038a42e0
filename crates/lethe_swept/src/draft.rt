//! The file that is made of what a sweep leaves, before its new pages have numbers.

use lethe_base::{Key, List};
use lethe_header::PageLine;

/// A line of a page.
#[derive(Debug, Drop)]
pub enum DraftLine {
    /// The page is one of the file that was swept.
    Own(PageLine),
    /// The page is new and has no number yet: 0 stands in its place.
    New(PageLine),
}

/// A tile.
#[derive(Debug, Drop)]
pub struct DraftTile {
    /// No key in it is below this one.
    pub lo: Key,
    /// No key in it is above this one.
    pub hi: Key,
    /// The lines of its pages, at least one.
    pub lines: List<DraftLine>,
}

/// A file, what its header says of its tiles and the bytes of its new pages, in the order of their lines.
#[derive(Debug, Drop)]
pub struct SweptDraft {
    pub tiles: List<DraftTile>,
    pub pages: List<List<u8>>,
}
