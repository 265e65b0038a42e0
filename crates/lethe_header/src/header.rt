//! What a header says.

use lethe_base::{Key, List};
use lethe_page::Class;
use lethe_tile::Filter;

/// What is known of a page without reading it.
#[derive(Debug, Drop)]
pub struct PageLine {
    /// The number of the page's object, at most `MAX_PLACE`.
    pub no: u64,
    pub class: Class,
    /// How many entries it has, at least 1.
    pub entries: u32,
    /// The greatest place of an entry in it.
    pub max_seq: u64,
    /// The least `since` in it, if an entry has one.
    pub oldest: Option<u64>,
    /// The least and the greatest delete key. A page of puts has it, a page of tombstones doesn't.
    pub fence: Option<(u64, u64)>,
    /// The filter of its keys.
    pub filter: Filter,
    /// SHA-256 of the page's object.
    pub digest: [u8; 32],
}

/// A tile: a stretch of keys, and the pages that have its entries.
#[derive(Debug, Drop)]
pub struct TileLine {
    /// No key in it is below this one.
    pub lo: Key,
    /// No key in it is above this one.
    pub hi: Key,
    /// From 1 to 65. A page of tombstones is the first; there are at most 64 pages of puts, by their delete keys.
    pub pages: List<PageLine>,
}

/// What a file consists of.
#[derive(Debug, Drop)]
pub struct Header {
    /// The number in its name, at most `MAX_PLACE`.
    pub no: u64,
    /// From 1 to 256, by their keys.
    pub tiles: List<TileLine>,
}
