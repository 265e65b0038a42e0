//! What a manifest says.

use lethe_base::{Config, List, Pending};

/// The last certificate that a tick prepared.
#[derive(Clone, Copy, Debug, PartialEq, Eq)]
pub struct LastCert {
    /// From 1 over the store's life.
    pub number: u64,
    /// The time of the tick.
    pub clock: u64,
    /// What was deleted up to this time is gone.
    pub before: u64,
}

/// A file that the store has.
#[derive(Clone, Copy, Debug, PartialEq, Eq)]
pub struct Cited {
    pub level: u64,
    /// The number of its header.
    pub no: u64,
    /// The erases up to this place are carried out in the file.
    pub swept: u64,
    /// SHA-256 of its header.
    pub digest: [u8; 32],
}

/// All that the store consists of at one moment.
#[derive(Debug, Drop)]
pub struct Manifest {
    /// The number in its name.
    pub no: u64,
    pub config: Config,
    pub clock: u64,
    /// How many changes the history had.
    pub count: u64,
    /// The first number that no object has had.
    pub next: u64,
    pub certificate: Option<LastCert>,
    /// The erases that aren't carried out in all files, by their places.
    pub erases: List<Pending>,
    /// The numbers of the journal's segments, the oldest first and the active one last.
    pub segments: List<u64>,
    /// By level; in level 0 from newest to oldest, in the others by key.
    pub files: List<Cited>,
}
