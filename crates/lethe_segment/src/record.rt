//! What the journal says of one change.
ghost use Rattle.std.specs.Prelude.{◌≡◌};
ghost use Rattle.lethe_segment.specs.Records.{record_seq};

use lethe_base::{Entry, Pending};

/// The kind byte of a blind delete, beside those of entries.
pub(crate) const BLIND: u8 = 3;

/// The kind byte of an erase, beside those of entries.
pub(crate) const ERASE: u8 = 4;

/// One accepted change.
#[derive(Debug, Drop)]
pub enum Record {
    /// A put, or a delete that left a tombstone.
    Entry(Entry),
    /// A delete that had nothing to hide.
    Blind { seq: u64 },
    /// An erase by a range.
    Erase(Pending),
}

impl Record {
    /// The place of the change in the history.
    pub fn seq(&self) -> u64
        ensures { result ≡ record_seq self.now }
    {
        match self {
            Record::Entry(entry) => entry.seq,
            Record::Blind { seq } => *seq,
            Record::Erase(erase) => erase.seq,
        }
    }
}
