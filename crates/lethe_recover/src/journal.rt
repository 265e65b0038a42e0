//! The records of a store's journal.
ghost use Rattle.std.specs.Prelude.{◌≡◌, ◌⊎◌, ◌++◌, ◌∷◌, [], max, map, All, IfOk};
ghost use Rattle.lethe_segment.specs.Segments.{Ascends, last_seq};
ghost use Rattle.lethe_stored.specs.Stored.{Stored, segments_of, erase_of, in_order};

use lethe_base::{List, NoMemory, Pending};
use lethe_flush::pending_of;
use lethe_segment::Record;
use std::alloc::Global;

/// The records of a journal's two segments.
#[derive(Drop)]
pub struct Journal {
    /// Those of the frozen segment, none where there is none.
    pub older: List<Record>,
    /// Those of the active segment.
    pub newer: List<Record>,
}

impl Journal {
    ghost use Rattle.std.specs.Prelude.{filter_map};
    ghost use Rattle.lethe_recover.specs.Journals.{IsJournalOf};

    /// The journal of one or two segments, the older first.
    pub fn of(alloc: Global, segments: List<List<Record>>) -> Journal
        ensures is { (s : Stored) → segments ≡ map (λ segment. segment.records) (segments_of s) → IsJournalOf s result }
        ensures ascends { All (Ascends 0) segments → Ascends 0 result.older × Ascends 0 result.newer }
    {
        let mut segments = segments.into_vec();
        let newer = last_of(alloc, &mut segments);
        let older = last_of(alloc, &mut segments);
        Journal { older, newer }
    }

    /// How many changes there were: by the count of a manifest, or up to the last record.
    pub fn count(&self, counted: u64) -> u64
        ensures { result ≡ max (max counted (last_seq 0 self.now.older)) (last_seq 0 self.now.newer) }
    {
        count_of(count_of(counted, self.older.items()), self.newer.items())
    }

    /// The pending erases of a manifest and of the records.
    pub fn pending(&self, alloc: Global, erases: &[Pending]) -> Result<Vec<Pending>, NoMemory>
        ensures { IfOk result (λ pending. pending.items ≡ in_order (in_order (erases.now ++ filter_map erase_of self.now.older) ++ filter_map erase_of self.now.newer)) }
    {
        let older = pending_of(alloc, erases, self.older.items())?;
        pending_of(alloc, &older, self.newer.items())
    }
}

// The last of the lists, which is taken from them; no records where there is none.
fn last_of(alloc: Global, segments: &mut Vec<List<Record>>) -> List<Record>
    ensures { (segments.old.items ≡ segments.new.items ++ result ∷ []) ⊎ ((segments.old.items ≡ []) × (segments.new.items ≡ []) × (result ≡ [])) }
{
    match segments.pop() {
        Some(records) => records,
        None => List::of(Vec::new(alloc)),
    }
}

// The greater of a count and the place of the last record.
fn count_of(counted: u64, records: &[Record]) -> u64
    ensures { result ≡ max counted (last_seq 0 records.now) }
{
    match records.last() {
        Some(record) => counted.max(record.seq()),
        None => counted,
    }
}
