//! A buffer over a sorted vector.
ghost use Rattle.std.specs.Prelude.{◌≡◌, [], length, take, IfOk, IfErr};
ghost use Rattle.std.specs.List.Sorted.{IsSearchInRange};
ghost use Rattle.lethe_base.specs.Entries.{IsAscending};
ghost use Rattle.lethe_base.specs.Keys.{key_cmp};
ghost use Rattle.lethe_mem.specs.Places.{IsAt, IsGap};

use crate::Buffer;
use lethe_base::{Entry, Key, NoMemory};
use std::alloc::Global;
use std::cmp::Ordering;
use std::marker::Model;

/// The entries in one vector. An insert moves the entries behind its place, and a search halves what is left.
#[derive(Debug, Drop)]
pub struct VecBuffer {
    sorted: Vec<Entry>,
    ghost ascending: { IsAscending sorted.items },
}

impl Model for VecBuffer {
    ghost use Rattle.std.specs.Prelude.{◌-◌, vec_len, vec_capacity};
    ghost use Rattle.lethe_mem.specs.Buffered.{Buffered};

    ghost Value = { Buffered };

    ghost view = { λ b. record { entries = b.sorted.items; ascending = b.ascending; spare = vec_capacity b.sorted - vec_len b.sorted } };
}

impl VecBuffer {
    /// A buffer of no entries, which has taken no memory yet.
    pub fn new(alloc: Global) -> VecBuffer
        ensures entries { result.entries ≡ [] }
        ensures spare { result.spare ≡ 0 }
    {
        VecBuffer {
            sorted: Vec::new(alloc),
        }
    }
}

impl Buffer for VecBuffer {
    ghost entries = { λ b. b.entries };

    ghost spare = { λ b. b.spare };

    ghost ascending = { λ b. b.ascending };

    fn reserve(&mut self, more: usize) -> Result<(), NoMemory> {
        self.sorted.reserve(more)?;
        Ok(())
    }

    fn insert(&mut self, entry: Entry) {
        match place_of(&self.sorted, &entry.key) {
            Ok(place) => self.sorted[place] = entry,
            Err(place) => self.sorted.insert(place, entry).unwrap(),
        }
    }

    fn find(&self, key: &Key) -> Option<&Entry> {
        match place_of(&self.sorted, key) {
            Ok(place) => Some(&self.sorted[place]),
            Err(_) => None,
        }
    }

    fn at(&self, place: usize) -> Option<&Entry> {
        self.sorted.get(place)
    }

    fn len(&self) -> usize {
        self.sorted.len()
    }

    fn is_empty(&self) -> bool {
        self.sorted.is_empty()
    }

    fn copy(&self) -> Result<VecBuffer, NoMemory> {
        let mut sorted = Vec::with_capacity(*self.sorted.allocator(), self.sorted.len())?;
        for entry in &self.sorted {
            sorted.push(entry.copy()?)?;
        }
        Ok(VecBuffer { sorted })
    }
}

/// Where a key stands, or else where it would go. Keys often come in order, each behind the last one, and then one comparison tells.
fn place_of(entries: &[Entry], key: &Key) -> Result<usize, usize>
    requires { IsAscending entries.now }
    ensures bound { IsSearchInRange result (length entries.now) }
    ensures found { IfOk result (IsAt key.now entries.now) }
    ensures absent { IfErr result (IsGap key.now entries.now) }
{
    match entries.last() {
        Some(last) if compare(last, key) == Ordering::Less => Err(entries.len()),
        _ => entries.binary_search_by(|entry| compare(entry, key)),
    }
}

/// How an entry's key stands to a key.
fn compare(entry: &Entry, key: &Key) -> Ordering
    ensures { result ≡ key_cmp entry.now.key key.now }
{
    entry.key.cmp(key)
}
