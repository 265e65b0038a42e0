//! What the erase leaves of entries.
ghost use Rattle.std.specs.Prelude.{◌≡◌, IfOk, Some};
ghost use Rattle.lethe_base.specs.Shapes.{earlier};
ghost use Rattle.lethe_cover.specs.Sweeps.{is_matched, swept_of};
ghost use Rattle.lethe_tile.specs.Woven.{puts_of, tombs_of};
ghost use Rattle.lethe_sweep.specs.Steps.{fenced};
ghost use Rattle.lethe_swept.specs.Fits.{is_fenced};
ghost use Rattle.lethe_sweep.specs.Sweeping.{left_in};

use lethe_base::{Body, Entry, NoMemory, Pending};
use std::alloc::Global;

/// Whether the entry is a put that the erase matches.
fn is_matched(erase: &Pending, entry: &Entry) -> bool
    ensures { result ≡ is_matched erase.now entry.now.seq entry.now.body }
{
    match &entry.body {
        Body::Put { dkey, .. } => {
            entry.seq < erase.seq && erase.range.lo() <= *dkey && *dkey < erase.range.hi()
        }
        Body::Tomb => false,
    }
}

/// The smaller of the two times, where there are two.
fn first_time(since: Option<u64>, time: u64) -> Option<u64>
    ensures { result ≡ earlier since (Some time) }
{
    match since {
        Some(since) => Some(since.min(time)),
        None => Some(time),
    }
}

/// What the erase leaves of the entry. A put that it matches goes where the file is alone, and else becomes a tombstone.
fn sweep_entry(mut entry: Entry, erase: &Pending, alone: bool) -> Option<Entry>
    ensures { result ≡ swept_of alone erase.now entry }
{
    if !is_matched(erase, &entry) {
        return Some(entry);
    }
    if alone {
        return None;
    }
    entry.since = first_time(entry.since, erase.time);
    entry.body = Body::Tomb;
    Some(entry)
}

/// Whether the entry is a tombstone, or a put whose delete key lies in the fence.
fn is_fenced(fence: Option<(u64, u64)>, entry: &Entry) -> bool
    ensures { result ≡ is_fenced fence entry.now.body }
{
    match (&entry.body, fence) {
        (Body::Tomb, _) => true,
        (Body::Put { .. }, None) => false,
        (Body::Put { dkey, .. }, Some((lo, hi))) => lo <= *dkey && *dkey <= hi,
    }
}

/// What the erase leaves of the entries in the fence: the tombstones and the puts, each in the order in which they were.
pub fn sweep_entries(
    alloc: Global,
    entries: Vec<Entry>,
    fence: Option<(u64, u64)>,
    erase: &Pending,
    alone: bool,
) -> Result<(Vec<Entry>, Vec<Entry>), NoMemory>
    ensures tombs { IfOk result (λ parts. parts.0.items ≡ tombs_of (left_in alone erase.now (fenced fence entries.items))) }
    ensures puts { IfOk result (λ parts. parts.1.items ≡ puts_of (left_in alone erase.now (fenced fence entries.items))) }
{
    let left = entries
        .into_iter()
        .filter(|entry| is_fenced(fence, entry))
        .filter_map(|entry| sweep_entry(entry, erase, alone))
        .collect(alloc)?;
    part_by_body(alloc, left)
}

/// The tombstones of entries, and their puts, each in the order in which they were.
fn part_by_body(alloc: Global, entries: Vec<Entry>) -> Result<(Vec<Entry>, Vec<Entry>), NoMemory>
    ensures tombs { IfOk result (λ parts. parts.0.items ≡ tombs_of entries.items) }
    ensures puts { IfOk result (λ parts. parts.1.items ≡ puts_of entries.items) }
{
    let mut tombs = Vec::new(alloc);
    let mut puts = Vec::new(alloc);
    for entry in entries {
        match entry.body {
            Body::Tomb => tombs.push(entry)?,
            Body::Put { .. } => puts.push(entry)?,
        }
    }
    Ok((tombs, puts))
}
