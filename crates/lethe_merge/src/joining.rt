//! What is left of two entries of a key, and of an entry where erases are applied.
ghost use Rattle.std.specs.Prelude.{◌≡◌, Some};
ghost use Rattle.lethe_base.specs.Matching.{matches};
ghost use Rattle.lethe_base.specs.Shapes.{earlier};
ghost use Rattle.lethe_cover.specs.Merged.{bared, newer_of, struck, time_under};

use lethe_base::{Body, Entry, Pending};

/// The smaller of two times, where there are any.
fn first_time(time: Option<u64>, other: Option<u64>) -> Option<u64>
    ensures { result ≡ earlier time other }
{
    match (time, other) {
        (Some(time), Some(other)) => Some(time.min(other)),
        (time, other) => time.or(other),
    }
}

/// Whether the erase stands behind the put of that place and delete key, and has the delete key in its range.
fn is_match(erase: &Pending, seq: u64, dkey: u64) -> bool
    ensures { result ≡ matches erase.now seq dkey }
{
    seq < erase.seq && erase.range.lo() <= dkey && dkey < erase.range.hi()
}

/// The least time of the erases that match the put of that place and delete key.
fn time_of(erases: &[Pending], seq: u64, dkey: u64) -> Option<u64>
    ensures { result ≡ time_under erases.now seq dkey }
{
    let mut time = None;
    for erase in erases {
        if is_match(erase, seq, dkey) {
            time = first_time(time, Some(erase.time));
        }
    }
    time
}

/// The entry where the erases are applied. A put that one matches becomes a tombstone, with the least of its time and of theirs.
pub fn strike(mut entry: Entry, erases: &[Pending]) -> Entry
    ensures { result ≡ struck erases.now entry }
{
    if let Body::Put { dkey, .. } = entry.body {
        let time = time_of(erases, entry.seq, dkey);
        if time.is_some() {
            entry.since = first_time(entry.since, time);
            entry.body = Body::Tomb;
        }
    }
    entry
}

/// Of two entries of a key the one of the greater place, of equal places the first, with the smaller of their times.
pub fn newer(entry: Entry, other: Entry) -> Entry
    ensures { result ≡ newer_of entry (Some other) }
{
    let since = first_time(entry.since, other.since);
    let mut newer = if entry.seq < other.seq { other } else { entry };
    newer.since = since;
    newer
}

/// What an output has of the entry that is left of a key. Where it is alone it has no tombstone and no time.
pub fn bare(alone: bool, mut entry: Entry) -> Option<Entry>
    ensures { result ≡ bared alone entry entry.body }
{
    if !alone {
        return Some(entry);
    }
    match entry.body {
        Body::Put { .. } => {
            entry.since = None;
            Some(entry)
        }
        Body::Tomb => None,
    }
}
