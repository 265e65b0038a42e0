//! The two orders of a tile's entries.
ghost use Rattle.std.specs.Prelude.{◌≡◌, ◌↔◌, AllPairs, IsPermutation, IsTrue};
ghost use Rattle.lethe_base.specs.Entries.{IsAscending};
ghost use Rattle.lethe_base.specs.Keys.{key_cmp};
ghost use Rattle.lethe_tile.specs.Woven.{dkey_of, weave_cmp, ComesBefore, HaveDistinctKeys};

use lethe_base::{Body, Entry};
use std::cmp::Ordering;

/// Whether the keys ascend, each strictly above the one before it.
pub fn is_ascending(entries: &[Entry]) -> bool
    ensures { IsTrue result ↔ IsAscending entries.now }
{
    for i in 1..entries.len() {
        match compare_by_key(&entries[i - 1], &entries[i]) {
            Ordering::Less => {}
            _ => return false,
        }
    }
    true
}

/// Puts entries of different keys into the order of their delete keys, and where these are equal of their keys.
pub fn sort_by_delete_key(entries: &mut Vec<Entry>)
    requires { HaveDistinctKeys entries.old.items }
    ensures same { IsPermutation entries.old.items entries.new.items }
    ensures order { AllPairs ComesBefore entries.new.items }
{
    entries.sort_unstable_by(|entry, other| compare_by_delete_key(entry, other));
}

/// Puts entries of different keys into the order of their keys.
pub fn sort_by_key(entries: &mut Vec<Entry>)
    requires { HaveDistinctKeys entries.old.items }
    ensures same { IsPermutation entries.old.items entries.new.items }
    ensures order { IsAscending entries.new.items }
{
    entries.sort_unstable_by(|entry, other| compare_by_key(entry, other));
}

fn compare_by_delete_key(entry: &Entry, other: &Entry) -> Ordering
    ensures { result ≡ weave_cmp entry.now other.now }
{
    delete_key(&entry.body)
        .cmp(&delete_key(&other.body))
        .then(compare_by_key(entry, other))
}

fn compare_by_key(entry: &Entry, other: &Entry) -> Ordering
    ensures { result ≡ key_cmp entry.now.key other.now.key }
{
    entry.key.cmp(&other.key)
}

/// The delete key of a put; a tombstone counts as one of 0.
fn delete_key(body: &Body) -> u64
    ensures { result ≡ dkey_of body.now }
{
    match body {
        Body::Put { dkey, .. } => *dkey,
        Body::Tomb => 0,
    }
}
