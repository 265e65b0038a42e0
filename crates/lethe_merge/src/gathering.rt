//! What is left of entries in any order where erases are applied.
ghost use Rattle.std.specs.Prelude.{◌≡◌, ◌≤◌, List, ◌∷◌, length, All, IfOk, OnOk};
ghost use Rattle.std.specs.FinMap as finmap;
ghost use Rattle.lethe_base.specs.Entries.{IsAscending};
ghost use Rattle.lethe_base.specs.Limits.{max_time};
ghost use Rattle.lethe_base.specs.Spelling.{HasSpelling};
ghost use Rattle.lethe_base.specs.declared.entry.Entry as entry;
ghost use Rattle.lethe_merge.specs.Merge.{left_by_key, merged};

use crate::joining::{bare, newer, strike};
use lethe_base::{Entry, Key, NoMemory, Pending};
use std::alloc::Global;
use std::collections::BTreeMap;

/// The merged list of entries in any order, where a key may stand several times: each key once, in order, with what is left of it
/// where the erases are applied. Where the output is `alone`, it has no tombstone and no time.
pub fn merge_entries(
    alloc: Global,
    mut entries: Vec<Entry>,
    erases: &[Pending],
    alone: bool,
) -> Result<Vec<Entry>, NoMemory>
    ensures merged { IfOk result (λ left. left.items ≡ merged entries.items erases.now alone) }
    ensures ascending { IfOk result (λ left. IsAscending left.items) }

    // It has a spelling where the entries and the erases' times have one.
    ensures spelled { All HasSpelling entries.items → All (λ erase. erase.time ≤ max_time) erases.now → IfOk result (λ left. All HasSpelling left.items) }
    ensures few { IfOk result (λ left. length left.items ≤ length entries.items) }
{
    // From the last to the first, so that of equal places the first stays.
    let mut by_key = BTreeMap::new(alloc);
    while let Some(entry) = entries.pop() {
        add(&mut by_key, strike(entry, erases))?;
    }
    let left = by_key
        .into_values()
        .filter_map(|entry| bare(alone, entry))
        .collect(alloc)?;
    Ok(left)
}

/// Adds an entry that stands in front of those added before: joined with what is left of its key.
fn add(by_key: &mut BTreeMap<Key, Entry>, first: Entry) -> Result<(), NoMemory>
    ensures { (added : List entry.Entry) → by_key.old.entries ≡ finmap.entries (left_by_key added)
        → OnOk result (by_key.new.entries ≡ finmap.entries (left_by_key (first ∷ added))) }
{
    match by_key.remove_entry(&first.key) {
        Some((key, other)) => by_key.insert(key, newer(first, other))?,
        None => by_key.insert(first.key.copy()?, first)?,
    };
    Ok(())
}
