//! Cutting entries into parts.
ghost use Rattle.std.specs.Prelude.{◌≡◌, ◌<◌, List, [], ◌++◌, map, filter, not, IfOk, All, IsPermutation};
ghost use Rattle.lethe_base.specs.Shapes.{is_tomb};
ghost use Rattle.lethe_tile.specs.Woven.{joined, IsCut, puts_of, tombs_of};

use lethe_base::{Body, Entry, NoMemory};
use std::alloc::Global;
use std::mem;

/// Cuts entries from the left into parts of `most` entries, of which the last may have fewer.
pub fn cut(alloc: Global, entries: Vec<Entry>, most: usize) -> Result<Vec<Vec<Entry>>, NoMemory>
    requires { 0 < most }
    ensures joined { IfOk result (λ parts. joined (map (λ part. part.items) parts.items) ≡ entries.items) }
    ensures lengths { IfOk result (λ parts. IsCut most (map (λ part. part.items) parts.items)) }
{
    let mut parts = Vec::new(alloc);
    let mut part = Vec::new(alloc);
    for entry in entries {
        if part.len() == most {
            parts.push(mem::replace(&mut part, Vec::new(alloc)))?;
        }
        part.push(entry)?;
    }
    if !part.is_empty() {
        parts.push(part)?;
    }
    Ok(parts)
}

/// The tombstones of entries, and their puts, each in the order in which they were.
pub fn part_by_body(
    alloc: Global,
    entries: Vec<Entry>,
) -> Result<(Vec<Entry>, Vec<Entry>), NoMemory>
    ensures tombs { IfOk result (λ parts. parts.0.items ≡ tombs_of entries.items) }
    ensures puts { IfOk result (λ parts. parts.1.items ≡ puts_of entries.items) }
{
    let mut tombs = Vec::new(alloc);
    let mut puts = Vec::new(alloc);
    for entry in entries {
        match entry.body {
            Body::Tomb => tombs.push(entry)?,
            Body::Put { .. } => puts.push(entry)?,
        }
    }
    Ok((tombs, puts))
}
