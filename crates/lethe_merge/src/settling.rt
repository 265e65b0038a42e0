//! What is left of one list where erases are applied.
ghost use Rattle.std.specs.Prelude.{◌≡◌, ◌≤◌, length, All, IfOk};
ghost use Rattle.lethe_base.specs.Entries.{IsAscending};
ghost use Rattle.lethe_base.specs.Limits.{max_time};
ghost use Rattle.lethe_base.specs.Spelling.{HasSpelling};
ghost use Rattle.lethe_merge.specs.Merge.{merged};

use crate::joining::{bare, strike};
use lethe_base::{Entry, NoMemory, Pending};
use std::alloc::Global;

/// What is left of entries that ascend by key where the erases are applied: the merged list of this one list. Where the output
/// is `alone`, it has no tombstone and no time.
pub fn settle(
    alloc: Global,
    entries: Vec<Entry>,
    erases: &[Pending],
    alone: bool,
) -> Result<Vec<Entry>, NoMemory>
    requires { IsAscending entries.items }
    ensures merged { IfOk result (λ left. left.items ≡ merged entries.items erases.now alone) }
    ensures ascending { IfOk result (λ left. IsAscending left.items) }

    // It has a spelling where the entries and the erases' times have one.
    ensures spelled { All HasSpelling entries.items → All (λ erase. erase.time ≤ max_time) erases.now → IfOk result (λ left. All HasSpelling left.items) }
    ensures few { IfOk result (λ left. length left.items ≤ length entries.items) }
{
    let left = entries
        .into_iter()
        .filter_map(|entry| bare(alone, strike(entry, erases)))
        .collect(alloc)?;
    Ok(left)
}
