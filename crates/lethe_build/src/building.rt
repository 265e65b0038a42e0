//! The drafts of a list of entries.
ghost use Rattle.std.specs.Prelude.{◌≡◌, ◌≤◌, length, sum_by, All, IfOk};
ghost use Rattle.lethe_base.specs.Entries.{IsAscending};
ghost use Rattle.lethe_base.specs.Spelling.{HasSpelling};
ghost use Rattle.lethe_build.specs.Built.{most_numbers};
ghost use Rattle.lethe_build.specs.Drafts.{AreDraftsOf, IsDraft, numbers_for};

use crate::cutting::cut;
use crate::draft::Draft;
use crate::file::draft_of;
use lethe_base::{Config, Entry, NoMemory};
use lethe_tile::weave;
use std::alloc::Global;

/// The drafts of the files of entries that ascend by key: woven into tiles, which are cut from the left into files of `file` tiles.
pub fn drafts_of(
    alloc: Global,
    entries: Vec<Entry>,
    config: &Config,
) -> Result<Vec<Draft>, NoMemory>
    requires ascending { IsAscending entries.items }
    requires spelled { All HasSpelling entries.items }
    ensures drafts { IfOk result (λ drafts. AreDraftsOf config.now entries.items drafts.items) }
    ensures each { IfOk result (λ drafts. All IsDraft drafts.items) }

    // Each page has an entry, and each file a page.
    ensures few { IfOk result (λ drafts. sum_by numbers_for drafts.items ≤ most_numbers (length entries.items)) }
{
    let tiles = weave(alloc, entries, config)?;
    let groups = cut(alloc, tiles, config.fields().file as usize)?;
    let mut drafts = Vec::with_capacity(alloc, groups.len())?;
    for group in groups {
        drafts.push(draft_of(alloc, group)?)?;
    }
    Ok(drafts)
}
