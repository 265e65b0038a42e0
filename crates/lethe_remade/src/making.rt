//! The file that a sweep makes, taken apart.
ghost use Rattle.std.specs.Prelude.{◌≤◌, ◌+◌, ◌-◌, All, IfOk, IfSome, length};
ghost use Rattle.lethe_base.specs.Limits.{max_place};
ghost use Rattle.lethe_swept.specs.Drafts.{IsDraft};
ghost use Rattle.lethe_sweep_task.specs.Drafted as drafted;
ghost use Rattle.lethe_sweep_task.specs.Drafted.{new_pages};
ghost use Rattle.lethe_remade.specs.Making.{AreMadeOf, IsMadeOf};

use lethe_base::{Name, NoMemory};
use lethe_flush::{MadeFiles, numbers_of};
use lethe_swept::SweptDraft;
use std::alloc::Global;

/// The file of what a sweep leaves, if it leaves anything, in a level and swept up to a place. The first of its new pages were written before under these names; the others draw the next
/// numbers, from `first` on, and behind them the header.
pub fn make_swept(
    alloc: Global,
    draft: Option<SweptDraft>,
    level: u64,
    upto: u64,
    written: &[Name],
    first: u64,
) -> Result<MadeFiles, NoMemory>
    requires draft { IfSome draft IsDraft }
    requires written { All (λ name. name.no ≤ max_place) written.now }
    requires few { length written.now ≤ length (new_pages draft) }
    requires room { first + (drafted.numbers_of draft - length written.now) ≤ max_place + 1 }
    ensures { IfOk result (AreMadeOf level upto written.now first draft) }
{
    match draft {
        Some(draft) => make_file(alloc, draft, level, upto, written, first),
        None => Ok(MadeFiles::none(alloc, first)),
    }
}

/// The file of a draft, so numbered.
fn make_file(
    alloc: Global,
    draft: SweptDraft,
    level: u64,
    upto: u64,
    written: &[Name],
    first: u64,
) -> Result<MadeFiles, NoMemory>
    requires draft { IsDraft draft }
    requires written { All (λ name. name.no ≤ max_place) written.now }
    requires few { length written.now ≤ length draft.pages }
    requires room { first + (length draft.pages - length written.now) ≤ max_place }
    ensures { IfOk result (IsMadeOf level upto written.now first draft) }
{
    let pages = draft.pages.items().len();
    let more = pages - written.len();
    let numbers = numbers_of(alloc, written, first, more)?;
    let no = first + more as u64;
    let file = draft.numbered(alloc, &numbers, no)?;
    let mut made = MadeFiles::none(alloc, first);
    made.push(file, level, upto, written.len())?;
    Ok(made)
}
