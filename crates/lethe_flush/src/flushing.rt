//! The files of a buffer.
ghost use Rattle.std.specs.Prelude.{◌≡◌, ◌↔◌, ℕ, Bool, ◌+◌, ◌<◌, ◌≤◌, List, length, sum_by, All, IfOk};
ghost use Rattle.lethe_base.specs.Limits.{max_place, max_time};
ghost use Rattle.lethe_base.specs.Spelling.{HasSpelling};
ghost use Rattle.lethe_base.specs.declared.config.Fields.{Fields};
ghost use Rattle.lethe_base.specs.declared.entry.Entry as entry;
ghost use Rattle.lethe_base.specs.declared.pending.Pending as pending;
ghost use Rattle.lethe_build.specs.Built.{most_numbers};
ghost use Rattle.lethe_build.specs.Drafts.{AreDraftsOf, IsDraft, header_of, numbers_for};
ghost use Rattle.lethe_fade.specs.Spans.{KeyRange};
ghost use Rattle.lethe_header.specs.Headers as headers;
ghost use Rattle.lethe_manifest.specs.Manifests.{IsFile};
ghost use Rattle.lethe_merge.specs.Merge.{merged};
ghost use Rattle.lethe_stored.specs.Files.{StoredFile};
ghost use Rattle.lethe_flush.specs.Clear.{IsClearOf};
ghost use Rattle.lethe_flush.specs.Flushed.{IsFlushOf};
ghost use Rattle.lethe_flush.specs.Made.{headers_of};

use crate::made::MadeFiles;
use crate::making::make_files;
use lethe_base::{Config, Entry, NoMemory, Pending};
use lethe_build::{Draft, drafts_of};
use lethe_mem::{Buffer, VecBuffer};
use lethe_merge::settle;
use std::alloc::Global;

/// The drafts of the files of what is left of a buffer where the erases are applied. Where they are `alone` they have no tombstone and no time. A
/// buffer of which nothing is left makes no file.
pub fn flush_drafts(
    alloc: Global,
    buffer: &VecBuffer,
    erases: &[Pending],
    alone: bool,
    config: &Config,
) -> Result<Vec<Draft>, NoMemory>
    requires spelled { All HasSpelling buffer.now.entries }
    requires erases { All (λ erase. erase.time ≤ max_time) erases.now }
    ensures drafts { IfOk result (λ drafts. AreDraftsOf config.now (merged buffer.now.entries erases.now alone) drafts.items) }
    ensures each { IfOk result (λ drafts. All IsDraft drafts.items) }
    ensures few { IfOk result (λ drafts. sum_by numbers_for drafts.items ≤ most_numbers (length buffer.now.entries)) }
{
    let entries = entries_of(alloc, buffer)?;
    let left = settle(alloc, entries, erases, alone)?;
    drafts_of(alloc, left, config)
}

/// Copies of the buffer's entries.
fn entries_of(alloc: Global, buffer: &VecBuffer) -> Result<Vec<Entry>, NoMemory>
    ensures { IfOk result (λ entries. entries.items ≡ buffer.now.entries) }
{
    let mut entries = Vec::with_capacity(alloc, buffer.len())?;
    for place in 0..buffer.len() {
        entries.push(buffer.at(place).unwrap().copy()?)?;
    }
    Ok(entries)
}

/// The drafts' files, in level 0 and swept up to a place. Numbers are drawn from `first` on.
pub fn flush_files(
    alloc: Global,
    drafts: Vec<Draft>,
    upto: u64,
    first: u64,
) -> Result<MadeFiles, NoMemory>
    requires drafts { All IsDraft drafts.items }
    requires upto { upto ≤ max_place }
    requires numbers { first + sum_by numbers_for drafts.items ≤ max_place + 1 }
    ensures made { (fields : Fields) (entries : List entry.Entry) (erases : List pending.Pending) (alone : Bool) → AreDraftsOf fields (merged entries erases alone) drafts.items
        → IfOk result (λ made. (files : List StoredFile) × IsFlushOf fields entries erases alone upto first made files) }

    // A range of keys has one of a file exactly where it has one of a draft.
    ensures clear { (keys : KeyRange) → IfOk result (λ made. All (λ draft. IsClearOf keys (header_of 0 draft.tiles)) drafts.items ↔ All (IsClearOf keys) (headers_of made)) }
    ensures headers { IfOk result (λ made. All (λ new. headers.HasSpelling new.header) made.headers.items) }
    ensures cited { IfOk result (λ made. (levels : ℕ) → All (IsFile made.next levels) made.cited.items) }
    ensures level { IfOk result (λ made. All (λ file. file.level ≡ 0) made.cited.items) }
    ensures levels { IfOk result (λ made. All (λ new. new.level ≡ 0) made.headers.items) }
    ensures next { IfOk result (λ made. made.next ≡ first + sum_by numbers_for drafts.items) }
    ensures objects { IfOk result (λ made. length made.objects.items ≡ sum_by numbers_for drafts.items) }
{
    make_files(alloc, drafts, 0, upto, &[], first)
}
