//! Files of drafts.
ghost use Rattle.std.specs.Prelude.{◌≡◌, ◌≢◌, ℕ, ◌+◌, ◌-◌, ◌<◌, ◌≤◌, List, length, sum_by, All, IfOk};
ghost use Rattle.lethe_advance.specs.Settled.{AreDrawn};
ghost use Rattle.lethe_base.specs.Limits.{max_place};
ghost use Rattle.lethe_build.specs.Drafts.{IsDraft, numbers_for};
ghost use Rattle.lethe_header.specs.Headers as headers;
ghost use Rattle.lethe_manifest.specs.Manifests.{IsFile};
ghost use Rattle.lethe_stored.specs.Files.{StoredFile};
ghost use Rattle.lethe_build.specs.Drafts.{pages_in};
ghost use Rattle.lethe_flush.specs.Made.{AreFilesOf};

use crate::made::MadeFiles;
use lethe_base::{Name, NoMemory};
use lethe_build::Draft;
use std::alloc::Global;

/// The drafts' files, in a level and swept up to a place. The first of their pages were written before, under these names; for the other pages and
/// for the headers numbers are drawn from `first` on.
pub fn make_files(
    alloc: Global,
    drafts: Vec<Draft>,
    level: u64,
    upto: u64,
    written: &[Name],
    first: u64,
) -> Result<MadeFiles, NoMemory>
    requires drafts { All IsDraft drafts.items }
    requires upto { upto ≤ max_place }
    requires written { AreDrawn first written.now }
    requires few { length written.now ≤ length (pages_in drafts.items) }
    requires numbers { first + (sum_by numbers_for drafts.items - length written.now) ≤ max_place + 1 }
    ensures made { IfOk result (λ made. (files : List StoredFile) × AreFilesOf drafts.items level upto written.now first made files) }
    ensures headers { IfOk result (λ made. All (λ new. headers.HasSpelling new.header) made.headers.items) }
    ensures cited { (levels : ℕ) → level ≤ levels → IfOk result (λ made. All (IsFile made.next levels) made.cited.items) }
    ensures level { IfOk result (λ made. All (λ file. file.level ≡ level) made.cited.items) }
    ensures levels { IfOk result (λ made. All (λ new. new.level ≡ level) made.headers.items) }
    ensures next { IfOk result (λ made. made.next ≡ first + (sum_by numbers_for drafts.items - length written.now)) }
    ensures objects { IfOk result (λ made. length made.objects.items ≡ sum_by numbers_for drafts.items - length written.now) }
{
    let mut made = MadeFiles::none(alloc, first);
    let mut written = written;
    for draft in drafts {
        written = made.add(alloc, draft, level, upto, written)?;
    }
    Ok(made)
}
