//! What a reopening needs, made in memory.
ghost use Rattle.std.specs.Prelude.{◌≡◌, ◌+◌, ◌≤◌, map, length, IfOk};
ghost use Rattle.lethe_base.specs.Limits.{max_place};
ghost use Rattle.lethe_manifest.specs.Manifests.{HasSpelling};
ghost use Rattle.lethe_segment.specs.Segments.{Ascends};
ghost use Rattle.lethe_stored.specs.Stored.{Stored, IsCoherent};
ghost use Rattle.lethe_advance.specs.Shown.{parts_in};
ghost use Rattle.lethe_recover.specs.Flushing.{IsShort, numbers_of};
ghost use Rattle.lethe_recover.specs.Journals.{erases_of};
ghost use Rattle.lethe_recover.specs.Prepared.{IsReady, IsReadyFor};
ghost use Rattle.lethe_recover.specs.Resuming.{IsLoadedAs};

use crate::cited::{cited_names, set_of};
use crate::flushing::{Drafts, drafts_of_journal};
use crate::journal::Journal;
use crate::leveled::version_of;
use lethe_base::{Name, NoMemory, Pending};
use lethe_disk::Disk;
use lethe_file::FileView;
use lethe_manifest::Manifest;
use lethe_version::Version;
use std::alloc::Global;
use std::collections::BTreeSet;

/// What a reopening needs, made in memory.
#[derive(Drop)]
pub struct Prepared<D: Disk> {
    /// The names of what counts.
    pub cited: BTreeSet<Name>,
    pub version: Version<D>,
    /// How many changes there were.
    pub count: u64,
    /// The erases that are pending.
    pub erases: Vec<Pending>,
    pub drafts: Drafts,
}

/// What the reopening of a store needs, where these are its manifest, its journal and its files.
pub fn prepare<D: Disk>(
    alloc: Global,
    manifest: &Manifest,
    journal: Journal,
    files: Vec<FileView<D>>,
) -> Result<Prepared<D>, NoMemory>
    requires spelled { HasSpelling manifest.now }
    requires older { Ascends 0 journal.older }
    requires newer { Ascends 0 journal.newer }
    requires cited { length manifest.now.files ≡ length files.items }
    ensures ready { IfOk result (IsReady manifest.now) }
    ensures for_stored { IfOk result (λ made. (s : Stored) → IsCoherent s → IsLoadedAs s manifest.now journal (map parts_in files.items) → IsReadyFor s manifest.now made) }
    ensures short { IfOk result (λ made. max_place ≤ manifest.now.next + numbers_of made.drafts + 1 → IsShort manifest.now journal.older journal.newer (erases_of manifest.now journal)) }
{
    let names = cited_names(alloc, manifest, &files)?;
    let cited = set_of(alloc, names)?;
    let version = version_of(alloc, manifest, files)?;
    let erases = journal.pending(alloc, manifest.erases.items())?;
    let count = journal.count(manifest.count);
    let drafts = drafts_of_journal(alloc, &version, journal, &erases, &manifest.config)?;
    Ok(Prepared {
        cited,
        version,
        count,
        erases,
        drafts,
    })
}
