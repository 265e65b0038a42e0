//! The files of a journal.
ghost use Rattle.std.specs.Prelude as prelude;
ghost use Rattle.std.specs.Prelude.{◌≡◌, ◌+◌, ◌*◌, ◌++◌, ◌≤◌, map, sum_by, All, IfOk};
ghost use Rattle.lethe_base.specs.declared.config.Fields.{Fields};
ghost use Rattle.lethe_base.specs.declared.pending.Pending as pending;
ghost use Rattle.lethe_base.specs.Limits.{max_place, max_time};
ghost use Rattle.lethe_build.specs.Drafts.{IsDraft, header_of, numbers_for};
ghost use Rattle.lethe_header.specs.declared.header.Header as header;
ghost use Rattle.lethe_segment.specs.Segments.{Ascends};
ghost use Rattle.lethe_version.specs.Versions.{files_of};
ghost use Rattle.lethe_recover.specs.Flushing.{AreDraftsOfRecords, AreDraftsOfJournal, AreFlushesOf, IsWritable, numbers_of};
ghost use Rattle.lethe_recover.specs.declared.journal.Journal as journals;

use crate::journal::Journal;
use lethe_base::{Config, List, NoMemory, Pending};
use lethe_build::{Draft, numbers_for};
use lethe_disk::Disk;
use lethe_flush::{MadeFiles, flush_drafts, flush_files, is_clear, newest_of};
use lethe_segment::Record;
use lethe_version::Version;
use std::alloc::Global;

/// The drafts of the files of a journal's two segments.
#[derive(Drop)]
pub struct Drafts {
    pub older: Vec<Draft>,
    pub newer: Vec<Draft>,
}

/// The files of a journal's two segments.
#[derive(Drop)]
pub struct Flushes {
    pub older: MadeFiles,
    pub newer: MadeFiles,
}

impl Drafts {
    /// How many numbers the files of both segments take.
    pub fn count_numbers(&self) -> u64
        requires { numbers_of self.now ≤ 4 * max_place }
        ensures { result ≡ numbers_of self.now }
    {
        numbers_for(&self.older) + numbers_for(&self.newer)
    }
}

/// The drafts of the journal's records, those of the older ones first: they count as there when the newer ones' are made.
pub fn drafts_of_journal<D: Disk>(
    alloc: Global,
    version: &Version<D>,
    journal: Journal,
    erases: &[Pending],
    config: &Config,
) -> Result<Drafts, NoMemory>
    requires older { Ascends 0 journal.older }
    requires newer { Ascends 0 journal.newer }
    requires erases { All (λ erase. erase.time ≤ max_time) erases.now }
    ensures made { IfOk result (AreDraftsOfJournal config.now journal erases.now (map (λ file. file.header) (files_of version.now))) }
    ensures older { IfOk result (λ drafts. All IsDraft drafts.older.items) }
    ensures newer { IfOk result (λ drafts. All IsDraft drafts.newer.items) }
    ensures few { IfOk result (λ drafts. numbers_of drafts ≤ 4 * max_place) }
{
    let Journal { older, newer } = journal;
    let older = drafts_of_records(alloc, version, &[], older, erases, config)?;
    let newer = drafts_of_records(alloc, version, &older, newer, erases, config)?;
    Ok(Drafts { older, newer })
}

// The drafts of records, where those of these drafts' files are there beside the version's.
fn drafts_of_records<D: Disk>(
    alloc: Global,
    version: &Version<D>,
    more: &[Draft],
    records: List<Record>,
    erases: &[Pending],
    config: &Config,
) -> Result<Vec<Draft>, NoMemory>
    requires ascends { Ascends 0 records }
    requires erases { All (λ erase. erase.time ≤ max_time) erases.now }
    ensures made { IfOk result (λ drafts. AreDraftsOfRecords config.now records erases.now
        (map (λ file. file.header) (files_of version.now) ++ map (λ draft. header_of 0 draft.tiles) more.now) drafts.items) }
    ensures each { IfOk result (λ drafts. All IsDraft drafts.items) }
    ensures few { IfOk result (λ drafts. sum_by numbers_for drafts.items ≤ 2 * max_place) }
{
    let buffer = newest_of(alloc, records)?;
    let alone = is_clear(&buffer, version, more);
    flush_drafts(alloc, &buffer, erases, alone, config)
}

/// The files of these drafts, whose numbers are drawn from `first` on.
pub fn flush_journal(
    alloc: Global,
    drafts: Drafts,
    upto: u64,
    first: u64,
) -> Result<Flushes, NoMemory>
    requires older { All IsDraft drafts.older.items }
    requires newer { All IsDraft drafts.newer.items }
    requires upto { upto ≤ max_place }
    requires numbers { first + numbers_of drafts ≤ max_place + 1 }
    ensures made { (fields : Fields) (journal : journals.Journal) (erases : prelude.List pending.Pending) (headers : prelude.List header.Header) → AreDraftsOfJournal fields journal erases headers drafts
        → IfOk result (AreFlushesOf fields journal erases upto first headers) }
    ensures older { IfOk result (λ flushes. IsWritable first flushes.older) }
    ensures newer { IfOk result (λ flushes. IsWritable flushes.older.next flushes.newer) }
    ensures last { IfOk result (λ flushes. flushes.newer.next ≡ first + numbers_of drafts) }
{
    let Drafts { older, newer } = drafts;
    let older = flush_files(alloc, older, upto, first)?;
    let newer = flush_files(alloc, newer, upto, older.next)?;
    Ok(Flushes { older, newer })
}
