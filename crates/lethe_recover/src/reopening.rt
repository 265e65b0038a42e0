//! What a store becomes that is opened.
ghost use Rattle.std.specs.Prelude as prelude;
ghost use Rattle.std.specs.Prelude.{◌≡◌, ℕ, ◌+◌, ◌<◌, ◌≤◌, ◌++◌, ◌∷◌, [], length, All, AllPairs, IfOk};
ghost use Rattle.lethe_base.specs.Limits.{max_place};
ghost use Rattle.lethe_build.specs.Drafts.{IsDraft};
ghost use Rattle.lethe_header.specs.Headers as headers;
ghost use Rattle.lethe_base.specs.Erases.{IsErase};
ghost use Rattle.lethe_manifest.specs.Manifests.{HasSpelling};
ghost use Rattle.lethe_header.specs.declared.header.Header as header;
ghost use Rattle.lethe_stored.specs.Stored.{Stored, IsCoherent, count_of, pending_of};
ghost use Rattle.lethe_recover.specs.Flushing.{AreDraftsOfJournal, IsWritable, numbers_of};
ghost use Rattle.lethe_advance.specs.Segment.{empty_segment};
ghost use Rattle.lethe_recover.specs.declared.journal.Journal.{Journal};
ghost use Rattle.lethe_recover.specs.Journals.{IsJournalOf};
ghost use Rattle.lethe_recover.specs.Reopening.{AreHeadersOf, IsStepOf, Reopens};

use crate::cited::push_segments;
use crate::flushing::{Drafts, Flushes, flush_journal};
use lethe_advance::{NewHeader, Step, empty_segment};
use lethe_base::{List, NoMemory, Pending, erases_above};
use lethe_commit::Object;
use lethe_flush::swept_upto;
use lethe_manifest::{Change, Manifest};
use std::alloc::Global;

/// The step of an opening.
#[derive(Drop)]
pub struct Reopening {
    /// The headers of the files that come, each with its level.
    pub headers: Vec<NewHeader>,
    pub step: Step,
}

/// The step that writes the files of these drafts and puts an empty segment in the place of the journal, to a manifest of this count and this number, with those of these
/// erases that are still to be done then.
pub fn reopening_of(
    alloc: Global,
    manifest: &Manifest,
    count: u64,
    erases: Vec<Pending>,
    drafts: Drafts,
    number: u64,
) -> Result<Reopening, NoMemory>
    requires spelled { HasSpelling manifest.now }
    requires count { count ≤ max_place }
    requires erases { All IsErase erases.items }
    requires ascending { AllPairs (λ a b. a.seq < b.seq) erases.items }
    requires older { All IsDraft drafts.older.items }
    requires newer { All IsDraft drafts.newer.items }
    requires number { number ≡ manifest.now.next + numbers_of drafts + 1 }
    requires free { number < max_place }
    ensures reopens { IfOk result (λ made. (s : Stored) (journal : Journal) (heads : prelude.List header.Header) → IsCoherent s → s.manifest ≡ manifest.now → count ≡ count_of s → erases.items ≡ pending_of s
        → AreHeadersOf s heads → IsJournalOf s journal → AreDraftsOfJournal manifest.now.config journal erases.items heads drafts → Reopens s made) }
    ensures spelled { IfOk result (λ made. HasSpelling made.step.manifest) }
    ensures config { IfOk result (λ made. made.step.manifest.config ≡ manifest.now.config) }
    ensures segments { IfOk result (λ made. length made.step.manifest.segments ≡ 1) }
    ensures headers { IfOk result (λ made. All (λ new. headers.HasSpelling new.header) made.headers.items) }
    ensures levels { IfOk result (λ made. All (λ new. new.level ≡ 0) made.headers.items) }
    ensures next { IfOk result (λ made. made.step.manifest.next ≡ manifest.now.next + length made.step.objects.items + 1) }
{
    let flushes = flush_journal(alloc, drafts, count, manifest.next)?;
    step_of(alloc, manifest, count, erases, flushes, number)
}

// The step to a manifest of this count, these erases and this number, which is the one behind the segment's.
fn step_of(
    alloc: Global,
    manifest: &Manifest,
    count: u64,
    erases: Vec<Pending>,
    flushes: Flushes,
    number: u64,
) -> Result<Reopening, NoMemory>
    requires spelled { HasSpelling manifest.now }
    requires count { count ≤ max_place }
    requires erases { All IsErase erases.items }
    requires ascending { AllPairs (λ a b. a.seq < b.seq) erases.items }
    requires older { IsWritable manifest.now.next flushes.older }
    requires newer { IsWritable flushes.older.next flushes.newer }
    requires number { number ≡ flushes.newer.next + 1 }
    requires free { number < max_place }
    ensures is { IfOk result (IsStepOf manifest.now count erases.items flushes) }
    ensures spelled { IfOk result (λ made. HasSpelling made.step.manifest) }
{
    let Flushes { older, newer } = flushes;
    let segment = newer.next;
    let mut headers = newer.headers;
    let mut older_headers = older.headers;
    headers.append(&mut older_headers)?;
    let mut files = newer.cited;
    files.extend_from_slice(&older.cited)?;
    files.extend_from_slice(manifest.files.items())?;
    let left = erases_above(&erases, swept_upto(&files));
    let change = Change {
        no: number,
        count,
        erases: List::of(left.to_vec(alloc)?),
        segments: List::of(vec![in alloc; segment]?),
        files: List::of(files),
    };
    let objects = with_segment(alloc, older.objects, newer.objects, segment)?;
    let mut gone = Vec::new(alloc);
    push_segments(&mut gone, manifest.segments.items())?;
    let step = Step::to(manifest, change, objects, Vec::new(alloc), gone)?;
    Ok(Reopening { headers, step })
}

// The objects of two flushes, and an empty segment.
fn with_segment(
    alloc: Global,
    older: Vec<Object>,
    newer: Vec<Object>,
    segment: u64,
) -> Result<Vec<Object>, NoMemory>
    ensures { IfOk result (λ objects. objects.items ≡ older.items ++ newer.items ++ empty_segment segment ∷ []) }
{
    let mut objects = older;
    let mut newer = newer;
    objects.append(&mut newer)?;
    objects.push(empty_segment(alloc, segment)?)?;
    Ok(objects)
}
