//! Installing the outputs of a merge.
ghost use Rattle.std.specs.Prelude as prelude;
ghost use Rattle.std.specs.Prelude.{◌≡◌, ◌⊎◌, ◌+◌, ◌-◌, ◌<◌, ◌≤◌, ◌^◌, ◌++◌, ℕ, All, IfErr, IfOk, IsErrOf, IsTrue, false, length, sum_by};
ghost use Rattle.lethe_base.specs.Limits.{max_place};
ghost use Rattle.lethe_base.specs.declared.name.Kind.TheVariants.{Page};
ghost use Rattle.lethe_base.specs.declared.name.Name as name;
ghost use Rattle.lethe_base.specs.declared.refused.Refused.TheVariants as refused;
ghost use Rattle.lethe_advance.specs.Settled.{AreDrawn, AreUncited, names_in};
ghost use Rattle.lethe_advance.specs.Shown.{parts_by_level};
ghost use Rattle.lethe_advance.specs.Steps.{IsStep};
ghost use Rattle.lethe_build.specs.Drafts.{AreDraftsOf, IsDraft, numbers_for};
ghost use Rattle.lethe_build.specs.Drafts.{pages_in};
ghost use Rattle.lethe_flush.specs.Made.{written_pages};
ghost use Rattle.lethe_follows.specs.Merged.{IsMergedWith, StoredMerge, entries_in, erases_upto, inputs_of};
ghost use Rattle.lethe_header.specs.Headers as headers;
ghost use Rattle.lethe_install.specs.Inputs.{numbered};
ghost use Rattle.lethe_install.specs.Installed.{IsInstallStep};
ghost use Rattle.lethe_install.specs.Left.{left_of};
ghost use Rattle.lethe_install.specs.Outcomes.{AreFirst};
ghost use Rattle.lethe_job.specs.Tasks.{IsMergeTask, plain_merge};
ghost use Rattle.lethe_merge.specs.Merge.{merged};
ghost use Rattle.lethe_pins.specs.Held.{is_named};
ghost use Rattle.lethe_state.specs.Clock.{clock_of};
ghost use Rattle.lethe_state.specs.Remembered.{IsCurrent, Remembers};
ghost use Rattle.lethe_state.specs.Room.{IsStepFrom};
ghost use Rattle.lethe_state.specs.Writable.{IsWritable, segments_for};
ghost use Rattle.lethe_stored.specs.Levels.{AreRising};
ghost use Rattle.lethe_stored.specs.Stored.{Stored, pending_of};

use crate::inputs::{Inputs, inputs_of};
use crate::left::{Parted, part};
use crate::placing::with_made;
use lethe_advance::{NewHeader, Step, number_behind};
use lethe_base::{List, MAX_PLACE, Name, NoMemory, Refused};
use lethe_build::{Draft, numbers_for};
use lethe_disk::Disk;
use lethe_flush::{MadeFiles, make_files};
use lethe_follows::Company;
use lethe_job::MergeTask;
use lethe_manifest::Change;
use lethe_pins::Pins;
use lethe_state::State;
use lethe_version::Version;
use std::alloc::Global;

/// What installs the outputs of a job.
#[derive(Debug, Drop)]
pub struct Installation {
    /// The headers of the files that come, each with its level.
    pub headers: Vec<NewHeader>,
    pub step: Step,
    /// The pages that no manifest cites any more and that a held pin names.
    pub left: Vec<Name>,
}

/// The names of pages, and the pins, that tell what is written, what goes and what is left.
#[derive(Drop)]
pub(crate) struct Pages<'a> {
    /// The first of the pages of what is made, which were written before.
    pub(crate) written: &'a [Name],
    /// Those that were retired before.
    pub(crate) retired: &'a [Name],
    /// The pins that are held, which keep the pages that they name.
    pub(crate) pins: &'a Pins,
}

/// What installs a merge's outputs: the step writes what isn't written of them yet, cites them in the place of the inputs, lets the erases go that are done then where no other job is in flight, and removes what no held pin names of these and of the
/// pages that were retired before. The first of the outputs' pages were written before, under these names; for the other pages, the headers and the manifest numbers are
/// drawn.
///
/// # Errors
///
/// `Exhausted` where these numbers have run out, or `NoMemory`, also where a manifest would have 2^32 files.
pub fn installing_merge<D: Disk>(
    alloc: Global,
    company: Company,
    state: &State,
    version: &Version<D>,
    task: &MergeTask<D>,
    drafts: Vec<Draft>,
    pages: Pages,
) -> Result<Installation, Refused>
    requires writable { IsWritable state.now }
    requires level { task.now.level < state.now.manifest.config.levels }
    requires upto { task.now.upto ≤ max_place }
    requires drafts { All IsDraft drafts.items }
    requires few { sum_by numbers_for drafts.items < 2 ^ 63 }
    requires drawn { AreDrawn state.now.next pages.written.now }
    requires some { length pages.written.now ≤ length (pages_in drafts.items) }

    // Pins name pages alone, so headers are never needed.
    requires pages { All (λ pin. All (λ name. name.kind ≡ Page) pin.names) pages.pins.now.pins }
    ensures exhausted { IsErrOf result (refused.Exhausted max_place) → max_place ≤ state.now.next + (sum_by numbers_for drafts.items - length pages.entry.written.now) }
    ensures refused { IfErr result (λ why. (why ≡ refused.Exhausted max_place) ⊎ (why ≡ refused.NoMemory)) }
    ensures headers { IfOk result (λ made. All (λ new. headers.HasSpelling new.header) made.headers.items) }
    ensures step { IfOk result (λ made. IsStepFrom (segments_for state.now.frozen) (clock_of state.now.manifest) state.now made.headers.items made.step) }
    ensures level { IfOk result (λ made. All (λ new. new.level ≡ task.now.level + 1) made.headers.items) }
    ensures objects { IfOk result (λ made. length made.step.objects.items ≡ sum_by numbers_for drafts.items - length pages.entry.written.now) }
    ensures fresh { IfOk result (λ made. All (λ object. state.now.next ≤ object.name.no) made.step.objects.items) }
    ensures named { IfOk result (λ made. All (λ name. IsTrue (is_named pages.entry.pins.now.pins name)) made.left.items) }
    ensures gone { IfOk result (λ made. All (λ name. is_named pages.entry.pins.now.pins name ≡ false) made.step.gone.items) }
    ensures pages { IfOk result (λ made. All (λ name. name.kind ≡ Page) made.left.items) }

    // What is stored next is the merge's outcome. The pages that were written before are the first of its new ones: none is left loose; and of the inputs' and the retired ones just those that a held pin names.
    ensures installs { (s : Stored) (m : StoredMerge) (beside : prelude.List (name.Name × prelude.List ℕ)) → Remembers s state.now (parts_by_level version.now) → IsCurrent s state.now
        → AreRising s.files → IsMergeTask s m (plain_merge task.now) → names_in beside ≡ pages.entry.retired.now → AreUncited s (beside ++ written_pages pages.entry.written.now drafts.items)
        → AreDrawn state.now.next (pages.entry.retired.now ++ pages.entry.written.now)
        → AreDraftsOf s.manifest.config (merged (entries_in (inputs_of m)) (erases_upto task.now.upto (pending_of s)) task.now.alone) drafts.items
        → IfOk result (λ made. (t : Stored) × IsMergedWith company s m (erases_upto task.now.upto (pending_of s)) task.now.alone task.now.upto t
        × IsStep s (beside ++ written_pages pages.entry.written.now drafts.items) t (left_of (is_named pages.entry.pins.now.pins) (numbered made.step.merged.items s.files) beside) made.headers.items made.step
        × (made.left.items ≡ names_in (left_of (is_named pages.entry.pins.now.pins) (numbered made.step.merged.items s.files) beside))
        × AreDrawn made.step.manifest.next made.left.items × AreFirst pages.entry.written.now s t) }
{
    let objects = numbers_for(&drafts) - pages.written.len() as u64;
    let Some(number) = number_behind(state.next(), objects) else {
        return Err(Refused::Exhausted { last: MAX_PLACE });
    };
    match install(alloc, company, state, version, task, drafts, pages, number) {
        Ok(made) => Ok(made),
        Err(NoMemory) => Err(Refused::NoMemory),
    }
}

/// What installs the drafts' files, to the manifest of this number, which is the one behind those of the objects.
fn install<D: Disk>(
    alloc: Global,
    company: Company,
    state: &State,
    version: &Version<D>,
    task: &MergeTask<D>,
    drafts: Vec<Draft>,
    pages: Pages,
    number: u64,
) -> Result<Installation, NoMemory>
    requires writable { IsWritable state.now }
    requires level { task.now.level < state.now.manifest.config.levels }
    requires upto { task.now.upto ≤ max_place }
    requires drafts { All IsDraft drafts.items }
    requires drawn { AreDrawn state.now.next pages.written.now }
    requires some { length pages.written.now ≤ length (pages_in drafts.items) }
    requires pages { All (λ pin. All (λ name. name.kind ≡ Page) pin.names) pages.pins.now.pins }
    requires number { number ≡ state.now.next + (sum_by numbers_for drafts.items - length pages.written.now) }
    requires free { number < max_place }
    ensures headers { IfOk result (λ made. All (λ new. headers.HasSpelling new.header) made.headers.items) }
    ensures step { IfOk result (λ made. IsStepFrom (segments_for state.now.frozen) (clock_of state.now.manifest) state.now made.headers.items made.step) }
    ensures level { IfOk result (λ made. All (λ new. new.level ≡ task.now.level + 1) made.headers.items) }
    ensures objects { IfOk result (λ made. length made.step.objects.items ≡ sum_by numbers_for drafts.items - length pages.entry.written.now) }
    ensures fresh { IfOk result (λ made. All (λ object. state.now.next ≤ object.name.no) made.step.objects.items) }
    ensures named { IfOk result (λ made. All (λ name. IsTrue (is_named pages.entry.pins.now.pins name)) made.left.items) }
    ensures gone { IfOk result (λ made. All (λ name. is_named pages.entry.pins.now.pins name ≡ false) made.step.gone.items) }
    ensures pages { IfOk result (λ made. All (λ name. name.kind ≡ Page) made.left.items) }
    ensures installs { (s : Stored) (m : StoredMerge) (beside : prelude.List (name.Name × prelude.List ℕ)) → Remembers s state.now (parts_by_level version.now) → IsCurrent s state.now
        → AreRising s.files → IsMergeTask s m (plain_merge task.now) → names_in beside ≡ pages.entry.retired.now → AreUncited s (beside ++ written_pages pages.entry.written.now drafts.items)
        → AreDrawn state.now.next (pages.entry.retired.now ++ pages.entry.written.now)
        → AreDraftsOf s.manifest.config (merged (entries_in (inputs_of m)) (erases_upto task.now.upto (pending_of s)) task.now.alone) drafts.items
        → IfOk result (λ made. (t : Stored) × IsMergedWith company s m (erases_upto task.now.upto (pending_of s)) task.now.alone task.now.upto t
        × IsStep s (beside ++ written_pages pages.entry.written.now drafts.items) t (left_of (is_named pages.entry.pins.now.pins) (numbered made.step.merged.items s.files) beside) made.headers.items made.step
        × (made.left.items ≡ names_in (left_of (is_named pages.entry.pins.now.pins) (numbered made.step.merged.items s.files) beside))
        × AreDrawn made.step.manifest.next made.left.items × AreFirst pages.entry.written.now s t) }
{
    let level = task.level + 1;
    let made = make_files(alloc, drafts, level, task.upto, pages.written, state.next())?;
    let cited = state.manifest().files.items();
    let inputs = inputs_of(alloc, version, task, level, cited)?;
    step_of(alloc, company, state, level, inputs, made, pages, number)
}

/// The step that writes what a job made, and cites it in the level in the place of the inputs, to the manifest of this number.
pub(crate) fn step_of(
    alloc: Global,
    company: Company,
    state: &State,
    level: u64,
    inputs: Inputs,
    made: MadeFiles,
    pages: Pages,
    number: u64,
) -> Result<Installation, NoMemory>
    requires number { number ≡ made.next }
    requires free { number < max_place }
    ensures { IfOk result (IsInstallStep company state.now level inputs made pages.entry.retired.now (is_named pages.entry.pins.now.pins)) }
{
    let MadeFiles {
        headers,
        objects,
        cited,
        ..
    } = made;
    let Inputs {
        numbers,
        above,
        mut names,
    } = inputs;
    names.extend_from_slice(pages.retired)?;
    let Parted { gone, left } = part(alloc, names, pages.pins)?;
    let old = state.manifest();
    let files = with_made(alloc, old.files.items(), cited, level, &numbers, &above)?;
    let change = Change {
        no: number,
        count: state.count(),
        erases: state.staying_erases(alloc, company, &files)?,
        segments: List::of(old.segments.items().to_vec(alloc)?),
        files: List::of(files),
    };
    let step = Step::to(old, change, objects, numbers, gone)?;
    Ok(Installation {
        headers,
        step,
        left,
    })
}
