//! Installing what a sweep makes of a file.
ghost use Rattle.std.specs.Prelude as prelude;
ghost use Rattle.std.specs.Prelude.{◌≡◌, ◌⊎◌, ◌+◌, ◌-◌, ◌≤◌, ◌<◌, ◌++◌, ℕ, All, IfErr, IfOk, IfSome, IsErrOf, IsTrue, false, length, map};
ghost use Rattle.lethe_base.specs.Limits.{max_place};
ghost use Rattle.lethe_base.specs.declared.name.Kind.TheVariants.{Page};
ghost use Rattle.lethe_base.specs.declared.name.Name as name;
ghost use Rattle.lethe_base.specs.declared.refused.Refused.TheVariants as refused;
ghost use Rattle.lethe_advance.specs.Settled.{AreDrawn, AreUncited, names_in};
ghost use Rattle.lethe_advance.specs.Steps.{IsStep};
ghost use Rattle.lethe_file.specs.Agreement.{entries_in};
ghost use Rattle.lethe_header.specs.Headers as headers;
ghost use Rattle.lethe_install.specs.Outcomes.{AreFirst, IsSweepInstalledWith};
ghost use Rattle.lethe_install.specs.Replaced.{IsReplaced, behind, names_gone};
ghost use Rattle.lethe_job.specs.SweepTasks.{IsSweepTask};
ghost use Rattle.lethe_pins.specs.Held.{is_named};
ghost use Rattle.lethe_state.specs.Clock.{clock_of};
ghost use Rattle.lethe_state.specs.Remembered.{IsCurrent, Remembers};
ghost use Rattle.lethe_state.specs.Room.{IsStepFrom};
ghost use Rattle.lethe_state.specs.Writable.{IsWritable, segments_for};
ghost use Rattle.lethe_stored.specs.Files.{Parts};
ghost use Rattle.lethe_stored.specs.Levels.{AreRising};
ghost use Rattle.lethe_stored.specs.Stored.{Stored};
ghost use Rattle.lethe_swept.specs.Drafts.{IsDraft};
ghost use Rattle.lethe_sweeps.specs.Swept.{StoredSweep};
ghost use Rattle.lethe_sweep_task.specs.Drafted.{new_pages, numbers_of, written_pages};
ghost use Rattle.lethe_sweep_task.specs.Outcome.{IsDraftLeft, plain_sweep};

use crate::inputs::Inputs;
use crate::left::leave_out;
use crate::names::add_pages_of;
use crate::steps::{Installation, Pages, step_of};
use lethe_advance::{NewHeader, number_behind};
use lethe_base::{Kind, MAX_PLACE, Name, NoMemory, Refused};
use lethe_disk::Disk;
use lethe_follows::Company;
use lethe_header::Header;
use lethe_manifest::Cited;
use lethe_remade::{a_draft_is_left, make_swept, nothing_is_left};
use lethe_state::State;
use lethe_sweep_task::SweepTask;
use lethe_swept::SweptDraft;
use std::alloc::Global;

/// What installs what a sweep leaves of its file: the step writes what isn't written of it yet, cites it in the file's place, lets the erases go that are done then where no other job is in flight, and removes the
/// header and the pages that stand in no file any more, and the pages that were retired before, but for those that a held pin names. The first of the new pages were written before, under
/// these names; for the others, the header and the manifest numbers are drawn.
///
/// # Errors
///
/// `Exhausted` where these numbers have run out, or `NoMemory`, also where a manifest would have 2^32 files.
pub fn installing_sweep<D: Disk>(
    alloc: Global,
    company: Company,
    state: &State,
    task: &SweepTask<D>,
    draft: Option<SweptDraft>,
    pages: Pages,
) -> Result<Installation, Refused>
    requires writable { IsWritable state.now }
    requires level { task.now.level ≤ state.now.manifest.config.levels }
    requires place { task.now.erase.seq ≤ max_place }
    requires draft { IfSome draft IsDraft }
    requires drawn { AreDrawn state.now.next pages.written.now }
    requires some { length pages.written.now ≤ length (new_pages draft) }
    requires pages { All (λ pin. All (λ name. name.kind ≡ Page) pin.names) pages.pins.now.pins }
    ensures exhausted { IsErrOf result (refused.Exhausted max_place) → max_place ≤ state.now.next + (numbers_of draft - length pages.entry.written.now) }
    ensures refused { IfErr result (λ why. (why ≡ refused.Exhausted max_place) ⊎ (why ≡ refused.NoMemory)) }
    ensures headers { IfOk result (λ made. All (λ new. headers.HasSpelling new.header) made.headers.items) }
    ensures step { IfOk result (λ made. IsStepFrom (segments_for state.now.frozen) (clock_of state.now.manifest) state.now made.headers.items made.step) }
    ensures level { IfOk result (λ made. All (λ new. new.level ≡ task.now.level) made.headers.items) }
    ensures objects { IfOk result (λ made. length made.step.objects.items ≡ numbers_of draft - length pages.entry.written.now) }
    ensures fresh { IfOk result (λ made. All (λ object. state.now.next ≤ object.name.no) made.step.objects.items) }
    ensures named { IfOk result (λ made. All (λ name. IsTrue (is_named pages.entry.pins.now.pins name)) made.left.items) }
    ensures gone { IfOk result (λ made. All (λ name. is_named pages.entry.pins.now.pins name ≡ false) made.step.gone.items) }
    ensures pages { IfOk result (λ made. All (λ name. name.kind ≡ Page) made.left.items) }

    // What is stored next is the sweep's outcome: the pages that stay are those that were stored, under their names, and of the new ones those that were written before come first.
    ensures installs { (s : Stored) (w : StoredSweep) (levels : prelude.List (prelude.List Parts)) (beside : prelude.List (name.Name × prelude.List ℕ)) → Remembers s state.now levels → IsCurrent s state.now
        → AreRising s.files → IsSweepTask s w (plain_sweep task.now) → names_in beside ≡ pages.entry.retired.now → AreUncited s (beside ++ written_pages pages.entry.written.now draft)
        → AreDrawn state.now.next (pages.entry.retired.now ++ pages.entry.written.now)
        → IsDraftLeft task.now.alone task.now.erase w.file.header.tiles (map entries_in w.file.pages) draft
        → IfOk result (λ made. (t : Stored) × IsSweepInstalledWith company s (plain_sweep task.now) t
        × ((left : prelude.List (name.Name × prelude.List ℕ)) × IsStep s (beside ++ written_pages pages.entry.written.now draft) t left made.headers.items made.step × (made.left.items ≡ names_in left)
        × AreDrawn made.step.manifest.next made.left.items) × AreFirst pages.entry.written.now s t) }
{
    let objects = count_numbers(&draft) - pages.written.len() as u64;
    let Some(number) = number_behind(state.next(), objects) else {
        return Err(Refused::Exhausted { last: MAX_PLACE });
    };
    match install(alloc, company, state, task, draft, pages, number) {
        Ok(made) => Ok(made),
        Err(NoMemory) => Err(Refused::NoMemory),
    }
}

/// How many numbers it takes.
fn count_numbers(draft: &Option<SweptDraft>) -> u64
    ensures { result ≡ numbers_of draft.now }
{
    match draft {
        Some(draft) => draft.numbers_for(),
        None => 0,
    }
}

/// What installs the draft's file, to the manifest of this number, which is the one behind those of the objects.
fn install<D: Disk>(
    alloc: Global,
    company: Company,
    state: &State,
    task: &SweepTask<D>,
    draft: Option<SweptDraft>,
    pages: Pages,
    number: u64,
) -> Result<Installation, NoMemory>
    requires writable { IsWritable state.now }
    requires level { task.now.level ≤ state.now.manifest.config.levels }
    requires place { task.now.erase.seq ≤ max_place }
    requires draft { IfSome draft IsDraft }
    requires drawn { AreDrawn state.now.next pages.written.now }
    requires some { length pages.written.now ≤ length (new_pages draft) }
    requires pages { All (λ pin. All (λ name. name.kind ≡ Page) pin.names) pages.pins.now.pins }
    requires number { number ≡ state.now.next + (numbers_of draft - length pages.written.now) }
    requires free { number < max_place }
    ensures headers { IfOk result (λ made. All (λ new. headers.HasSpelling new.header) made.headers.items) }
    ensures step { IfOk result (λ made. IsStepFrom (segments_for state.now.frozen) (clock_of state.now.manifest) state.now made.headers.items made.step) }
    ensures level { IfOk result (λ made. All (λ new. new.level ≡ task.now.level) made.headers.items) }
    ensures objects { IfOk result (λ made. length made.step.objects.items ≡ numbers_of draft - length pages.entry.written.now) }
    ensures fresh { IfOk result (λ made. All (λ object. state.now.next ≤ object.name.no) made.step.objects.items) }
    ensures named { IfOk result (λ made. All (λ name. IsTrue (is_named pages.entry.pins.now.pins name)) made.left.items) }
    ensures gone { IfOk result (λ made. All (λ name. is_named pages.entry.pins.now.pins name ≡ false) made.step.gone.items) }
    ensures pages { IfOk result (λ made. All (λ name. name.kind ≡ Page) made.left.items) }
    ensures installs { (s : Stored) (w : StoredSweep) (levels : prelude.List (prelude.List Parts)) (beside : prelude.List (name.Name × prelude.List ℕ)) → Remembers s state.now levels → IsCurrent s state.now
        → AreRising s.files → IsSweepTask s w (plain_sweep task.now) → names_in beside ≡ pages.entry.retired.now → AreUncited s (beside ++ written_pages pages.entry.written.now draft)
        → AreDrawn state.now.next (pages.entry.retired.now ++ pages.entry.written.now)
        → IsDraftLeft task.now.alone task.now.erase w.file.header.tiles (map entries_in w.file.pages) draft
        → IfOk result (λ made. (t : Stored) × IsSweepInstalledWith company s (plain_sweep task.now) t
        × ((left : prelude.List (name.Name × prelude.List ℕ)) × IsStep s (beside ++ written_pages pages.entry.written.now draft) t left made.headers.items made.step × (made.left.items ≡ names_in left)
        × AreDrawn made.step.manifest.next made.left.items) × AreFirst pages.entry.written.now s t) }
{
    // Laws: what the draft makes is what the erase leaves of the file.
    a_draft_is_left();
    nothing_is_left();
    let made = make_swept(
        alloc,
        draft,
        task.level,
        task.erase.seq,
        pages.written,
        state.next(),
    )?;
    let header = task.file.file().header();
    let cited = state.manifest().files.items();
    let inputs = replaced(alloc, header, &made.headers, cited)?;
    step_of(
        alloc, company, state, task.level, inputs, made, pages, number,
    )
}

/// What has to be known of the file of this header, in whose place these come.
fn replaced(
    alloc: Global,
    header: &Header,
    made: &[NewHeader],
    cited: &[Cited],
) -> Result<Inputs, NoMemory>
    ensures { (level swept : ℕ) (bytes : prelude.List (prelude.List ℕ)) → IfOk result (IsReplaced (record { level = level; swept = swept; header = header.now; pages = bytes }) made.now cited.now) }
{
    let mut numbers = Vec::new(alloc);
    numbers.push(header.no)?;
    let above = numbers_behind(alloc, header.no, cited)?;
    let names = names_gone(alloc, header, made)?;
    Ok(Inputs {
        numbers,
        above,
        names,
    })
}

/// The numbers of the files behind the first one of that number.
fn numbers_behind(alloc: Global, number: u64, cited: &[Cited]) -> Result<Vec<u64>, NoMemory>
    ensures { IfOk result (λ numbers. numbers.items ≡ map (λ file. file.no) (behind number cited.now)) }
{
    let mut numbers = Vec::new(alloc);
    for file in behind(number, cited) {
        numbers.push(file.no)?;
    }
    Ok(numbers)
}

/// The files behind the first one of that number.
fn behind(number: u64, cited: &[Cited]) -> &[Cited]
    ensures { result.now ≡ behind number cited.now }
{
    for place in 0..cited.len() {
        if cited[place].no == number {
            return &cited[place + 1..];
        }
    }
    &cited[cited.len()..]
}

/// Of the names of a file's header and pages, those that stand in none of the files that come.
fn names_gone(alloc: Global, header: &Header, made: &[NewHeader]) -> Result<Vec<Name>, NoMemory>
    ensures { (level swept : ℕ) (bytes : prelude.List (prelude.List ℕ)) → IfOk result (λ names. names.items ≡ names_gone (record { level = level; swept = swept; header = header.now; pages = bytes }) made.now) }
{
    let mut names = Vec::new(alloc);
    names.push(Name {
        kind: Kind::File,
        no: header.no,
    })?;
    add_pages_of(&mut names, header)?;
    let mut kept = Vec::new(alloc);
    for one in made {
        add_pages_of(&mut kept, &one.header)?;
    }
    leave_out(&mut names, &kept);
    Ok(names)
}
