//! Installing what a job made.
ghost use Rattle.std.specs.Prelude as prelude;
ghost use Rattle.std.specs.Prelude.{◌≡◌, ◌⊎◌, ◌+◌, ◌-◌, ◌≤◌, ◌++◌, ℕ, All, IfErr, IfOk, IsErrOf, IsTrue, false, length};
ghost use Rattle.lethe_base.specs.Limits.{max_place};
ghost use Rattle.lethe_base.specs.declared.name.Kind.TheVariants.{Page};
ghost use Rattle.lethe_base.specs.declared.name.Name as name;
ghost use Rattle.lethe_base.specs.declared.refused.Refused.TheVariants as refused;
ghost use Rattle.lethe_advance.specs.Settled.{AreDrawn, AreUncited, names_in};
ghost use Rattle.lethe_advance.specs.Shown.{parts_by_level};
ghost use Rattle.lethe_advance.specs.Steps.{IsStep};
ghost use Rattle.lethe_header.specs.Headers as headers;
ghost use Rattle.lethe_install.specs.Outcomes.{AreFirst, IsInstalledWith, level_made};
ghost use Rattle.lethe_job.specs.MadeOf.{numbers_in, pages_of, written_of};
ghost use Rattle.lethe_job.specs.Works.{AreOutputs, IsInLevels, IsTaskFor, applied_upto, plain_task};
ghost use Rattle.lethe_pins.specs.Held.{is_named};
ghost use Rattle.lethe_state.specs.Clock.{clock_of};
ghost use Rattle.lethe_state.specs.Remembered.{IsCurrent, Remembers};
ghost use Rattle.lethe_state.specs.Room.{IsStepFrom};
ghost use Rattle.lethe_state.specs.Writable.{IsWritable, segments_for};
ghost use Rattle.lethe_stored.specs.Levels.{AreRising};
ghost use Rattle.lethe_stored.specs.Stored.{Stored};

use crate::steps::{Installation, Pages, installing_merge};
use crate::sweeping::installing_sweep;
use lethe_base::{Name, Refused};
use lethe_disk::Disk;
use lethe_follows::Company;
use lethe_job::{Made, Task};
use lethe_pins::Pins;
use lethe_state::State;
use lethe_version::Version;
use std::alloc::Global;

/// What installs what a job made: the step writes what isn't written of it yet, cites it in the place of what goes, lets the erases go that are done then where no other job is in flight, and removes those of the
/// objects that no file has any more and of the pages that were retired before that no held pin names. The first of the pages were written before, under these names; for the other pages, the headers and
/// the manifest numbers are drawn.
///
/// # Errors
///
/// `Exhausted` where these numbers have run out, or `NoMemory`, also where a manifest would have 2^32 files.
pub fn installing<D: Disk>(
    alloc: Global,
    company: Company,
    state: &State,
    version: &Version<D>,
    task: &Task<D>,
    made: Made,
    written: &[Name],
    retired: &[Name],
    pins: &Pins,
) -> Result<Installation, Refused>
    requires writable { IsWritable state.now }
    requires levels { IsInLevels state.now.manifest.config.levels (plain_task task.now) }
    requires upto { applied_upto (plain_task task.now) ≤ max_place }
    requires outputs { AreOutputs D.tells (plain_task task.now) made }
    requires drawn { AreDrawn state.now.next written.now }
    requires some { length written.now ≤ length (pages_of made) }

    // Pins name pages alone, so headers are never needed.
    requires pages { All (λ pin. All (λ name. name.kind ≡ Page) pin.names) pins.now.pins }
    ensures exhausted { IsErrOf result (refused.Exhausted max_place) → max_place ≤ state.now.next + (numbers_in made - length written.now) }
    ensures refused { IfErr result (λ why. (why ≡ refused.Exhausted max_place) ⊎ (why ≡ refused.NoMemory)) }
    ensures headers { IfOk result (λ made. All (λ new. headers.HasSpelling new.header) made.headers.items) }
    ensures step { IfOk result (λ made. IsStepFrom (segments_for state.now.frozen) (clock_of state.now.manifest) state.now made.headers.items made.step) }
    ensures level { IfOk result (λ made. All (λ new. new.level ≡ level_made (plain_task task.now)) made.headers.items) }
    ensures objects { IfOk result (λ installation. length installation.step.objects.items ≡ numbers_in made - length written.now) }
    ensures fresh { IfOk result (λ made. All (λ object. state.now.next ≤ object.name.no) made.step.objects.items) }
    ensures named { IfOk result (λ made. All (λ name. IsTrue (is_named pins.now.pins name)) made.left.items) }
    ensures gone { IfOk result (λ made. All (λ name. is_named pins.now.pins name ≡ false) made.step.gone.items) }
    ensures pages { IfOk result (λ made. All (λ name. name.kind ≡ Page) made.left.items) }

    // What is stored next is the task's outcome. The pages that were written before are the first of its new ones, under their names, and none is left loose.
    ensures installs { D.tells → (s : Stored) (beside : prelude.List (name.Name × prelude.List ℕ)) → Remembers s state.now (parts_by_level version.now) → IsCurrent s state.now
        → AreRising s.files → IsTaskFor s (plain_task task.now) → names_in beside ≡ retired.now → AreUncited s (beside ++ written_of written.now made)
        → AreDrawn state.now.next (retired.now ++ written.now)
        → IfOk result (λ installation. (t : Stored) × IsInstalledWith company s (plain_task task.now) t
        × ((left : prelude.List (name.Name × prelude.List ℕ)) × IsStep s (beside ++ written_of written.now made) t left installation.headers.items installation.step × (installation.left.items ≡ names_in left)
        × AreDrawn installation.step.manifest.next installation.left.items) × AreFirst written.now s t) }
{
    let pages = Pages {
        written,
        retired,
        pins,
    };
    match task {
        Task::Merge(task) => match made {
            Made::Files(drafts) => installing_merge(
                alloc, company, state, version, task, drafts, pages,
            ),
            Made::Left(_) => unreachable!(),
        },
        Task::Sweep(task) => match made {
            Made::Left(draft) => installing_sweep(alloc, company, state, task, draft, pages),
            Made::Files(_) => unreachable!(),
        },
    }
}
