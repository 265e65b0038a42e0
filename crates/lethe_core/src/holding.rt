//! What a store has.
ghost use Rattle.std.specs.Prelude.{◌≡◌, ◌≤◌, ◌-◌, None, Ok, Some, length, slice_index, All, Any, IfOk, IfSome, IsTrue};
ghost use Rattle.lethe_base.specs.Limits.{max_place, max_time};
ghost use Rattle.lethe_stored.specs.Stored.{Stored};
ghost use Rattle.lethe_state.specs.Writable.{IsWritable};
ghost use Rattle.lethe_job.specs.Works.{IsInLevels, applied_upto, erases_of, plain_task, plan_of};
ghost use Rattle.lethe_core.specs.Merges.{HasNoMergeBy, IsBegunBy, IsPickedIn, IsTaskOf, chosen_by};
ghost use Rattle.lethe_core.specs.Running.{Holds};
ghost use Rattle.lethe_core.specs.View.{view_of};

use crate::Flights;
use crate::choosing::Choice;
use lethe_base::{Name, NoMemory, Pending};
use lethe_disk::Disk;
use lethe_job::{Begun, Task, cited_files, shape_of, task_of};
use lethe_pins::Pins;
use lethe_state::State;
use lethe_version::Version;
use std::alloc::Global;

/// What a store has: its disk, what it remembers of what is stored there, the files that readers have, the pages that lie there beside what is stored, the pins that are held,
/// and how many jobs were begun and rounds have ended. Its calls are made of steps, which each leave it so that it can go on.
#[derive(Drop)]
pub struct Core<D: Disk> {
    pub disk: D,
    pub state: State,
    pub version: Version<D>,
    /// The pages that no manifest cites any more, which were left for pins. Those that no pin names any more go with the next merge, sweep or tick.
    pub retired: Vec<Name>,
    pub flights: Flights<D>,
    pub pins: Pins,
    /// How many jobs were begun since the store was opened, and how many rounds have ended.
    pub begun: Begun,
}

impl<D: Disk> Core<D> {
    /// The merge or the sweep that is chosen, and None where none is. It reads no page and makes no device call.
    pub(crate) fn next_task(
        &self,
        alloc: Global,
        choice: Choice,
    ) -> Result<Option<Task<D>>, NoMemory>
        requires { IsWritable self.now.state }
        ensures none { (s : Stored) → Holds (view_of self.now) s → result ≡ Ok None → HasNoMergeBy (chosen_by choice) s }
        ensures some { (s : Stored) → Holds (view_of self.now) s → IfOk result (λ found. IfSome found (λ task. IsBegunBy (chosen_by choice) s (plain_task task))) }

        // On any disk:
        ensures unpicked { result ≡ Ok None → IsPickedIn choice (view_of self.now) None }
        ensures picked { IfOk result (λ found. IfSome found (λ task. IsPickedIn choice (view_of self.now) (Some (plan_of (plain_task task))))) }
        ensures levels { IfOk result (λ found. IfSome found (λ task. IsInLevels self.now.state.manifest.config.levels (plain_task task))) }
        ensures upto { IfOk result (λ found. IfSome found (λ task. applied_upto (plain_task task) ≤ max_place)) }
        ensures times { IfOk result (λ found. IfSome found (λ task. All (λ erase. erase.time ≤ max_time) (erases_of (plain_task task)))) }
        ensures of { IfOk result (λ found. IfSome found (λ task. IsTaskOf (view_of self.now) (plain_task task))) }
    {
        let manifest = self.state.manifest();
        let config = &manifest.config;
        let erases = self.state.pending();
        let files = cited_files(alloc, &self.version, manifest.files.items())?;
        let shape = shape_of(
            alloc,
            &files,
            config.fields().levels,
            self.state.left_erases(),
        )?;
        let Some(plan) = choice.pick(&shape, config, manifest.clock) else {
            return Ok(None);
        };
        // The erases that are still to be done are some of those that are pending, so this is never so in a store.
        if !is_pending(plan.erase, erases) {
            return Err(NoMemory);
        }
        let task = task_of(alloc, &files, plan, config, erases, self.state.count())?;
        Ok(Some(task))
    }

    /// The number of the active segment.
    pub fn active_number(&self) -> u64
        requires { IsWritable self.now.state }
        ensures { result ≡ slice_index self.now.state.manifest.segments (length self.now.state.manifest.segments - 1) }
    {
        let segments = self.state.manifest().segments.items();
        segments[segments.len() - 1]
    }
}

/// Whether one of the erases has the place, where there is one.
fn is_pending(place: Option<u64>, erases: &[Pending]) -> bool
    ensures { IsTrue result → IfSome place (λ place. Any (λ erase. erase.seq ≡ place) erases.now) }
{
    match place {
        Some(place) => erases.iter().any(|erase| erase.seq == place),
        None => true,
    }
}
