//! What a job is to do: a merge or a sweep.
ghost use Rattle.std.specs.Prelude.{◌≡◌, ◌≤◌, ◌<◌, ◌+◌, map, All, Any, Contains, IfOk, OnOk, IsErrOf};
ghost use Rattle.lethe_base.specs.Limits.{max_place, max_time};
ghost use Rattle.lethe_base.specs.declared.name.Name.{Name};
ghost use Rattle.lethe_disk.specs.Reads.{HasReadCause, IsFault};
ghost use Rattle.lethe_disk.specs.declared.cursor.ReadRefused.TheVariants.{Damaged};
ghost use Rattle.lethe_stored.specs.Stored.{Stored};
ghost use Rattle.lethe_job.specs.Claims.{IsOfItsKind, claim_of_task};
ghost use Rattle.lethe_job.specs.Tasks.{AreSound, HasDamaged, IsStore, counted_in, plain_file};
ghost use Rattle.lethe_job.specs.Works.{AreOutputs, IsInLevels, IsNamedBy, IsPlanIn, IsPlanned, applied_upto, erases_of, inputs_in, plain_task, plan_of, reads_of};

use crate::claim::{claim_of_merge, claim_of_sweep};
use crate::filed::Filed;
use crate::made::Made;
use crate::merge::{MergeTask, merge_of};
use crate::sweep::sweep_of;
use lethe_base::{Config, NoMemory, Pending};
use lethe_disk::{Disk, ReadRefused};
use lethe_fade::{Claim, Plan};
use lethe_sweep_task::SweepTask;
use std::alloc::Global;

/// What a job is to do. It never changes.
#[derive(Drop)]
pub enum Task<D: Disk> {
    /// A merge of files of a level with those that they overlap in the next one.
    Merge(MergeTask<D>),
    /// A sweep of a file by one erase.
    Sweep(SweepTask<D>),
}

/// The task of a plan in a store of these files, pending erases and so many changes. The plan has to name one of the files, for a merge above the last level, and for a
/// sweep one of the erases.
pub fn task_of<D: Disk>(
    alloc: Global,
    files: &[Filed<D>],
    plan: Plan,
    config: &Config,
    erases: &[Pending],
    count: u64,
) -> Result<Task<D>, NoMemory>
    requires named { IsNamedBy config.now.levels (map plain_file files.now) erases.now plan.file plan.erase }
    ensures plan { IfOk result (λ task. plan_of (plain_task task) ≡ plan) }
    ensures kind { IfOk result (λ task. IsOfItsKind (plain_task task)) }
    ensures planned { (s : Stored) → IsStore s files.now config.now erases.now count → IsPlanIn s plan.file plan.erase → IfOk result (λ task. IsPlanned s (plain_task task)) }

    // On any disk:
    ensures levels { IfOk result (λ task. IsInLevels config.now.levels (plain_task task)) }
    ensures upto { count ≤ max_place → All (λ erase. erase.seq ≤ max_place) erases.now → IfOk result (λ task. applied_upto (plain_task task) ≤ max_place) }
    ensures times { All (λ erase. erase.time ≤ max_time) erases.now → IfOk result (λ task. All (λ erase. erase.time ≤ max_time) (erases_of (plain_task task))) }
    // Its inputs are some of the files, and their headers count no more entries than those of all the files.
    ensures inputs { IfOk result (λ task. All (Contains (map plain_file files.now)) (inputs_in (plain_task task))) }
    ensures some_of { IfOk result (λ task. counted_in (inputs_in (plain_task task)) ≤ counted_in (map plain_file files.now)) }
{
    match plan.erase {
        None => {
            let merge = merge_of(alloc, files, plan, config, erases, count)?;
            Ok(Task::Merge(merge))
        }
        Some(place) => {
            let sweep = sweep_of(files, config.fields().levels, plan, place, erases)?;
            Ok(Task::Sweep(sweep))
        }
    }
}

impl<D: Disk> Task<D> {
    /// What it claims while it runs, with copies of the keys. A merge that has no source is of no store, and counts as one for which there is no memory.
    pub fn claim(&self) -> Result<Claim, NoMemory>
        ensures { IfOk result (λ claim. claim ≡ claim_of_task (plain_task self.now)) }
    {
        match self {
            Task::Merge(merge) => claim_of_merge(merge),
            Task::Sweep(sweep) => claim_of_sweep(sweep),
        }
    }

    /// What it makes: of a merge the drafts of what is left of the inputs' entries where its erases are applied, for which each page of the inputs is fetched once and all their
    /// entries are held in memory; of a sweep the draft of what its erase leaves of the file, for which the pages are fetched that the header tells.
    pub fn outcome(&self, alloc: Global, port: &mut D::Port) -> Result<Made, ReadRefused>
        requires { All (λ erase. erase.time ≤ max_time) (erases_of (plain_task self.now)) }
        ensures outputs { IfOk result (AreOutputs D.tells (plain_task self.now)) }
        ensures fetches { OnOk result (D.fetches port.new ≡ D.fetches port.old + reads_of (plain_task self.now)) }
        ensures at_most { D.fetches port.new ≤ D.fetches port.old + reads_of (plain_task self.now) }
        ensures damaged { (name : Name) → IsErrOf result (Damaged name) → Any (HasDamaged D.tells name) (inputs_in (plain_task self.now)) × (D.fetches port.old < D.fetches port.new) }
        ensures later { D.fetches port.old ≤ D.fetches port.new }
        ensures undamaged { D.tells → AreSound (inputs_in (plain_task self.now)) → (name : Name) → IsErrOf result (Damaged name) → ⊥ }
        ensures cause { HasReadCause (D.port_faults port.old) (D.port_faults port.new) result }
        ensures can_fail { IsFault result → D.ports_fail }
    {
        match self {
            Task::Merge(merge) => match merge.outcome(alloc, port) {
                Ok(drafts) => Ok(Made::Files(drafts)),
                Err(why) => Err(why),
            },
            Task::Sweep(sweep) => match sweep.outcome(alloc, port) {
                Ok(draft) => Ok(Made::Left(draft)),
                Err(why) => Err(why),
            },
        }
    }
}
