//! What a job is to do.
ghost use Rattle.std.specs.Prelude.{◌≡◌, ◌<◌, ◌≤◌, ◌^◌, length, map, All, Contains, IfOk, IsSome};
ghost use Rattle.lethe_follows.specs.Merged.{erases_upto};
ghost use Rattle.lethe_stored.specs.Stored.{Stored};
ghost use Rattle.lethe_job.specs.Chosen.{level_named, sources_in, merge_in};
ghost use Rattle.lethe_job.specs.Tasks.{IsPlannedMerge, IsStore, counted_in, merge_inputs, plain_file, plain_merge};

use crate::filed::Filed;
use crate::inputs::{level_named, lies_below, met_in, sources_in};
use crate::reach::Reach;
use lethe_base::{Config, List, NoMemory, Pending};
use lethe_disk::Disk;
use lethe_fade::Plan;
use std::alloc::Global;

/// A merge of files of a level with those that they overlap in the next one. It never changes.
#[derive(Drop)]
pub struct MergeTask<D: Disk> {
    /// What names it.
    pub plan: Plan,
    /// The level of its sources, above the last.
    pub level: u64,
    /// Of level 0 all files, the newest first, and of another level one.
    pub sources: Vec<Filed<D>>,
    /// The files of the next level that overlap the keys of the sources, in the order of their keys.
    pub met: Vec<Filed<D>>,
    /// Nothing lies below the outputs, so that they have no tombstone and no time.
    pub alone: bool,
    /// The erases that are applied: those that were pending when it began, up to `upto`.
    pub erases: List<Pending>,
    /// The place up to which the outputs count as swept: how many changes there were when it began.
    pub upto: u64,
    pub config: Config,
}

/// The task of a plan in a store of these files, pending erases and so many changes. The plan has to name one of the files above the last level.
pub fn merge_of<D: Disk>(
    alloc: Global,
    files: &[Filed<D>],
    plan: Plan,
    config: &Config,
    erases: &[Pending],
    count: u64,
) -> Result<MergeTask<D>, NoMemory>
    requires named { IsSome (level_named config.now.levels plan.file (map plain_file files.now)) }
    ensures plan { IfOk result (λ task. task.plan ≡ plan) }
    ensures planned { (s : Stored) → IsStore s files.now config.now erases.now count → IfOk result (λ task. IsPlannedMerge s (plain_merge task)) }

    // On any disk:
    ensures level { IfOk result (λ task. task.level < config.now.levels) }
    ensures upto { IfOk result (λ task. task.upto ≡ count) }
    ensures erases { IfOk result (λ task. task.erases ≡ erases_upto count erases.now) }
    ensures config { IfOk result (λ task. task.config ≡ config.now) }
    // Its inputs are some of the files, and their headers count no more entries than those of all the files.
    ensures inputs { IfOk result (λ task. All (Contains (map plain_file files.now)) (merge_inputs (plain_merge task))) }
    ensures some_of { IfOk result (λ task. counted_in (merge_inputs (plain_merge task)) ≤ counted_in (map plain_file files.now)) }
{
    let Some(level) = level_named(files, config.fields().levels, plan.file) else {
        unreachable!()
    };
    merge_in(alloc, files, plan, level, config, erases, count)
}

/// The task of a plan, whose file stands in that level.
fn merge_in<D: Disk>(
    alloc: Global,
    files: &[Filed<D>],
    plan: Plan,
    level: u64,
    config: &Config,
    erases: &[Pending],
    upto: u64,
) -> Result<MergeTask<D>, NoMemory>
    requires level { level < 2 ^ 32 }
    requires some { 0 < length (sources_in level plan.file (map plain_file files.now)) }
    ensures { IfOk result (λ task. plain_merge task ≡ merge_in level plan (map plain_file files.now) config.now erases.now upto) }
{
    let sources = sources_in(alloc, files, level, plan.file)?;
    let reach = Reach::of_all(&sources);
    let met = met_in(alloc, files, level + 1, &reach)?;
    let alone = !lies_below(files, level + 1, &reach.with(&met));
    let erases = erases_upto(alloc, erases, upto)?;
    Ok(MergeTask {
        plan,
        level,
        sources,
        met,
        alone,
        erases,
        upto,
        config: *config,
    })
}

/// Of some erases, those up to a place.
fn erases_upto(alloc: Global, erases: &[Pending], upto: u64) -> Result<List<Pending>, NoMemory>
    ensures { IfOk result (λ kept. kept ≡ erases_upto upto erases.now) }
{
    let kept = erases
        .iter()
        .copied()
        .filter(|erase| erase.seq <= upto)
        .collect(alloc)?;
    Ok(List::of(kept))
}
