//! What a task claims.
ghost use Rattle.std.specs.Prelude.{◌≡◌, IfOk};
ghost use Rattle.lethe_sweep_task.specs.Outcome.{plain_sweep};
ghost use Rattle.lethe_job.specs.Claims.{claim_of_task};
ghost use Rattle.lethe_job.specs.Tasks.{plain_merge};
ghost use Rattle.lethe_job.specs.Works.{Merges, Sweeps};

use crate::merge::MergeTask;
use crate::reach::Reach;
use lethe_base::NoMemory;
use lethe_disk::Disk;
use lethe_fade::Claim;
use lethe_sweep_task::SweepTask;

/// What a merge claims. One that has no source is of no store, and counts as one for which there is no memory.
pub fn claim_of_merge<D: Disk>(task: &MergeTask<D>) -> Result<Claim, NoMemory>
    ensures { IfOk result (λ claim. claim ≡ claim_of_task (Merges (plain_merge task.now))) }
{
    let next = task.level.checked_add(1).ok_or(NoMemory)?;
    if task.sources.is_empty() {
        return Err(NoMemory);
    }
    Reach::of_all(&task.sources)
        .with(&task.met)
        .claim(task.level, next)
}

/// What a sweep claims.
pub fn claim_of_sweep<D: Disk>(task: &SweepTask<D>) -> Result<Claim, NoMemory>
    ensures { IfOk result (λ claim. claim ≡ claim_of_task (Sweeps (plain_sweep task.now))) }
{
    Reach::of_file(&task.file).claim(task.level, task.level)
}
