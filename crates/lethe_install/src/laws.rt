//! What is true once a job's outcome is installed: what a store remembers, and that another job's task stays one. The functions do nothing: their contracts are the laws.
ghost use Rattle.std.specs.Prelude.{◌≡◌, List, false};
ghost use Rattle.lethe_fade.specs.Claims.{meets};
ghost use Rattle.lethe_follows.specs.Merged.{Beside, Company};
ghost use Rattle.lethe_install.specs.Outcomes.{IsInstalledWith};
ghost use Rattle.lethe_job.specs.Claims.{claim_of_task};
ghost use Rattle.lethe_job.specs.Works.{IsTaskFor, PlainTask};
ghost use Rattle.lethe_manifest.specs.Manifests.{HasSpelling};
ghost use Rattle.lethe_state.specs.Remembered.{IsCurrent, Remembers};
ghost use Rattle.lethe_state.specs.Left.{installed};
ghost use Rattle.lethe_state.specs.declared.state.State.{State};
ghost use Rattle.lethe_stored.specs.Files.{Parts};
ghost use Rattle.lethe_stored.specs.Levels.{AreRising, HasFiles};
ghost use Rattle.lethe_stored.specs.Stored.{Stored, IsCoherent};

/// Under the manifest of a job's outcome what is stored next is remembered: the erases that it keeps are pending, and the buffers are as they were.
pub fn install_is_remembered()
    ensures { (company : Company) (s t : Stored) (task : PlainTask) (state : State) (levels next : List (List Parts)) → Remembers s state levels → IsCurrent s state
        → IsInstalledWith company s task t → HasSpelling t.manifest → IsCoherent t → HasFiles t next
        → Remembers t (installed company t.manifest state) next × IsCurrent t (installed company t.manifest state) }
{}

/// A task stays one while the outcome of another is installed beside it whose claim doesn't meet its own. It wouldn't where erases leave that it applies.
pub fn task_stays_beside()
    ensures { (s t : Stored) (task other : PlainTask) → IsCoherent s → AreRising s.files → IsTaskFor s task → IsTaskFor s other
        → meets (claim_of_task other) (claim_of_task task) ≡ false → IsInstalledWith Beside s other t → IsCoherent t → IsTaskFor t task }
{}
