//! What is true of the merges and sweeps of a store. The functions do nothing: their contracts are the laws.
ghost use Rattle.std.specs.Prelude.{◌⊎◌, ◌<◌, ◌≤◌, ◌+◌, ◌^◌, List, Option, length};
ghost use Rattle.lethe_base.specs.History.{History};
ghost use Rattle.lethe_fade.specs.declared.plan.Plan.{Plan};
ghost use Rattle.lethe_install.specs.Outcomes.{IsInstalled};
ghost use Rattle.lethe_job.specs.Works.{IsPlanned, PlainTask};
ghost use Rattle.lethe_state.specs.Room.{HasRoom, IsFrozen, IsUnfrozen};
ghost use Rattle.lethe_stored.specs.Kept.{IsFor};
ghost use Rattle.lethe_stored.specs.Stored.{Stored, IsCoherent, pending_of};
ghost use Rattle.lethe_core.specs.Descent.{HasCountedErases, jobs_at_most, jobs_left};
ghost use Rattle.lethe_core.specs.Merges.{AreOutcomesBy, AreSomeOutcomes, AreSomeOutcomesBy, IsCleared, Outcome};
ghost use Rattle.lethe_core.specs.View.{Flying};

/// Once a job that was just begun is installed there is less to do, in a store that stands for a history: a merge brings entries a level down and makes no more of them, and the files that
/// it makes wait for no erase; a sweep sweeps a file of one erase more, and makes no more entries.
pub fn job_goes_on()
    ensures { (h : History) (s t : Stored) (task : PlainTask) → IsFor h s → IsCoherent s → IsPlanned s task → IsInstalled s task t → jobs_left t < jobs_left s }
{}

/// So the merges and sweeps that are chosen one after another, by whatever choice, are no more than what there was to do: the levels that all entries have still to go, and the pairs of a
/// file and an erase that it waits for. What they leave to do is less by as many.
pub fn jobs_are_bounded()
    ensures { (chosen : Stored → Option Plan) (h : History) (s t : Stored) (outcomes : List Outcome) → IsFor h s → IsCoherent s
        → AreSomeOutcomesBy chosen s outcomes t ⊎ AreOutcomesBy chosen s outcomes t → length outcomes + jobs_left t ≤ jobs_left s }
{}

/// So what a change carries out where it makes room is no more than what there was to do once both buffers were moved on, in a store that stands for a history; also where it
/// is refused in between.
pub fn room_is_bounded()
    ensures made { (h : History) (flights : List Flying) (s t : Stored) (outcomes : List Outcome) → IsFor h s → IsCoherent s → (HasRoom s → ⊥)
        → (room : IsCleared flights s outcomes t) → IsFor h room.cleared × (length outcomes + jobs_left t ≤ jobs_left room.cleared) }
    ensures in_part { (h : History) (s middle cleared t : Stored) (outcomes : List Outcome) → IsFor h s → IsCoherent s → (HasRoom s → ⊥) → IsUnfrozen s middle → IsFrozen middle cleared
        → IsCoherent cleared → AreSomeOutcomes cleared outcomes t → IsFor h cleared × (length outcomes + jobs_left t ≤ jobs_left cleared) }
{}

/// Of any store, also one that counts fewer places than its erases have: once a job is installed there is less to do, by the measure in which a merge counts for more than
/// all that is unswept.
pub fn any_job_goes_on()
    ensures { (s t : Stored) (task : PlainTask) → IsCoherent s → length (pending_of s) < 2 ^ 32 → IsInstalled s task t → IsCoherent t → jobs_at_most t < jobs_at_most s }
{}

/// No store that has no more pending erases than a manifest may have has more to do than so.
pub fn jobs_are_few()
    ensures { (s : Stored) → IsCoherent s → length (pending_of s) < 2 ^ 32 → jobs_left s < 2 ^ 65 }
{}

/// Each pending erase was done in the history that a store stands for, so its place is counted.
pub fn erases_are_counted()
    ensures { (h : History) (s : Stored) → IsFor h s → HasCountedErases s }
{}
