//! What is true of the merges and sweeps of a tick. The function does nothing: its contract is the law.
ghost use Rattle.std.specs.Prelude.{◌⊎◌, ◌≤◌, ◌+◌, ℕ, List, length};
ghost use Rattle.lethe_base.specs.History.{History};
ghost use Rattle.lethe_core.specs.Descent.{jobs_left};
ghost use Rattle.lethe_core.specs.Merges.{AreOutcomesBy, AreSomeOutcomesBy, Outcome, due_choice};
ghost use Rattle.lethe_stored.specs.Kept.{IsFor};
ghost use Rattle.lethe_stored.specs.Stored.{Stored, IsCoherent};
ghost use Rattle.lethe_tick.specs.Ripened.{IsRipened};

/// What a tick carries out is no more than what there was to do behind its flushes, in a store that stands for a history: the levels that all entries have still to go, and the
/// pairs of a file and an erase that it waits for.
pub fn tick_is_bounded()
    ensures { (h : History) (to : ℕ) (s ripe t : Stored) (outcomes : List Outcome) → IsFor h s → IsCoherent s → IsRipened to s ripe
        → AreSomeOutcomesBy (due_choice to) ripe outcomes t ⊎ AreOutcomesBy (due_choice to) ripe outcomes t
        → IsFor h ripe × (length outcomes + jobs_left t ≤ jobs_left ripe) }
{}
