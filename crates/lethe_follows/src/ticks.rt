//! What is stored stands for its history with a tick, at a time at which nothing is due.
ghost use Rattle.std.specs.Prelude.{◌≡◌, ◌↔◌, ℕ, ◌<◌, ◌≤◌, false, None, length};
ghost use Rattle.lethe_base.specs.History.{History};
ghost use Rattle.lethe_base.specs.Limits.{max_place};
ghost use Rattle.lethe_base.specs.declared.call.Call.TheVariants.{Tick};
ghost use Rattle.lethe_cover.specs.Steps.{with_done};
ghost use Rattle.lethe_fade.specs.Due.{due};
ghost use Rattle.lethe_fade.specs.Expired.{is_passed};
ghost use Rattle.lethe_follows.specs.Leaving.{let_go};
ghost use Rattle.lethe_follows.specs.Ticked.{ticked};
ghost use Rattle.lethe_follows.specs.Young.{AreLaterRecorded, AreYoung, due_shape, oldest_in};
ghost use Rattle.lethe_manifest.specs.Manifests.{HasSpelling};
ghost use Rattle.lethe_moves.specs.Due.{HasNothingDue};
ghost use Rattle.lethe_stored.specs.Kept.{IsFor};
ghost use Rattle.lethe_stored.specs.Stored.{IsCoherent, Stored, layout_of, records_in};

/// At a time at which nothing is due once the erases that are done have left, what is stored with its clock there stands for the history with the tick.
pub fn tick_follows()
    ensures coherent { (s : Stored) → IsCoherent s → (to number : ℕ) → s.manifest.next ≤ number → HasSpelling (ticked s to number).manifest → IsCoherent (ticked s to number) }
    ensures stands { (h : History) (s : Stored) → IsCoherent s → IsFor h s → length h < max_place → (to : ℕ) → s.manifest.clock ≤ to
        → HasNothingDue s.manifest.config to (layout_of (let_go s)) → (caller number : ℕ) → IsFor (with_done h caller (Tick to)) (ticked s to number) }
{}

/// Where no job is due at a time and no record is as old as level 0 may have it, nothing is due once the erases that are done have left. A segment has to record each erase of
/// the manifest that stands behind a record of one: else a put that isn't flushed might keep an erase from being done of which no job and no record tells.
pub fn nothing_is_due()
    ensures { (h : History) (s : Stored) → IsCoherent s → IsFor h s → AreLaterRecorded s → (to : ℕ) → due s.manifest.config (due_shape (layout_of s)) to ≡ None → AreYoung s to
        → HasNothingDue s.manifest.config to (layout_of (let_go s)) }
{}

/// No record is as old as level 0 may have it exactly where the least time of neither segment is.
pub fn young_by_oldest()
    ensures { (s : Stored) (to : ℕ) → AreYoung s to
        ↔ ((is_passed s.manifest.config to 0 (oldest_in s.active.records) ≡ false) × (is_passed s.manifest.config to 0 (oldest_in (records_in s.frozen)) ≡ false)) }
{}
