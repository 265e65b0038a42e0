//! What the records of a row make of a history. The function does nothing: its contract is the law.
ghost use Rattle.std.specs.Prelude.{◌<◌, ℕ, List, length};
ghost use Rattle.lethe_base.specs.History.{History};
ghost use Rattle.lethe_base.specs.Limits.{max_place};
ghost use Rattle.lethe_cover.specs.Steps.{with_done};
ghost use Rattle.lethe_segment.specs.declared.record.Record.{Record};
ghost use Rattle.lethe_stored.specs.Files.{Parts};
ghost use Rattle.lethe_stored.specs.Kept.{IsFor};
ghost use Rattle.lethe_stored.specs.Stored.{IsCoherent, Stored, appended};
ghost use Rattle.lethe_state.specs.Records.{headers_in};
ghost use Rattle.lethe_state.specs.Remembered.{IsCurrent, Remembers};
ghost use Rattle.lethe_state.specs.declared.state.State.{State};
ghost use Rattle.lethe_row.specs.Rows.{IsRecordOf, IsWithin, call_of};
ghost use Rattle.lethe_row.specs.declared.asking.Asked.{Asked};

/// With the record of a change, what is stored stands for the history with that change.
pub fn change_is_recorded()
    ensures { (h : History) (s : Stored) (state : State) (levels : List (List Parts)) → Remembers s state levels → IsCurrent s state → IsFor h s → length h < max_place
        → (caller : ℕ) (asked : Asked) (next : Record) → IsWithin asked → IsRecordOf state (headers_in levels) asked next
        → IsCoherent (appended s next) × IsFor (with_done h caller (call_of asked)) (appended s next) }
{}
