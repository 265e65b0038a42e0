//! What a state remembers behind each step. The functions do nothing: their contracts are the laws.
ghost use Rattle.std.specs.Prelude.{◌≡◌, ◌<◌, ◌≤◌, ◌+◌, ◌^◌, ℕ, List, None, length, map};
ghost use Rattle.lethe_base.specs.History.{History};
ghost use Rattle.lethe_base.specs.Keys.{Bytes};
ghost use Rattle.lethe_base.specs.Limits.{IsKey, IsValue, max_place};
ghost use Rattle.lethe_base.specs.Ranges.{Ends};
ghost use Rattle.lethe_base.specs.declared.call.Call.TheVariants.{Put, Delete, Erase};
ghost use Rattle.lethe_segment.specs.Records.{record_seq};
ghost use Rattle.lethe_segment.specs.declared.record.Record.{Record};
ghost use Rattle.lethe_manifest.specs.Manifests.{AreErases, HasSpelling};
ghost use Rattle.lethe_cover.specs.Steps.{with_done};
ghost use Rattle.lethe_moves.specs.Flushes.{Flushes};
ghost use Rattle.lethe_stored.specs.Files.{Parts, file_of};
ghost use Rattle.lethe_stored.specs.Kept.{IsFor};
ghost use Rattle.lethe_stored.specs.Levels.{HasFiles};
ghost use Rattle.lethe_stored.specs.Stored.{Stored, IsCoherent, appended, layout_of};
ghost use Rattle.lethe_follows.specs.Ticked.{ticked};
ghost use Rattle.lethe_state.specs.Records.{IsDeleteRecord, IsLike, IsNext, erase_record, halted, headers_in, put_record};
ghost use Rattle.lethe_state.specs.Remembered.{Remembers, IsCurrent};
ghost use Rattle.lethe_state.specs.Room.{IsFlushed, IsFrozen, IsFrozenWith, IsRoomMade, unfrozen};
ghost use Rattle.lethe_state.specs.Ticking.{moved};
ghost use Rattle.lethe_state.specs.declared.state.State.{State};

/// With the record of a put, what is stored stands for the history with that put.
pub fn put_is_recorded()
    ensures { (h : History) (s : Stored) (state : State) (levels : List (List Parts)) → Remembers s state levels → IsCurrent s state → IsFor h s → length h < max_place
        → (caller : ℕ) (key : Bytes) (dkey : ℕ) (value : Bytes) → IsKey key → dkey < 2 ^ 64 → IsValue value
        → IsCoherent (appended s (put_record state key dkey value)) × IsFor (with_done h caller (Put key dkey value)) (appended s (put_record state key dkey value)) }
{}

/// With the record of a delete, what is stored stands for the history with that delete: where no buffer has the key and no page may have it,
/// there is nothing to hide.
pub fn delete_is_recorded()
    ensures { (h : History) (s : Stored) (state : State) (levels : List (List Parts)) → Remembers s state levels → IsCurrent s state → IsFor h s → length h < max_place
        → (caller : ℕ) (key : Bytes) (next : Record) → IsKey key → IsDeleteRecord state (headers_in levels) key next
        → IsCoherent (appended s next) × IsFor (with_done h caller (Delete key)) (appended s next) }
{}

/// With the record of an erase, what is stored stands for the history with that erase.
pub fn erase_is_recorded()
    ensures { (h : History) (s : Stored) (state : State) (levels : List (List Parts)) → Remembers s state levels → IsCurrent s state → IsFor h s → length h < max_place
        → (caller : ℕ) (range : Ends) → range.lo < range.hi → range.hi < 2 ^ 64
        → IsCoherent (appended s (erase_record state range)) × IsFor (with_done h caller (Erase range)) (appended s (erase_record state range)) }
{}

/// With the record of the next change entered, what is stored with it is remembered.
pub fn entered_is_remembered()
    ensures { (s : Stored) (old new : State) (levels : List (List Parts)) (next : Record) (end : ℕ) → Remembers s old levels → IsCurrent s old
        → IsNext next end old new → record_seq next ≡ old.count + 1 → AreErases new.pending → IsCoherent (appended s next)
        → Remembers (appended s next) new levels × IsCurrent (appended s next) new }
{}

/// What is remembered stays so where memory was reserved.
pub fn like_is_remembered()
    ensures { (s : Stored) (old new : State) (levels : List (List Parts)) → IsLike old new → Remembers s old levels
        → Remembers s new levels × (IsCurrent s old → IsCurrent s new) }
{}

/// What is remembered stays so where the disk failed.
pub fn halted_is_remembered()
    ensures { (s : Stored) (state : State) (levels : List (List Parts)) → Remembers s state levels → Remembers s (halted state) levels }
{}

/// What is remembered stays so where readers have the same files otherwise.
pub fn files_are_remembered()
    ensures { (s : Stored) (state : State) (levels next : List (List Parts)) → Remembers s state levels → HasFiles s next → Remembers s state next }
{}

/// With the active buffer frozen, what is stored with its active segment frozen is remembered.
pub fn freeze_is_remembered()
    ensures { (s t : Stored) (old new : State) (levels : List (List Parts)) → Remembers s old levels → IsCurrent s old → s.frozen ≡ None
        → IsFrozen s t → HasSpelling t.manifest → IsFrozenWith t.manifest old new → Remembers t new levels × IsCurrent t new }
{}

/// With the frozen buffer forgotten, what is stored with its frozen segment flushed is remembered.
pub fn flush_is_remembered()
    ensures { (s t : Stored) (state : State) (levels next : List (List Parts)) → Remembers s state levels → IsCurrent s state
        → IsFlushed s t → HasSpelling t.manifest → HasFiles t next → Remembers t (unfrozen t.manifest state) next × IsCurrent t (unfrozen t.manifest state) }
{}

/// With the clock moved, what is stored with the tick is remembered.
pub fn tick_is_remembered()
    ensures { (s : Stored) (state : State) (levels next : List (List Parts)) (to number : ℕ) → Remembers s state levels → IsCurrent s state → s.manifest.next ≤ number
        → HasSpelling (ticked s to number).manifest → HasFiles (ticked s to number) next
        → Remembers (ticked s to number) (moved (ticked s to number).manifest state) next × IsCurrent (ticked s to number) (moved (ticked s to number).manifest state) }
{}

/// The files of a flush flush the layout.
pub fn flushed_flushes()
    ensures { (h : History) (s t : Stored) → IsCoherent s → IsFor h s → (is : IsFlushed s t) → Flushes h (layout_of s) (map file_of is.made) }
{}

/// With the frozen segment flushed, what is stored stands for the same history.
pub fn flush_stands()
    ensures { (h : History) (s t : Stored) → IsCoherent s → IsFor h s → IsFlushed s t → IsFor h t }
{}

/// Once room is made, what is stored stands for the same history.
pub fn room_stands()
    ensures { (h : History) (s t : Stored) → IsCoherent s → IsFor h s → IsRoomMade s t → IsFor h t }
{}
