//! A layout that stands for its history stands for it after each flush, merge and sweep.
ghost use Rattle.std.specs.Prelude.{[], ◌↔◌, ◌∷◌, ◌≡◌, ◌≢◌, ℕ, Bool, Contains, IsTrue, List};
ghost use Rattle.lethe_base.specs.Covers.{Covers};
ghost use Rattle.lethe_base.specs.Fresh.{IsFresh};
ghost use Rattle.lethe_base.specs.Held.{InBuffer, InFiles};
ghost use Rattle.lethe_base.specs.History.{History};
ghost use Rattle.lethe_base.specs.Layout.{Buffer, File, Layout, runs_of};
ghost use Rattle.lethe_base.specs.Placed.{IsAccepted};
ghost use Rattle.lethe_base.specs.Spent.{IsShorter};
ghost use Rattle.lethe_base.specs.declared.entry.Entry.{Entry};
ghost use Rattle.lethe_base.specs.declared.pending.Pending.{Pending};
ghost use Rattle.lethe_cover.specs.Examples.{first_merge};
ghost use Rattle.lethe_cover.specs.Flushes.{IsFlush, flushed};
ghost use Rattle.lethe_cover.specs.Merged.{IsMerged};
ghost use Rattle.lethe_cover.specs.Moves.{IsMove, Move, Moves, runs_before, runs_then};
ghost use Rattle.lethe_cover.specs.Outcomes.{IsOutcome};
ghost use Rattle.lethe_cover.specs.Steps.{IsCounted};
ghost use Rattle.lethe_cover.specs.Sweeps.{IsSwept};

/// A flush makes the newest files of level 0 of what is left of the frozen buffer.
pub fn flush_covers()
    ensures { (threshold : ℕ) (h : History) (l : Layout) → Covers threshold h l → IsCounted h l
        → (alone : Bool) (made : List File) → IsFlush h l alone made
        → Covers threshold h (flushed l made) × IsCounted h (flushed l made) }
{}

/// A merge or a sweep takes files and makes others of what is left of their entries.
pub fn move_covers()
    ensures { (threshold : ℕ) (h : History) (l : Layout) → Covers threshold h l → IsCounted h l
        → (levels : List (List File)) (alone : Bool) (applied : List Pending) (swept : ℕ) (m : Move) → Moves threshold h l levels alone applied swept m
        → Covers threshold h (record l { levels = levels }) × IsCounted h (record l { levels = levels }) }
{}

/// A merge of level 0's only file into an empty level 1 is a move of files.
pub fn first_merge_moves()
    ensures { (alone : Bool) (file made : File) → file ≢ made
        → IsMove alone (first_merge file made)
        × (runs_of ((file ∷ []) ∷ [] ∷ []) ≡ runs_before (first_merge file made))
        × (runs_of ([] ∷ (made ∷ []) ∷ []) ≡ runs_then (first_merge file made)) }
{}

/// A merged list is an outcome of its inputs.
pub fn merged_is_outcome()
    ensures { (inputs : List Entry) (erases : List Pending) (alone : Bool) (merged : List Entry) → IsMerged inputs erases alone merged
        → IsOutcome erases (IsTrue alone) (Contains inputs) (Contains merged) }
{}

/// A merged list of what a buffer has is an outcome of the buffer.
pub fn merged_buffer_is_outcome()
    ensures { (buffer : Buffer) (inputs : List Entry) → ((entry : Entry) → Contains inputs entry ↔ InBuffer buffer entry)
        → (erases : List Pending) (alone : Bool) (merged : List Entry) → IsMerged inputs erases alone merged
        → IsOutcome erases (IsTrue alone) (InBuffer buffer) (Contains merged) }
{}

/// What a sweep leaves of files in which no key stands twice is an outcome of them.
pub fn sweep_is_outcome()
    ensures { (erase : Pending) (alone : Bool) (taken made : List File) → IsSwept erase alone taken made
        → IsOutcome (erase ∷ []) (IsTrue alone) (InFiles taken) (InFiles made) }
{}

/// Erases that are spent may come back to the pending ones, as the records of a segment bring them back after a crash.
pub fn spent_erases_may_return()
    ensures { (threshold : ℕ) (h : History) (l : Layout) (pending : List Pending) → Covers threshold h (record l { pending = pending })
        → IsShorter l pending
        → ((erase : Pending) → Contains l.pending erase → IsAccepted h erase × IsFresh threshold h l.clock erase.time)
        → Covers threshold h l }
{}

/// The numbers of objects and of certificates say nothing of the history.
pub fn numbers_are_free()
    ensures { (threshold : ℕ) (h : History) (l : Layout) → Covers threshold h l
        → (next certificate : ℕ) → Covers threshold h (record l { next = next; certificate = certificate }) }
{}
