//! A layout that stands for its history stands for it after each change. The functions do nothing: their contracts are
//! the laws.
ghost use Rattle.std.specs.Prelude.{◌≡◌, ℕ, ◌<◌, List, None};
ghost use Rattle.lethe_base.specs.Covers.{Covers};
ghost use Rattle.lethe_base.specs.Fresh.{AreFresh};
ghost use Rattle.lethe_base.specs.Held.{Holds, Shows, Tells};
ghost use Rattle.lethe_base.specs.History.{History, after};
ghost use Rattle.lethe_base.specs.Keys.{Bytes};
ghost use Rattle.lethe_base.specs.Layout.{Blind, Layout, Record, Written};
ghost use Rattle.lethe_base.specs.Ranges.{Ends};
ghost use Rattle.lethe_base.specs.declared.call.Call.{Call};
ghost use Rattle.lethe_base.specs.declared.call.Call.TheVariants.{Delete, Erase, Put, Tick};
ghost use Rattle.lethe_base.specs.declared.entry.Entry.{Entry};
ghost use Rattle.lethe_base.specs.declared.pending.Pending.{Pending};
ghost use Rattle.lethe_cover.specs.Changes.{IsChange, followed};
ghost use Rattle.lethe_cover.specs.Steps.{IsCounted, accepted, erasing, frozen, next_place, put_entry, recorded, ticked, tomb_entry, with_done, with_failed};

/// With the record of a change, and of each put that the change ends a newer entry or a pending erase, a layout stands for
/// the history with that change.
pub fn change_covers()
    ensures { (threshold caller : ℕ) (h : History) (l : Layout) → Covers threshold h l → IsCounted h l
        → (call : Call) (r : Record) (pending : List Pending) → IsChange threshold h caller call l r pending
        → Covers threshold (with_done h caller call) (followed l r pending) × IsCounted (with_done h caller call) (followed l r pending) }
{}

/// A put writes an entry with the time of the entry that it replaces in the active buffer.
pub fn put_covers()
    ensures { (threshold caller : ℕ) (h : History) (l : Layout) → Covers threshold h l → IsCounted h l
        → (key : Bytes) (dkey : ℕ) (value : Bytes)
        → Covers threshold (with_done h caller (Put key dkey value)) (recorded l (Written (put_entry h l key dkey value)))
        × IsCounted (with_done h caller (Put key dkey value)) (recorded l (Written (put_entry h l key dkey value))) }
{}

/// A delete writes a tombstone with the clock, or with the smaller time of the entry that it replaces in the active buffer.
pub fn delete_covers()
    ensures { (threshold caller : ℕ) (h : History) (l : Layout) → Covers threshold h l → IsCounted h l
        → 0 < threshold → l.clock ≡ (after h).clock
        → (key : Bytes)
        → Covers threshold (with_done h caller (Delete key)) (recorded l (Written (tomb_entry h l key)))
        × IsCounted (with_done h caller (Delete key)) (recorded l (Written (tomb_entry h l key))) }
{}

/// A delete of a key of which reads see no entry writes its place alone.
pub fn blind_covers()
    ensures { (threshold caller : ℕ) (h : History) (l : Layout) → Covers threshold h l → IsCounted h l
        → (key : Bytes) → ((entry : Entry) → Shows l entry → entry.key ≡ key → ⊥)
        → Covers threshold (with_done h caller (Delete key)) (recorded l (Blind (next_place h)))
        × IsCounted (with_done h caller (Delete key)) (recorded l (Blind (next_place h))) }
{}

/// An erase writes its place, the clock and its range, and becomes pending.
pub fn erase_covers()
    ensures { (threshold caller : ℕ) (h : History) (l : Layout) → Covers threshold h l → IsCounted h l
        → 0 < threshold → l.clock ≡ (after h).clock
        → (range : Ends)
        → Covers threshold (with_done h caller (Erase range)) (erasing l (accepted h l range))
        × IsCounted (with_done h caller (Erase range)) (erasing l (accepted h l range)) }
{}

/// A tick moves the clock to a time at which no remembered erasure is due.
pub fn tick_covers()
    ensures { (threshold caller : ℕ) (h : History) (l : Layout) → Covers threshold h l → IsCounted h l
        → (to : ℕ) → AreFresh threshold h to (Holds l) (Tells l)
        → Covers threshold (with_done h caller (Tick to)) (ticked h l to)
        × IsCounted (with_done h caller (Tick to)) (ticked h l to) }
{}

/// A freeze makes the active segment the frozen one, where there is none.
pub fn freeze_covers()
    ensures { (threshold : ℕ) (h : History) (l : Layout) → Covers threshold h l → IsCounted h l
        → l.frozen ≡ None
        → Covers threshold h (frozen l) × IsCounted h (frozen l) }
{}

/// A call in which the disk failed changes nothing that the layout stands for.
pub fn failed_covers()
    ensures { (threshold caller : ℕ) (h : History) (l : Layout) → Covers threshold h l
        → (call : Call) (before after : ℕ)
        → Covers threshold (with_failed h caller call before after) l }
{}
