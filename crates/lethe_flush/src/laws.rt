//! What a buffer and its files are to a layout. The functions do nothing: their contracts are the laws.
ghost use Rattle.std.specs.Prelude.{◌≡◌, ◌<◌, ℕ, Bool, IsTrue, List, map, length, All};
ghost use Rattle.lethe_base.specs.Entries.{IsAscending};
ghost use Rattle.lethe_base.specs.History.{History};
ghost use Rattle.lethe_base.specs.Layout.{Layout, files_of, frozen_records};
ghost use Rattle.lethe_base.specs.declared.config.Fields.{Fields};
ghost use Rattle.lethe_base.specs.declared.entry.Entry.{Entry};
ghost use Rattle.lethe_base.specs.declared.name.Name.{Name};
ghost use Rattle.lethe_build.specs.Drafts.{AreDraftsOf};
ghost use Rattle.lethe_build.specs.declared.draft.Draft.{Draft};
ghost use Rattle.lethe_follows.specs.Woven.{AreWovenOf};
ghost use Rattle.lethe_segment.specs.declared.record.Record.{Record};
ghost use Rattle.lethe_moves.specs.Files.{IsClearOf};
ghost use Rattle.lethe_moves.specs.Flushes.{Flushes, frozen_entries, span_of};
ghost use Rattle.lethe_stored.specs.Files.{StoredFile, file_of};
ghost use Rattle.lethe_stored.specs.Replayed.{AreNewestOf};
ghost use Rattle.lethe_stored.specs.Stored.{plain};
ghost use Rattle.lethe_flush.specs.Flushed.{IsFlushOf};
ghost use Rattle.lethe_flush.specs.Made.{AreFilesOf};
ghost use Rattle.lethe_flush.specs.declared.made.MadeFiles.{MadeFiles};

/// The files of a flush of the frozen entries, where the pending erases are applied, flush the layout. They are alone only where no file has a
/// key of the entries' range, and their numbers are above those of all files.
pub fn flush_is_one()
    ensures { (h : History) (l : Layout) (alone : Bool) (first : ℕ) (fields : Fields) (made : MadeFiles) (files : List StoredFile)
        → IsFlushOf fields (frozen_entries l) l.pending alone (length h) first made files
        → (IsTrue alone → All (IsClearOf (span_of (frozen_entries l))) (files_of l))
        → All (λ file. file.no < first) (files_of l)
        → Flushes h l (map file_of files) }
{}

/// The files of drafts that were woven of entries are woven of them.
pub fn files_are_woven()
    ensures { (fields : Fields) (entries : List Entry) (drafts : List Draft) → IsAscending entries → AreDraftsOf fields entries drafts
        → (level upto : ℕ) (written : List Name) (first : ℕ) (made : MadeFiles) (files : List StoredFile) → AreFilesOf drafts level upto written first made files
        → AreWovenOf fields entries upto (map file_of files) }
{}

/// The newest entries of the frozen segment's records, in the order of their keys, are the frozen buffer.
pub fn newest_are_frozen()
    ensures { (l : Layout) (records : List Record) (entries : List Entry) → frozen_records l ≡ map plain records
        → IsAscending entries → AreNewestOf records entries → entries ≡ frozen_entries l }
{}
