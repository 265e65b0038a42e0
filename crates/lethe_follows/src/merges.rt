//! What is stored stands for its history after a merge, and a merge that was begun stays one.
ghost use Rattle.std.specs.Prelude.{◌≡◌, ℕ, ◌++◌, ◌≤◌, Bool, IsTrue, List, None, All, AllPairs, Contains, ◌+◌, ◌<◌, option_to_list};
ghost use Rattle.lethe_base.specs.History.{History};
ghost use Rattle.lethe_base.specs.declared.entry.Entry.{Entry};
ghost use Rattle.lethe_base.specs.declared.pending.Pending.{Pending};
ghost use Rattle.lethe_manifest.specs.Manifests.{HasSpelling};
ghost use Rattle.lethe_segment.specs.Records.{record_seq};
ghost use Rattle.lethe_segment.specs.declared.record.Record.{Record};
ghost use Rattle.lethe_stored.specs.Files.{StoredFile};
ghost use Rattle.lethe_stored.specs.Kept.{IsFor};
ghost use Rattle.lethe_stored.specs.Levels.{AreRising};
ghost use Rattle.lethe_stored.specs.Stored.{Stored, IsCoherent, appended, count_of, erase_of, froze, layout_of, pending_of};
ghost use Rattle.lethe_base.specs.Layout.{files_of};
ghost use Rattle.lethe_base.specs.Held.{InFiles};
ghost use Rattle.lethe_follows.specs.Filed.{flushed};
ghost use Rattle.lethe_follows.specs.Merged.{Company, IsAlone, IsMergeIn, IsMergedWith, StoredMerge, entries_in, erases_upto, hull_of, inputs_of, with_newer};

/// With the outputs in the place of the inputs, and without the erases that are done then where no other job is in flight, what is stored stands for the same history, where the
/// pending erases up to the place were applied up to which they count as swept. Outputs that are alone have no file below them, and no input is newer than that place.
pub fn merge_follows()
    ensures coherent { (company : Company) (s : Stored) → IsCoherent s → (m : StoredMerge) → IsMergeIn s m → (applied : List Pending) (alone : Bool) (upto : ℕ) (t : Stored)
        → IsMergedWith company s m applied alone upto t → HasSpelling t.manifest → IsCoherent t }
    ensures rising { (company : Company) (s : Stored) → IsCoherent s → AreRising s.files → (m : StoredMerge) → IsMergeIn s m → (applied : List Pending) (alone : Bool) (upto : ℕ) (t : Stored)
        → IsMergedWith company s m applied alone upto t → AreRising t.files }
    ensures stands { (company : Company) (h : History) (s : Stored) → IsCoherent s → IsFor h s → (m : StoredMerge) → IsMergeIn s m → (alone : Bool)
        → (IsTrue alone → IsAlone s m.level (hull_of (inputs_of m))) → (m.level + 1 ≡ s.manifest.config.levels → IsTrue alone)
        → (upto : ℕ) → upto ≤ count_of s → All (λ entry. entry.seq ≤ upto) (entries_in (inputs_of m))
        → (t : Stored) → IsMergedWith company s m (erases_upto upto (pending_of s)) alone upto t → IsFor h t }
{}

/// The places of all entries of files are counted.
pub fn files_are_counted()
    ensures { (h : History) (s : Stored) → IsCoherent s → IsFor h s → All (λ entry. entry.seq ≤ count_of s) (entries_in s.files) }
{}

/// A merge stays one while records come, a segment is frozen, and files of level 0 come by a flush.
pub fn merge_stays()
    ensures appended { (s : Stored) (m : StoredMerge) → IsMergeIn s m → (next : Record) → IsMergeIn (appended s next) m }
    ensures frozen { (s : Stored) (m : StoredMerge) → IsMergeIn s m → (segment number : ℕ) → IsMergeIn (froze s segment number) m }
    ensures flushed { (s : Stored) (m : StoredMerge) → IsMergeIn s m → (made : List StoredFile) (number : ℕ) → All (λ file. file.level ≡ 0) made
        → IsMergeIn (flushed s made number) (with_newer made m) }
{}

/// The pending erases up to a place stay the same while records come behind it, a segment is frozen, and files come by a flush.
pub fn erases_stay()
    ensures appended { (s : Stored) (upto : ℕ) (next : Record) → upto < record_seq next
        → AllPairs (λ a b. a.seq < b.seq) (pending_of s ++ option_to_list (erase_of next)) → erases_upto upto (pending_of (appended s next)) ≡ erases_upto upto (pending_of s) }
    ensures frozen { (s : Stored) (segment number : ℕ) → s.frozen ≡ None → pending_of (froze s segment number) ≡ pending_of s }
    ensures flushed { (s : Stored) (made : List StoredFile) (number : ℕ) → pending_of (flushed s made number) ≡ pending_of s }
{}
