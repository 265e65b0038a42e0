//! Laws of what a disk is kept for. The functions do nothing: their contracts are the laws.
ghost use Rattle.std.specs.Prelude.{◌≡◌, ◌≢◌, ◌⊎◌, ◌<◌, ◌≤◌, ◌^◌, ◌++◌, AllPairs, ℕ, List, [], length, option_to_list, Some, None};
ghost use Rattle.lethe_base.specs.Causes.{IsOverdue};
ghost use Rattle.lethe_base.specs.Held.{Holds, Shows};
ghost use Rattle.lethe_base.specs.History.{History, after};
ghost use Rattle.lethe_base.specs.Keys.{Bytes};
ghost use Rattle.lethe_base.specs.Limits.{IsKey, IsValue, max_place};
ghost use Rattle.lethe_base.specs.Matching.{IsPut};
ghost use Rattle.lethe_base.specs.Ranges.{Ends};
ghost use Rattle.lethe_base.specs.Shapes as shapes;
ghost use Rattle.lethe_base.specs.declared.call.Call.TheVariants.{Put, Delete, Erase};
ghost use Rattle.lethe_base.specs.declared.config.Fields.{Fields};
ghost use Rattle.lethe_base.specs.declared.entry.Entry.{Entry};
ghost use Rattle.lethe_base.specs.declared.name.Kind.TheVariants as kinds;
ghost use Rattle.lethe_base.specs.declared.name.Name.{Name};
ghost use Rattle.lethe_disk.specs.Directory.{Directory, IsCreated};
ghost use Rattle.lethe_header.specs.Facts as facts;
ghost use Rattle.lethe_segment.specs.declared.record.Record.{Record};
ghost use Rattle.lethe_segment.specs.declared.record.Record.TheVariants as of;
ghost use Rattle.lethe_manifest.specs.Manifests.{manifest_bytes, HasSpelling};
ghost use Rattle.lethe_commit.specs.Append.{IsAppended};
ghost use Rattle.lethe_commit.specs.Clear.{IsCleared};
ghost use Rattle.lethe_commit.specs.Switch.{HasGreatest, IsSwitched};
ghost use Rattle.lethe_cover.specs.Steps.{accepted, next_place, with_done, put_entry, tomb_entry};
ghost use Rattle.lethe_stored.specs.Files.{StoredFile, IsFile, file_of};
ghost use Rattle.lethe_stored.specs.Stored.{Stored, IsCoherent, segment_name, layout_of, appended, froze, erase_of, pending_of};
ghost use Rattle.lethe_stored.specs.Encodes.{Encodes, HasParts, Agrees, IsBeside, AreSpare};
ghost use Rattle.lethe_stored.specs.Steps.{addition};
ghost use Rattle.lethe_stored.specs.Kept.{IsFor, IsKept};
ghost use Rattle.lethe_stored.specs.Levels.{AreRising};
ghost use Rattle.lethe_stored.specs.Meaning.{Means};
ghost use Rattle.lethe_stored.specs.Examples.{small, IsNewStore, IsOnePut, the_put};

/// What a directory encodes, and so what it is kept for, rests on its greatest gate, the manifest of that gate, and the segments and files that
/// this manifest cites: whatever else a directory has, it is kept for the same.
pub fn what_is_cited_counts()
    ensures encodes { (s : Stored) (d c : Directory) → Encodes d s → Agrees s d c → Encodes c s }
    ensures kept { (config : Fields) (h : History) (d c : Directory) → IsKept config d h → IsBeside d c → IsKept config c h }
{}

/// A directory encodes one thing.
pub fn one_stored()
    ensures { (d : Directory) (s t : Stored) → IsCoherent s → IsCoherent t → Encodes d s → Encodes d t → s ≡ t }
{}

/// A directory that is kept for a history means the map, the clock and the count that this leaves.
pub fn kept_means_its_history()
    ensures { (config : Fields) (h : History) (d : Directory) → IsKept config d h
        → Means d (record { map = (after h).map; clock = (after h).clock; count = length h }) }
{}

/// Of what it holds, nothing was erased a threshold ago.
pub fn kept_holds_nothing_overdue()
    ensures { (config : Fields) (h : History) (d : Directory) (s : Stored) → IsKept config d h → IsCoherent s → Encodes d s
        → (entry : Entry) (swept : ℕ) → Holds (layout_of s) entry swept → IsPut entry.body
        → IsOverdue config.threshold h (after h).clock entry.seq → ⊥ }
{}

/// What a crash leaves of an append is kept for the history before, or for the one that the new record stands for.
pub fn append_keeps()
    ensures { (h g : History) (s : Stored) (next : Record) (at : ℕ) (d c : Directory) → IsCoherent s → Encodes d s → IsFor h s
        → IsCoherent (appended s next) → IsFor g (appended s next)
        → IsAppended (segment_name s.active.no) at (addition s next) d c → IsKept s.manifest.config c h ⊎ IsKept s.manifest.config c g }
{}

/// What a crash leaves of a switch is kept for the history that the old manifest and the new one stand for.
pub fn switch_keeps()
    ensures later { (h : History) (s t : Stored) (d c : Directory) → IsCoherent s → Encodes d s → IsFor h s
        → IsCoherent t → HasParts d t → IsFor h t → t.manifest.config ≡ s.manifest.config → s.manifest.no < t.manifest.no
        → IsSwitched t.manifest.no (manifest_bytes t.manifest) (Some s.manifest.no) d c → IsKept s.manifest.config c h }
    ensures first { (t : Stored) (d c : Directory) → HasGreatest None d → IsCoherent t → HasParts d t → IsFor [] t
        → IsSwitched t.manifest.no (manifest_bytes t.manifest) None d c → IsKept t.manifest.config c [] }
{}

/// What a crash leaves of a clear is kept for the same, where none of the names is cited.
pub fn clear_keeps()
    ensures { (config : Fields) (h : History) (d c : Directory) (names : List Name) → IsKept config d h
        → ((s : Stored) → IsCoherent s → Encodes d s → AreSpare s names) → IsCleared names d c → IsKept config c h }
{}

/// What a crash leaves of a create is kept for the same, where the name is no gate's and its number hasn't been drawn.
pub fn create_keeps()
    ensures { (config : Fields) (h : History) (d c : Directory) (name : Name) → IsKept config d h → name.kind ≢ kinds.Gate
        → ((s : Stored) → IsCoherent s → Encodes d s → s.manifest.next ≤ name.no) → IsCreated name d c → IsKept config c h }
{}

/// With the record of a put, what is stored stands for the history with that put.
pub fn put_follows()
    ensures { (h : History) (s : Stored) → IsCoherent s → IsFor h s → length h < max_place
        → (caller : ℕ) (key : Bytes) (dkey : ℕ) (value : Bytes) → IsKey key → dkey < 2 ^ 64 → IsValue value
        → IsCoherent (appended s (of.Entry (put_entry h (layout_of s) key dkey value)))
        × IsFor (with_done h caller (Put key dkey value)) (appended s (of.Entry (put_entry h (layout_of s) key dkey value))) }
{}

/// With a tombstone, what is stored stands for the history with that delete; and with the delete's place alone where reads see no
/// entry of the key.
pub fn delete_follows()
    ensures tombstone { (h : History) (s : Stored) → IsCoherent s → IsFor h s → length h < max_place → (caller : ℕ) (key : Bytes) → IsKey key
        → IsCoherent (appended s (of.Entry (tomb_entry h (layout_of s) key)))
        × IsFor (with_done h caller (Delete key)) (appended s (of.Entry (tomb_entry h (layout_of s) key))) }
    ensures blind { (h : History) (s : Stored) → IsCoherent s → IsFor h s → length h < max_place → (caller : ℕ) (key : Bytes)
        → ((entry : Entry) → Shows (layout_of s) entry → entry.key ≡ key → ⊥)
        → IsCoherent (appended s (of.Blind (next_place h))) × IsFor (with_done h caller (Delete key)) (appended s (of.Blind (next_place h))) }
{}

/// An erase whose place is above those of the pending ones is pending behind them, and another record leaves them as they are.
pub fn erase_is_pending()
    ensures { (s : Stored) (next : Record) → AllPairs (λ a b. a.seq < b.seq) (pending_of s ++ option_to_list (erase_of next))
        → pending_of (appended s next) ≡ pending_of s ++ option_to_list (erase_of next) }
{}

/// With the record of an erase, what is stored stands for the history with that erase.
pub fn erase_follows()
    ensures { (h : History) (s : Stored) → IsCoherent s → IsFor h s → length h < max_place
        → (caller : ℕ) (range : Ends) → range.lo < range.hi → range.hi < 2 ^ 64
        → IsCoherent (appended s (of.Erase (accepted h (layout_of s) range)))
        × IsFor (with_done h caller (Erase range)) (appended s (of.Erase (accepted h (layout_of s) range))) }
{}

/// With the active segment frozen and an empty one active, what is stored stands for the same history, where no segment was frozen.
pub fn freeze_follows()
    ensures coherent { (s : Stored) → IsCoherent s → (segment number : ℕ) → s.manifest.next ≤ segment → segment < number
        → HasSpelling (froze s segment number).manifest → IsCoherent (froze s segment number) }
    ensures stands { (h : History) (s : Stored) → IsCoherent s → IsFor h s → s.frozen ≡ None → (segment number : ℕ)
        → IsFor h (froze s segment number) }
{}

/// The facts of a stored file's header are those of the file in the layout.
pub fn facts_are_of_the_header()
    ensures { (next level : ℕ) (file : StoredFile) → IsFile next file
        → facts.facts_of level file.swept file.header ≡ shapes.facts_of level (file_of file) }
{}

/// Behind level 0 the files of a level ascend by key and are disjoint.
pub fn kept_files_rise()
    ensures { (h : History) (s : Stored) → IsCoherent s → IsFor h s → AreRising s.files }
{}

/// The 71 bytes of a new store's manifest, its gate and its empty segment are kept for the empty history.
pub fn new_store_is_kept()
    ensures { (d : Directory) → IsNewStore d → IsKept small d [] }
{}

/// With the 36 bytes of a segment that has one put, a store is kept for the history of that put.
pub fn one_put_is_kept()
    ensures { (caller : ℕ) (d : Directory) → IsOnePut d → IsKept small d (the_put caller) }
{}
