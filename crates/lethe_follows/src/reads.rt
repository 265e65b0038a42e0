//! What reads answer over what is stored.
ghost use Rattle.std.specs.FinMap.{get};
ghost use Rattle.std.specs.Option.{option_or};
ghost use Rattle.std.specs.Prelude.{◌≡◌, ◌⊎◌, ◌↔◌, true, false, None, IsTrue, List, Contains, Option, is_some, option_and_then};
ghost use Rattle.lethe_base.specs.Entries.{entry_of};
ghost use Rattle.lethe_base.specs.Held.{Shows};
ghost use Rattle.lethe_base.specs.History.{History, after};
ghost use Rattle.lethe_base.specs.Keys.{Bytes};
ghost use Rattle.lethe_base.specs.Matching.{answer_under};
ghost use Rattle.lethe_base.specs.Read.{Listed, Scan, answer, is_between};
ghost use Rattle.lethe_base.specs.declared.entry.Entry.{Entry};
ghost use Rattle.lethe_follows.specs.Holders.{IsHeldBy, IsPaged, pages_in};
ghost use Rattle.lethe_mem.specs.Pairs.{pairs_of};
ghost use Rattle.lethe_moves.specs.Merge.{merged};
ghost use Rattle.lethe_stored.specs.Files.{Parts};
ghost use Rattle.lethe_stored.specs.Kept.{IsFor};
ghost use Rattle.lethe_stored.specs.Stored.{IsCoherent, Stored, layout_of, pending_of};
ghost use Rattle.lethe_version.specs.Newest.{IsNewestIn};

/// Over the buffers of the segments and the files by level, a get and a scan answer what the history's map has. Of a key that
/// none of them has, the layout shows no entry.
pub fn read_answers()
    // What the newest of the files' entries of a key is has to be known only where no buffer has the key.
    ensures get { (h : History) (s : Stored) → IsCoherent s → IsFor h s → (active frozen : List Entry) (levels : List (List Parts)) → IsHeldBy s active frozen levels
        → (key : Bytes) (filed : Option Entry) → (is_some (option_or (entry_of key active) (entry_of key frozen)) ≡ false → IsNewestIn key (pages_in levels) filed)
        → option_and_then (answer_under (pending_of s)) (option_or (entry_of key active) (option_or (entry_of key frozen) filed)) ≡ get (after h).map key }
    ensures scan { (h : History) (s : Stored) → IsCoherent s → IsFor h s → (active frozen : List Entry) (levels : List (List Parts)) → IsHeldBy s active frozen levels
        → (lo hi : Bytes) (entries : List Entry)
        → ((entry : Entry) → Contains entries entry ↔ (((Contains active entry ⊎ Contains frozen entry) ⊎ IsPaged levels entry) × IsTrue (is_between lo hi entry.key)))
        → Listed (pairs_of (merged entries (pending_of s) true)) ≡ answer (after h) (Scan lo hi) }
    ensures lacks { (s : Stored) → IsCoherent s → (active frozen : List Entry) (levels : List (List Parts)) → IsHeldBy s active frozen levels
        → (key : Bytes) → entry_of key active ≡ None → entry_of key frozen ≡ None → ((entry : Entry) → IsPaged levels entry → entry.key ≡ key → ⊥)
        → (entry : Entry) → Shows (layout_of s) entry → entry.key ≡ key → ⊥ }
{}
