//! What reads of a layout answer.
ghost use Rattle.std.specs.FinMap.{get};
ghost use Rattle.std.specs.Prelude.{◌≡◌, ℕ, List, true};
ghost use Rattle.lethe_base.specs.History.{History, after};
ghost use Rattle.lethe_base.specs.Keys.{Bytes};
ghost use Rattle.lethe_base.specs.Layout.{Layout};
ghost use Rattle.lethe_base.specs.Read.{Listed, Scan, answer};
ghost use Rattle.lethe_base.specs.declared.entry.Entry.{Entry};
ghost use Rattle.lethe_cover.specs.Reads.{answered};
ghost use Rattle.lethe_mem.specs.Pairs.{pairs_of};
ghost use Rattle.lethe_merge.specs.Merge.{merged};
ghost use Rattle.lethe_moves.specs.Reaches.{Follows};
ghost use Rattle.lethe_moves.specs.Scans.{AreShownBetween};

/// The first part that has a key, from newest to oldest, answers what the history's map has of it.
pub fn read_answers()
    ensures { (threshold : ℕ) (h : History) (l : Layout) → Follows threshold h l
        → (key : Bytes) → answered key l ≡ get (after h).map key }
{}

/// A scan is the merge of all parts as one output that is alone.
pub fn scan_answers()
    ensures { (threshold : ℕ) (h : History) (l : Layout) → Follows threshold h l
        → (lo hi : Bytes) (entries : List Entry) → AreShownBetween l lo hi entries
        → Listed (pairs_of (merged entries l.pending true)) ≡ answer (after h) (Scan lo hi) }
{}
