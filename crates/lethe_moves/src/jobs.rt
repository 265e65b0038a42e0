//! A layout that follows its history follows it after each flush, merge and sweep.
ghost use Rattle.std.specs.Prelude.{ℕ, List};
ghost use Rattle.lethe_base.specs.History.{History};
ghost use Rattle.lethe_base.specs.Layout.{File, Layout};
ghost use Rattle.lethe_base.specs.declared.pending.Pending.{Pending};
ghost use Rattle.lethe_cover.specs.Flushes.{flushed};
ghost use Rattle.lethe_moves.specs.Flushes.{Flushes};
ghost use Rattle.lethe_moves.specs.Merges as merges;
ghost use Rattle.lethe_moves.specs.Merges.{Merges};
ghost use Rattle.lethe_moves.specs.Reaches.{Follows};
ghost use Rattle.lethe_moves.specs.Sweeps as sweeps;
ghost use Rattle.lethe_moves.specs.Sweeps.{SweepsFile};

/// A flush makes the newest files of level 0 of what is left of the frozen buffer.
pub fn flush_follows()
    ensures { (threshold : ℕ) (h : History) (l : Layout) → Follows threshold h l
        → (made : List File) → Flushes h l made → Follows threshold h (flushed l made) }
{}

/// A merge makes files of the next level of what is left of files of a level and of those that they overlap there.
pub fn merge_follows()
    ensures { (threshold : ℕ) (h : History) (l : Layout) → Follows threshold h l
        → (applied : List Pending) (swept : ℕ) (m : merges.Merge) → Merges threshold h l applied swept m
        → Follows threshold h (record l { levels = merges.levels_then m }) }
{}

/// A sweep makes a file of what an erase leaves of one, in its place.
pub fn sweep_follows()
    ensures { (threshold : ℕ) (h : History) (l : Layout) → Follows threshold h l
        → (erase : Pending) (s : sweeps.Sweep) → SweepsFile h l erase s
        → Follows threshold h (record l { levels = sweeps.levels_then s }) }
{}
