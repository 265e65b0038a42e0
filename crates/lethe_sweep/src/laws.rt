//! What a sweep leaves of a file. The functions do nothing: their contracts are the laws.
ghost use Rattle.std.specs.Prelude.{Bool, ℕ, List, map};
ghost use Rattle.lethe_base.specs.declared.pending.Pending.{Pending};
ghost use Rattle.lethe_file.specs.Agreement.{FileAgrees, entries_in};
ghost use Rattle.lethe_header.specs.declared.header.TileLine.{TileLine};
ghost use Rattle.lethe_tile.specs.Woven.{joined};
ghost use Rattle.lethe_sweep.specs.Sweeping.{IsBehind, IsSweep, IsSweptBy};
ghost use Rattle.lethe_swept.specs.Left.{AreHeld, entries_left};
ghost use Rattle.lethe_swept.specs.declared.part.SweptFile.{SweptFile};

/// Of the file's entries those are left that the covering core calls left, and no others.
pub fn swept_is_the_sweep()
    ensures { (alone : Bool) (erase : Pending) (tiles : List TileLine) (bytes : List (List ℕ)) (swept : SweptFile) → FileAgrees tiles bytes → IsBehind erase tiles
        → IsSweptBy alone erase tiles (map entries_in bytes) swept → IsSweep alone erase (joined (map entries_in bytes)) (entries_left (map entries_in bytes) swept) }
{}

/// No key leaves the bounds of its tile, and none stands twice.
pub fn no_key_leaves_its_tile()
    ensures { (alone : Bool) (erase : Pending) (tiles : List TileLine) (bytes : List (List ℕ)) (swept : SweptFile) → FileAgrees tiles bytes
        → IsSweptBy alone erase tiles (map entries_in bytes) swept → AreHeld (map entries_in bytes) swept }
{}
