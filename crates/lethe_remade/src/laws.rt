//! The draft of a sweep is what the erase leaves of a stored file. A function that stands on laws of other crates calls them, so that its proof has them.
ghost use Rattle.std.specs.Prelude.{◌≡◌, ◌≢◌, ◌<◌, ◌≤◌, ◌⊎◌, ◌∷◌, [], ℕ, Bool, List, length, map, All, AllPairs, Contains};
ghost use Rattle.lethe_base.specs.declared.pending.Pending.{Pending};
ghost use Rattle.lethe_build.specs.Drafts.{header_of};
ghost use Rattle.lethe_file.specs.Agreement.{entries_in, page_name};
ghost use Rattle.lethe_header.specs.Headers.{HasSpelling};
ghost use Rattle.lethe_remade.specs.Remade.{new_objects, remade};
ghost use Rattle.lethe_stored.specs.Files.{StoredFile, lines_in, objects_in};
ghost use Rattle.lethe_stored.specs.Stored.{IsCoherent, Stored, part_names};
ghost use Rattle.lethe_sweep.specs.Sweeping.{IsBehind, IsSweptBy};
ghost use Rattle.lethe_swept.specs.Drafts.{IsDraftOf, tiles_with};
ghost use Rattle.lethe_swept.specs.declared.draft.SweptDraft.{SweptDraft};
ghost use Rattle.lethe_swept.specs.declared.part.SweptFile.{SweptFile};
ghost use Rattle.lethe_sweeps.specs.Swept.{AreLeft};

use lethe_sweep::{no_key_leaves_its_tile, swept_is_the_sweep};
use lethe_swept::swept_agrees;

/// Where a sweep leaves something of a stored file, the file of its draft is what the erase leaves, once its new pages have numbers of their own that aren't cited.
pub fn a_draft_is_left()
    ensures { (s : Stored) → IsCoherent s → (file : StoredFile) → Contains s.files file → (erase : Pending) (alone : Bool) → IsBehind erase file.header.tiles
        → (swept : SweptFile) → IsSweptBy alone erase file.header.tiles (map entries_in file.pages) swept → (draft : SweptDraft) → IsDraftOf file.header.tiles swept draft
        → (numbers : List ℕ) (no number : ℕ) → length numbers ≡ length draft.pages → AllPairs (λ a b. a ≢ b) numbers
        → All (λ page. (page < number) × (Contains (part_names s) (page_name page) → ⊥)) numbers → s.manifest.next ≤ no → no < number
        → HasSpelling (header_of no (tiles_with numbers draft.tiles)) → AreLeft s file erase alone number (remade file erase swept draft numbers no ∷ []) }
{
    no_key_leaves_its_tile();
    swept_agrees();
    swept_is_the_sweep();
}

/// Where a sweep leaves nothing of a stored file, no file is what the erase leaves.
pub fn nothing_is_left()
    ensures { (s : Stored) → IsCoherent s → (file : StoredFile) → Contains s.files file → (erase : Pending) (alone : Bool) → IsBehind erase file.header.tiles
        → (swept : SweptFile) → IsSweptBy alone erase file.header.tiles (map entries_in file.pages) swept → swept.tiles ≡ [] → (number : ℕ) → AreLeft s file erase alone number [] }
{
    swept_is_the_sweep();
}

/// Each object of the file that is made is one of the file that was swept, or is written.
pub fn objects_are_own_or_new()
    ensures { (file : StoredFile) (erase : Pending) (swept : SweptFile) (draft : SweptDraft) → IsDraftOf file.header.tiles swept draft
        → (numbers : List ℕ) (no : ℕ) → length numbers ≡ length draft.pages → length file.pages ≡ length (lines_in file)
        → All (λ named. Contains (objects_in file) named ⊎ Contains (new_objects draft numbers no) named) (objects_in (remade file erase swept draft numbers no)) }
{}
