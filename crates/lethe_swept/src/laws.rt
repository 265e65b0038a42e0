//! What a draft is once it has numbers. The function does nothing: its contract is the law.
ghost use Rattle.std.specs.Prelude.{◌≡◌, ℕ, List, length, map};
ghost use Rattle.lethe_file.specs.Agreement.{FileAgrees, entries_in};
ghost use Rattle.lethe_header.specs.declared.header.TileLine.{TileLine};
ghost use Rattle.lethe_swept.specs.Drafts.{IsDraftOf, tiles_with};
ghost use Rattle.lethe_swept.specs.Left.{AreHeld, bytes_left};
ghost use Rattle.lethe_swept.specs.declared.draft.SweptDraft.{SweptDraft};
ghost use Rattle.lethe_swept.specs.declared.part.SweptFile.{SweptFile};

/// The pages that are left agree with its lines: the file's own, which stay as they are, and the new ones.
pub fn swept_agrees()
    ensures { (tiles : List TileLine) (bytes : List (List ℕ)) (swept : SweptFile) (draft : SweptDraft) (numbers : List ℕ) → FileAgrees tiles bytes
        → AreHeld (map entries_in bytes) swept → IsDraftOf tiles swept draft → length numbers ≡ length draft.pages
        → FileAgrees (tiles_with numbers draft.tiles) (bytes_left bytes swept) }
{}
