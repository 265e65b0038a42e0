//! What is stored stands for its history after a flush and after an opening.
ghost use Rattle.std.specs.Prelude.{◌≡◌, ℕ, ◌<◌, ◌≤◌, ◌++◌, [], List, All, map};
ghost use Rattle.lethe_base.specs.History.{History};
ghost use Rattle.lethe_base.specs.Layout.{Layout};
ghost use Rattle.lethe_cover.specs.Flushes as layouts;
ghost use Rattle.lethe_cover.specs.Steps.{frozen};
ghost use Rattle.lethe_follows.specs.Filed.{AreNewFiles, flushed, reopened};
ghost use Rattle.lethe_manifest.specs.Manifests.{HasSpelling};
ghost use Rattle.lethe_moves.specs.Flushes.{Flushes, frozen_entries};
ghost use Rattle.lethe_stored.specs.Files.{StoredFile, file_of};
ghost use Rattle.lethe_stored.specs.Kept.{IsFor};
ghost use Rattle.lethe_stored.specs.Stored.{IsCoherent, Stored, layout_of};

/// With files in the place of its frozen segment, what is stored stands for the same history.
pub fn flush_follows()
    ensures coherent { (s : Stored) → IsCoherent s → (made : List StoredFile) (number : ℕ) → s.manifest.next ≤ number
        → AreNewFiles s.manifest.next number made → HasSpelling (flushed s made number).manifest → IsCoherent (flushed s made number) }
    ensures stands { (h : History) (s : Stored) → IsCoherent s → IsFor h s → (made : List StoredFile) (number : ℕ) → All (λ file. file.level ≡ 0) made
        → Flushes h (layout_of s) (map file_of made) → IsFor h (flushed s made number) }
{}

/// Where no entry is frozen, no file is a flush.
pub fn nothing_flushes()
    ensures { (h : History) (l : Layout) → frozen_entries l ≡ [] → Flushes h l [] }
{}

/// With files in the place of its frozen segment, then others in the place of its active one, and an empty segment, what is
/// stored stands for the same history.
pub fn reopen_follows()
    ensures coherent { (s : Stored) → IsCoherent s → (made : List StoredFile) (segment number : ℕ) → s.manifest.next ≤ segment → segment < number
        → AreNewFiles s.manifest.next segment made → HasSpelling (reopened s made segment number).manifest → IsCoherent (reopened s made segment number) }
    ensures stands { (h : History) (s : Stored) → IsCoherent s → IsFor h s → (older newer : List StoredFile) (segment number : ℕ)
        → All (λ file. file.level ≡ 0) older → All (λ file. file.level ≡ 0) newer → Flushes h (layout_of s) (map file_of older)
        → Flushes h (frozen (layouts.flushed (layout_of s) (map file_of older))) (map file_of newer)
        → IsFor h (reopened s (newer ++ older) segment number) }
{}
