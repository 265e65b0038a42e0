//! What a draft is once it has numbers. The functions do nothing: their contracts are the laws.
ghost use Rattle.std.specs.Prelude.{◌≡◌, ℕ, List, length, map};
ghost use Rattle.lethe_base.specs.Layout as layout;
ghost use Rattle.lethe_header.specs.Facts.{lines_of};
ghost use Rattle.lethe_build.specs.Drafts.{IsDraft, IsDraftOf, IsNumberedOf, with_numbers};
ghost use Rattle.lethe_build.specs.declared.draft.Draft.{Draft};

/// Its lines tell of the same tiles, and its pages agree with them.
pub fn numbered_tiles()
    ensures { (tiles : List layout.Tile) (numbers : List ℕ) (draft : Draft) → IsDraftOf tiles draft → length numbers ≡ length draft.pages → IsNumberedOf tiles numbers draft }
{}

/// Its pages have these numbers, in their order.
pub fn numbered_lines()
    ensures { (numbers : List ℕ) (draft : Draft) → IsDraft draft → length numbers ≡ length draft.pages
        → map (λ line. line.no) (lines_of (with_numbers numbers draft.tiles)) ≡ numbers }
{}
