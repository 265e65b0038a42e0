//! The draft of what a sweep leaves.
ghost use Rattle.std.specs.Prelude.{◌≡◌, ◌<◌, ◌++◌, ◌↔◌, [], Some, length, map, filter_map, slice_get, All, IfOk, IfSome, IsNone, OnOk};
ghost use Rattle.lethe_build.specs.Built.{spelled};
ghost use Rattle.lethe_build.specs.Drafts.{header_of};
ghost use Rattle.lethe_header.specs.Facts.{lines_of};
ghost use Rattle.lethe_header.specs.Headers.{HasSpelling};
ghost use Rattle.lethe_swept.specs.Drafts.{IsDraftOf, IsLineFor, IsTileFor, MayBeDrafted, spelled_in};
ghost use Rattle.lethe_swept.specs.Fits.{Fits};
ghost use Rattle.lethe_swept.specs.Left.{fresh_of};

use crate::draft::{DraftLine, DraftTile, SweptDraft};
use crate::page::new_page;
use crate::part::{Part, SweptFile, SweptTile};
use lethe_base::{List, NoMemory};
use lethe_header::{PageLine, TileLine};
use lethe_tile::Filter;
use std::alloc::Global;

/// The draft of what a sweep leaves of the file of these tiles, and none where it leaves nothing. The lines of the file's own pages are copied, and new pages are
/// spelled and digested.
pub fn draft_of(
    alloc: Global,
    tiles: &[TileLine],
    swept: SweptFile,
) -> Result<Option<SweptDraft>, NoMemory>
    requires spelled { HasSpelling (header_of 0 tiles.now) }
    requires fits { Fits tiles.now swept }
    ensures draft { IfOk result (λ draft. IfSome draft (IsDraftOf tiles.now swept)) }
    ensures none { IfOk result (λ draft. IsNone draft ↔ (swept.tiles ≡ [])) }
{
    let left = swept.tiles.into_vec();
    if left.is_empty() {
        return Ok(None);
    }
    let mut pages = Vec::new(alloc);
    let mut drafts = Vec::with_capacity(alloc, left.len())?;
    for tile in left {
        drafts.push(draft_tile(alloc, tiles, tile, &mut pages)?)?;
    }
    Ok(Some(SweptDraft {
        tiles: List::of(drafts),
        pages: List::of(pages),
    }))
}

/// The draft of what is left of a tile. The bytes of its new pages are put behind those of the tiles before.
fn draft_tile(
    alloc: Global,
    tiles: &[TileLine],
    tile: SweptTile,
    pages: &mut Vec<List<u8>>,
) -> Result<DraftTile, NoMemory>
    requires { All (MayBeDrafted (lines_of tiles.now)) tile.parts }
    ensures tile { IfOk result (IsTileFor (lines_of tiles.now) tile) }
    ensures pages { OnOk result (pages.new.items ≡ pages.old.items ++ map spelled (filter_map fresh_of tile.parts)) }
{
    let SweptTile { lo, hi, parts } = tile;
    let parts = parts.into_vec();
    let mut lines = Vec::with_capacity(alloc, parts.len())?;
    for part in parts {
        lines.push(draft_part(alloc, tiles, part, pages)?)?;
    }
    Ok(DraftTile {
        lo,
        hi,
        lines: List::of(lines),
    })
}

/// The line of a page that is left. The bytes of a new one are put behind the others.
fn draft_part(
    alloc: Global,
    tiles: &[TileLine],
    part: Part,
    pages: &mut Vec<List<u8>>,
) -> Result<DraftLine, NoMemory>
    requires { MayBeDrafted (lines_of tiles.now) part }
    ensures line { IfOk result (IsLineFor (lines_of tiles.now) part) }
    ensures pages { OnOk result (pages.new.items ≡ pages.old.items ++ spelled_in part) }
{
    match part {
        Part::Kept(place) => Ok(DraftLine::Own(copy_line(alloc, line_at(tiles, place))?)),
        Part::Fresh(entries) => {
            let (line, bytes) = new_page(alloc, entries)?;
            pages.push(bytes)?;
            Ok(DraftLine::New(line))
        }
    }
}

/// The line at a place among those of all tiles.
fn line_at(tiles: &[TileLine], place: usize) -> &PageLine
    requires { place < length (lines_of tiles.now) }
    ensures { slice_get (lines_of tiles.now) place ≡ Some result.now }
{
    let mut left = place;
    for tile in tiles {
        let lines = tile.pages.items();
        if left < lines.len() {
            return &lines[left];
        }
        left -= lines.len();
    }
    unreachable!()
}

/// A line that says the same.
fn copy_line(alloc: Global, line: &PageLine) -> Result<PageLine, NoMemory>
    ensures { IfOk result (λ copy. copy ≡ line.now) }
{
    let words = line.filter.words().to_vec(alloc)?;
    let Some(filter) = Filter::of_words(words) else {
        unreachable!()
    };
    Ok(PageLine {
        no: line.no,
        class: line.class,
        entries: line.entries,
        max_seq: line.max_seq,
        oldest: line.oldest,
        fence: line.fence,
        filter,
        digest: line.digest,
    })
}
