//! Reading a tile.
ghost use Rattle.std.specs.Prelude.{◌≡◌, None, []};
ghost use Rattle.lethe_base.specs.Reading.{key_at};
ghost use Rattle.lethe_page.specs.Reading.{is_above};
ghost use Rattle.lethe_header.specs.Headers.{last_hi};
ghost use Rattle.lethe_header.specs.Reading.{Gives, part, lo_at, hi_at, all_at, line_behind, tile_at, tile_behind};

use crate::before::Before;
use crate::fields::read_u8;
use crate::line::read_line;
use crate::{HeaderRefused, PageLine, TileLine};
use lethe_base::{Key, List, read_key};
use std::alloc::Global;
use std::cmp::Ordering;

/// The greatest number of a tile's pages.
const MAX_PAGES: u8 = 65;

fn key_part(alloc: Global, bytes: &[u8], at: usize) -> Result<(Key, usize), HeaderRefused>
    ensures { Gives result (part (key_at bytes.now at)) }
{
    Ok(read_key(alloc, bytes, at)?)
}

// Whether the key is above that of the last tile, if there is one.
fn is_behind(tiles: &[TileLine], key: &Key) -> bool
    ensures { result ≡ is_above (last_hi tiles.now) key.now }
{
    match tiles.last() {
        Some(last) => last.hi.cmp(key) == Ordering::Less,
        None => true,
    }
}

#[tactic(auto, unfolding(crate::specs::Reading::lo_at))]
fn read_lo(
    alloc: Global,
    before: &[TileLine],
    bytes: &[u8],
    at: usize,
) -> Result<(Key, usize), HeaderRefused>
    ensures { Gives result (lo_at (last_hi before.now) bytes.now at) }
{
    let (key, end) = key_part(alloc, bytes, at)?;
    if is_behind(before, &key) {
        Ok((key, end))
    } else {
        Err(HeaderRefused::Order { at: at as u64 })
    }
}

#[tactic(auto, unfolding(crate::specs::Reading::hi_at))]
fn read_hi(alloc: Global, lo: &Key, bytes: &[u8], at: usize) -> Result<(Key, usize), HeaderRefused>
    ensures { Gives result (hi_at lo.now bytes.now at) }
{
    let (key, end) = key_part(alloc, bytes, at)?;
    if lo.cmp(&key) != Ordering::Greater {
        Ok((key, end))
    } else {
        Err(HeaderRefused::Order { at: at as u64 })
    }
}

// The lines, and where the last one ends. Memory is taken as they are read, not on the word of `count`.
fn read_lines(
    alloc: Global,
    count: u8,
    bytes: &[u8],
    start: usize,
) -> Result<(List<PageLine>, usize), HeaderRefused>
    ensures { Gives result (all_at line_behind count [] bytes.now start) }
{
    let mut lines = Vec::new(alloc);
    let mut before = Before::none();
    let mut at = start;
    'lines: while lines.len() < count as usize {
        let (line, end) = read_line(alloc, before, bytes, at)?;
        before = before.with(&line);
        lines.push(line)?;
        at = end;
    }
    Ok((List::of(lines), at))
}

// The tile that begins at `at`, behind others, and where it ends.
#[tactic(auto, unfolding(crate::specs::Reading::tile_at))]
fn read_tile(
    alloc: Global,
    before: &[TileLine],
    bytes: &[u8],
    at: usize,
) -> Result<(TileLine, usize), HeaderRefused>
    ensures { Gives result (tile_at (last_hi before.now) bytes.now at) }
{
    let (lo, at) = read_lo(alloc, before, bytes, at)?;
    let (hi, at) = read_hi(alloc, &lo, bytes, at)?;
    let count = read_u8(bytes, at, 1, MAX_PAGES)?;
    let (pages, end) = read_lines(alloc, count, bytes, at + 1)?;
    Ok((TileLine { lo, hi, pages }, end))
}

/// The tiles, and where the last one ends. Memory is taken as they are read, not on the word of `count`.
pub fn read_tiles(
    alloc: Global,
    count: u16,
    bytes: &[u8],
) -> Result<(List<TileLine>, usize), HeaderRefused>
    ensures { Gives result (all_at tile_behind count [] bytes.now 13) }
{
    let mut tiles = Vec::new(alloc);
    let mut at = 13;
    'tiles: while tiles.len() < count as usize {
        let (tile, end) = read_tile(alloc, &tiles, bytes, at)?;
        tiles.push(tile)?;
        at = end;
    }
    Ok((List::of(tiles), at))
}
