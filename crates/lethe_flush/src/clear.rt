//! Whether files have keys of a buffer's range.
ghost use Rattle.std.specs.Prelude.{◌≡◌, ◌↔◌, ◌<◌, ◌++◌, map, length, not, All, IsTrue, MatchOption};
ghost use Rattle.std.specs.Ordering.{is_le};
ghost use Rattle.lethe_base.specs.Keys.{key_cmp};
ghost use Rattle.lethe_build.specs.Drafts.{header_of};
ghost use Rattle.lethe_header.specs.Facts.{least_key, greatest_key};
ghost use Rattle.lethe_fade.specs.Spans.{overlaps};
ghost use Rattle.lethe_moves.specs.Flushes.{first_key, last_key, span_of};
ghost use Rattle.lethe_advance.specs.Versions.{files_of};
ghost use Rattle.lethe_flush.specs.Clear.{IsClearOf, range_of};

use lethe_advance::{Shared, Version};
use lethe_base::Key;
use lethe_build::Draft;
use lethe_disk::Disk;
use lethe_header::{Header, TileLine};
use lethe_mem::{Buffer, VecBuffer};
use std::cmp::Ordering;

/// Whether no file of the version, and none of these drafts', has a key between the buffer's first and its last. False for an empty buffer.
/// Nothing is fetched, and no key is copied.
pub fn is_clear<D: Disk>(buffer: &VecBuffer, version: &Version<D>, more: &[Draft]) -> bool
    ensures { IsTrue result ↔ ((0 < length buffer.now.entries)
        × All (IsClearOf (span_of buffer.now.entries)) (map (λ file. file.header) (files_of version.now) ++ map (λ draft. header_of 0 draft.tiles) more.now)) }
{
    let Some((lo, hi)) = ends_of(buffer) else {
        return false;
    };
    are_files_clear(lo, hi, version) && are_drafts_clear(lo, hi, more)
}

/// The first and the last key, if there is one.
fn ends_of(buffer: &VecBuffer) -> Option<(&Key, &Key)>
    ensures { MatchOption result (length buffer.now.entries ≡ 0) (λ ends. (0 < length buffer.now.entries)
        × (ends.0.now ≡ first_key buffer.now.entries) × (ends.1.now ≡ last_key buffer.now.entries)) }
{
    let first = buffer.at(0)?;
    let last = buffer.at(buffer.len() - 1)?;
    Some((&first.key, &last.key))
}

/// The bytes of the first tile's least key, and none where there is no tile.
fn least_of(tiles: &[TileLine]) -> &[u8]
    ensures { result.now ≡ least_key tiles.now }
{
    match tiles {
        [] => &[],
        [first, ..] => first.lo.bytes(),
    }
}

/// The bytes of the last tile's greatest key, and none where there is no tile.
fn greatest_of(tiles: &[TileLine]) -> &[u8]
    ensures { result.now ≡ greatest_key tiles.now }
{
    if tiles.is_empty() {
        return &[];
    }
    tiles[tiles.len() - 1].hi.bytes()
}

fn is_upto(key: &[u8], other: &[u8]) -> bool
    ensures { result ≡ is_le (key_cmp key.now other.now) }
{
    key.cmp(other) != Ordering::Greater
}

/// Whether the file has no key from one to the other.
fn is_clear_of(lo: &Key, hi: &Key, header: &Header) -> bool
    ensures { result ≡ not (overlaps (record { lo = lo.now; hi = hi.now }) (range_of header.now)) }
{
    are_tiles_clear(lo, hi, header.tiles.items())
}

fn is_draft_clear(lo: &Key, hi: &Key, draft: &Draft) -> bool
    ensures { result ≡ not (overlaps (record { lo = lo.now; hi = hi.now }) (range_of (header_of 0 draft.now.tiles))) }
{
    are_tiles_clear(lo, hi, draft.tiles.items())
}

fn are_tiles_clear(lo: &Key, hi: &Key, tiles: &[TileLine]) -> bool
    ensures { result ≡ not (overlaps (record { lo = lo.now; hi = hi.now }) (record { lo = least_key tiles.now; hi = greatest_key tiles.now })) }
{
    !(is_upto(lo.bytes(), greatest_of(tiles)) && is_upto(least_of(tiles), hi.bytes()))
}

fn are_drafts_clear(lo: &Key, hi: &Key, drafts: &[Draft]) -> bool
    ensures { IsTrue result ↔ All (λ draft. IsClearOf (record { lo = lo.now; hi = hi.now }) (header_of 0 draft.tiles)) drafts.now }
{
    drafts.iter().all(|draft| is_draft_clear(lo, hi, draft))
}

fn is_level_clear<D: Disk>(lo: &Key, hi: &Key, files: &[Shared<D>]) -> bool
    ensures { IsTrue result ↔ All (λ shared. IsClearOf (record { lo = lo.now; hi = hi.now }) shared.file.value.header) files.now }
{
    files
        .iter()
        .all(|shared| is_clear_of(lo, hi, shared.file().header()))
}

fn are_files_clear<D: Disk>(lo: &Key, hi: &Key, version: &Version<D>) -> bool
    ensures { IsTrue result ↔ All (λ file. IsClearOf (record { lo = lo.now; hi = hi.now }) file.header) (files_of version.now) }
{
    for level in 0..version.levels() {
        if !is_level_clear(lo, hi, version.files(level)) {
            return false;
        }
    }
    true
}
