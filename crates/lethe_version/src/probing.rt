//! Whether files may have a key, by their fences and filters.
ghost use Rattle.std.specs.Prelude.{◌≡◌, ◌+◌, ◌<◌, ◌≤◌, ℕ, IfNone, IfSome, nat_lt};
ghost use Rattle.std.specs.List.{list_any};
ghost use Rattle.std.specs.Ordering.{is_lt, is_le};
ghost use Rattle.lethe_base.specs.Keys.{key_cmp};
ghost use Rattle.lethe_file.specs.Finding.{allowed_in, allowed_pages, allows};
ghost use Rattle.lethe_header.specs.Headers.{EachFollows, TileFollows};
ghost use Rattle.lethe_version.specs.Probing.{bound};

use crate::Shared;
use lethe_base::Key;
use lethe_disk::Disk;
use lethe_header::{Filter, PageLine, TileLine};
use std::cmp::Ordering;

/// Whether the filter allows the key.
fn is_allowed(filter: &Filter, key: &Key) -> bool
    ensures { result ≡ allows key.now filter.now }
{
    filter.may_hold(key)
}

/// Whether the key is above the tile's greatest key.
fn ends_below(tile: &TileLine, key: &Key) -> bool
    ensures { result ≡ is_lt (key_cmp tile.now.hi key.now) }
{
    tile.hi.cmp(key) == Ordering::Less
}

/// Whether the key isn't below the tile's least key.
fn begins_by(tile: &TileLine, key: &Key) -> bool
    ensures { result ≡ is_le (key_cmp tile.now.lo key.now) }
{
    tile.lo.cmp(key) != Ordering::Greater
}

/// The tile whose fence has the key, by a binary search.
pub fn tile_of<'a>(tiles: &'a [TileLine], key: &Key) -> Option<&'a TileLine>
    requires { EachFollows TileFollows tiles.now }
    ensures some { IfSome result (λ tile. allowed_pages key.now tiles.now ≡ allowed_in key.now tile.now.pages) }
    ensures none { IfNone result (allowed_pages key.now tiles.now ≡ 0) }
{
    let place = tiles.partition_point(|tile| ends_below(tile, key));
    if place == tiles.len() {
        return None;
    }
    let tile = &tiles[place];
    if begins_by(tile, key) {
        Some(tile)
    } else {
        None
    }
}

/// Whether the filter of one of these lines allows the key.
pub fn is_allowed_in(lines: &[PageLine], key: &Key) -> bool
    ensures { result ≡ nat_lt 0 (allowed_in key.now lines.now) }
{
    for line in lines {
        if is_allowed(&line.filter, key) {
            return true;
        }
    }
    false
}

/// Whether a page of the file may have the key.
fn may_hold<D: Disk>(file: &Shared<D>, key: &Key) -> bool
    ensures { result ≡ nat_lt 0 (bound key.now file.now.file.value.header) }
{
    match tile_of(file.file().header().tiles.items(), key) {
        Some(tile) => is_allowed_in(tile.pages.items(), key),
        None => false,
    }
}

/// Whether one of the files may have the key.
pub fn any_may_hold<D: Disk>(files: &[Shared<D>], key: &Key) -> bool
    ensures { result ≡ list_any (λ shared. nat_lt 0 (bound key.now shared.file.value.header)) files.now }
{
    for file in files {
        if may_hold(file, key) {
            return true;
        }
    }
    false
}
