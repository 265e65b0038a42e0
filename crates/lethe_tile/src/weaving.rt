//! Weaving entries into tiles.
ghost use Rattle.std.specs.Prelude.{◌≡◌, ◌-◌, ◌<◌, map, length, IfOk, Some};
ghost use Rattle.lethe_base.specs.Entries.{IsAscending};
ghost use Rattle.lethe_tile.specs.Woven.{plain, IsWoven, IsTile, IsPaged, HaveDistinctKeys, key_at, page_of};

use crate::cutting::{cut, part_by_body};
use crate::ordering::{sort_by_delete_key, sort_by_key};
use lethe_base::{Config, Entry, Key, List, NoMemory};
use std::alloc::Global;

/// Some neighbouring entries of a file. The tombstones are the first page, where there are any; the puts are in the pages
/// behind it, by their delete keys from page to page and by their keys inside a page.
#[derive(Debug, Drop)]
pub struct Tile {
    /// The least key.
    pub lo: Key,
    /// The greatest key.
    pub hi: Key,
    pub pages: List<List<Entry>>,
}

/// Weaves entries into tiles of `page * tile` entries, and their puts into pages of `page`; a last tile, and the last page of a
/// tile, may have fewer. The keys must ascend (`is_ascending` tests it). No entry gives no tile. Only the tiles' keys are copied.
pub fn weave(alloc: Global, entries: Vec<Entry>, config: &Config) -> Result<Vec<Tile>, NoMemory>
    requires { IsAscending entries.items }
    ensures { IfOk result (λ tiles. IsWoven config.now entries.items (map plain tiles.items)) }
{
    let fields = config.fields();
    let page = fields.page as usize;
    let slices = cut(alloc, entries, page * fields.tile as usize)?;
    let mut tiles = Vec::with_capacity(alloc, slices.len())?;
    for slice in slices {
        tiles.push(weave_tile(alloc, slice, page)?)?;
    }
    Ok(tiles)
}

fn weave_tile(alloc: Global, entries: Vec<Entry>, page: usize) -> Result<Tile, NoMemory>
    requires page { 0 < page }
    requires some { 0 < length entries.items }
    requires ascending { IsAscending entries.items }
    ensures { IfOk result (λ tile. IsTile page entries.items (plain tile)) }
{
    let (lo, hi) = end_keys(&entries)?;
    let (tombs, puts) = part_by_body(alloc, entries)?;
    let mut pages = page_of_tombs(alloc, tombs)?;
    let mut puts = pages_of_puts(alloc, puts, page)?;
    pages.append(&mut puts)?;
    Ok(Tile {
        lo,
        hi,
        pages: List::of(pages),
    })
}

/// Copies of the first and the last key.
fn end_keys(entries: &[Entry]) -> Result<(Key, Key), NoMemory>
    requires { 0 < length entries.now }
    ensures lo { IfOk result (λ keys. key_at 0 entries.now ≡ Some keys.0) }
    ensures hi { IfOk result (λ keys. key_at (length entries.now - 1) entries.now ≡ Some keys.1) }
{
    let lo = entries[0].key.copy()?;
    let hi = entries[entries.len() - 1].key.copy()?;
    Ok((lo, hi))
}

/// The page of the tombstones, where there are any.
fn page_of_tombs(alloc: Global, tombs: Vec<Entry>) -> Result<Vec<List<Entry>>, NoMemory>
    ensures { IfOk result (λ pages. pages.items ≡ page_of tombs.items) }
{
    let mut pages = Vec::new(alloc);
    if !tombs.is_empty() {
        pages.push(List::of(tombs))?;
    }
    Ok(pages)
}

/// The puts in their order, cut into pages, of which each is then put into the order of the keys.
fn pages_of_puts(
    alloc: Global,
    mut puts: Vec<Entry>,
    page: usize,
) -> Result<Vec<List<Entry>>, NoMemory>
    requires page { 0 < page }
    requires keys { HaveDistinctKeys puts.items }
    ensures { IfOk result (λ pages. IsPaged page puts.items pages.items) }
{
    sort_by_delete_key(&mut puts);
    let parts = cut(alloc, puts, page)?;
    let mut pages = Vec::with_capacity(alloc, parts.len())?;
    for mut part in parts {
        sort_by_key(&mut part);
        pages.push(List::of(part))?;
    }
    Ok(pages)
}
