//! Finding the entry of a key.
ghost use Rattle.std.specs.Prelude.{◌≡◌, ◌+◌, ◌<◌, ◌≤◌, ◌^◌, ◌∷◌, [], map, length, take, slice_index_or, slice_get, Some, zip, IfSome, Any, IfOk, IsErrOf, IsTrue};
ghost use Rattle.std.specs.List.{AllZip};
ghost use Rattle.std.specs.Ordering.{is_lt, is_le};
ghost use Rattle.lethe_base.specs.Keys.{key_cmp};
ghost use Rattle.lethe_base.specs.declared.entry.Entry.{Entry};
ghost use Rattle.lethe_base.specs.declared.name.Name.{Name};
ghost use Rattle.lethe_disk.specs.Reads.{HasReadCause, IsFault};
ghost use Rattle.lethe_disk.specs.declared.cursor.ReadRefused.TheVariants.{Damaged};
ghost use Rattle.lethe_header.specs.Facts.{lines_of};
ghost use Rattle.lethe_header.specs.Headers.{EachFollows, TileFollows};
ghost use Rattle.lethe_header.specs.declared.header.TileLine.{TileLine};
ghost use Rattle.lethe_file.specs.Agreement.{Agrees, entries_in};
ghost use Rattle.lethe_file.specs.Damage.{IsDamagedAs, IsVouched};
ghost use Rattle.lethe_file.specs.Finding.{AreStarts, IsEntryOf, IsTileOf, allowed_in, allows, of_tile};

use crate::fetching::find_line;
use lethe_base::{Entry, Key, NoMemory};
use lethe_disk::{Disk, ReadRefused};
use lethe_header::{Filter, PageLine, TileLine};
use std::alloc::Global;
use std::cmp::Ordering;
use std::sync::Arc;

/// Whether the filter allows the key.
fn is_allowed(filter: &Filter, key: &Key) -> bool
    ensures { result ≡ allows key.now filter.now }
{
    filter.may_hold(key)
}

/// Whether the key is above the tile's greatest key.
fn ends_below(tile: &TileLine, key: &Key) -> bool
    ensures { result ≡ is_lt (key_cmp tile.now.hi key.now) }
{
    tile.hi.cmp(key) == Ordering::Less
}

/// Whether the key isn't below the tile's least key.
fn begins_by(tile: &TileLine, key: &Key) -> bool
    ensures { result ≡ is_le (key_cmp tile.now.lo key.now) }
{
    tile.lo.cmp(key) != Ordering::Greater
}

/// The place of the tile whose fence has the key, by a binary search, and the number of tiles where there is none.
pub fn tile_of(tiles: &[TileLine], key: &Key) -> usize
    requires { EachFollows TileFollows tiles.now }
    ensures { IsTileOf key.now tiles.now result }
{
    let place = tiles.partition_point(|tile| ends_below(tile, key));
    if place == tiles.len() {
        return place;
    }
    if begins_by(&tiles[place], key) {
        place
    } else {
        tiles.len()
    }
}

/// Of each tile, how many pages stand in the tiles in front of it.
pub fn starts_of(alloc: Global, tiles: &[TileLine]) -> Result<Vec<usize>, NoMemory>
    requires { length (lines_of tiles.now) < 2 ^ 64 }
    ensures { IfOk result (λ starts. AreStarts tiles.now starts.items) }
{
    let mut starts = Vec::with_capacity(alloc, tiles.len())?;
    let mut start = 0;
    for tile in tiles {
        starts.push(start)?;
        start += tile.pages.items().len();
    }
    Ok(starts)
}

/// Of what the lines of these tiles have, one for each, what those of one tile have, which begin at `start`.
pub fn part_of_tile<'a, P>(
    tiles: &[TileLine],
    place: usize,
    start: usize,
    items: &'a [P],
) -> &'a [P]
    requires tile { place < length tiles.now }
    requires start { start ≡ length (lines_of (take place tiles.now)) }
    requires items { length items.now ≡ length (lines_of tiles.now) }
    ensures part { (other : TileLine) → result.now ≡ of_tile tiles.now place other items.now }
    ensures len { (other : TileLine) → length result.now ≡ length (slice_index_or tiles.now place other).pages }
{
    let (_, items) = items.split_at(start);
    let (part, _) = items.split_at(tiles[place].pages.items().len());
    part
}

/// The line at a place in the order of all lines, from 0, by a binary search for its tile.
pub fn line_at<'a>(tiles: &'a [TileLine], starts: &[usize], place: usize) -> &'a PageLine
    requires starts { AreStarts tiles.now starts.now }
    requires place { place < length (lines_of tiles.now) }
    ensures { slice_get (lines_of tiles.now) place ≡ Some result.now }
{
    let tile = starts.partition_point(|start| *start <= place) - 1;
    let lines = tiles[tile].pages.items();
    &lines[place - starts[tile]]
}

/// The entry of the key in a page, which is fetched where the filter of its line allows the key.
fn look<D: Disk>(
    alloc: Global,
    port: &mut D::Port,
    key: &Key,
    line: &PageLine,
    page: &D::Page,
) -> Result<Option<Entry>, ReadRefused>
    ensures found { D.tells → Agrees line.now (D.page_bytes page.now) → IfOk result (IsEntryOf key.now (entries_in (D.page_bytes page.now) ∷ [])) }
    ensures fetches { D.fetches port.new ≤ D.fetches port.old + allowed_in key.now (line.now ∷ []) }
    ensures later { D.fetches port.old ≤ D.fetches port.new }
    ensures damaged { (name : Name) → IsErrOf result (Damaged name)
        → IsDamagedAs D.tells name line.now (D.page_bytes page.now) × IsTrue (allows key.now line.now.filter) × (D.fetches port.old < D.fetches port.new) }

    // On any disk.
    ensures vouched { IfOk result (λ found. IfSome found (λ entry. (entry.key ≡ key.now) × IsVouched (line.now ∷ []) entry)) }
    ensures undamaged { D.tells → Agrees line.now (D.page_bytes page.now) → (name : Name) → IsErrOf result (Damaged name) → ⊥ }
    ensures cause { HasReadCause (D.port_faults port.old) (D.port_faults port.new) result }
    ensures can_fail { IsFault result → D.ports_fail }
{
    if is_allowed(&line.filter, key) {
        find_line::<D>(alloc, port, key, line, page)
    } else {
        Ok(None)
    }
}

/// The entry of the key in the pages of a tile. Only pages whose filter allows the key are fetched.
pub fn find_in<D: Disk>(
    alloc: Global,
    port: &mut D::Port,
    key: &Key,
    lines: &[PageLine],
    pages: &[Arc<D::Page>],
) -> Result<Option<Entry>, ReadRefused>
    requires { length pages.now ≡ length lines.now }
    ensures found { D.tells → AllZip Agrees lines.now (map (λ page. D.page_bytes page.value) pages.now)
        → IfOk result (IsEntryOf key.now (map (λ page. entries_in (D.page_bytes page.value)) pages.now)) }
    ensures fetches { D.fetches port.new ≤ D.fetches port.old + allowed_in key.now lines.now }
    ensures later { D.fetches port.old ≤ D.fetches port.new }
    ensures damaged { (name : Name) → IsErrOf result (Damaged name)
        → Any (λ of. IsDamagedAs D.tells name of.0 of.1 × IsTrue (allows key.now of.0.filter)) (zip lines.now (map (λ page. D.page_bytes page.value) pages.now)) × (D.fetches port.old < D.fetches port.new) }

    // On any disk.
    ensures vouched { IfOk result (λ found. IfSome found (λ entry. (entry.key ≡ key.now) × IsVouched lines.now entry)) }
    ensures undamaged { D.tells → AllZip Agrees lines.now (map (λ page. D.page_bytes page.value) pages.now)
        → (name : Name) → IsErrOf result (Damaged name) → ⊥ }
    ensures cause { HasReadCause (D.port_faults port.old) (D.port_faults port.new) result }
    ensures can_fail { IsFault result → D.ports_fail }
{
    let before = D::port_faults(port);
    for (place, line) in lines.iter().enumerate() {
        match look::<D>(alloc, port, key, line, &pages[place]) {
            Ok(None) => {}
            Ok(Some(entry)) => return Ok(Some(entry)),
            Err(why) => return Err(why.since(before)),
        }
    }
    Ok(None)
}
