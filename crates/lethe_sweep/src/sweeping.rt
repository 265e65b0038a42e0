//! Sweeping a file.
ghost use Rattle.std.specs.Prelude.{◌≡◌, ◌+◌, ◌<◌, ◌≤◌, ◌++◌, ℕ, List, map, length, All, IfOk, OnOk, IsErrOf};
ghost use Rattle.lethe_base.specs.Limits.{max_time};
ghost use Rattle.lethe_base.specs.declared.name.Name.{Name};
ghost use Rattle.lethe_build.specs.Parts.{IsPage};
ghost use Rattle.lethe_disk.specs.Reads.{HasReadCause, IsFault};
ghost use Rattle.lethe_disk.specs.declared.cursor.ReadRefused.TheVariants.{Damaged};
ghost use Rattle.lethe_file.specs.Agreement.{FileAgrees, entries_in};
ghost use Rattle.lethe_sweep.specs.Damage.{IsDamagedFor};
ghost use Rattle.lethe_sweep.specs.Fences.{fetches_of};
ghost use Rattle.lethe_sweep.specs.Steps.{tile_left};
ghost use Rattle.lethe_sweep.specs.Sweeping.{IsBehind, IsSweptBy, kept_places};
ghost use Rattle.lethe_swept.specs.Fits.{Fits};
ghost use Rattle.lethe_swept.specs.Left.{fresh_in, places_in};

use crate::tile::sweep_tile;
use lethe_base::{List, NoMemory, Pending};
use lethe_disk::{Disk, ReadRefused};
use lethe_file::FileView;
use lethe_header::TileLine;
use lethe_swept::{Part, SweptFile, SweptTile};
use std::alloc::Global;

/// What a sweep by the erase leaves of the file. Where the file is `alone`, no older entry of its keys stands below it.
///
/// A page all of whose delete keys are in the range is dropped without a fetch in a file that is alone; so all entries have to stand before the erase.
pub fn sweep_tiles<D: Disk>(
    alloc: Global,
    file: &FileView<D>,
    erase: &Pending,
    alone: bool,
    port: &mut D::Port,
) -> Result<SweptFile, ReadRefused>
    requires { IsBehind erase.now file.now.header.tiles }
    ensures swept { D.tells → FileAgrees file.now.header.tiles (map (λ page. D.page_bytes page.value) file.now.pages.items)
        → IfOk result (IsSweptBy alone erase.now file.now.header.tiles (map entries_in (map (λ page. D.page_bytes page.value) file.now.pages.items))) }

    // The header alone tells which pages stay and how many are fetched. So this holds on any disk.
    ensures kept { IfOk result (λ swept. places_in swept ≡ kept_places alone erase.now.range 0 file.now.header.tiles) }
    ensures fetches { OnOk result (D.fetches port.new ≡ D.fetches port.old + fetches_of alone erase.now.range file.now.header.tiles) }
    ensures later { D.fetches port.old ≤ D.fetches port.new }
    ensures at_most { D.fetches port.new ≤ D.fetches port.old + fetches_of alone erase.now.range file.now.header.tiles }

    // On any disk a new page has a spelling, and what is left takes no more room than the file: so a header of it has a spelling.
    ensures fits { erase.now.time ≤ max_time → IfOk result (Fits file.now.header.tiles) }
    ensures pages { erase.now.time ≤ max_time → IfOk result (λ swept. All IsPage (fresh_in swept)) }

    // Where a page is told as damaged, a fetch was made in this call, and it is another page.
    ensures damaged { (name : Name) → IsErrOf result (Damaged name)
        → IsDamagedFor D.tells alone erase.now.range file.now.header.tiles (map (λ page. D.page_bytes page.value) file.now.pages.items) name × (D.fetches port.old < D.fetches port.new) }
    ensures undamaged { D.tells → FileAgrees file.now.header.tiles (map (λ page. D.page_bytes page.value) file.now.pages.items)
        → (name : Name) → IsErrOf result (Damaged name) → ⊥ }
    ensures cause { HasReadCause (D.port_faults port.old) (D.port_faults port.new) result }
    ensures can_fail { IsFault result → D.ports_fail }
{
    let before = D::port_faults(port);
    let mut tiles = Vec::new(alloc);
    let mut first = 0;
    for tile in file.header().tiles.items() {
        let lines = tile.pages.items();
        match sweep_tile(alloc, file, first, lines, erase, alone, port) {
            Ok(parts) => add_tile(&mut tiles, tile, parts)?,
            Err(why) => return Err(why.since(before)),
        }
        first += lines.len();
    }
    Ok(SweptFile {
        tiles: List::of(tiles),
    })
}

/// Adds the tile, where a page is left of it.
fn add_tile(tiles: &mut Vec<SweptTile>, tile: &TileLine, parts: Vec<Part>) -> Result<(), NoMemory>
    ensures { OnOk result (tiles.new.items ≡ tiles.old.items ++ tile_left tile.now parts.items) }
{
    if !parts.is_empty() {
        tiles.push(SweptTile {
            lo: tile.lo.copy()?,
            hi: tile.hi.copy()?,
            parts: List::of(parts),
        })?;
    }
    Ok(())
}
