//! What a sweep makes of the pages of a file, tiles aside.
ghost use Rattle.std.specs.Prelude.{◌≡◌, ◌+◌, ◌<◌, ◌≤◌, ◌++◌, ℕ, List, map, filter_map, length, All, IfOk, OnOk, IsErrOf};
ghost use Rattle.lethe_base.specs.Limits.{max_time};
ghost use Rattle.lethe_base.specs.declared.name.Name.{Name};
ghost use Rattle.lethe_build.specs.Parts.{IsPage};
ghost use Rattle.lethe_disk.specs.Reads.{HasReadCause, IsFault};
ghost use Rattle.lethe_disk.specs.declared.cursor.ReadRefused.TheVariants.{Damaged};
ghost use Rattle.lethe_file.specs.Agreement.{FileAgrees, entries_in};
ghost use Rattle.lethe_sweep.specs.Damage.{IsDamagedFor};
ghost use Rattle.lethe_sweep.specs.Fences.{fetches_of, kept_numbers, dropped_numbers};
ghost use Rattle.lethe_sweep.specs.Sweeping.{IsBehind, IsFreshOf};
ghost use Rattle.lethe_swept.specs.Left.{fresh_in, fresh_of};

use crate::numbers::numbers_of;
use crate::sweeping::sweep_tiles;
use lethe_base::{Entry, List, NoMemory, Pending};
use lethe_disk::{Disk, ReadRefused};
use lethe_file::FileView;
use lethe_swept::{Part, SweptFile};
use std::alloc::Global;

/// What a sweep makes of a file's pages.
#[derive(Debug, Drop)]
pub struct Swept {
    /// The numbers of the pages that stay, in the order of the file.
    pub kept: List<u64>,
    /// The numbers of all others, of those that are written anew too.
    pub dropped: List<u64>,
    /// The entries of the new pages, in the order of the file.
    pub fresh: List<List<Entry>>,
}

/// Sweeps the file, as `sweep_tiles` does, and gives what becomes of its pages.
pub fn sweep_file<D: Disk>(
    alloc: Global,
    file: &FileView<D>,
    erase: &Pending,
    alone: bool,
    port: &mut D::Port,
) -> Result<Swept, ReadRefused>
    requires { IsBehind erase.now file.now.header.tiles }
    ensures swept { D.tells → FileAgrees file.now.header.tiles (map (λ page. D.page_bytes page.value) file.now.pages.items)
        → IfOk result (λ swept. IsFreshOf alone erase.now file.now.header.tiles (map entries_in (map (λ page. D.page_bytes page.value) file.now.pages.items)) swept.fresh) }

    // The header alone tells which pages stay and how many are fetched. So this holds on any disk.
    ensures kept { IfOk result (λ swept. swept.kept ≡ kept_numbers alone erase.now.range file.now.header.tiles) }
    ensures dropped { IfOk result (λ swept. swept.dropped ≡ dropped_numbers alone erase.now.range file.now.header.tiles) }
    ensures fetches { OnOk result (D.fetches port.new ≡ D.fetches port.old + fetches_of alone erase.now.range file.now.header.tiles) }
    ensures later { D.fetches port.old ≤ D.fetches port.new }
    ensures at_most { D.fetches port.new ≤ D.fetches port.old + fetches_of alone erase.now.range file.now.header.tiles }

    // On any disk a new page has a spelling.
    ensures pages { erase.now.time ≤ max_time → IfOk result (λ swept. All IsPage swept.fresh) }

    // Where a page is told as damaged, a fetch was made in this call, and it is another page.
    ensures damaged { (name : Name) → IsErrOf result (Damaged name)
        → IsDamagedFor D.tells alone erase.now.range file.now.header.tiles (map (λ page. D.page_bytes page.value) file.now.pages.items) name × (D.fetches port.old < D.fetches port.new) }
    ensures undamaged { D.tells → FileAgrees file.now.header.tiles (map (λ page. D.page_bytes page.value) file.now.pages.items)
        → (name : Name) → IsErrOf result (Damaged name) → ⊥ }
    ensures cause { HasReadCause (D.port_faults port.old) (D.port_faults port.new) result }
    ensures can_fail { IsFault result → D.ports_fail }
{
    let numbers = numbers_of(alloc, file.header().tiles.items(), &erase.range, alone)?;
    let swept = match sweep_tiles(alloc, file, erase, alone, port) {
        Ok(swept) => swept,
        Err(why) => return Err(why),
    };
    let fresh = fresh_in(alloc, swept)?;
    Ok(Swept {
        kept: List::of(numbers.kept),
        dropped: List::of(numbers.dropped),
        fresh: List::of(fresh),
    })
}

/// The entries of the new pages, in order.
fn fresh_in(alloc: Global, swept: SweptFile) -> Result<Vec<List<Entry>>, NoMemory>
    ensures { IfOk result (λ fresh. fresh.items ≡ fresh_in swept) }
{
    let mut fresh = Vec::new(alloc);
    for tile in swept.tiles.into_vec() {
        add_fresh(&mut fresh, tile.parts)?;
    }
    Ok(fresh)
}

/// Adds the entries of the new pages among these.
fn add_fresh(fresh: &mut Vec<List<Entry>>, parts: List<Part>) -> Result<(), NoMemory>
    ensures { OnOk result (fresh.new.items ≡ fresh.old.items ++ filter_map fresh_of parts) }
{
    for part in parts.into_vec() {
        match part {
            Part::Kept(_) => {}
            Part::Fresh(entries) => fresh.push(entries)?,
        }
    }
    Ok(())
}
