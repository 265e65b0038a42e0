//! Sweeping the pages of a tile.
ghost use Rattle.std.specs.Prelude.{◌≡◌, ◌+◌, ◌<◌, ◌≤◌, ◌++◌, ◌∷◌, [], ℕ, List, Some, false, map, length, slice_get, take, drop, count_by, Any, IfOk, OnOk, IsErrOf};
ghost use Rattle.lethe_base.specs.declared.entry.Entry as base;
ghost use Rattle.lethe_base.specs.declared.name.Name.{Name};
ghost use Rattle.lethe_disk.specs.Reads.{HasReadCause, IsFault};
ghost use Rattle.lethe_disk.specs.declared.cursor.ReadRefused.TheVariants.{Damaged};
ghost use Rattle.lethe_file.specs.Agreement.{FileAgrees, entries_in};
ghost use Rattle.lethe_file.specs.Damage.{IsDamagedAs};
ghost use Rattle.lethe_header.specs.Facts.{lines_of};
ghost use Rattle.lethe_merge.specs.Merge.{merged};
ghost use Rattle.lethe_tile.specs.Woven.{puts_of, tombs_of};
ghost use Rattle.lethe_sweep.specs.Modes.{is_alone, is_fetched_in, mode_of};
ghost use Rattle.lethe_sweep.specs.Steps.{IsDamagedPage, IsLeft, IsRead, IsTileLeft, fenced};
ghost use Rattle.lethe_sweep.specs.Sweeping.{left_in};
ghost use Rattle.lethe_swept.specs.Left.{Placed, fresh, placed};

use crate::entry::sweep_entries;
use crate::fence::{Mode, meets};
use lethe_base::{Entry, List, NoMemory, Pending};
use lethe_disk::{Disk, ReadRefused};
use lethe_file::FileView;
use lethe_header::PageLine;
use lethe_merge::merge_entries;
use lethe_swept::Part;
use std::alloc::Global;

/// What is left of some pages of a tile: their tombstones, page by page, and the pages of puts.
#[derive(Drop)]
struct Left {
    tombs: Vec<Entry>,
    parts: Vec<Part>,
}

/// Adds a new page of these entries, where there are any.
fn add_page(parts: &mut Vec<Part>, entries: Vec<Entry>) -> Result<(), NoMemory>
    ensures { OnOk result (parts.new.items ≡ parts.old.items ++ fresh entries.items) }
{
    if !entries.is_empty() {
        parts.push(Part::Fresh(List::of(entries)))?;
    }
    Ok(())
}

/// Adds what is left of the page of this line, which has that place in the file, with one fetch.
///
/// Of the page's entries those are taken whose delete keys lie in the line's fence. They are all, where the page agrees with its line; on any disk a new page's fence lies so within the line's.
fn fetch_left<D: Disk>(
    alloc: Global,
    file: &FileView<D>,
    place: usize,
    line: &PageLine,
    erase: &Pending,
    mode: Mode,
    port: &mut D::Port,
    left: &mut Left,
) -> Result<(), ReadRefused>
    requires place { place < length file.now.pages.items }
    requires line { slice_get (lines_of file.now.header.tiles) place ≡ Some line.now }
    ensures left { OnOk result ((entries : List base.Entry) × IsRead D.tells (map entries_in (map (λ page. D.page_bytes page.value) file.now.pages.items)) (record { place = place; line = line.now }) entries
        × (left.new.tombs.items ≡ left.old.tombs.items ++ tombs_of (left_in (is_alone mode) erase.now (fenced line.now.fence entries)))
        × (left.new.parts.items ≡ left.old.parts.items ++ fresh (puts_of (left_in (is_alone mode) erase.now (fenced line.now.fence entries))))) }
    ensures damaged { (bytes : List ℕ) → slice_get (map (λ page. D.page_bytes page.value) file.now.pages.items) place ≡ Some bytes
        → (name : Name) → IsErrOf result (Damaged name) → IsDamagedAs D.tells name line.now bytes }
    ensures undamaged { D.tells → FileAgrees file.now.header.tiles (map (λ page. D.page_bytes page.value) file.now.pages.items)
        → (name : Name) → IsErrOf result (Damaged name) → ⊥ }
    ensures fetches { D.fetches port.new ≡ D.fetches port.old + 1 }
    ensures cause { HasReadCause (D.port_faults port.old) (D.port_faults port.new) result }
    ensures can_fail { IsFault result → D.ports_fail }
{
    let entries = match file.fetch_page(alloc, port, place) {
        Ok(entries) => entries,
        Err(why) => return Err(why),
    };
    let (mut tombs, puts) = sweep_entries(alloc, entries, line.fence, erase, mode.is_alone())?;
    left.tombs.append(&mut tombs)?;
    add_page(&mut left.parts, puts)?;
    Ok(())
}

/// Adds what is left of the page of this line, which has that place in the file.
fn sweep_line<D: Disk>(
    alloc: Global,
    file: &FileView<D>,
    place: usize,
    line: &PageLine,
    erase: &Pending,
    mode: Mode,
    port: &mut D::Port,
    left: &mut Left,
) -> Result<(), ReadRefused>
    requires place { place < length file.now.pages.items }
    requires line { slice_get (lines_of file.now.header.tiles) place ≡ Some line.now }
    ensures left { (before : List Placed) → IsLeft D.tells mode erase.now (map entries_in (map (λ page. D.page_bytes page.value) file.now.pages.items)) before left.old.tombs.items left.old.parts.items
        → OnOk result (IsLeft D.tells mode erase.now (map entries_in (map (λ page. D.page_bytes page.value) file.now.pages.items)) (before ++ record { place = place; line = line.now } ∷ []) left.new.tombs.items left.new.parts.items) }
    ensures damaged { (name : Name) → IsErrOf result (Damaged name)
        → IsDamagedPage D.tells mode erase.now.range (map (λ page. D.page_bytes page.value) file.now.pages.items) name (record { place = place; line = line.now }) × (D.fetches port.old < D.fetches port.new) }
    ensures undamaged { D.tells → FileAgrees file.now.header.tiles (map (λ page. D.page_bytes page.value) file.now.pages.items)
        → (name : Name) → IsErrOf result (Damaged name) → ⊥ }
    ensures fetches { OnOk result (D.fetches port.new ≡ D.fetches port.old + count_by (is_fetched_in mode erase.now.range) (line.now ∷ [])) }
    ensures later { D.fetches port.old ≤ D.fetches port.new }
    ensures at_most { D.fetches port.new ≤ D.fetches port.old + count_by (is_fetched_in mode erase.now.range) (line.now ∷ []) }
    ensures cause { HasReadCause (D.port_faults port.old) (D.port_faults port.new) result }
    ensures can_fail { IsFault result → D.ports_fail }
{
    if mode.is_fetched(&erase.range, line) {
        return fetch_left(alloc, file, place, line, erase, mode, port, left);
    }
    if !meets(&erase.range, line) {
        left.parts.push(Part::Kept(place))?;
    }
    Ok(())
}

/// What is left of the pages of these lines, the first of which has that place in the file.
fn sweep_lines<D: Disk>(
    alloc: Global,
    file: &FileView<D>,
    first: usize,
    lines: &[PageLine],
    erase: &Pending,
    mode: Mode,
    port: &mut D::Port,
) -> Result<Left, ReadRefused>
    requires within { first + length lines.now ≤ length file.now.pages.items }
    requires lines { take (length lines.now) (drop first (lines_of file.now.header.tiles)) ≡ lines.now }
    ensures left { IfOk result (λ left. IsLeft D.tells mode erase.now (map entries_in (map (λ page. D.page_bytes page.value) file.now.pages.items)) (placed first lines.now) left.tombs.items left.parts.items) }
    ensures damaged { (name : Name) → IsErrOf result (Damaged name)
        → Any (IsDamagedPage D.tells mode erase.now.range (map (λ page. D.page_bytes page.value) file.now.pages.items) name) (placed first lines.now) × (D.fetches port.old < D.fetches port.new) }
    ensures undamaged { D.tells → FileAgrees file.now.header.tiles (map (λ page. D.page_bytes page.value) file.now.pages.items)
        → (name : Name) → IsErrOf result (Damaged name) → ⊥ }
    ensures fetches { OnOk result (D.fetches port.new ≡ D.fetches port.old + count_by (is_fetched_in mode erase.now.range) lines.now) }
    ensures later { D.fetches port.old ≤ D.fetches port.new }
    ensures at_most { D.fetches port.new ≤ D.fetches port.old + count_by (is_fetched_in mode erase.now.range) lines.now }
    ensures cause { HasReadCause (D.port_faults port.old) (D.port_faults port.new) result }
    ensures can_fail { IsFault result → D.ports_fail }
{
    let before = D::port_faults(port);
    let mut place = first;
    let mut left = Left {
        tombs: Vec::new(alloc),
        parts: Vec::new(alloc),
    };
    for line in lines {
        match sweep_line(alloc, file, place, line, erase, mode, port, &mut left) {
            Ok(()) => place += 1,
            Err(why) => return Err(why.since(before)),
        }
    }
    Ok(left)
}

/// The pages of what is left, a page of the tombstones first.
fn parts_of(alloc: Global, left: Left) -> Result<Vec<Part>, NoMemory>
    ensures { IfOk result (λ parts. parts.items ≡ fresh (merged left.tombs.items [] false) ++ left.parts.items) }
{
    let Left { tombs, mut parts } = left;
    let tombs = merge_entries(alloc, tombs, &[], false)?;
    let mut all = Vec::with_capacity(alloc, 1)?;
    add_page(&mut all, tombs)?;
    all.append(&mut parts)?;
    Ok(all)
}

/// What is left of the tile of these lines, the first of which has that place in the file.
pub fn sweep_tile<D: Disk>(
    alloc: Global,
    file: &FileView<D>,
    first: usize,
    lines: &[PageLine],
    erase: &Pending,
    alone: bool,
    port: &mut D::Port,
) -> Result<Vec<Part>, ReadRefused>
    requires within { first + length lines.now ≤ length file.now.pages.items }
    requires lines { take (length lines.now) (drop first (lines_of file.now.header.tiles)) ≡ lines.now }
    ensures left { IfOk result (λ parts. IsTileLeft D.tells alone erase.now (map entries_in (map (λ page. D.page_bytes page.value) file.now.pages.items)) (placed first lines.now) parts.items) }
    ensures damaged { (name : Name) → IsErrOf result (Damaged name)
        → Any (IsDamagedPage D.tells (mode_of alone erase.now.range lines.now) erase.now.range (map (λ page. D.page_bytes page.value) file.now.pages.items) name) (placed first lines.now) × (D.fetches port.old < D.fetches port.new) }
    ensures undamaged { D.tells → FileAgrees file.now.header.tiles (map (λ page. D.page_bytes page.value) file.now.pages.items)
        → (name : Name) → IsErrOf result (Damaged name) → ⊥ }
    ensures fetches { OnOk result (D.fetches port.new ≡ D.fetches port.old + count_by (is_fetched_in (mode_of alone erase.now.range lines.now) erase.now.range) lines.now) }
    ensures later { D.fetches port.old ≤ D.fetches port.new }
    ensures at_most { D.fetches port.new ≤ D.fetches port.old + count_by (is_fetched_in (mode_of alone erase.now.range lines.now) erase.now.range) lines.now }
    ensures cause { HasReadCause (D.port_faults port.old) (D.port_faults port.new) result }
    ensures can_fail { IsFault result → D.ports_fail }
{
    let mode = Mode::of(alone, &erase.range, lines);
    match sweep_lines(alloc, file, first, lines, erase, mode, port) {
        Ok(left) => Ok(parts_of(alloc, left)?),
        Err(why) => Err(why),
    }
}
