//! Looking at the pages of a file.
ghost use Rattle.std.specs.Prelude.{◌≡◌, ◌≤◌, ◌⊎◌, ◌↔◌, ◌++◌, [], ℕ, List, map, All, Contains, Some, IsSome, IfErr, OnOk};
ghost use Rattle.std.specs.FinMap.{keys};
ghost use Rattle.lethe_base.specs.Keys.{Bytes};
ghost use Rattle.lethe_disk.specs.Directory.{object};
ghost use Rattle.lethe_disk.specs.Quiet.{IsQuiet};
ghost use Rattle.lethe_header.specs.Facts.{lines_of};
ghost use Rattle.lethe_header.specs.Headers.{IsLine, IsTile, HasSpelling};
ghost use Rattle.lethe_header.specs.declared.header.PageLine.{PageLine};
ghost use Rattle.lethe_header.specs.declared.header.TileLine.{TileLine};
ghost use Rattle.lethe_file.specs.Agreement.{entries_in, keys_of, page_name};
ghost use Rattle.lethe_agreement.specs.Soundness.{IsTaken};
ghost use Rattle.lethe_manifest.specs.declared.manifest.Cited.{Cited};
ghost use Rattle.lethe_load.specs.Damaged.{placed_lines};
ghost use Rattle.lethe_load.specs.Progress.{IsNextPage, ArePages, AreBelow, IsBadPage, IsBadInTile};
ghost use Rattle.lethe_load.specs.Refused.{MayFail};

use crate::RecoverRefused;
use crate::listing::Listing;
use crate::numbers::PageNumbers;
use crate::reading::read_object;
use lethe_agreement::{TakenKeys, is_sound};
use lethe_base::{Kind, Name};
use lethe_disk::Disk;
use lethe_header::{Header, PageLine, TileLine};
use std::alloc::Global;

// Whether the page of the line is there and sound. Its number and its keys are taken then.
fn check_page<D: Disk>(
    alloc: Global,
    disk: &mut D,
    listing: &Listing,
    numbers: &mut PageNumbers,
    tile: &TileLine,
    line: &PageLine,
    taken: &mut TakenKeys,
) -> Result<(), RecoverRefused>
    requires since { listing.now.faults ≤ D.faults disk.old }
    requires listed { D.tells → listing.now.names.items ≡ keys (D.seen disk.old).directory }
    requires line { IsLine line.now }
    ensures found { D.tells → OnOk result (IsNextPage (D.seen disk.old).directory numbers.old (IsTaken taken.old) tile.now line.now) }
    ensures next { numbers.new.next ≡ numbers.old.next }
    ensures numbers { OnOk result ((number : ℕ) → Contains numbers.new.taken.keys number ↔ (Contains numbers.old.taken.keys number ⊎ (line.now.no ≡ number))) }
    ensures keys { D.tells → OnOk result ((bytes : List ℕ) → object (D.seen disk.old).directory (page_name line.now.no) ≡ Some bytes
        → (key : Bytes) → IsTaken taken.new key ↔ (IsTaken taken.old key ⊎ Contains (keys_of (entries_in bytes)) key)) }
    ensures refused { IfErr result (MayFail D.tells (λ name. (name ≡ page_name line.now.no) × (IsNextPage (D.seen disk.old).directory numbers.old (IsTaken taken.old) tile.now line.now → ⊥))
        listing.now.faults (D.faults disk.new)) }
    ensures quiet { D.tells → IsQuiet (D.seen disk.old) (D.seen disk.new) }
    ensures faults { D.faults disk.old ≤ D.faults disk.new }
{
    let name = Name {
        kind: Kind::Page,
        no: line.no,
    };
    if !numbers.is_free(line.no) {
        return Err(RecoverRefused::Damaged { name });
    }
    let bytes = read_object(alloc, disk, listing, name)?;
    let sound = is_sound(alloc, tile, line, taken, &bytes)?;
    if !sound {
        return Err(RecoverRefused::Damaged { name });
    }
    numbers.take(line.no)?;
    Ok(())
}

// Whether the pages of a tile are sound, one after the other.
fn check_tile<D: Disk>(
    alloc: Global,
    disk: &mut D,
    listing: &Listing,
    numbers: &mut PageNumbers,
    tile: &TileLine,
) -> Result<(), RecoverRefused>
    requires since { listing.now.faults ≤ D.faults disk.old }
    requires listed { D.tells → listing.now.names.items ≡ keys (D.seen disk.old).directory }
    requires tile { IsTile tile.now }
    ensures there { D.tells → OnOk result (All (λ line. IsSome (object (D.seen disk.old).directory (page_name line.no))) tile.now.pages) }
    ensures found { D.tells → (before : List Cited) (items : List (TileLine × PageLine)) → ArePages (D.seen disk.old).directory before items numbers.old → AreBelow tile.now items
        → OnOk result (ArePages (D.seen disk.old).directory before (items ++ map (λ line. (tile.now, line)) tile.now.pages) numbers.new) }
    ensures next { numbers.new.next ≡ numbers.old.next }
    ensures refused { IfErr result (MayFail D.tells (IsBadInTile (D.seen disk.old).directory numbers.old tile.now) listing.now.faults (D.faults disk.new)) }
    ensures quiet { D.tells → IsQuiet (D.seen disk.old) (D.seen disk.new) }
    ensures faults { D.faults disk.old ≤ D.faults disk.new }
{
    let mut keys = TakenKeys::new(alloc);
    for line in tile.pages.items() {
        check_page(alloc, disk, listing, numbers, tile, line, &mut keys)?;
    }
    Ok(())
}

/// Whether the pages of a file are sound, one after the other. Their numbers are taken.
pub fn check_pages<D: Disk>(
    alloc: Global,
    disk: &mut D,
    listing: &Listing,
    numbers: &mut PageNumbers,
    header: &Header,
) -> Result<(), RecoverRefused>
    requires since { listing.now.faults ≤ D.faults disk.old }
    requires listed { D.tells → listing.now.names.items ≡ keys (D.seen disk.old).directory }
    requires spelled { HasSpelling header.now }
    ensures there { D.tells → OnOk result (All (λ line. IsSome (object (D.seen disk.old).directory (page_name line.no))) (lines_of header.now.tiles)) }
    ensures found { D.tells → (before : List Cited) → ArePages (D.seen disk.old).directory before [] numbers.old
        → OnOk result (ArePages (D.seen disk.old).directory before (placed_lines header.now) numbers.new) }
    ensures next { numbers.new.next ≡ numbers.old.next }
    ensures refused { IfErr result (MayFail D.tells (λ name. (before : List Cited) → ArePages (D.seen disk.old).directory before [] numbers.old
        → IsBadPage (D.seen disk.old).directory numbers.old.next before (placed_lines header.now) name) listing.now.faults (D.faults disk.new)) }
    ensures quiet { D.tells → IsQuiet (D.seen disk.old) (D.seen disk.new) }
    ensures faults { D.faults disk.old ≤ D.faults disk.new }
{
    for tile in header.tiles.items() {
        check_tile(alloc, disk, listing, numbers, tile)?;
    }
    Ok(())
}
