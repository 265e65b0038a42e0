//! Opening the pages of a file.
ghost use Rattle.std.specs.Prelude.{◌≡◌, ◌+◌, ◌≤◌, ◌++◌, map, length, All, Some, IsSome, IfOk, OnOk};
ghost use Rattle.lethe_disk.specs.Directory.{object};
ghost use Rattle.lethe_disk.specs.Disk.{HasCause};
ghost use Rattle.lethe_disk.specs.Quiet.{IsQuiet};
ghost use Rattle.lethe_file.specs.Agreement.{page_name};
ghost use Rattle.lethe_header.specs.Facts.{lines_of};
ghost use Rattle.lethe_header.specs.Headers.{HasSpelling};
ghost use Rattle.lethe_version.specs.Versions.{bytes_of};

use lethe_base::{Kind, Name};
use lethe_disk::{Disk, DiskRefused};
use lethe_file::FileView;
use lethe_header::{Header, PageLine};
use std::alloc::Global;
use std::sync::Arc;

/// The page of this number, to be shared.
fn open_page<D: Disk>(alloc: Global, disk: &mut D, no: u64) -> Result<Arc<D::Page>, DiskRefused>
    requires { D.tells → IsSome (object (D.seen disk.old).directory (page_name no)) }
    ensures page { D.tells → IfOk result (λ page. object (D.seen disk.old).directory (page_name no) ≡ Some (D.page_bytes page.value)) }
    ensures quiet { D.tells → IsQuiet (D.seen disk.old) (D.seen disk.new) }
    ensures soon { D.tells → (D.seen disk.new).moment ≤ (D.seen disk.old).moment + 1 }
    ensures cause { HasCause (D.faults disk.old) (D.faults disk.new) result }
{
    let name = Name {
        kind: Kind::Page,
        no,
    };
    let page = disk.open_page(alloc, name)?;
    Ok(Arc::new(alloc, page)?)
}

/// Adds the pages of these lines.
fn open_pages<D: Disk>(
    alloc: Global,
    disk: &mut D,
    lines: &[PageLine],
    pages: &mut Vec<Arc<D::Page>>,
) -> Result<(), DiskRefused>
    requires { D.tells → All (λ line. IsSome (object (D.seen disk.old).directory (page_name line.no))) lines.now }
    ensures pages { D.tells → OnOk result (map (λ page. Some (D.page_bytes page.value)) pages.new.items
        ≡ map (λ page. Some (D.page_bytes page.value)) pages.old.items ++ map (λ line. object (D.seen disk.old).directory (page_name line.no)) lines.now) }
    ensures count { OnOk result (length pages.new.items ≡ length pages.old.items + length lines.now) }
    ensures quiet { D.tells → IsQuiet (D.seen disk.old) (D.seen disk.new) }
    ensures soon { D.tells → (D.seen disk.new).moment ≤ (D.seen disk.old).moment + length lines.now }
    ensures cause { HasCause (D.faults disk.old) (D.faults disk.new) result }
{
    for line in lines {
        pages.push(open_page(alloc, disk, line.no)?)?;
    }
    Ok(())
}

/// The file of this header, whose pages are opened one after the other.
///
/// # Errors
///
/// `NoMemory` and `Failed` of the disk. Nothing on the disk changes.
pub fn open_file<D: Disk>(
    alloc: Global,
    disk: &mut D,
    header: Header,
) -> Result<FileView<D>, DiskRefused>
    requires spelled { HasSpelling header }
    requires present { D.tells → All (λ line. IsSome (object (D.seen disk.old).directory (page_name line.no))) (lines_of header.tiles) }
    ensures header { IfOk result (λ file. file.header ≡ header) }
    ensures pages { D.tells → IfOk result (λ file. map Some (bytes_of file) ≡ map (λ line. object (D.seen disk.old).directory (page_name line.no)) (lines_of header.tiles)) }
    ensures quiet { D.tells → IsQuiet (D.seen disk.old) (D.seen disk.new) }

    // It takes at most one device call for each page.
    ensures soon { D.tells → (D.seen disk.new).moment ≤ (D.seen disk.old).moment + length (lines_of header.tiles) }
    ensures cause { HasCause (D.faults disk.old) (D.faults disk.new) result }
{
    let mut pages = Vec::new(alloc);
    for tile in header.tiles.items() {
        open_pages(alloc, disk, tile.pages.items(), &mut pages)?;
    }
    Ok(FileView::new(alloc, header, pages)?)
}
