//! A store's one file, whose pages are in memory.
ghost use Rattle.std.specs.Prelude.{◌≡◌, IfOk, length};
ghost use Rattle.lethe_header.specs.Facts.{lines_of};
ghost use Rattle.lethe_header.specs.Headers.{HasSpelling};

use lethe_disk::Disk;
use lethe_file::FileView;
use lethe_header::{Header, read_header};
use lethe_memdisk::MemPage;
use lethe_version::Version;
use std::alloc::Global;
use std::sync::Arc;
use std::test::Fail;

/// The puts of `a` with delete key 11, which was deleted at time 20 before, and of `c` with delete key 12.
const PAGE_AC: &[u8] =
    b"LP\x01\x01\0\0\0\x02\x01\0\0\0\0\0\0\0\x01\x01\0\0\0\0\0\0\0\x14\x01a\0\0\0\0\0\0\0\x0b\0\x01x\x01\0\0\0\0\0\0\0\x03\0\x01c\0\0\0\0\0\0\0\x0c\0\x01x";

/// The puts of `b` with delete key 15 and of `d` with delete key 30.
const PAGE_BD: &[u8] =
    b"LP\x01\x01\0\0\0\x02\x01\0\0\0\0\0\0\0\x02\0\x01b\0\0\0\0\0\0\0\x0f\0\x01x\x01\0\0\0\0\0\0\0\x04\0\x01d\0\0\0\0\0\0\0\x1e\0\x01x";

/// File 3, whose one tile, of the keys from `a` to `d`, has these as its pages 1 and 2.
const FILE: &[u8] =
    b"LF\x01\0\0\0\0\0\0\0\x03\0\x01\x01a\x01d\x02\0\0\0\0\0\0\0\x01\x01\0\0\0\x02\0\0\0\0\0\0\0\x03\x01\0\0\0\0\0\0\0\x14\0\0\0\0\0\0\0\x0b\0\0\0\0\0\0\0\x0c\0\0\0\x01\x80\x0c\0@\x02\00\x01\x11\x82\x82\x8d\x0c\xfa\xdc\xeci\xae\x9d\xa2Q@\xdc\xe0\n\xaa\x06C\x14\x9d~\xd2L\x10a\xf4\x97#\x9a\xbd\0\0\0\0\0\0\0\x02\x01\0\0\0\x02\0\0\0\0\0\0\0\x04\0\0\0\0\0\0\0\0\x0f\0\0\0\0\0\0\0\x1e\0\0\0\x01\x80\x1c\0\xe0\x06\00\x01[S\x8f(\xcd\xd3H\x17W\xba\x95\x98\xd2\xc1\xf9\xd4\xdf\x81\xa1\xdb\x7f\xe6\x1fQW\xb3\xc7r\x8b\xf6\xdb\xd4";

fn header_of(alloc: Global) -> Result<Header, Fail>
    ensures { IfOk result HasSpelling }
{
    match read_header(alloc, FILE) {
        Ok(header) => Ok(header),
        Err(_) => Err(Fail::new("a header")),
    }
}

fn page_of(alloc: Global, bytes: &[u8]) -> Result<Arc<MemPage>, Fail> {
    Ok(Arc::new(alloc, MemPage::of(bytes.to_vec(alloc)?))?)
}

/// The file's pages, of which its header tells.
fn pages_of(alloc: Global, header: &Header) -> Result<Vec<Arc<MemPage>>, Fail>
    ensures { IfOk result (λ pages. length pages.items ≡ length (lines_of header.now.tiles)) }
{
    let [tile] = header.tiles.items() else {
        return Err(Fail::new("one tile"));
    };
    if tile.pages.items().len() != 2 {
        return Err(Fail::new("two pages"));
    }
    Ok(vec![in alloc; page_of(alloc, PAGE_AC)?, page_of(alloc, PAGE_BD)?]?)
}

/// The version that has the file alone.
pub fn version_of<D: Disk<Page = MemPage>>(alloc: Global) -> Result<Version<D>, Fail> {
    let header = header_of(alloc)?;
    let pages = pages_of(alloc, &header)?;
    let file = FileView::new(alloc, header, pages)?;
    Ok(Version::of(alloc, vec![in alloc; vec![in alloc; file]?]?)?)
}
