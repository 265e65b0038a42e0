//! Files on a disk in memory.
ghost use Rattle.std.specs.Prelude.{◌≡◌, ◌+◌, length};
ghost use Rattle.lethe_header.specs.Facts.{lines_of};
ghost use Rattle.lethe_header.specs.Headers.{HasSpelling};

use lethe_base::{Entry, Kind, Name};
use lethe_disk::{Disk, ReadRefused};
use lethe_file::FileView;
use lethe_header::{Header, PageLine, read_header};
use lethe_memdisk::{MemDisk, MemPage, MemPort};
use lethe_test_values::key_of;
use std::alloc::Global;
use std::process::Abort;
use std::slice;
use std::sync::Arc;

pub fn page_name(no: u64) -> Name {
    Name {
        kind: Kind::Page,
        no,
    }
}

/// What is told of a page that isn't the one of its line.
pub fn damaged(no: u64) -> ReadRefused {
    ReadRefused::Damaged {
        name: page_name(no),
    }
}

pub fn header_of(alloc: Global, rt: &impl Abort, bytes: &[u8]) -> Header
    ensures { HasSpelling result }
{
    read_header(alloc, bytes).expect(rt, "a header")
}

/// An empty disk in memory, with room for a hundred calls.
pub fn empty_disk(alloc: Global, rt: &impl Abort) -> MemDisk {
    MemDisk::new(alloc, 100, Vec::new(alloc)).expect(rt, "memory")
}

/// Writes a page, and opens it.
fn page_on(
    alloc: Global,
    rt: &impl Abort,
    disk: &mut MemDisk,
    no: u64,
    bytes: &[u8],
) -> Arc<MemPage> {
    let name = Name {
        kind: Kind::Page,
        no,
    };
    let Ok(names) = disk.names(alloc) else {
        panic!(rt; "no names")
    };
    if names.contains(&name) {
        panic!(rt; "no new name")
    }
    let Ok(()) = disk.create(name, bytes) else {
        panic!(rt; "no object")
    };
    match disk.open_page(alloc, name) {
        Ok(page) => Arc::new(alloc, page).expect(rt, "memory"),
        Err(_) => panic!(rt; "no open page"),
    }
}

/// The bytes, of which the last one is another where the page is among those that are torn.
fn written(alloc: Global, rt: &impl Abort, no: u64, bytes: &[u8], torn: &[u64]) -> Vec<u8> {
    let mut written = bytes.to_vec(alloc).expect(rt, "memory");
    if torn.contains(&no) {
        *written.last_mut().expect(rt, "a byte") ^= 1;
    }
    written
}

/// Writes and opens a page for each of these lines. It takes their bytes from the front of what is left.
fn add_pages(
    alloc: Global,
    rt: &impl Abort,
    disk: &mut MemDisk,
    lines: &[PageLine],
    left: &mut slice::Iter<&[u8]>,
    torn: &[u64],
    pages: &mut Vec<Arc<MemPage>>,
)
    ensures { length pages.new.items ≡ length pages.old.items + length lines.now }
{
    for line in lines {
        let bytes = left.next().expect(rt, "the bytes of a page");
        let bytes = written(alloc, rt, line.no, bytes, torn);
        let page = page_on(alloc, rt, disk, line.no, &bytes);
        pages.push(page).expect(rt, "memory");
    }
}

/// The pages of a header, with these bytes. Some of them are torn.
pub fn pages_on(
    alloc: Global,
    rt: &impl Abort,
    disk: &mut MemDisk,
    header: &Header,
    pages: &[&[u8]],
    torn: &[u64],
) -> Vec<Arc<MemPage>>
    ensures { length result.items ≡ length (lines_of header.now.tiles) }
{
    let mut left = pages.iter();
    let mut opened = Vec::new(alloc);
    for tile in header.tiles.items() {
        let lines = tile.pages.items();
        add_pages(alloc, rt, disk, lines, &mut left, torn, &mut opened);
    }
    opened
}

/// The file of a header, with these bytes as its pages. Some of the pages are torn.
pub fn add_file(
    alloc: Global,
    rt: &impl Abort,
    disk: &mut MemDisk,
    header: &[u8],
    pages: &[&[u8]],
    torn: &[u64],
) -> FileView<MemDisk> {
    let header = header_of(alloc, rt, header);
    let opened = pages_on(alloc, rt, disk, &header, pages, torn);
    FileView::new(alloc, header, opened).expect(rt, "memory")
}

/// The file on a disk of its own, and a port of the disk.
pub fn open_file(
    alloc: Global,
    rt: &impl Abort,
    header: &[u8],
    pages: &[&[u8]],
    torn: &[u64],
) -> (FileView<MemDisk>, MemPort) {
    let mut disk = empty_disk(alloc, rt);
    let file = add_file(alloc, rt, &mut disk, header, pages, torn);
    let port = disk.port(alloc).expect(rt, "a port");
    (file, port)
}

/// What is found of a key in the file on a disk of its own.
pub fn found_in(
    alloc: Global,
    rt: &impl Abort,
    header: &[u8],
    pages: &[&[u8]],
    torn: &[u64],
    key: &str,
) -> Result<Option<Entry>, ReadRefused> {
    let key = key_of(alloc, key).expect(rt, "a key");
    let (file, mut port) = open_file(alloc, rt, header, pages, torn);
    file.find(alloc, &mut port, &key)
}
