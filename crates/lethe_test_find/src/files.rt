//! A file on a disk that doesn't hold what was written: pages whose digest is right and that are no pages, or others than the line tells of.
ghost use Rattle.lethe_header.specs.Headers.{HasSpelling};

use crate::alike::{changed, key_of};
use lethe_base::{Kind, Name};
use lethe_disk::ReadRefused;
use lethe_file::FileView;
use lethe_header::{Header, read_header};
use lethe_memdisk::{MemDisk, MemPage, MemPort};
use sha2::{Digest, Sha256};
use std::alloc::Global;
use std::process::Abort;
use std::sync::Arc;

/// The puts of `a` with delete key 11 and of `c` with delete key 12.
const PAGE: &[u8] =
    b"LP\x01\x01\0\0\0\x02\x01\0\0\0\0\0\0\0\x01\0\x01a\0\0\0\0\0\0\0\x0b\0\x01x\x01\0\0\0\0\0\0\0\x03\0\x01c\0\0\0\0\0\0\0\x0c\0\x01x";

/// File 3, whose one tile, of the keys from `a` to `c`, has this as its page 1. Its filter allows every key, and the digest of its page comes behind it.
const HEADER: &[u8] =
    b"LF\x01\0\0\0\0\0\0\0\x03\0\x01\x01a\x01c\x01\0\0\0\0\0\0\0\x01\x01\0\0\0\x02\0\0\0\0\0\0\0\x03\0\0\0\0\0\0\0\0\x0b\0\0\0\0\0\0\0\x0c\0\0\0\x01\xff\xff\xff\xff\xff\xff\xff\xff";

fn header_of(alloc: Global, rt: &impl Abort, page: &[u8]) -> Header
    ensures { HasSpelling result }
{
    let mut hasher = Sha256::new();
    hasher.update(page);
    let mut bytes = HEADER.to_vec(alloc).expect(rt, "memory");
    bytes
        .extend_from_slice(&hasher.finalize())
        .expect(rt, "memory");
    read_header(alloc, &bytes).expect(rt, "a header")
}

/// The file whose page these bytes are, and whose line has their digest.
fn file_of(alloc: Global, rt: &impl Abort, page: &[u8]) -> FileView<MemDisk> {
    let header = header_of(alloc, rt, page);
    let [tile] = header.tiles.items() else {
        panic!(rt; "no tile alone")
    };
    assert!(rt; tile.pages.items().len() == 1);
    let page = MemPage::of(page.to_vec(alloc).expect(rt, "memory"));
    let mut opened = Vec::new(alloc);
    let page = Arc::new(alloc, page).expect(rt, "memory");
    opened.push(page).expect(rt, "memory");
    FileView::new(alloc, header, opened).expect(rt, "memory")
}

/// What is found of a key: the place of its entry, nothing, or why it is refused.
fn found(
    alloc: Global,
    rt: &impl Abort,
    file: &FileView<MemDisk>,
    key: &str,
) -> Result<Option<u64>, ReadRefused> {
    let key = key_of(alloc, rt, key.as_bytes());
    let found = file.find(alloc, &mut MemPort::new(), &key);
    found.map(|entry| entry.map(|entry| entry.seq))
}

/// The page with another byte at a place, and cut at an end.
fn bad(alloc: Global, rt: &impl Abort, place: usize, byte: u8, end: usize) -> Vec<u8> {
    let mut bytes = changed(alloc, rt, PAGE, place, byte);
    bytes.resize(end, 0).expect(rt, "memory");
    bytes
}

/// A place, the byte that is put there, and the length: bytes that are no page, and the page of other entries or of another class than those that the line tells of.
const BAD: [(usize, u8, usize); 9] = [
    // Letters, format, class and count.
    (0, b'M', 54),
    (2, 2, 54),
    (3, 2, 54),
    (7, 3, 54),
    (7, 1, 54),
    // One entry alone, where the line counts two.
    (7, 1, 31),
    // The key `c` becomes `a`, behind the entry of `a`.
    (42, b'a', 54),
    // Cut in the last value, and longer by a byte.
    (0, b'L', 53),
    (0, b'L', 55),
];

/// Each key is found in the page.
fn check_sound(alloc: Global, rt: &impl Abort) {
    let file = file_of(alloc, rt, PAGE);
    for (key, seq) in [("a", Some(1)), ("b", None), ("c", Some(3))] {
        assert_eq!(rt; found(alloc, rt, &file, key), Ok(seq), "{key}");
    }
}

/// The page is told as damaged, whichever key is looked for.
fn check_damaged(alloc: Global, rt: &impl Abort, page: &[u8]) {
    let name = Name {
        kind: Kind::Page,
        no: 1,
    };
    let file = file_of(alloc, rt, page);
    for key in ["a", "b", "c"] {
        let refused = Err(ReadRefused::Damaged { name });
        assert_eq!(rt; found(alloc, rt, &file, key), refused, "{key} in {page:?}");
    }
}

#[test]
fn a_page_of_the_right_digest_that_is_no_page_answers_nothing(rt: HostRuntime) {
    let alloc = rt.alloc();
    check_sound(alloc, &rt);
    for (place, byte, end) in BAD {
        check_damaged(alloc, &rt, &bad(alloc, &rt, place, byte, end));
    }
}
