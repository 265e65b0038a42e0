//! A file of two tiles on a disk in memory: written, found through, read in order, and its damaged pages told.

use crate::build::config_of;
use crate::common::{PAGE_AC, PAGE_BD};
use crate::opening::{damaged, found_in, header_of, open_file};
use lethe_base::{Body, Entry, Key};
use lethe_disk::{Cursor, ReadRefused};
use lethe_file::FileCursor;
use lethe_header::write_header;
use lethe_memdisk::{MemDisk, MemPort};
use lethe_page::{read_page, write_page};
use lethe_test_values::key_of;
use lethe_tile::{Tile, is_ascending, weave};
use std::alloc::Global;
use std::process::Abort;

/// The tombstone of `e`.
const PAGE_E: &[u8] = b"LP\x01\x02\0\0\0\x01\x02\0\0\0\0\0\0\0\x05\x01\0\0\0\0\0\0\02\x01e";

/// The puts of `f` with delete key 7 and of `g` with delete key 3.
const PAGE_FG: &[u8] =
    b"LP\x01\x01\0\0\0\x02\x01\0\0\0\0\0\0\0\x06\0\x01f\0\0\0\0\0\0\0\x07\0\x01x\x01\0\0\0\0\0\0\0\x07\x01\0\0\0\0\0\0\0(\x01g\0\0\0\0\0\0\0\x03\0\x01x";

/// The put of `h` with delete key 9.
const PAGE_H: &[u8] = b"LP\x01\x01\0\0\0\x01\x01\0\0\0\0\0\0\0\x08\0\x01h\0\0\0\0\0\0\0\x09\0\x01x";

/// File 9. Its tile of the keys from `a` to `d` has these as its pages 1 and 2, its tile from `e` to `h` as its pages 3 to 5.
const FILE: &[u8] =
    b"LF\x01\0\0\0\0\0\0\0\x09\0\x02\x01a\x01d\x02\0\0\0\0\0\0\0\x01\x01\0\0\0\x02\0\0\0\0\0\0\0\x03\0\0\0\0\0\0\0\0\x0b\0\0\0\0\0\0\0\x0c\0\0\0\x01\x80\x0c\0@\x02\00\x01\xdc\x88\xef\x05\xe6\xb4-\x95N\x1e<\xce\xe8]\x12E\xb2h\x93<\xf1gAO\x99\x0e|V\x92]\x9cl\0\0\0\0\0\0\0\x02\x01\0\0\0\x02\0\0\0\0\0\0\0\x04\0\0\0\0\0\0\0\0\x0f\0\0\0\0\0\0\0\x1e\0\0\0\x01\x80\x1c\0\xe0\x06\00\x01[S\x8f(\xcd\xd3H\x17W\xba\x95\x98\xd2\xc1\xf9\xd4\xdf\x81\xa1\xdb\x7f\xe6\x1fQW\xb3\xc7r\x8b\xf6\xdb\xd4\x01e\x01h\x03\0\0\0\0\0\0\0\x03\x02\0\0\0\x01\0\0\0\0\0\0\0\x05\x01\0\0\0\0\0\0\02\0\0\0\x01\0\x10\0\x80\x04\0\x20\x03\xf9\x99\xf5\x14\xc30=j%e\x86fRD\x03\xf1R\xb19\x07\xb5\xf5\x9b\x03\x8f\xe3t\xf9\xfd\x97\xa4^\0\0\0\0\0\0\0\x04\x01\0\0\0\x02\0\0\0\0\0\0\0\x07\x01\0\0\0\0\0\0\0(\0\0\0\0\0\0\0\x03\0\0\0\0\0\0\0\x07\0\0\0\x01\0\x08\0\xc0\x06\0\x20\x01N\x1cu\x8c\x10\xd49\xa8\xceP\xed\xa5\xe4\xcf\xcf\x9dZ\xa8]O\xa6\xcb\x87\xb2\x0f\xf8=\xe9W\x91\x9e?\0\0\0\0\0\0\0\x05\x01\0\0\0\x01\0\0\0\0\0\0\0\x08\0\0\0\0\0\0\0\0\x09\0\0\0\0\0\0\0\x09\0\0\0\x01@\x02\0\x10\x01\x80\x08\0%\xe5\0]a\x0d,\xd2>?\xf9\xe2})\xc1\xc5\x16L\x8c\x1c\xa8\xd7Z\xbe<\x02\xae8\xdc\x0e\x85D";

/// The pages 1 to 5.
const PAGES: &[&[u8]] = &[PAGE_AC, PAGE_BD, PAGE_E, PAGE_FG, PAGE_H];

/// What a cursor gives, or why it is refused.
fn given(
    alloc: Global,
    rt: &impl Abort,
    cursor: &mut FileCursor<MemDisk>,
    port: &mut MemPort,
) -> Result<Vec<Entry>, ReadRefused> {
    let mut entries = Vec::new(alloc);
    for _ in 0..10 {
        match cursor.next(alloc, port)? {
            Some(entry) => entries.push(entry).expect(rt, "memory"),
            None => return Ok(entries),
        }
    }
    panic!(rt; "no end")
}

/// What is given of the file between two keys, or why it is refused.
fn entries_from(
    alloc: Global,
    rt: &impl Abort,
    torn: &[u64],
    lo: &Key,
    hi: Option<&Key>,
) -> Result<Vec<Entry>, ReadRefused> {
    let (file, mut port) = open_file(alloc, rt, FILE, PAGES, torn);
    let mut cursor = file.cursor(alloc, lo, hi).expect(rt, "a cursor");
    given(alloc, rt, &mut cursor, &mut port)
}

/// What is given of the file between two keys, or why it is refused.
fn entries_between(
    alloc: Global,
    rt: &impl Abort,
    torn: &[u64],
    lo: &str,
    hi: Option<&str>,
) -> Result<Vec<Entry>, ReadRefused> {
    let lo = key_of(alloc, lo).expect(rt, "a key");
    match hi {
        Some(hi) => entries_from(
            alloc,
            rt,
            torn,
            &lo,
            Some(&key_of(alloc, hi).expect(rt, "a key")),
        ),
        None => entries_from(alloc, rt, torn, &lo, None),
    }
}

/// The keys, which are all of one letter.
fn letters(alloc: Global, rt: &impl Abort, entries: &[Entry]) -> Vec<u8> {
    let mut letters = Vec::new(alloc);
    for entry in entries {
        letters
            .extend_from_slice(entry.key.bytes())
            .expect(rt, "memory");
    }
    letters
}

/// What the header that is read of these bytes is written as.
fn header_again(alloc: Global, rt: &impl Abort, bytes: &[u8]) -> Vec<u8> {
    let header = header_of(alloc, rt, bytes);
    write_header(alloc, &header).expect(rt, "memory")
}

/// What the page that is read of these bytes is written as.
fn page_again(alloc: Global, rt: &impl Abort, bytes: &[u8]) -> Vec<u8> {
    let (class, entries) = read_page(alloc, bytes).expect(rt, "a page");
    write_page(alloc, class, &entries).expect(rt, "memory")
}

#[test]
fn a_file_is_written_as_it_was_read(rt: HostRuntime) {
    let alloc = rt.alloc();
    assert_eq!(rt; header_again(alloc, &rt, FILE).as_slice(), FILE);
    for page in PAGES {
        assert_eq!(rt; page_again(alloc, &rt, page).as_slice(), *page);
    }
}

/// The tiles that all entries of the file are woven into.
fn woven(alloc: Global, rt: &impl Abort) -> Vec<Tile> {
    let entries = entries_between(alloc, rt, &[], "a", None).expect(rt, "entries");
    assert!(rt; is_ascending(&entries));
    weave(alloc, entries, &config_of(rt, 2, 2)).expect(rt, "memory")
}

/// Adds the least and the greatest key of a tile, and behind `|` the keys of each page.
fn write_tile(alloc: Global, rt: &impl Abort, text: &mut Vec<u8>, tile: &Tile) {
    text.extend_from_slice(tile.lo.bytes()).expect(rt, "memory");
    text.extend_from_slice(tile.hi.bytes()).expect(rt, "memory");
    for page in tile.pages.items() {
        text.push(b'|').expect(rt, "memory");
        let keys = letters(alloc, rt, page.items());
        text.extend_from_slice(&keys).expect(rt, "memory");
    }
    text.push(b';').expect(rt, "memory");
}

#[test]
fn what_is_read_in_order_is_woven_into_the_same_pages(rt: HostRuntime) {
    let alloc = rt.alloc();
    let mut text = Vec::new(alloc);
    for tile in &woven(alloc, &rt) {
        write_tile(alloc, &rt, &mut text, tile);
    }
    assert_eq!(rt; text.as_slice(), b"ad|ac|bd;eh|e|fg|h;".as_slice());
}

/// A key, and the page that has it.
const HELD: [(&str, u64); 8] = [
    ("a", 1),
    ("b", 2),
    ("c", 1),
    ("d", 2),
    ("e", 3),
    ("f", 4),
    ("g", 4),
    ("h", 5),
];

/// What is found of a key in the file, some pages of which are torn.
fn found(
    alloc: Global,
    rt: &impl Abort,
    torn: &[u64],
    key: &str,
) -> Result<Option<Entry>, ReadRefused> {
    found_in(alloc, rt, FILE, PAGES, torn, key)
}

/// Whether the entry has the key, and is a tombstone or not.
fn is_entry_of(entry: &Entry, key: &str, tombstone: bool) -> bool {
    entry.key.bytes() == key.as_bytes() && matches!(entry.body, Body::Tomb) == tombstone
}

/// The pages of the file but one.
fn others_than(alloc: Global, rt: &impl Abort, page: u64) -> Vec<u64> {
    let mut others = [1, 2, 3, 4, 5]
        .as_slice()
        .to_vec(alloc)
        .expect(rt, "memory");
    others.retain(|no| *no != page);
    others
}

/// No other page is fetched: each would be told as damaged.
fn check_found(alloc: Global, rt: &impl Abort, key: &str, page: u64) {
    let others = others_than(alloc, rt, page);
    let found = found(alloc, rt, &others, key).expect(rt, "an answer");
    let entry = found.expect(rt, "an entry");
    assert!(rt; is_entry_of(&entry, key, page == 3), "{key}");
}

/// This page is fetched.
fn check_refused(alloc: Global, rt: &impl Abort, key: &str, page: u64) {
    let refused = found(alloc, rt, &[page], key).err();
    assert_eq!(rt; refused, Some(damaged(page)), "{key}");
}

/// Nothing is found, where these pages are torn.
fn check_absent(alloc: Global, rt: &impl Abort, torn: &[u64], key: &str) {
    let found = found(alloc, rt, torn, key).expect(rt, "an answer");
    assert!(rt; found.is_none(), "{key}");
}

#[test]
fn a_key_is_found_in_the_page_that_has_it(rt: HostRuntime) {
    for (key, page) in HELD {
        check_found(rt.alloc(), &rt, key, page);
        check_refused(rt.alloc(), &rt, key, page);
    }
}

#[test]
fn of_a_key_that_is_absent_no_page_is_fetched(rt: HostRuntime) {
    for key in ["A", "aa", "bb", "da", "ee", "ga", "i"] {
        check_absent(rt.alloc(), &rt, &[1, 2, 3, 4, 5], key);
    }
}

#[test]
fn a_page_whose_filter_errs_is_fetched_in_vain(rt: HostRuntime) {
    check_absent(rt.alloc(), &rt, &[1, 3, 4, 5], "cgaby");
    check_refused(rt.alloc(), &rt, "cgaby", 2);
}

/// A range from a key up to another one, if there is one, the pages that are torn, and the keys that are given.
type Given = (
    &'static str,
    Option<&'static str>,
    &'static [u64],
    &'static str,
);

const GIVEN: [Given; 16] = [
    ("a", None, &[], "abcdefgh"),
    ("A", Some("z"), &[], "abcdefgh"),
    ("b", Some("g"), &[], "bcdef"),
    ("bb", Some("da"), &[3, 4, 5], "cd"),
    ("a", Some("d"), &[3, 4, 5], "abc"),
    ("a", Some("e"), &[3, 4, 5], "abcd"),
    ("d", Some("e"), &[3, 4, 5], "d"),
    ("da", None, &[1, 2], "efgh"),
    ("f", Some("h"), &[1, 2], "fg"),
    ("h", None, &[1, 2], "h"),
    ("ha", None, &[1, 2, 3, 4, 5], ""),
    ("i", None, &[1, 2, 3, 4, 5], ""),
    ("A", Some("a"), &[1, 2, 3, 4, 5], ""),
    ("da", Some("e"), &[1, 2, 3, 4, 5], ""),
    ("c", Some("c"), &[3, 4, 5], ""),
    ("g", Some("b"), &[1, 2, 3, 4, 5], ""),
];

fn check_given(alloc: Global, rt: &impl Abort, given: Given) {
    let (lo, hi, torn, keys) = given;
    let entries = entries_between(alloc, rt, torn, lo, hi).expect(rt, "entries");
    let letters = letters(alloc, rt, &entries);
    assert_eq!(rt; letters.as_slice(), keys.as_bytes(), "from {lo}");
}

#[test]
fn a_cursor_gives_the_entries_of_its_range_in_order(rt: HostRuntime) {
    for given in GIVEN {
        check_given(rt.alloc(), &rt, given);
    }
}

/// Where a cursor begins, and the page that is torn.
const TORN: [(&str, u64); 5] = [("a", 2), ("c", 1), ("a", 5), ("e", 3), ("f", 4)];

fn check_cursor_refused(alloc: Global, rt: &impl Abort, lo: &str, page: u64) {
    let refused = entries_between(alloc, rt, &[page], lo, None).err();
    assert_eq!(rt; refused, Some(damaged(page)));
}

#[test]
fn a_cursor_tells_a_damaged_page_by_its_name(rt: HostRuntime) {
    for (lo, page) in TORN {
        check_cursor_refused(rt.alloc(), &rt, lo, page);
    }
}
