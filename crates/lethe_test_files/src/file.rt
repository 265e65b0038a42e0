//! A page of a file and the tile of a key.

use crate::common::{FILE, PAGE_AC, PAGE_BD, changed};
use crate::opening::{damaged, found_in, open_file};
use lethe_base::Entry;
use lethe_disk::ReadRefused;
use std::alloc::Global;
use std::process::Abort;

/// What is fetched as the page at a place, where these are the bytes of the two pages.
fn fetched(
    alloc: Global,
    rt: &impl Abort,
    pages: &[&[u8]],
    place: usize,
) -> Result<Vec<Entry>, ReadRefused> {
    let (file, mut port) = open_file(alloc, rt, FILE, pages, &[]);
    assert!(rt; file.page(place).is_some());
    file.fetch_page(alloc, &mut port, place)
}

/// Whether there are two entries, and the first one's place is that one.
fn is_pair_from(entries: &[Entry], seq: u64) -> bool {
    entries.len() == 2 && entries.first().map(|entry| entry.seq) == Some(seq)
}

fn check_read(alloc: Global, rt: &impl Abort, place: usize, seq: u64) {
    let entries = fetched(alloc, rt, &[PAGE_AC, PAGE_BD], place).expect(rt, "entries");
    assert!(rt; is_pair_from(&entries, seq), "at {place}");
}

/// These bytes aren't those of the first line's page.
fn check_torn(alloc: Global, rt: &impl Abort, bytes: &[u8]) {
    let refused = fetched(alloc, rt, &[bytes, PAGE_BD], 0).err();
    assert_eq!(rt; refused, Some(damaged(1)));
}

#[test]
fn a_page_is_read_where_it_is_the_one_of_its_line(rt: HostRuntime) {
    let alloc = rt.alloc();
    check_read(alloc, &rt, 0, 1);
    check_read(alloc, &rt, 1, 2);
    check_torn(alloc, &rt, PAGE_BD);
    check_torn(alloc, &rt, &changed(alloc, &rt, PAGE_AC, 53, b'y'));
}

/// Whether a word of one of the two filters stands at the place in the file.
fn is_in_filter(place: usize) -> bool {
    matches!(place, 60..=67 | 142..=149)
}

/// The file, whose filters allow every key.
fn without_filters(alloc: Global, rt: &impl Abort) -> Vec<u8> {
    let mut file = FILE.to_vec(alloc).expect(rt, "memory");
    for (place, byte) in file.iter_mut().enumerate() {
        if is_in_filter(place) {
            *byte = 0xff;
        }
    }
    file
}

/// A key, and whether the tile has it between its own least and greatest key.
const FENCED: [(&str, bool); 6] = [
    ("A", false),
    ("a", true),
    ("bb", true),
    ("d", true),
    ("da", false),
    ("e", false),
];

/// Each page is torn, and the filters allow each key: so the first page of its tile is told of a key that has one.
fn check_fence(alloc: Global, rt: &impl Abort, file: &[u8], key: &str, fenced: bool) {
    let refused = match found_in(alloc, rt, file, &[PAGE_AC, PAGE_BD], &[1, 2], key) {
        Ok(found) => {
            assert!(rt; found.is_none(), "{key}");
            None
        }
        Err(why) => Some(why),
    };
    let wanted = if fenced { Some(damaged(1)) } else { None };
    assert_eq!(rt; refused, wanted, "{key}");
}

#[test]
fn a_tile_is_found_by_its_fence(rt: HostRuntime) {
    let alloc = rt.alloc();
    let file = without_filters(alloc, &rt);
    for (key, fenced) in FENCED {
        check_fence(alloc, &rt, &file, key, fenced);
    }
}
