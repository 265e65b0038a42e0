//! Pages of few entries, whole and damaged.

use crate::alike::{changed, finds_alike, key_of};
use lethe_base::{Body, Entry};
use lethe_page::{PageRefused, find_entry};
use std::alloc::Global;
use std::process::Abort;

/// The puts of `a`, `ab`, `abc` and `b`, of which the first three begin one another.
const FRONTS: &[u8] =
    b"LP\x01\x01\0\0\0\x04\x01\0\0\0\0\0\0\0\x01\0\x01a\0\0\0\0\0\0\0\x01\0\x011\x01\0\0\0\0\0\0\0\x02\0\x02ab\0\0\0\0\0\0\0\x02\0\x012\x01\0\0\0\0\0\0\0\x03\0\x03abc\0\0\0\0\0\0\0\x03\0\x013\x01\0\0\0\0\0\0\0\x04\0\x01b\0\0\0\0\0\0\0\x04\0\x014";

/// The tombstones of `a` at place 2 with time 0, and of `b` at place 3 with time 2^62.
const TOMBS: &[u8] =
    b"LP\x01\x02\0\0\0\x02\x02\0\0\0\0\0\0\0\x02\x01\0\0\0\0\0\0\0\0\x01a\x02\0\0\0\0\0\0\0\x03\x01\x40\0\0\0\0\0\0\0\x01b";

/// A key, and the place of its entry among those of the page.
const KEYS: [(&str, Option<u64>); 9] = [
    ("a", Some(1)),
    ("ab", Some(2)),
    ("abc", Some(3)),
    ("b", Some(4)),
    ("A", None),
    ("aa", None),
    ("abcd", None),
    ("ac", None),
    ("ba", None),
];

/// The place of the entry that is found.
fn place_of(alloc: Global, rt: &impl Abort, bytes: &[u8], key: &[u8]) -> Option<u64> {
    let key = key_of(alloc, rt, key);
    let found = find_entry(alloc, bytes, &key).expect(rt, "a page");
    found.entry.map(|entry| entry.seq)
}

fn check_place(alloc: Global, rt: &impl Abort, bytes: &[u8], key: &str, wanted: Option<u64>) {
    let place = place_of(alloc, rt, bytes, key.as_bytes());
    assert_eq!(rt; place, wanted, "{key}");
}

#[test]
fn a_key_is_no_other_that_begins_so(rt: HostRuntime) {
    for (key, wanted) in KEYS {
        check_place(rt.alloc(), &rt, FRONTS, key, wanted);
    }
    for (key, wanted) in [("a", Some(2)), ("b", Some(3)), ("ab", None)] {
        check_place(rt.alloc(), &rt, TOMBS, key, wanted);
    }
}

/// Bytes have to be looked through as they are decoded, for some keys.
fn check_alike(alloc: Global, rt: &impl Abort, bytes: &[u8]) {
    for key in ["a", "ab", "b", "c"] {
        let key = key_of(alloc, rt, key.as_bytes());
        assert!(rt; finds_alike(alloc, bytes, &key), "{key:?} in {bytes:?}");
    }
}

/// The page cut at a place, and with other bytes there.
fn check_place_changed(alloc: Global, rt: &impl Abort, page: &[u8], place: usize, byte: u8) {
    check_alike(alloc, rt, page.get(..place).expect(rt, "a front"));
    for other in [0, 1, 2, 3, 4, b'a', b'b', 0x40, 0xff, byte ^ 1] {
        check_alike(alloc, rt, &changed(alloc, rt, page, place, other));
    }
}

#[test]
fn other_bytes_are_refused_as_decoding_refuses_them(rt: HostRuntime) {
    for page in [FRONTS, TOMBS] {
        for (place, byte) in page.iter().enumerate() {
            check_place_changed(rt.alloc(), &rt, page, place, *byte);
        }
    }
}

/// Why the bytes are refused where `a` is looked for.
fn refused(alloc: Global, rt: &impl Abort, bytes: &[u8]) -> Option<PageRefused> {
    find_entry(alloc, bytes, &key_of(alloc, rt, b"a")).err()
}

#[test]
fn what_stands_behind_the_entry_is_read_too(rt: HostRuntime) {
    let alloc = rt.alloc();
    let end = FRONTS.len() as u64;
    let mut long = FRONTS.to_vec(alloc).expect(&rt, "memory");
    long.push(0).expect(&rt, "memory");
    let behind = refused(alloc, &rt, &long);
    assert_eq!(rt; behind, Some(PageRefused::Trailing { at: end }));
    // Key `b` becomes `a`, which isn't above `abc`.
    let low = changed(alloc, &rt, FRONTS, FRONTS.len() - 12, b'a');
    let below = refused(alloc, &rt, &low);
    assert_eq!(rt; below, Some(PageRefused::Order { at: end - 13 }));
}

/// The greatest key, with another byte at its end.
fn greatest_key(alloc: Global, rt: &impl Abort, last: u8) -> Vec<u8> {
    let mut key = vec![in alloc; 255; 255].expect(rt, "memory");
    *key.last_mut().expect(rt, "a byte") = last;
    key
}

fn add(rt: &impl Abort, bytes: &mut Vec<u8>, more: &[u8]) {
    bytes.extend_from_slice(more).expect(rt, "memory");
}

/// A page of the one put of the key, with the greatest value.
fn page_of(alloc: Global, rt: &impl Abort, key: &[u8]) -> Vec<u8> {
    let value = vec![in alloc; 7; 4096].expect(rt, "memory");
    let mut bytes = Vec::new(alloc);
    add(
        rt,
        &mut bytes,
        b"LP\x01\x01\0\0\0\x01\x01\0\0\0\0\0\0\0\x01\0\xff",
    );
    add(rt, &mut bytes, key);
    add(rt, &mut bytes, b"\xff\xff\xff\xff\xff\xff\xff\xff\x10\0");
    add(rt, &mut bytes, &value);
    bytes
}

/// Whether the entry has the greatest delete key and value.
fn is_greatest(entry: &Entry) -> bool {
    matches!(&entry.body, Body::Put { dkey: u64::MAX, value } if value.bytes().len() == 4096)
}

fn check_greatest(alloc: Global, rt: &impl Abort, page: &[u8], key: &[u8]) {
    let found = find_entry(alloc, page, &key_of(alloc, rt, key)).expect(rt, "a page");
    assert!(rt; is_greatest(&found.entry.expect(rt, "an entry")));
}

fn check_below_greatest(alloc: Global, rt: &impl Abort, page: &[u8], key: &[u8]) {
    assert_eq!(rt; place_of(alloc, rt, page, key), None);
    assert!(rt; finds_alike(alloc, page, &key_of(alloc, rt, key)));
}

#[test]
fn the_greatest_key_and_value_are_found(rt: HostRuntime) {
    let alloc = rt.alloc();
    let key = greatest_key(alloc, &rt, 255);
    let page = page_of(alloc, &rt, &key);
    check_greatest(alloc, &rt, &page, &key);
    check_below_greatest(alloc, &rt, &page, &greatest_key(alloc, &rt, 254));
}
