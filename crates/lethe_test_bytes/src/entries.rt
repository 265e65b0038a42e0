//! Tests of the spelling of numbers and entries.

use crate::common::{changed, check_bytes, cut};
use lethe_base::{
    Body, BodyKind, Entry, EntryRefused, entry_len, one_spelling, read_body, read_entry,
    read_front, read_key, read_place, take_u8, take_u16, take_u32, take_u64, write_entry,
};
use std::alloc::Global;
use std::process::Abort;

/// The put of key `a`, delete key 5, value `x` at place 1.
const PUT: &[u8] = b"\x01\0\0\0\0\0\0\0\x01\0\x01a\0\0\0\0\0\0\0\x05\0\x01x";

/// The tombstone of key `a` at place 2 with time 0.
const TOMB: &[u8] = b"\x02\0\0\0\0\0\0\0\x02\x01\0\0\0\0\0\0\0\0\x01a";

/// How the entry at the begin of the bytes is read.
fn read(alloc: Global, bytes: &[u8]) -> Result<(Entry, usize), EntryRefused> {
    read_entry(alloc, bytes, 0)
}

/// The bytes of an entry, written again as they were read.
fn rewritten(alloc: Global, rt: &impl Abort, bytes: &[u8]) -> Vec<u8> {
    let (entry, end) = read(alloc, bytes).expect(rt, "an entry");
    assert!(rt; end == bytes.len() && entry_len(&entry) == end);
    let mut out = Vec::with_capacity(alloc, end).expect(rt, "memory");
    write_entry(&mut out, &entry).expect(rt, "memory");
    out
}

/// An entry that is read in two parts: its kind, where its body begins, and the whole.
fn in_parts(alloc: Global, rt: &impl Abort, bytes: &[u8]) -> (BodyKind, usize, Entry) {
    let (front, at) = read_front(alloc, bytes, 0).expect(rt, "a front");
    let kind = front.kind;
    let (body, _) = read_body(alloc, kind, bytes, at).expect(rt, "a body");
    (kind, at, front.with(body))
}

/// Whether the entry is that of `PUT`.
fn is_put_of_a(entry: &Entry) -> bool {
    entry.seq == 1
        && entry.since.is_none()
        && entry.key.bytes() == b"a".as_slice()
        && matches!(entry.body, Body::Put { dkey: 5, .. })
}

fn check_parts(alloc: Global, rt: &impl Abort) {
    let (kind, at, entry) = in_parts(alloc, rt, PUT);
    assert!(rt; kind == BodyKind::Put && at == 12);
    assert!(rt; is_put_of_a(&entry));
}

/// The length of the key at a place, and where it ends.
fn key_len(alloc: Global, bytes: &[u8], at: usize) -> Option<(usize, usize)> {
    let (key, end) = read_key(alloc, bytes, at).ok()?;
    Some((key.bytes().len(), end))
}

#[test]
fn entries_are_spelled_as_the_format_says(rt: HostRuntime) {
    for bytes in [PUT, TOMB] {
        check_bytes(&rt, &rewritten(rt.alloc(), &rt, bytes), bytes);
    }
    check_parts(rt.alloc(), &rt);
    assert!(rt; read_place(TOMB, 1).ok() == Some((2, 9)));
    assert!(rt; key_len(rt.alloc(), TOMB, 18) == Some((1, 20)));
}

/// How much of `PUT` is there, and the field that goes past its end.
const CUT: &[(usize, u64)] = &[
    (0, 0),
    (8, 1),
    (9, 9),
    (10, 10),
    (11, 11),
    (19, 12),
    (21, 20),
    (22, 22),
];

/// An entry, a byte that none has at this place, and the field that it stands in.
const CHANGES: &[(&[u8], usize, u8, u64)] = &[
    (PUT, 0, 3, 0),
    (PUT, 1, 0x40, 1),
    (PUT, 8, 0, 1),
    (PUT, 9, 2, 9),
    (PUT, 10, 0, 10),
    (PUT, 20, 0x10, 20),
    (TOMB, 0, 0, 0),
    (TOMB, 9, 0, 9),
    (TOMB, 10, 0x41, 10),
];

/// The bytes have to be refused so.
fn check_refused(alloc: Global, rt: &impl Abort, bytes: &[u8], why: EntryRefused) {
    let found = read(alloc, bytes).err();
    assert!(rt; found == Some(why), "{why:?} of {bytes:?}");
}

#[test]
fn the_first_fault_from_the_left_is_told(rt: HostRuntime) {
    one_spelling();
    for (len, at) in CUT {
        let bytes = cut(&rt, PUT, *len);
        check_refused(rt.alloc(), &rt, bytes, EntryRefused::Short { at: *at });
    }
    for (entry, place, byte, at) in CHANGES {
        let bytes = changed(rt.alloc(), &rt, entry, *place, *byte);
        check_refused(rt.alloc(), &rt, &bytes, EntryRefused::Kind { at: *at });
    }
}

/// A place, and the numbers of one, two, four and eight bytes that begin there.
type Numbers = (usize, Option<u8>, Option<u16>, Option<u32>, Option<u64>);

const NUMBERS: [Numbers; 6] = [
    (
        0,
        Some(1),
        Some(0x0102),
        Some(0x0102_0304),
        Some(0x0102_0304_0506_0708),
    ),
    (
        1,
        Some(2),
        Some(0x0203),
        Some(0x0203_0405),
        Some(0x0203_0405_0607_0809),
    ),
    (2, Some(3), Some(0x0304), Some(0x0304_0506), None),
    (8, Some(9), None, None, None),
    (9, None, None, None, None),
    (10, None, None, None, None),
];

/// Whether the numbers that begin at the place are these.
fn are_at(bytes: &[u8], numbers: Numbers) -> bool {
    let (at, one, two, four, eight) = numbers;
    take_u8(bytes, at) == one
        && take_u16(bytes, at) == two
        && take_u32(bytes, at) == four
        && take_u64(bytes, at) == eight
}

#[test]
fn numbers_have_their_high_byte_first(rt: HostRuntime) {
    for numbers in NUMBERS {
        assert!(rt;
            are_at(b"\x01\x02\x03\x04\x05\x06\x07\x08\x09", numbers),
            "{numbers:?}"
        );
    }
}
