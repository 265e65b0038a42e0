//! Tests of the spelling of pages.
ghost use Rattle.std.specs.Prelude.{IfOk};
ghost use Rattle.lethe_page.specs.Pages.{HasSpelling};

use crate::common::{changed, check_bytes, cut, extended, replaced};
use lethe_base::{Body, Entry};
use lethe_page::{Class, PageRefused, one_page, read_page, write_page};
use std::alloc::Global;
use std::process::Abort;

/// The put of key `a`, delete key 5, value `x` at place 1.
const PUT: &[u8] = b"LP\x01\x01\0\0\0\x01\x01\0\0\0\0\0\0\0\x01\0\x01a\0\0\0\0\0\0\0\x05\0\x01x";

/// The tombstones of keys `a` at place 2 with time 0, and `b` at place 3 with time 2^62.
const TOMBS: &[u8] =
    b"LP\x01\x02\0\0\0\x02\x02\0\0\0\0\0\0\0\x02\x01\0\0\0\0\0\0\0\0\x01a\x02\0\0\0\0\0\0\0\x03\x01\x40\0\0\0\0\0\0\0\x01b";

/// How the bytes are read.
fn read(alloc: Global, bytes: &[u8]) -> Result<(Class, Vec<Entry>), PageRefused>
    ensures { IfOk result (λ page. HasSpelling page.0 page.1.items) }
{
    read_page(alloc, bytes)
}

/// The bytes of a page, written again as they were read.
fn rewritten(alloc: Global, rt: &impl Abort, bytes: &[u8]) -> Vec<u8> {
    let (class, entries) = read(alloc, bytes).expect(rt, "a page");
    write_page(alloc, class, &entries).expect(rt, "a spelling")
}

/// Whether the body is a put of the delete key and the value.
fn is_put(body: &Body, wanted: u64, bytes: &[u8]) -> bool {
    match body {
        Body::Put { dkey, value } => *dkey == wanted && value.bytes() == bytes,
        Body::Tomb => false,
    }
}

/// Whether the entry is that of `PUT`.
fn is_put_of_a(entry: &Entry) -> bool {
    entry.seq == 1
        && entry.since.is_none()
        && entry.key.bytes() == b"a".as_slice()
        && is_put(&entry.body, 5, b"x")
}

#[test]
fn a_page_is_written_as_it_was_read(rt: HostRuntime) {
    check_bytes(&rt, &rewritten(rt.alloc(), &rt, PUT), PUT);
    check_bytes(&rt, &rewritten(rt.alloc(), &rt, TOMBS), TOMBS);
    let (class, entries) = read(rt.alloc(), PUT).expect(&rt, "a page");
    assert!(rt; class == Class::Puts);
    assert!(rt; entries.len() == 1 && entries.iter().all(is_put_of_a));
    one_page();
}

/// A place, the byte that is put there, and why the page is then refused.
type Change = (usize, u8, PageRefused);

const CHANGES_OF_PUT: &[Change] = &[
    (0, b'M', PageRefused::Kind { at: 0 }),
    (1, b'F', PageRefused::Kind { at: 0 }),
    (2, 2, PageRefused::Kind { at: 2 }),
    (3, 0, PageRefused::Kind { at: 3 }),
    (3, 2, PageRefused::Kind { at: 8 }),
    (7, 0, PageRefused::Kind { at: 4 }),
    (7, 2, PageRefused::Short { at: 31 }),
    (8, 2, PageRefused::Kind { at: 8 }),
    (16, 0, PageRefused::Kind { at: 9 }),
    (9, 0x40, PageRefused::Kind { at: 9 }),
    (17, 2, PageRefused::Kind { at: 17 }),
    (18, 0, PageRefused::Kind { at: 18 }),
    (28, 0x10, PageRefused::Kind { at: 28 }),
];

const CHANGES_OF_TOMBS: &[Change] = &[
    (3, 1, PageRefused::Kind { at: 8 }),
    (7, 1, PageRefused::Trailing { at: 28 }),
    (17, 0, PageRefused::Kind { at: 17 }),
    (28, 1, PageRefused::Kind { at: 28 }),
    (45, 1, PageRefused::Kind { at: 38 }),
    (47, b'a', PageRefused::Order { at: 46 }),
    (47, b'A', PageRefused::Order { at: 46 }),
];

/// The bytes have to be refused so.
fn check_refused(alloc: Global, rt: &impl Abort, bytes: &[u8], why: PageRefused) {
    let found = read(alloc, bytes).err();
    assert!(rt; found == Some(why), "{found:?}");
}

fn check_changes(alloc: Global, rt: &impl Abort, bytes: &[u8], changes: &[Change]) {
    for (place, byte, why) in changes {
        let other = changed(alloc, rt, bytes, *place, *byte);
        check_refused(alloc, rt, &other, *why);
    }
}

#[test]
fn other_bytes_are_refused_at_their_field(rt: HostRuntime) {
    check_changes(rt.alloc(), &rt, PUT, CHANGES_OF_PUT);
    check_changes(rt.alloc(), &rt, TOMBS, CHANGES_OF_TOMBS);
    let many = replaced(rt.alloc(), &rt, PUT, 4, &[255; 4]);
    check_refused(rt.alloc(), &rt, &many, PageRefused::Short { at: 31 });
}

/// How much of `PUT` is there, and the field that goes past its end.
const CUTS: &[(usize, u64)] = &[
    (0, 0),
    (1, 0),
    (2, 2),
    (3, 3),
    (7, 4),
    (8, 8),
    (16, 9),
    (17, 17),
    (18, 18),
    (19, 19),
    (27, 20),
    (29, 28),
    (30, 30),
];

/// A count, bytes behind `PUT`, and why the page is then refused.
const LONG: &[(u8, &[u8], PageRefused)] = &[
    (1, b"\0", PageRefused::Trailing { at: 31 }),
    (2, b"\x02", PageRefused::Kind { at: 31 }),
    (
        2,
        b"\x01\0\0\0\0\0\0\0\x02\0\x01a",
        PageRefused::Order { at: 41 },
    ),
    (
        2,
        b"\x01\0\0\0\0\0\0\0\x02\0\x01b",
        PageRefused::Short { at: 43 },
    ),
];

/// The bytes of `PUT` with this count and others behind them.
fn long_page(alloc: Global, rt: &impl Abort, count: u8, behind: &[u8]) -> Vec<u8> {
    let counted = changed(alloc, rt, PUT, 7, count);
    extended(alloc, rt, &counted, behind)
}

#[test]
fn a_cut_page_is_short_at_its_field(rt: HostRuntime) {
    for (len, at) in CUTS {
        let bytes = cut(&rt, PUT, *len);
        check_refused(rt.alloc(), &rt, bytes, PageRefused::Short { at: *at });
    }
    for (count, behind, why) in LONG {
        let long = long_page(rt.alloc(), &rt, *count, behind);
        check_refused(rt.alloc(), &rt, &long, *why);
    }
}
