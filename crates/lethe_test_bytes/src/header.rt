//! Tests of the spelling of file headers.
ghost use Rattle.std.specs.Prelude.{IfOk};
ghost use Rattle.lethe_header.specs.Headers.{HasSpelling};

use crate::common::{changed, check_bytes, cut, extended};
use lethe_base::FileFacts;
use lethe_header::{Header, HeaderRefused, one_header, read_header, write_header};
use std::alloc::Global;
use std::process::Abort;

/// File 7. Its tile, of the keys from `a` to `d`, has page 5 of a tombstone and page 6 of two puts.
const FILE: &[u8] =
    b"LF\x01\0\0\0\0\0\0\0\x07\0\x01\x01a\x01d\x02\0\0\0\0\0\0\0\x05\x02\0\0\0\x01\0\0\0\0\0\0\0\x09\x01\0\0\0\0\0\0\0\x03\0\0\0\x01\0\x08\0\x40\x02\0\x30\x01tttttttttttttttttttttttttttttttt\0\0\0\0\0\0\0\x06\x01\0\0\0\x02\0\0\0\0\0\0\0\x08\0\0\0\0\0\0\0\0\x0b\0\0\0\0\0\0\0\x0d\0\0\0\x01\0\x08\0\x40\x02\0\x30\x01pppppppppppppppppppppppppppppppp";

/// The line of a page of one put with delete key 11.
const LINE: &[u8] =
    b"\0\0\0\0\0\0\0\x06\x01\0\0\0\x01\0\0\0\0\0\0\0\x08\0\0\0\0\0\0\0\0\x0b\0\0\0\0\0\0\0\x0b\0\0\0\x01\0\x08\0\x40\x02\0\x30\x01pppppppppppppppppppppppppppppppp";

/// File 4 with the page of one put of the key `a`, at place 1 with delete key 5, whose number is 3.
const ONE_PUT: &[u8] =
    b"LF\x01\0\0\0\0\0\0\0\x04\0\x01\x01a\x01a\x01\0\0\0\0\0\0\0\x03\x01\0\0\0\x01\0\0\0\0\0\0\0\x01\0\0\0\0\0\0\0\0\x05\0\0\0\0\0\0\0\x05\0\0\0\x01\0\x08\0\x40\x02\0\x30\x01\xe5\x53\xe0\xa5\x7f\x77\x05\xe6\xa6\x8b\x02\x2c\x96\x57\x08\xfc\x9d\x32\xd9\x40\xda\x62\x1a\x48\xbb\x3c\x13\x89\x09\x52\x0f\x98";

/// How the bytes are read.
fn read(alloc: Global, bytes: &[u8]) -> Result<Header, HeaderRefused>
    ensures { IfOk result HasSpelling }
{
    read_header(alloc, bytes)
}

/// The bytes of a header, written again as they were read.
fn rewritten(alloc: Global, rt: &impl Abort, bytes: &[u8]) -> Vec<u8> {
    let header = read(alloc, bytes).expect(rt, "a header");
    write_header(alloc, &header).expect(rt, "a spelling")
}

#[test]
fn the_header_of_one_put_is_written_as_it_was_read(rt: HostRuntime) {
    let written = rewritten(rt.alloc(), &rt, ONE_PUT);
    check_bytes(&rt, &written, ONE_PUT);
}

#[test]
fn a_header_is_written_as_it_was_read(rt: HostRuntime) {
    let written = rewritten(rt.alloc(), &rt, FILE);
    check_bytes(&rt, &written, FILE);
    one_header();
}

/// What `FILE` tells of itself on level 1, swept to place 4.
fn facts_of_file(alloc: Global, rt: &impl Abort) -> FileFacts {
    let header = read(alloc, FILE).expect(rt, "a header");
    header.facts(1, 4).expect(rt, "memory")
}

#[test]
fn facts_are_those_of_all_lines(rt: HostRuntime) {
    let facts = facts_of_file(rt.alloc(), &rt);
    assert!(rt; facts.no == 7 && facts.level == 1 && facts.swept == 4);
    check_bytes(&rt, facts.lo.bytes(), b"a");
    check_bytes(&rt, facts.hi.bytes(), b"d");
    assert!(rt; facts.oldest == Some(3) && facts.tombs == 1);
    assert!(rt; facts.entries == 3 && facts.max_seq == 9);
}

/// A place, the byte that is put there, and why the header is then refused.
const CHANGES: &[(usize, u8, HeaderRefused)] = &[
    (0, b'M', HeaderRefused::Kind { at: 0 }),
    (2, 2, HeaderRefused::Kind { at: 2 }),
    (3, 0x40, HeaderRefused::Kind { at: 3 }),
    (11, 1, HeaderRefused::Kind { at: 11 }),
    (12, 0, HeaderRefused::Kind { at: 11 }),
    (12, 2, HeaderRefused::Short { at: 174 }),
    (13, 0, HeaderRefused::Kind { at: 13 }),
    (14, b'e', HeaderRefused::Order { at: 15 }),
    (17, 0, HeaderRefused::Kind { at: 17 }),
    (17, 66, HeaderRefused::Kind { at: 17 }),
    (17, 1, HeaderRefused::Trailing { at: 92 }),
    (17, 3, HeaderRefused::Short { at: 174 }),
    (18, 0x40, HeaderRefused::Kind { at: 18 }),
    (26, 3, HeaderRefused::Kind { at: 26 }),
    (26, 1, HeaderRefused::Kind { at: 64 }),
    (27, 1, HeaderRefused::Order { at: 27 }),
    (30, 0, HeaderRefused::Kind { at: 27 }),
    (31, 0x40, HeaderRefused::Kind { at: 31 }),
    (38, 0, HeaderRefused::Kind { at: 31 }),
    (39, 2, HeaderRefused::Kind { at: 39 }),
    (40, 0x41, HeaderRefused::Kind { at: 40 }),
    (51, 2, HeaderRefused::Kind { at: 48 }),
    (100, 2, HeaderRefused::Order { at: 100 }),
    (102, 1, HeaderRefused::Order { at: 101 }),
    (121, 0x0e, HeaderRefused::Order { at: 122 }),
    (129, 0x0a, HeaderRefused::Order { at: 122 }),
];

/// The bytes have to be refused so, or be read where there is no reason.
fn check_read(alloc: Global, rt: &impl Abort, bytes: &[u8], why: Option<HeaderRefused>) {
    let found = read(alloc, bytes).err();
    assert!(rt; found == why, "{found:?}");
}

#[test]
fn other_bytes_are_refused_at_their_field(rt: HostRuntime) {
    for (place, byte, why) in CHANGES {
        let bytes = changed(rt.alloc(), &rt, FILE, *place, *byte);
        check_read(rt.alloc(), &rt, &bytes, Some(*why));
    }
}

/// How much of `FILE` is there, and the field that goes past its end.
const CUTS: &[(usize, u64)] = &[
    (1, 0),
    (2, 2),
    (10, 3),
    (12, 11),
    (13, 13),
    (14, 14),
    (16, 16),
    (17, 17),
    (25, 18),
    (26, 26),
    (30, 27),
    (38, 31),
    (39, 39),
    (47, 40),
    (51, 48),
    (59, 52),
    (91, 60),
    (121, 114),
    (129, 122),
    (173, 142),
];

#[test]
fn a_cut_header_is_short_at_its_field(rt: HostRuntime) {
    for (len, at) in CUTS {
        let why = HeaderRefused::Short { at: *at };
        check_read(rt.alloc(), &rt, cut(&rt, FILE, *len), Some(why));
    }
    let long = extended(rt.alloc(), &rt, FILE, &[0]);
    let why = HeaderRefused::Trailing { at: 174 };
    check_read(rt.alloc(), &rt, &long, Some(why));
}

/// How many lines like `LINE` the first tile has, the least key of the second, the delete key of the first line, and why
/// the header is refused, if it is.
const TILES: &[(u8, u8, u8, Option<HeaderRefused>)] = &[
    (64, b'e', 0x0b, None),
    (65, b'e', 0x0b, Some(HeaderRefused::Order { at: 5274 })),
    (64, b'd', 0x0b, Some(HeaderRefused::Order { at: 5266 })),
    (64, b'e', 0x0c, Some(HeaderRefused::Order { at: 122 })),
];

/// File 7 with a tile of so many lines, the first of them with this delete key.
fn one_tile(alloc: Global, rt: &impl Abort, count: u8, dkey: u8) -> Vec<u8> {
    let mut bytes = changed(alloc, rt, cut(rt, FILE, 17), 12, 2);
    bytes.push(count).expect(rt, "memory");
    for _ in 0..count {
        bytes.extend_from_slice(LINE).expect(rt, "memory");
    }
    changed(alloc, rt, &bytes, 55, dkey)
}

/// The same with a tile of one line behind it, from this key on.
fn two_tiles(alloc: Global, rt: &impl Abort, count: u8, lo: u8, dkey: u8) -> Vec<u8> {
    let bytes = one_tile(alloc, rt, count, dkey);
    let bytes = extended(alloc, rt, &bytes, &[1, lo, 1, b'e', 1]);
    extended(alloc, rt, &bytes, LINE)
}

#[test]
fn the_rules_of_tiles_hold_over_several_lines(rt: HostRuntime) {
    for (count, lo, dkey, why) in TILES {
        let bytes = two_tiles(rt.alloc(), &rt, *count, *lo, *dkey);
        check_read(rt.alloc(), &rt, &bytes, *why);
    }
}
