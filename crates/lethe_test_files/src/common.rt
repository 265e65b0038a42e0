//! What several modules share: two pages and their file, keys and erases.

use lethe_base::{Body, Entry, Pending, Range};
use lethe_mem::{Buffer, VecBuffer};
use lethe_test_values::value_of;
use std::alloc::Global;
use std::process::Abort;

/// The puts of `a` with delete key 11 and of `c` with delete key 12.
pub const PAGE_AC: &[u8] =
    b"LP\x01\x01\0\0\0\x02\x01\0\0\0\0\0\0\0\x01\0\x01a\0\0\0\0\0\0\0\x0b\0\x01x\x01\0\0\0\0\0\0\0\x03\0\x01c\0\0\0\0\0\0\0\x0c\0\x01x";

/// The puts of `b` with delete key 15 and of `d` with delete key 30.
pub const PAGE_BD: &[u8] =
    b"LP\x01\x01\0\0\0\x02\x01\0\0\0\0\0\0\0\x02\0\x01b\0\0\0\0\0\0\0\x0f\0\x01x\x01\0\0\0\0\0\0\0\x04\0\x01d\0\0\0\0\0\0\0\x1e\0\x01x";

/// File 3, whose one tile, of the keys from `a` to `d`, has these as its pages 1 and 2.
pub const FILE: &[u8] =
    b"LF\x01\0\0\0\0\0\0\0\x03\0\x01\x01a\x01d\x02\0\0\0\0\0\0\0\x01\x01\0\0\0\x02\0\0\0\0\0\0\0\x03\0\0\0\0\0\0\0\0\x0b\0\0\0\0\0\0\0\x0c\0\0\0\x01\x80\x0c\0@\x02\00\x01\xdc\x88\xef\x05\xe6\xb4-\x95N\x1e<\xce\xe8]\x12E\xb2h\x93<\xf1gAO\x99\x0e|V\x92]\x9cl\0\0\0\0\0\0\0\x02\x01\0\0\0\x02\0\0\0\0\0\0\0\x04\0\0\0\0\0\0\0\0\x0f\0\0\0\0\0\0\0\x1e\0\0\0\x01\x80\x1c\0\xe0\x06\00\x01[S\x8f(\xcd\xd3H\x17W\xba\x95\x98\xd2\xc1\xf9\xd4\xdf\x81\xa1\xdb\x7f\xe6\x1fQW\xb3\xc7r\x8b\xf6\xdb\xd4";

/// A put of the bytes with the delete key, or a tombstone.
pub fn body_of(alloc: Global, rt: &impl Abort, dkey: Option<u64>, bytes: &[u8]) -> Body {
    match dkey {
        Some(dkey) => Body::Put {
            dkey,
            value: value_of(alloc, bytes).expect(rt, "a value"),
        },
        None => Body::Tomb,
    }
}

/// The bytes with another byte at a place.
pub fn changed(alloc: Global, rt: &impl Abort, bytes: &[u8], place: usize, byte: u8) -> Vec<u8> {
    let mut copy = bytes.to_vec(alloc).expect(rt, "memory");
    *copy.get_mut(place).expect(rt, "a place") = byte;
    copy
}

/// An erase at a place and a time, of the delete keys from `lo` up to `hi`.
pub fn erase_of(rt: &impl Abort, seq: u64, time: u64, lo: u64, hi: u64) -> Pending {
    let range = Range::new(lo, hi).expect(rt, "a range");
    Pending { seq, time, range }
}

/// Puts an entry into a buffer.
pub fn insert(rt: &impl Abort, buffer: &mut VecBuffer, entry: Entry) {
    buffer.reserve(1).expect(rt, "memory");
    buffer.insert(entry);
}
