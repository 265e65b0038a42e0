//! Stores of the small configuration on which places or numbers of objects run out.

use crate::common::answered_small;
use crate::unopened::{SEGMENT, add_to, gated};
use std::alloc::Global;
use std::process::Abort;

/// The greatest count and number.
const LAST: u64 = 4_611_686_018_427_387_903;

/// Manifest 2 of the small configuration, up to its count.
const HEAD: &[u8] =
    b"LM\x01\0\0\0\0\0\0\0\x02\0\0\0\0\0\0\0\x64\x02\x02\0\x02\x02\0\x02\0\x04\0\0\0\0\0\0\0\0\0";

/// Segment 1 with no record.
const EMPTY: &[u8] = b"LS\x01\0\0\0\0\0\0\0\x01\0";

/// Counts of changes and next numbers, the status of a put, and what is printed of it.
const ROWS: [(u64, u64, u8, &str); 5] = [
    (LAST, 3, 6, "1 exhausted 4611686018427387903\n"),
    (LAST - 1, 3, 0, "1 ok 4611686018427387903\n"),
    (0, LAST, 6, "open exhausted 4611686018427387903\n"),
    (0, LAST - 1, 6, "open exhausted 4611686018427387903\n"),
    (0, LAST - 2, 0, "1 ok 1\n"),
];

// A put over a store of this count of changes and next number ends and prints so.
fn check_row(alloc: Global, rt: &impl Abort, count: u64, next: u64, status: u8, text: &str) {
    let mut disk = gated(alloc, rt, HEAD, count, next);
    add_to(alloc, rt, &mut disk, SEGMENT, EMPTY);
    answered_small(alloc, rt, "1 put a 5 x\n", disk, status, text);
}

#[test]
fn places_and_numbers_run_out(rt: HostRuntime) {
    for (count, next, status, text) in ROWS {
        check_row(rt.alloc(), &rt, count, next, status, text);
    }
}
