//! What the tests of several libraries share.

use lethe_base::{Config, Fields, Pick};
use lethe_test_values::SMALL;
use std::alloc::Global;
use std::process::Abort;

/// The small configuration with this pick.
pub(crate) fn small(rt: &impl Abort, pick: Pick) -> Config {
    Config::new(Fields { pick, ..SMALL }).expect(rt, "a configuration")
}

/// The bytes with another byte at a place.
pub(crate) fn changed(
    alloc: Global,
    rt: &impl Abort,
    bytes: &[u8],
    place: usize,
    byte: u8,
) -> Vec<u8> {
    let mut copy = bytes.to_vec(alloc).expect(rt, "memory");
    *copy.get_mut(place).expect(rt, "a place") = byte;
    copy
}

/// So many of the first bytes.
pub(crate) fn cut<'a>(rt: &impl Abort, bytes: &'a [u8], len: usize) -> &'a [u8] {
    bytes.get(..len).expect(rt, "a cut")
}

/// The bytes with others behind them.
pub(crate) fn extended(alloc: Global, rt: &impl Abort, bytes: &[u8], behind: &[u8]) -> Vec<u8> {
    let mut long = bytes.to_vec(alloc).expect(rt, "memory");
    long.extend_from_slice(behind).expect(rt, "memory");
    long
}

/// The bytes with others in place of those from a place on.
pub(crate) fn replaced(
    alloc: Global,
    rt: &impl Abort,
    bytes: &[u8],
    place: usize,
    others: &[u8],
) -> Vec<u8> {
    let mut copy = extended(alloc, rt, cut(rt, bytes, place), others);
    let rest = bytes.get(copy.len()..).expect(rt, "bytes");
    copy.extend_from_slice(rest).expect(rt, "memory");
    copy
}

/// The bytes have to be these.
pub(crate) fn check_bytes(rt: &impl Abort, found: &[u8], wanted: &[u8]) {
    assert!(rt; found == wanted, "{found:?}");
}
