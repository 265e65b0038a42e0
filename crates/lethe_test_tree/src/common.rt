//! Entries, and what two buffers have of them.

use lethe_base::{Body, Entry, Key};
use lethe_mem::Buffer;
use std::alloc::Global;
use std::process::Abort;

/// The key of these bytes.
pub fn key_of(alloc: Global, rt: &impl Abort, bytes: &[u8]) -> Key {
    let bytes = bytes.to_vec(alloc).expect(rt, "memory");
    Key::new(bytes).expect(rt, "a key")
}

/// A tombstone of a key.
pub fn entry_of(key: Key, seq: u64) -> Entry {
    Entry {
        seq,
        key,
        body: Body::Tomb,
        since: Some(seq),
    }
}

/// Puts an entry into a buffer.
pub fn insert<B: Buffer>(rt: &impl Abort, buffer: &mut B, entry: Entry) {
    buffer.reserve(1).expect(rt, "memory");
    buffer.insert(entry);
}

/// Whether both are none, or have one key and one place in the history.
pub fn are_same(one: Option<&Entry>, other: Option<&Entry>) -> bool {
    match (one, other) {
        (Some(one), Some(other)) => one.key == other.key && one.seq == other.seq,
        (None, None) => true,
        _ => false,
    }
}

/// Whether both buffers have the same entry at each place, and none behind the last one.
pub fn have_same_list<A: Buffer, B: Buffer>(one: &A, other: &B) -> bool {
    let count = one.len();
    if other.len() != count {
        return false;
    }
    let mut same = true;
    for place in 0..=count {
        same = same && are_same(one.at(place), other.at(place));
    }
    same
}
