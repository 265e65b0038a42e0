//! A buffer of entries.

use crate::common::insert;
use lethe_base::{Body, Entry, Key};
use lethe_mem::{Buffer, VecBuffer, first_from};
use lethe_test_values::{key_of, value_of};
use std::alloc::Global;
use std::process::Abort;

/// The entries that are put, by their places and keys.
const PUTS: [(u64, &str); 7] = [
    (1, "m"),
    (2, "c"),
    (3, "x"),
    (4, "c"),
    (5, "a"),
    (6, "xx"),
    (7, "m"),
];

/// A key of the buffer, in its order, the place of its entry, and how many keys stand below it in the copy.
const KEPT: [(&str, u64, usize); 5] = [
    ("a", 5, 0),
    ("c", 4, 2),
    ("m", 7, 3),
    ("x", 3, 4),
    ("xx", 6, 5),
];

/// A put of the key at a place, which is its delete key too.
fn put_of(alloc: Global, rt: &impl Abort, key: &str, seq: u64) -> Entry {
    Entry {
        seq,
        key: key_of(alloc, key).expect(rt, "a key"),
        body: Body::Put {
            dkey: seq,
            value: value_of(alloc, b"").expect(rt, "a value"),
        },
        since: None,
    }
}

fn seq_of(entry: Option<&Entry>) -> Option<u64> {
    entry.map(|entry| entry.seq)
}

/// The buffer of the entries that are put.
fn filled(alloc: Global, rt: &impl Abort) -> VecBuffer {
    let mut buffer = VecBuffer::new(alloc);
    for (seq, key) in PUTS {
        insert(rt, &mut buffer, put_of(alloc, rt, key, seq));
    }
    buffer
}

/// A copy of the buffer, into which two entries more are put.
fn copy_with_more(alloc: Global, rt: &impl Abort, buffer: &VecBuffer) -> VecBuffer {
    let mut copy = buffer.copy().expect(rt, "memory");
    insert(rt, &mut copy, put_of(alloc, rt, "b", 8));
    insert(rt, &mut copy, put_of(alloc, rt, "m", 9));
    copy
}

/// Whether the key stands at the place in the buffer's order, and its entry's place is that one.
fn has_at(buffer: &VecBuffer, key: &Key, place: usize, seq: u64) -> bool {
    first_from(buffer, key) == place
        && seq_of(buffer.find(key)) == Some(seq)
        && seq_of(buffer.at(place)) == Some(seq)
}

fn check_kept(alloc: Global, rt: &impl Abort, buffer: &VecBuffer, copy: &VecBuffer) {
    for (place, (text, seq, lower)) in KEPT.into_iter().enumerate() {
        let key = key_of(alloc, text).expect(rt, "a key");
        let kept = has_at(buffer, &key, place, seq) && first_from(copy, &key) == lower;
        assert!(rt; kept, "{text}");
    }
}

fn check_absent(alloc: Global, rt: &impl Abort, buffer: &VecBuffer) {
    for text in ["b", "aa", "y"] {
        let key = key_of(alloc, text).expect(rt, "a key");
        assert!(rt; buffer.find(&key).is_none(), "{text}");
    }
}

/// Whether the copy has the two entries more, of which one replaces an earlier one.
fn has_more(copy: &VecBuffer, replaced: &Key) -> bool {
    copy.len() == 6
        && !copy.is_empty()
        && seq_of(copy.at(2)) == Some(4)
        && seq_of(copy.find(replaced)) == Some(9)
}

/// Whether the buffer has five entries, all before the key.
fn ends_before(buffer: &VecBuffer, key: &Key) -> bool {
    buffer.len() == 5 && buffer.at(5).is_none() && first_from(buffer, key) == 5
}

fn is_without_entries(buffer: &VecBuffer) -> bool {
    buffer.is_empty() && buffer.at(0).is_none()
}

#[test]
fn a_buffer_keeps_the_last_entry_of_each_key_in_order(rt: HostRuntime) {
    let alloc = rt.alloc();
    assert!(rt; is_without_entries(&VecBuffer::new(alloc)));
    let buffer = filled(alloc, &rt);
    let copy = copy_with_more(alloc, &rt, &buffer);
    check_kept(alloc, &rt, &buffer, &copy);
    check_absent(alloc, &rt, &buffer);
    assert!(rt; has_more(&copy, &key_of(alloc, "m").expect(&rt, "a key")));
    assert!(rt; ends_before(&buffer, &key_of(alloc, "y").expect(&rt, "a key")));
}
