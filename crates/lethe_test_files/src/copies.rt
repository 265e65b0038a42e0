//! Copies of entries.

use lethe_base::{Body, Entry};
use lethe_test_values::{key_of, value_of};
use std::alloc::Global;
use std::process::Abort;

fn put_of(alloc: Global, rt: &impl Abort) -> Entry {
    Entry {
        seq: 7,
        key: key_of(alloc, "key").expect(rt, "a key"),
        body: Body::Put {
            dkey: 5,
            value: value_of(alloc, b"value").expect(rt, "a value"),
        },
        since: Some(3),
    }
}

/// Whether the body is a put of the delete key and the value.
fn is_put(body: &Body, wanted: u64, bytes: &[u8]) -> bool {
    match body {
        Body::Put { dkey, value } => *dkey == wanted && value.bytes() == bytes,
        Body::Tomb => false,
    }
}

/// Whether the entry has the content of `put_of`.
fn is_the_put(entry: &Entry) -> bool {
    entry.seq == 7
        && entry.since == Some(3)
        && entry.key.bytes() == b"key".as_slice()
        && is_put(&entry.body, 5, b"value")
}

fn is_tombstone(body: &Body) -> bool {
    matches!(body, Body::Tomb)
}

#[test]
fn a_copy_has_the_same_content(rt: HostRuntime) {
    let put = put_of(rt.alloc(), &rt).copy().expect(&rt, "memory");
    assert!(rt; is_the_put(&put));
    let tombstone = Body::Tomb.copy().expect(&rt, "memory");
    assert!(rt; is_tombstone(&tombstone));
}
