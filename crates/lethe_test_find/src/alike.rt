//! Looking in the bytes of a page, beside decoding it and looking there.

use lethe_base::{Body, Entry, Key};
use lethe_page::{find_entry, read_page};
use std::alloc::Global;
use std::process::Abort;

pub fn key_of(alloc: Global, rt: &impl Abort, bytes: &[u8]) -> Key {
    let bytes = bytes.to_vec(alloc).expect(rt, "memory");
    Key::new(bytes).expect(rt, "a key")
}

fn is_same_body(one: &Body, other: &Body) -> bool {
    match (one, other) {
        (
            Body::Put { dkey, value },
            Body::Put {
                dkey: other_dkey,
                value: other_value,
            },
        ) => dkey == other_dkey && value.bytes() == other_value.bytes(),
        (Body::Tomb, Body::Tomb) => true,
        _ => false,
    }
}

fn is_same(one: &Entry, other: &Entry) -> bool {
    one.seq == other.seq
        && one.key.bytes() == other.key.bytes()
        && one.since == other.since
        && is_same_body(&one.body, &other.body)
}

fn are_same(one: Option<&Entry>, other: Option<&Entry>) -> bool {
    match (one, other) {
        (Some(one), Some(other)) => is_same(one, other),
        (None, None) => true,
        _ => false,
    }
}

/// Whether looking in the bytes finds what decoding them and looking there finds, or is refused as decoding is.
pub fn finds_alike(alloc: Global, bytes: &[u8], key: &Key) -> bool {
    match (find_entry(alloc, bytes, key), read_page(alloc, bytes)) {
        (Ok(found), Ok((class, entries))) => {
            let entry = entries
                .iter()
                .find(|entry| entry.key.bytes() == key.bytes());
            found.class == class
                && found.entries as usize == entries.len()
                && are_same(found.entry.as_ref(), entry)
        }
        (Err(one), Err(other)) => one == other,
        _ => false,
    }
}

/// The bytes with another byte at a place.
pub fn changed(alloc: Global, rt: &impl Abort, bytes: &[u8], place: usize, byte: u8) -> Vec<u8> {
    let mut copy = bytes.to_vec(alloc).expect(rt, "memory");
    *copy.get_mut(place).expect(rt, "a place") = byte;
    copy
}
