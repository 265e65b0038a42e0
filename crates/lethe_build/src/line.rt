//! What a page's line says of its entries.
ghost use Rattle.std.specs.Prelude.{◌≡◌, max, fold, IfOk};
ghost use Rattle.lethe_base.specs.Shapes.{earlier, oldest_of};
ghost use Rattle.lethe_file.specs.Agreement.{fence_of, fence_with, keys_of};
ghost use Rattle.lethe_build.specs.Built.{class_of, class_of_body};

use lethe_base::{Body, Entry, Key, NoMemory};
use lethe_page::Class;
use std::alloc::Global;

/// The class of the entries, by the first of them.
pub fn class_of(entries: &[Entry]) -> Class
    ensures { result ≡ class_of entries.now }
{
    match entries.first() {
        Some(entry) => class_of_body(&entry.body),
        None => Class::Puts,
    }
}

fn class_of_body(body: &Body) -> Class
    ensures { result ≡ class_of_body body.now }
{
    match body {
        Body::Put { .. } => Class::Puts,
        Body::Tomb => Class::Tombs,
    }
}

/// The greatest place of an entry, 0 where there are none.
pub fn max_seq_of(entries: &[Entry]) -> u64
    ensures { result ≡ fold (λ most entry. max most entry.seq) 0 entries.now }
{
    let mut most = 0;
    for entry in entries {
        most = most.max(entry.seq);
    }
    most
}

/// The least time that an entry has.
pub fn oldest_of(entries: &[Entry]) -> Option<u64>
    ensures { result ≡ oldest_of entries.now }
{
    let mut oldest = None;
    for entry in entries {
        oldest = earlier(oldest, entry.since);
    }
    oldest
}

/// The smaller of two times, where there are any.
fn earlier(time: Option<u64>, other: Option<u64>) -> Option<u64>
    ensures { result ≡ earlier time other }
{
    match (time, other) {
        (Some(time), Some(other)) => Some(time.min(other)),
        (Some(time), None) => Some(time),
        (None, other) => other,
    }
}

/// The least and the greatest delete key, where there are puts.
pub fn fence_of(entries: &[Entry]) -> Option<(u64, u64)>
    ensures { result ≡ fence_of entries.now }
{
    let mut fence = None;
    for entry in entries {
        fence = fence_with(fence, &entry.body);
    }
    fence
}

fn fence_with(fence: Option<(u64, u64)>, body: &Body) -> Option<(u64, u64)>
    ensures { result ≡ fence_with fence body.now }
{
    match (fence, body) {
        (None, Body::Put { dkey, .. }) => Some((*dkey, *dkey)),
        (Some((lo, hi)), Body::Put { dkey, .. }) => Some((lo.min(*dkey), hi.max(*dkey))),
        (fence, Body::Tomb) => fence,
    }
}

/// The keys, taken from the entries.
pub fn keys_of(alloc: Global, entries: Vec<Entry>) -> Result<Vec<Key>, NoMemory>
    ensures { IfOk result (λ keys. keys.items ≡ keys_of entries.items) }
{
    let mut keys = Vec::with_capacity(alloc, entries.len())?;
    for entry in entries {
        keys.push(entry.key)?;
    }
    Ok(keys)
}
