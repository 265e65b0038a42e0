//! Reading the entries of a page.
ghost use Rattle.std.specs.Prelude.{◌≡◌, None};
ghost use Rattle.lethe_base.specs.Reading.{front_at, body_at};
ghost use Rattle.lethe_page.specs.Reading.{Gives, part, last_key, is_above, front_above, entry_above, entries_above};

use crate::head::fixed_byte;
use crate::{Class, PageRefused};
use lethe_base::{Body, BodyKind, Entry, Front, Key, List, read_body, read_front};
use std::alloc::Global;
use std::cmp::Ordering;

fn front_part(alloc: Global, bytes: &[u8], at: usize) -> Result<(Front, usize), PageRefused>
    ensures { Gives result (part (front_at bytes.now at)) }
{
    Ok(read_front(alloc, bytes, at)?)
}

fn body_part(
    alloc: Global,
    kind: BodyKind,
    bytes: &[u8],
    at: usize,
) -> Result<(Body, usize), PageRefused>
    ensures { Gives result (part (body_at kind bytes.now at)) }
{
    Ok(read_body(alloc, kind, bytes, at)?)
}

// Whether the key is above that of the last entry, if there is one.
fn is_above(before: &[Entry], key: &Key) -> bool
    ensures { result ≡ is_above (last_key before.now) key.now }
{
    match before.last() {
        Some(last) => last.key.cmp(key) == Ordering::Less,
        None => true,
    }
}

// The front of an entry of the class that begins at `at`, whose key is above those of the entries before.
#[tactic(auto, unfolding(crate::specs::Reading::front_above))]
fn read_front_above(
    alloc: Global,
    class: Class,
    before: &[Entry],
    bytes: &[u8],
    at: usize,
) -> Result<(Front, usize), PageRefused>
    ensures { Gives result (front_above class (last_key before.now) bytes.now at) }
{
    fixed_byte(class.byte(), bytes, at)?;
    let (front, end) = front_part(alloc, bytes, at)?;
    if is_above(before, &front.key) {
        Ok((front, end))
    } else {
        let len = front.key.bytes().len();
        Err(PageRefused::Order {
            at: (end as u64).saturating_sub(len as u64).saturating_sub(1),
        })
    }
}

#[tactic(auto, unfolding(crate::specs::Reading::entry_above))]
fn read_entry_above(
    alloc: Global,
    class: Class,
    before: &[Entry],
    bytes: &[u8],
    at: usize,
) -> Result<(Entry, usize), PageRefused>
    ensures { Gives result (entry_above class (last_key before.now) bytes.now at) }
{
    let (front, at) = read_front_above(alloc, class, before, bytes, at)?;
    let (body, end) = body_part(alloc, front.kind, bytes, at)?;
    Ok((front.with(body), end))
}

/// The entries, and where the last one ends. Memory is taken as they are read, not on the word of `count`.
pub fn read_entries(
    alloc: Global,
    class: Class,
    count: u32,
    bytes: &[u8],
) -> Result<(List<Entry>, usize), PageRefused>
    ensures { Gives result (entries_above class count None bytes.now 8) }
{
    let mut entries = Vec::new(alloc);
    let mut at = 8;
    'entries: while entries.len() < count as usize {
        let (entry, end) = read_entry_above(alloc, class, &entries, bytes, at)?;
        entries.push(entry)?;
        at = end;
    }
    Ok((List::of(entries), at))
}
