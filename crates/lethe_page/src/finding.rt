//! Looking for a key in the bytes of a page, without memory for the entries that are passed over.
ghost use Rattle.std.specs.Prelude.{◌≡◌, List, None, IfSome, Err, MatchResult};
ghost use Rattle.lethe_base.specs.Keys.{Bytes, same_key};
ghost use Rattle.lethe_base.specs.Skipping.{body_end_at, front_end_at};
ghost use Rattle.lethe_base.specs.declared.entry.Entry.{Entry};
ghost use Rattle.lethe_page.specs.Finding.{ArePassed, IsPlaceOf, IsWithin, entry_of, found_in, key_at, key_in, passed_at};
ghost use Rattle.lethe_page.specs.Reading.{Gives, entries_above, is_above, part};
ghost use Rattle.lethe_page.specs.declared.refused.PageRefused.TheVariants.{NoMemory};

use crate::head::{fixed_byte, read_head};
use crate::{Class, PageRefused};
use lethe_base::{BodyKind, Entry, FrontEnd, Key, read_entry, skip_body, skip_front};
use std::alloc::Global;
use std::cmp::Ordering;

/// What a page has of a key.
#[derive(Debug, Drop)]
pub struct Found {
    pub class: Class,
    /// How many entries the page has.
    pub entries: u32,
    /// The entry of the key, if there is one.
    pub entry: Option<Entry>,
}

/// Where the key of an entry stands, and where the entry ends.
#[derive(Clone, Copy, Debug, PartialEq, Eq)]
pub(crate) struct Passed {
    pub front: FrontEnd,
    pub end: usize,
}

/// The bytes of the key of an entry.
fn key_of<'a>(bytes: &'a [u8], front: &FrontEnd) -> &'a [u8]
    requires { IsWithin bytes.now front.now }
    ensures { result.now ≡ key_at bytes.now front.now }
{
    &bytes[front.key..front.end]
}

// Whether it is the key.
fn is_key(bytes: &[u8], front: &FrontEnd, key: &Key) -> bool
    requires { IsWithin bytes.now front.now }
    ensures { result ≡ same_key (key_at bytes.now front.now) key.now }
{
    key_of(bytes, front).cmp(key.bytes()) == Ordering::Equal
}

// Whether the key is above that of the last entry, if there is one.
fn is_above(bytes: &[u8], last: &Option<FrontEnd>, front: &FrontEnd) -> bool
    requires last { IfSome last.now (IsWithin bytes.now) }
    requires front { IsWithin bytes.now front.now }
    ensures { result ≡ is_above (key_in bytes.now last.now) (key_at bytes.now front.now) }
{
    match last {
        Some(last) => key_of(bytes, last).cmp(key_of(bytes, front)) == Ordering::Less,
        None => true,
    }
}

fn pass_front(bytes: &[u8], at: usize) -> Result<FrontEnd, PageRefused>
    ensures { result ≡ part (front_end_at bytes.now at) }
{
    Ok(skip_front(bytes, at)?)
}

fn pass_body(kind: BodyKind, bytes: &[u8], at: usize) -> Result<usize, PageRefused>
    ensures { result ≡ part (body_end_at kind bytes.now at) }
{
    Ok(skip_body(kind, bytes, at)?)
}

// Passes over the entry of the class that begins at `at`, whose key is above that of the last entry, if there is one.
fn pass_entry(
    class: Class,
    last: &Option<FrontEnd>,
    bytes: &[u8],
    at: usize,
) -> Result<Passed, PageRefused>
    requires { IfSome last.now (IsWithin bytes.now) }
    ensures { result ≡ passed_at class (key_in bytes.now last.now) bytes.now at }
{
    fixed_byte(class.byte(), bytes, at)?;
    let front = pass_front(bytes, at)?;
    if !is_above(bytes, last, &front) {
        return Err(PageRefused::Order {
            at: (front.key as u64).saturating_sub(1),
        });
    }
    let end = pass_body(front.kind, bytes, front.end)?;
    Ok(Passed { front, end })
}

// Where the entry of the key begins, if there is one, and where the last entry ends.
fn find_place(
    class: Class,
    count: u32,
    bytes: &[u8],
    key: &Key,
) -> Result<(Option<usize>, usize), PageRefused>
    ensures { MatchResult result (λ found. ArePassed class count key.now bytes.now found.0 found.1)
        (λ why. entries_above class count None bytes.now 8 ≡ Err why) }
{
    let mut found = None;
    let mut last = None;
    let mut at = 8;
    let mut passed = 0;
    'entries: while passed < count {
        let entry = pass_entry(class, &last, bytes, at)?;
        if found.is_none() && is_key(bytes, &entry.front, key) {
            found = Some(at);
        }
        last = Some(entry.front);
        at = entry.end;
        passed += 1;
    }
    Ok((found, at))
}

// The entry that begins at the place, if there is a place.
fn read_there(
    alloc: Global,
    bytes: &[u8],
    place: Option<usize>,
) -> Result<Option<Entry>, PageRefused>
    ensures { (key : Bytes) (entries : List Entry) → IsPlaceOf key bytes.now entries place
        → MatchResult result (λ entry. entry ≡ entry_of key entries) (λ why. why ≡ NoMemory) }
{
    match place {
        Some(at) => Ok(Some(read_entry(alloc, bytes, at)?.0)),
        None => Ok(None),
    }
}

/// What the page has of the key; it is looked through to its end. Memory is taken for the one entry that is found.
pub fn find_entry(alloc: Global, bytes: &[u8], key: &Key) -> Result<Found, PageRefused>
    // What decoding the page and looking there finds, or the first fault from the left.
    ensures { Gives result (found_in key.now bytes.now) }
{
    let (class, entries) = read_head(bytes)?;
    let (place, end) = find_place(class, entries, bytes, key)?;
    if end < bytes.len() {
        return Err(PageRefused::Trailing { at: end as u64 });
    }
    let entry = read_there(alloc, bytes, place)?;
    Ok(Found {
        class,
        entries,
        entry,
    })
}
