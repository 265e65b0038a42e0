//! Reading entries. A field is tested as soon as it is read whole, and the first fault from the left is told.
ghost use Rattle.std.specs.Prelude.{◌≡◌, ℕ, length, IfOk, MatchResult};
ghost use Rattle.std.specs.Int.{w8, w16, w64};
ghost use Rattle.lethe_base.specs.Spelling.{entry_bytes, HasSpelling};
ghost use Rattle.lethe_base.specs.Reading.{Gives, StandsAt, field_at, kind_at, place_at, since_at, key_at, value_at, front_at, body_at, entry_at};
ghost use Rattle.lethe_base.specs.declared.entry.Entry.{Entry};
ghost use Rattle.lethe_base.specs.declared.reading.EntryRefused.TheVariants.{NoMemory};

use crate::{
    Body, BodyKind, Entry, Front, Key, MAX_PLACE, MAX_TIME, MAX_VALUE, Value, take_u8, take_u16,
    take_u64,
};
use std::alloc::{AllocError, AllocFailed, Global};

/// Why an entry could not be read. `at` is where the field begins.
#[derive(Clone, Copy, Debug, PartialEq, Eq)]
pub enum EntryRefused {
    /// The field goes past the end.
    Short { at: u64 },
    /// No entry has this in the field: a kind that is neither 1 nor 2, a place of 0 or above `MAX_PLACE`, a mark that
    /// isn't allowed, a time above `MAX_TIME`, a key's length of 0, or a value's above 4,096.
    Kind { at: u64 },
    /// There was no memory for the key or the value.
    NoMemory,
}

impl From<AllocError> for EntryRefused {
    ghost from_gives = { λ _ why. why ≡ NoMemory };

    fn from(_: AllocError) -> Self {
        EntryRefused::NoMemory
    }
}

pub(crate) fn byte_field(bytes: &[u8], at: usize) -> Result<u8, EntryRefused>
    ensures { result ≡ field_at w8 bytes.now at }
{
    take_u8(bytes, at).ok_or(EntryRefused::Short { at: at as u64 })
}

pub(crate) fn long_field(bytes: &[u8], at: usize) -> Result<u64, EntryRefused>
    ensures { result ≡ field_at w64 bytes.now at }
{
    take_u64(bytes, at).ok_or(EntryRefused::Short { at: at as u64 })
}

#[tactic(auto, unfolding(crate::specs::Reading::kind_at))]
pub(crate) fn read_kind(bytes: &[u8], at: usize) -> Result<(BodyKind, usize), EntryRefused>
    ensures { result ≡ kind_at bytes.now at }
{
    match byte_field(bytes, at)? {
        1 => Ok((BodyKind::Put, at + 1)),
        2 => Ok((BodyKind::Tomb, at + 1)),
        _ => Err(EntryRefused::Kind { at: at as u64 }),
    }
}

/// The place of a change, from 1 to `MAX_PLACE`, whose eight bytes begin at `at`, and where it ends.
#[tactic(auto, unfolding(crate::specs::Reading::place_at))]
pub fn read_place(bytes: &[u8], at: usize) -> Result<(u64, usize), EntryRefused>
    ensures { result ≡ place_at bytes.now at }
{
    let seq = long_field(bytes, at)?;
    if 0 < seq && seq <= MAX_PLACE {
        Ok((seq, at + 8))
    } else {
        Err(EntryRefused::Kind { at: at as u64 })
    }
}

#[tactic(auto, unfolding(crate::specs::Reading::since_at))]
pub(crate) fn read_since(
    kind: BodyKind,
    bytes: &[u8],
    at: usize,
) -> Result<(Option<u64>, usize), EntryRefused>
    ensures { result ≡ since_at kind bytes.now at }
{
    match (byte_field(bytes, at)?, kind) {
        (1, _) => {
            let time = long_field(bytes, at + 1)?;
            if time <= MAX_TIME {
                Ok((Some(time), at + 9))
            } else {
                Err(EntryRefused::Kind { at: at as u64 + 1 })
            }
        }
        (0, BodyKind::Put) => Ok((None, at + 1)),
        _ => Err(EntryRefused::Kind { at: at as u64 }),
    }
}

/// The key whose byte of length stands at `at`, and where it ends.
#[tactic(auto, unfolding(crate::specs::Reading::key_at))]
pub fn read_key(alloc: Global, bytes: &[u8], at: usize) -> Result<(Key, usize), EntryRefused>
    ensures { Gives result (key_at bytes.now at) }
{
    let len = byte_field(bytes, at)? as usize;
    if len == 0 {
        return Err(EntryRefused::Kind { at: at as u64 });
    }
    let Some(key) = bytes[at + 1..].get(..len) else {
        return Err(EntryRefused::Short { at: at as u64 + 1 });
    };
    let key = Key::new(Vec::from_slice(alloc, key)?).unwrap();
    Ok((key, at + 1 + len))
}

#[tactic(auto, unfolding(crate::specs::Reading::value_at))]
fn read_value(alloc: Global, bytes: &[u8], at: usize) -> Result<(Value, usize), EntryRefused>
    ensures { Gives result (value_at bytes.now at) }
{
    let Some(len) = take_u16(bytes, at) else {
        return Err(EntryRefused::Short { at: at as u64 });
    };
    let len = len as usize;
    if len > MAX_VALUE {
        return Err(EntryRefused::Kind { at: at as u64 });
    }
    let Some(value) = bytes[at + 2..].get(..len) else {
        return Err(EntryRefused::Short { at: at as u64 + 2 });
    };
    let value = Value::new(Vec::from_slice(alloc, value)?).unwrap();
    Ok((value, at + 2 + len))
}

/// The front of the entry that begins at `at`, and where its body begins.
#[tactic(auto, unfolding(crate::specs::Reading::front_at))]
pub fn read_front(alloc: Global, bytes: &[u8], at: usize) -> Result<(Front, usize), EntryRefused>
    ensures { Gives result (front_at bytes.now at) }
{
    let (kind, at) = read_kind(bytes, at)?;
    let (seq, at) = read_place(bytes, at)?;
    let (since, at) = read_since(kind, bytes, at)?;
    let (key, at) = read_key(alloc, bytes, at)?;
    Ok((
        Front {
            kind,
            seq,
            since,
            key,
        },
        at,
    ))
}

/// The body that begins at `at`, and where it ends.
#[tactic(auto, unfolding(crate::specs::Reading::body_at))]
pub fn read_body(
    alloc: Global,
    kind: BodyKind,
    bytes: &[u8],
    at: usize,
) -> Result<(Body, usize), EntryRefused>
    ensures { Gives result (body_at kind bytes.now at) }
{
    match kind {
        BodyKind::Put => {
            let dkey = long_field(bytes, at)?;
            let (value, end) = read_value(alloc, bytes, at + 8)?;
            Ok((Body::Put { dkey, value }, end))
        }
        BodyKind::Tomb => Ok((Body::Tomb, at)),
    }
}

#[tactic(auto, unfolding(crate::specs::Reading::entry_at))]
fn read_parts(alloc: Global, bytes: &[u8], at: usize) -> Result<(Entry, usize), EntryRefused>
    ensures { Gives result (entry_at bytes.now at) }
{
    let (front, at) = read_front(alloc, bytes, at)?;
    let (body, end) = read_body(alloc, front.kind, bytes, at)?;
    Ok((front.with(body), end))
}

/// The entry that begins at `at`, of either kind, and where it ends.
pub fn read_entry(alloc: Global, bytes: &[u8], at: usize) -> Result<(Entry, usize), EntryRefused>
    // What is read stands there, spelled so.
    ensures found { IfOk result (λ read. HasSpelling read.0
        × StandsAt (entry_bytes read.0) bytes.now at read.1) }

    // What stands there, spelled so, is read, whatever follows.
    ensures only { (entry : Entry) (end : ℕ) → HasSpelling entry → StandsAt (entry_bytes entry) bytes.now at end
        → MatchResult result (λ read. read ≡ (entry, end)) (λ why. why ≡ EntryRefused.NoMemory) }

    // Else it is the first fault from the left.
    ensures exact { Gives result (entry_at bytes.now at) }
{
    read_parts(alloc, bytes, at)
}
