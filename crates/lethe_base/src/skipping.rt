//! Passing over entries, whose keys and values stay bytes of what they stand in. It takes no memory, and the first fault from
//! the left is told as reading tells it.
ghost use Rattle.std.specs.Prelude.{◌≡◌};
ghost use Rattle.lethe_base.specs.Reading.{body_at, front_at, key_at, value_at};
ghost use Rattle.lethe_base.specs.Skipping.{body_end_at, front_end_at, key_end_at, value_end_at};

use crate::reading::{byte_field, long_field, read_kind, read_place, read_since};
use crate::{BodyKind, EntryRefused, MAX_VALUE, take_u16};

/// Where the key of an entry stands, and so where its front ends.
#[derive(Clone, Copy, Debug, PartialEq, Eq)]
pub struct FrontEnd {
    pub kind: BodyKind,
    /// Where the key begins.
    pub key: usize,
    /// Where the key ends, and the body begins.
    pub end: usize,
}

/// Where the key ends whose byte of length stands at `at`.
#[tactic(auto, unfolding(crate::specs::Reading::key_at))]
fn skip_key(bytes: &[u8], at: usize) -> Result<usize, EntryRefused>
    ensures { result ≡ key_end_at bytes.now at }
{
    let len = byte_field(bytes, at)? as usize;
    if len == 0 {
        return Err(EntryRefused::Kind { at: at as u64 });
    }
    if bytes.len() - (at + 1) < len {
        return Err(EntryRefused::Short { at: at as u64 + 1 });
    }
    Ok(at + 1 + len)
}

/// Where the value ends whose length stands at `at`.
#[tactic(auto, unfolding(crate::specs::Reading::value_at))]
fn skip_value(bytes: &[u8], at: usize) -> Result<usize, EntryRefused>
    ensures { result ≡ value_end_at bytes.now at }
{
    let Some(len) = take_u16(bytes, at) else {
        return Err(EntryRefused::Short { at: at as u64 });
    };
    let len = len as usize;
    if len > MAX_VALUE {
        return Err(EntryRefused::Kind { at: at as u64 });
    }
    if bytes.len() - (at + 2) < len {
        return Err(EntryRefused::Short { at: at as u64 + 2 });
    }
    Ok(at + 2 + len)
}

/// Where the front of the entry that begins at `at` has its key, and where it ends.
#[tactic(auto, unfolding(crate::specs::Reading::front_at))]
pub fn skip_front(bytes: &[u8], at: usize) -> Result<FrontEnd, EntryRefused>
    ensures { result ≡ front_end_at bytes.now at }
{
    let (kind, at) = read_kind(bytes, at)?;
    let (_, at) = read_place(bytes, at)?;
    let (_, at) = read_since(kind, bytes, at)?;
    let end = skip_key(bytes, at)?;
    Ok(FrontEnd {
        kind,
        key: at + 1,
        end,
    })
}

/// Where the body ends that begins at `at`.
#[tactic(auto, unfolding(crate::specs::Reading::body_at))]
pub fn skip_body(kind: BodyKind, bytes: &[u8], at: usize) -> Result<usize, EntryRefused>
    ensures { result ≡ body_end_at kind bytes.now at }
{
    match kind {
        BodyKind::Put => {
            long_field(bytes, at)?;
            skip_value(bytes, at + 8)
        }
        BodyKind::Tomb => Ok(at),
    }
}
