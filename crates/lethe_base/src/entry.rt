//! What the store keeps of a key.
ghost use Rattle.std.specs.Prelude.{◌≡◌, IfOk};

use crate::{Key, NoMemory, Value};

/// What an entry says of its key.
#[derive(Debug, Drop)]
pub enum Body {
    /// The key was put, with this delete key and value.
    Put { dkey: u64, value: Value },
    /// The key was deleted.
    Tomb,
}

impl Body {
    /// A body of the same content.
    pub fn copy(&self) -> Result<Body, NoMemory>
        ensures { IfOk result (λ body. body ≡ self.now) }
    {
        match self {
            Body::Put { dkey, value } => Ok(Body::Put {
                dkey: *dkey,
                value: value.copy()?,
            }),
            Body::Tomb => Ok(Body::Tomb),
        }
    }
}

/// What was said of a key at the place `seq` of the history. `since` is the oldest time at which a value of the key that
/// may still lie below this entry was erased; a tombstone always has one.
#[derive(Debug, Drop)]
pub struct Entry {
    pub seq: u64,
    pub key: Key,
    pub body: Body,
    pub since: Option<u64>,
}

impl Entry {
    /// An entry of the same content.
    pub fn copy(&self) -> Result<Entry, NoMemory>
        ensures { IfOk result (λ entry. entry ≡ self.now) }
    {
        Ok(Entry {
            seq: self.seq,
            key: self.key.copy()?,
            body: self.body.copy()?,
            since: self.since,
        })
    }
}
