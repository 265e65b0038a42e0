//! What of an entry comes before its body.
ghost use Rattle.std.specs.Prelude.{◌≡◌};
ghost use Rattle.lethe_base.specs.Spelling.{kind_of, entry_with};

use crate::{Body, Entry, Key};

/// What an entry says of its key, without the content.
#[derive(Clone, Copy, Debug, PartialEq, Eq)]
pub enum BodyKind {
    Put,
    Tomb,
}

impl Body {
    /// What the body says.
    pub fn kind(&self) -> BodyKind
        ensures { result ≡ kind_of self.now }
    {
        match self {
            Body::Put { .. } => BodyKind::Put,
            Body::Tomb => BodyKind::Tomb,
        }
    }
}

/// An entry without its body, as it is read first.
#[derive(Debug, Drop)]
pub struct Front {
    pub kind: BodyKind,
    pub seq: u64,
    pub since: Option<u64>,
    pub key: Key,
}

impl Front {
    /// The entry of this front and a body. The body's kind should be the front's.
    pub fn with(self, body: Body) -> Entry
        ensures { result ≡ entry_with self body }
    {
        Entry {
            seq: self.seq,
            key: self.key,
            body,
            since: self.since,
        }
    }
}
