//! Calls that may change the store, and how each went.

use crate::{Key, Range, Value};

/// A call that may change the store.
#[derive(Debug, Drop)]
pub enum Call {
    /// Sets the delete key and the value of a key.
    Put { key: Key, dkey: u64, value: Value },
    /// Removes a key.
    Delete { key: Key },
    /// Removes each key whose present delete key is in the range.
    Erase { range: Range },
    /// Sets the clock.
    Tick { to: u64 },
    /// A flush or a job. It stands in a history only where it failed.
    Work,
}

/// How a call went.
#[derive(Clone, Copy, Debug, PartialEq, Eq)]
pub enum Did {
    /// It was carried out.
    Done,
    /// The disk failed in it, and its count of faults stood at these numbers before and after.
    Failed { before: u64, after: u64 },
}
