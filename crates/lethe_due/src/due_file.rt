//! What the list has of a file.

/// A file's number, and the oldest time in it.
#[derive(Clone, Copy, Debug, PartialEq, Eq)]
pub struct DueFile {
    pub no: u64,
    pub oldest: u64,
}
