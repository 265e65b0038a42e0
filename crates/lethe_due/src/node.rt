//! A file of the list, and the index of the next one.

use crate::DueFile;

/// A file, and where the one behind it stands.
#[derive(Debug, Drop)]
pub struct Node {
    pub file: DueFile,
    pub next: Option<usize>,
}
