//! A pin that is held, and the index of the next one.

use crate::Pin;

/// A pin, and where the one behind it stands.
#[derive(Debug, Drop)]
pub struct Node {
    pub pin: Pin,
    pub next: Option<usize>,
}
