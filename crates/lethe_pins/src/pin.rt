//! What a pin is.

use lethe_base::{List, Name};

/// A pin that is held.
#[derive(Debug, Drop)]
pub struct Pin {
    /// The pins of a store are numbered from 1 in the order in which they are made.
    pub number: u64,
    /// The pages that it keeps. They ascend.
    pub names: List<Name>,
    /// The first time that a tick may not move the clock to.
    pub limit: u64,
}
