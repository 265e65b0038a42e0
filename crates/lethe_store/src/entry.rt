//! What is entered into a history of changes, and what is noted beside it.

use lethe_base::{Call, Did};
use lethe_cert::Certificate;

/// A change of the store: who made it, which call it was, and how it went. No value of it is made.
#[derive(Debug, Drop)]
pub struct Entry {
    pub caller: u64,
    pub call: Call,
    pub did: Did,
}

/// What is noted beside the changes. No value of it is made.
#[derive(Debug, Drop)]
pub enum Mark {
    /// A round has ended: a tick was begun.
    Round,
    /// The tick at this place answered this certificate.
    Certified {
        place: u64,
        certificate: Certificate,
    },
    /// A pin of this number was made, with this limit.
    Made {
        number: u64,
        limit: u64,
    },
    /// The pin of this number was let go.
    Released {
        number: u64,
    },
    /// A call was refused because numbers are used up.
    Spent,
}
