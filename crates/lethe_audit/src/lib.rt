//! Whether a certificate is true of a disk, told from the bytes of its objects alone.
#![tactic(auto)]

mod answer;
mod laws;

pub use answer::{Audit, AuditRefused, NoWhy};
pub use laws::{audited_is_true, held_are_all, kept_is_carried, one_answer};
