//! When a store's directory is clean, and what keeps it so: laws on directories. The functions do nothing: their contracts are the laws.
#![tactic(auto)]

mod laws;

pub use laws::{copied_are_stored, outputs_are_copied, stored_is_clean, untorn_stays};
