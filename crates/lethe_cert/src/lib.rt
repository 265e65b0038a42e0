//! Certificates of deletion, their text and their JSON.
#![tactic(auto)]

mod certificate;
mod form;
mod laws;

pub use certificate::Certificate;
pub use form::{CertRefused, from_json};
pub use laws::{what_a_text_tells, what_json_tells};
