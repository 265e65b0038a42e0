//! Manifests: what the store consists of, and how that is spelled.
#![tactic(auto)]

mod change;
mod configuration;
mod fields;
mod laws;
mod manifest;
mod parts;
mod reading;
mod refused;
mod writing;

pub use change::Change;
pub use laws::one_manifest;
pub use manifest::{Cited, LastCert, Manifest};
pub use reading::read_manifest;
pub use refused::ManifestRefused;
pub use writing::write_manifest;
