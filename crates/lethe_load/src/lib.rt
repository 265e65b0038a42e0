//! Reading what the greatest gate of a disk commits: its manifest, the journal's records and the files.
#![tactic(auto)]

mod files;
mod laws;
mod listing;
mod loading;
mod numbers;
mod ordering;
mod pages;
mod reading;
mod recovered;
mod refused;

pub use laws::kept_has_no_damage;
pub use loading::load;
pub use recovered::Recovered;
pub use refused::RecoverRefused;
