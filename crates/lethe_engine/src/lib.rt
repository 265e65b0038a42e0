//! The store: its journal, its buffers and its files on a disk.
#![tactic(auto)]

mod changing;
mod engine;
mod jobs;
mod laws;
mod pinning;
mod reading;
mod rows;
mod telling;
mod ticking;
mod working;

pub use engine::{Engine, OpenRefused};
pub use laws::{
    certificates_stay, certificates_stay_in_row, certified_is_gone, reopened_is_without_certified,
    standing_is_clean,
};
pub use lethe_row::{Asked, Row};
pub use telling::Stat;
pub use ticking::Ticked;
