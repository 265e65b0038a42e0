//! Pages that a job writes before a manifest cites them.
#![tactic(auto)]

mod contents;
mod removing;
mod writing;
mod written;

pub(crate) use contents::Contents;
pub use removing::{remove_named, remove_pages};
pub use writing::write_page;
pub use written::Written;
