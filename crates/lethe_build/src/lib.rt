//! The files that entries make: their pages and headers, spelled, digested and numbered, before any of them is written.
#![tactic(auto)]

mod building;
mod built;
mod cutting;
mod draft;
mod file;
mod laws;
mod line;
mod page;
mod tile;

pub use building::drafts_of;
pub use built::Built;
pub use draft::{Draft, numbers_for};
pub use laws::{numbered_lines, numbered_tiles};
pub use page::line_of;
