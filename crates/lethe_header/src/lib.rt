//! File headers: what is known of a file's pages without reading them, and how that is spelled.
#![tactic(auto)]

mod before;
mod facts;
mod fields;
mod header;
mod laws;
mod line;
mod reading;
mod refused;
mod tile;
mod writing;

pub use header::{Header, PageLine, TileLine};
pub use laws::one_header;
pub use lethe_tile::Filter;
pub use reading::read_header;
pub use refused::HeaderRefused;
pub use writing::write_header;
