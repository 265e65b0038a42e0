//! Pages: the puts or the tombstones of a file, in the order of their keys, and how they are spelled.
#![tactic(auto)]

mod class;
mod entries;
mod finding;
mod head;
mod laws;
mod reading;
mod refused;
mod writing;

pub use class::Class;
pub use finding::{Found, find_entry};
pub use laws::one_page;
pub use reading::read_page;
pub use refused::PageRefused;
pub use writing::write_page;
