//! Entries woven into tiles by key and by delete key, and filters of keys.
#![tactic(auto)]

mod cutting;
mod filter;
mod hash;
mod laws;
mod ordering;
mod weaving;

pub use filter::Filter;
pub use laws::one_weave;
pub use ordering::is_ascending;
pub use weaving::{Tile, weave};
