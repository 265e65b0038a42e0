//! What a sweep by one erase makes of a file: pages dropped unread, written anew, kept.
#![tactic(auto)]

mod entry;
mod fence;
mod file;
mod laws;
mod numbers;
mod sweeping;
mod tile;

pub use file::{Swept, sweep_file};
pub use laws::{no_key_leaves_its_tile, swept_is_the_sweep};
pub use sweeping::sweep_tiles;
