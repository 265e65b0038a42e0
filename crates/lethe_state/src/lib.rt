//! What a store remembers, and what its steps make of that, before anything is written.
#![tactic(auto)]

mod changing;
mod erases;
mod firsts;
mod flushing;
mod freezing;
mod laws;
mod numbering;
mod state;
mod ticking;
mod told;
mod waiting;

pub use changing::Prepared;
pub use firsts::Firsts;
pub use laws::{
    delete_is_recorded, entered_is_remembered, erase_is_recorded, files_are_remembered,
    flush_is_remembered, flush_stands, flushed_flushes, freeze_is_remembered, halted_is_remembered,
    like_is_remembered, put_is_recorded, room_stands, tick_is_remembered,
};
pub use state::State;
pub use waiting::Waiting;
