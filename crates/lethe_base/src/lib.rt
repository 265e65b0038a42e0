//! The types and limits that all of Lethe shares, and what a history of calls means.
#![tactic(auto)]

mod call;
mod config;
mod covering;
mod entry;
mod front;
mod key;
mod laws;
mod limits;
mod list;
mod memory;
mod name;
mod number;
mod pending;
mod range;
mod reading;
mod refused;
mod shape;
mod skipping;
mod spent;
mod value;
mod writing;

pub use call::{Call, Did};
pub use config::{Config, ConfigRefused, Field, Fields, MAX_FILE_ENTRIES, Pick};
pub use covering::{
    cause_is_first, first_put_covers, layout_has_one_map, left_erases_are_unspent,
    new_layout_covers, new_shape_is_valid, none_is_overdue, spent_erases_may_go,
};
pub use entry::{Body, Entry};
pub use front::{BodyKind, Front};
pub use key::{Key, KeyRefused, MAX_KEY};
pub use laws::one_spelling;
pub use limits::{MAX_PLACE, MAX_TIME};
pub use list::List;
pub use memory::NoMemory;
pub use name::{Kind, Name};
pub use number::{take_u8, take_u16, take_u32, take_u64};
pub use pending::Pending;
pub use range::Range;
pub use reading::{EntryRefused, read_body, read_entry, read_front, read_key, read_place};
pub use refused::Refused;
pub use shape::{FileFacts, Shape};
pub use skipping::{FrontEnd, skip_body, skip_front};
pub use spent::erases_above;
pub use value::{MAX_VALUE, Value, ValueRefused};
pub use writing::{entry_len, write_entry, write_erase};
