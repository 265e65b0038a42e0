//! The buffer: the newest entries of a store, held in memory in the order of their keys.
#![tactic(auto)]

mod buffer;
mod laws;
mod vec_buffer;

pub use buffer::{Buffer, first_from};
pub use laws::{one_list, own_entries, pairs_answer};
pub use vec_buffer::VecBuffer;
