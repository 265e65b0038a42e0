//! A buffer over a balanced tree, whose nodes stand in one vector and name each other by index.
#![tactic(auto)]

mod growing;
mod link;
mod looking;
mod placing;
mod settling;
mod tree_buffer;

pub use tree_buffer::TreeBuffer;
