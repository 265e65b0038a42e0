//! An order of files by their oldest times, whose nodes name each other by index.
#![tactic(auto)]

mod due_file;
mod due_list;
mod linking;
mod node;
mod stop;

pub use due_file::DueFile;
pub use due_list::DueList;
