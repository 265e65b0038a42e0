//! A disk whose objects are the files of a folder.
#![tactic(auto)]

mod disk;
mod file_name;
mod folder;
mod laws;
mod length;
mod listing;
mod opening;
mod page;
mod path;
mod place;
mod refusal;
mod stray;

pub use disk::DirDisk;
pub use file_name::{read_file_name, spell_file_name};
pub use laws::one_file_name;
pub use page::{DirPage, DirPort};
pub use refusal::{DirRefused, OpenStep};
pub use stray::first_stray;
