//! The files of a store by level: a version, which never changes, and what finds the newest entry of a key in it.
#![tactic(auto)]

mod laws;
mod level;
mod new_file;
mod opening;
mod probing;
mod searching;
mod shared;
mod sorting;
mod version;

pub use laws::one_newest;
pub use new_file::NewFile;
pub use opening::open_file;
pub use shared::Shared;
pub use version::Version;
