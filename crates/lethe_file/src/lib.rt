//! Files: finding the entry of a key, fetching a page, and reading the entries in order.
#![tactic(auto)]

mod collecting;
mod cursor;
mod fetching;
mod finding;
mod holding;
mod laws;
mod page;
mod range;
mod source;
mod unread;
mod view;

pub use cursor::FileCursor;
pub use laws::one_entry;
pub use view::FileView;
