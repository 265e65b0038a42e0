//! What a buffer becomes: the newest entries of the journal's records, the erases that are pending, and the files of a flush with
//! their objects, before anything is written.
#![tactic(auto)]

mod clear;
mod flushing;
mod laws;
mod made;
mod making;
mod pending;
mod replaying;

pub use clear::is_clear;
pub use flushing::{flush_drafts, flush_files};
pub use laws::{files_are_woven, flush_is_one, newest_are_frozen};
pub use made::{MadeFiles, numbers_of};
pub use making::make_files;
pub use pending::{pending_of, swept_upto};
pub use replaying::newest_of;
