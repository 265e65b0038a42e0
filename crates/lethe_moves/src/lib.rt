//! Which history a store's layout stands for while its files are moved, and the order that they keep. The functions do
//! nothing: their contracts are the laws.
#![tactic(auto)]

mod due;
mod files;
mod jobs;
mod reads;
mod runs;

pub use due::{nothing_due_is_fresh, nothing_due_is_overdue};
pub use files::clear_files_share_no_key;
pub use jobs::{flush_follows, merge_follows, sweep_follows};
pub use reads::{read_answers, scan_answers};
pub use runs::each_run_follows;
