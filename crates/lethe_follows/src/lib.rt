//! What a flush, an opening, a merge, a tick, erases that leave and reads make of what is stored: laws that carry steps on layouts over to
//! manifests, segments and files. The functions do nothing: their contracts are the laws.
#![tactic(auto)]

mod company;
mod journal;
mod layouts;
mod leaving;
mod merges;
mod reads;
mod steps;
mod ticks;

pub use company::Company;
pub use journal::later_stay_recorded;
pub use layouts::{erases_are_spelled, pending_is_spelled, stored_follows};
pub use leaving::{done_by_what_is_cited, erases_leave};
pub use merges::{erases_stay, files_are_counted, merge_follows, merge_stays};
pub use reads::read_answers;
pub use steps::{flush_follows, nothing_flushes, reopen_follows};
pub use ticks::{nothing_is_due, tick_follows, young_by_oldest};
