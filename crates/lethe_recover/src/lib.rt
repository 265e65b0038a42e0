//! Opening a disk: what its greatest gate commits is read back, and the records of its journal are written into files.
#![tactic(auto)]

mod beginning;
mod cited;
mod failing;
mod flushing;
mod journal;
mod leveled;
mod opened;
mod opening;
mod prepared;
mod reopening;
mod resuming;
mod tidying;

pub use beginning::begin;
pub use opened::Opened;
pub use opening::{OpenWhy, open};
pub use tidying::tidy;
