//! Segments of the journal: how they are spelled, and which records the bytes hold that a crash left.
#![tactic(auto)]

mod head;
mod laws;
mod reading;
mod record;
mod replaying;
mod writing;

pub use head::{new_segment, segment_number};
pub use laws::{ascending_places, one_record, one_segment, spelling_holds};
pub use record::Record;
pub use replaying::{SegmentRefused, replay};
pub use writing::{CLOSED_GATE, OPEN_GATE, write_record, write_segment};
