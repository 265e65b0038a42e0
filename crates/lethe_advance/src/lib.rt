//! The step from what a disk stores to what it stores next.
#![tactic(auto)]

mod advancing;
mod exchanging;
mod new_header;
mod numbers;
mod segment;
mod step;

pub use advancing::advance;
pub use lethe_commit::Object;
pub use lethe_version::{Shared, Version};
pub use new_header::NewHeader;
pub use numbers::number_behind;
pub use segment::empty_segment;
pub use step::Step;
