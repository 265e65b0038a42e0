//! What a sweep makes of a stored file, object by object, and how the file is taken apart to be written.
#![tactic(auto)]

mod laws;
mod making;

pub use laws::{a_draft_is_left, nothing_is_left, objects_are_own_or_new};
pub use making::make_swept;
