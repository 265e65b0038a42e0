//! What is left of a file once a sweep has gone over it, and the file that is made of that.
#![tactic(auto)]

mod draft;
mod drafting;
mod laws;
mod numbering;
mod page;
mod part;

pub use draft::{DraftLine, DraftTile, SweptDraft};
pub use drafting::draft_of;
pub use laws::swept_agrees;
pub use part::{Part, SweptFile, SweptTile};
