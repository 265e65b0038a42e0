//! Whether the bytes of pages agree with what their file says of them.
#![tactic(auto)]

mod laws;
mod page;
mod sound;
mod taken;

pub use laws::sound_pages_agree;
pub use sound::is_sound;
pub use taken::TakenKeys;
