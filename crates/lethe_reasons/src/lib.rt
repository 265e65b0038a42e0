//! The texts of reasons: for each refusal one line that names its cause and the next step.
#![tactic(auto)]

mod command;
mod ending;
mod field;
mod folder;
mod line;
mod message;
mod opening;
mod words;

pub use ending::{no_memory, refused_answer, refused_call, sink_failed, source_failed};
pub use folder::{folder_refused, gate_missing};
pub use line::{SHOWN, bad_line};
pub use message::{Message, NO_MEMORY_TO_SAY};
pub use opening::{damaged, open_exhausted, open_fault, other_config};
pub use words::{bad_words, no_text};
