//! What the tests of scripts share: a run over memory, and texts.
#![tactic(auto)]

mod run;
mod texts;

pub use lethe_test_values::SMALL_WORDS;
pub use run::{Left, Printed, run_of, run_on, run_over};
pub use texts::{bytes_of, count_lines, done_lines, filled, repeated, text_of};
