//! Scripts that are made from a seed, for tests, what a plain map prints for them, and a reader of what scripts of several callers print.
#![tactic(auto)]

mod answers;
mod callers;
mod generated;
mod transcript;

pub use callers::CallersScript;
pub use generated::{Generated, Lines, READ_AND_PUT};
pub use transcript::first_wrong_line;
