//! What the words of a command ask for: `run` and options, or `load`, a seed, a number of rounds, and options.
//!
//! `clap` decides, over words that a short test in front lets pass.
#![tactic(auto)]

mod command;
mod front;
mod options;
mod parsing;
mod request;

pub use parsing::read_words;
pub use request::{Certs, Command, DEFAULT_TURNS, MAX_ROUNDS, MAX_TURNS, MAX_WORKERS, Request};
