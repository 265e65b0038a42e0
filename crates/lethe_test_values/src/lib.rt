//! What the tests of several crates share: a small configuration, the words that ask for it, and keys and values.
#![tactic(auto)]

mod small;
mod texts;

pub use small::{SMALL, SMALL_WORDS};
pub use texts::{NotMade, key_of, value_of};
