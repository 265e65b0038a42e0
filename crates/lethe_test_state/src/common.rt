//! What the tests of a store's state share.

use lethe_base::{Config, Fields};
use std::test::Fail;

pub fn config_of(fields: Fields) -> Result<Config, Fail> {
    Ok(Config::new(fields)?)
}
