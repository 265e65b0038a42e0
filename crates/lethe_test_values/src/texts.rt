//! Keys of texts, and values.

use lethe_base::{Key, Value};
use std::alloc::Global;

/// There is no memory, or the bytes are none that a key or a value may have.
#[derive(Clone, Copy, Debug)]
pub struct NotMade;

/// The key of a text.
pub fn key_of(alloc: Global, text: &str) -> Result<Key, NotMade> {
    let bytes = text.as_bytes().to_vec(alloc).map_err(|_| NotMade)?;
    Key::new(bytes).map_err(|_| NotMade)
}

/// The value of these bytes.
pub fn value_of(alloc: Global, bytes: &[u8]) -> Result<Value, NotMade> {
    let bytes = bytes.to_vec(alloc).map_err(|_| NotMade)?;
    Value::new(bytes).map_err(|_| NotMade)
}
