//! What tests ask of a message.

use lethe_base::NoMemory;
use lethe_reasons::Message;

/// Whether there was memory for a message, and it reads so.
pub(crate) fn reads(message: Result<Message, NoMemory>, text: &[u8]) -> bool {
    matches!(message, Ok(message) if message.bytes() == text)
}
