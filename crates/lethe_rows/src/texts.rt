//! Scripts and printed texts, put together and counted.

use std::alloc::Global;
use std::test::Fail;

/// Bytes one after another.
pub fn bytes_of(alloc: Global, parts: &[&[u8]]) -> Result<Vec<u8>, Fail> {
    let mut bytes = Vec::new(alloc);
    for part in parts {
        bytes.extend_from_slice(part)?;
    }
    Ok(bytes)
}

/// Texts one after another.
pub fn text_of(alloc: Global, parts: &[&str]) -> Result<String, Fail> {
    let mut text = String::new(alloc);
    for part in parts {
        text.push_str(part)?;
    }
    Ok(text)
}

/// So many of a byte.
pub fn filled(alloc: Global, byte: u8, count: usize) -> Result<Vec<u8>, Fail> {
    Ok(vec![in alloc; byte; count]?)
}

/// So many times the same bytes.
pub fn repeated(alloc: Global, part: &[u8], count: usize) -> Result<Vec<u8>, Fail> {
    let mut bytes = Vec::new(alloc);
    for _ in 0..count {
        bytes.extend_from_slice(part)?;
    }
    Ok(bytes)
}

/// How many lines of a text begin so.
pub fn count_lines(text: &[u8], start: &[u8]) -> usize {
    let mut count: usize = 0;
    for line in text.split(|byte| *byte == b'\n') {
        if line.starts_with(start) {
            count = count.saturating_add(1);
        }
    }
    count
}

/// How many lines say that a change is done.
pub fn done_lines(text: &[u8]) -> usize {
    count_lines(text, b"1 ok ")
}
