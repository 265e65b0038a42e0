//! The reasons of a line that is bad.

use crate::command::command_of;
use crate::field::{Parts, bad_count, bad_field, bad_range, general};
use crate::message::Message;
use lethe_base::NoMemory;
use lethe_script::{BadLine, Why};
use std::alloc::Global;

/// How many bytes of a line are looked at.
pub const SHOWN: usize = 160;

/// One more than the fields of the longest line that has a meaning.
const FIELDS_KEPT: usize = 6;

/// A line of a script is bad: which field, and why. `text` is the line without its LF, of which the first `SHOWN` bytes are looked at, if it is known.
pub fn bad_line(alloc: Global, bad: BadLine, text: &[u8]) -> Result<Message, NoMemory> {
    let line = bad.line;
    let head = format!(in alloc; "line {line}: ")?;
    let head = head.as_str();
    let is_whole = text.len() < SHOWN;
    let text = if is_whole { text } else { &text[..SHOWN] };
    if bad.why == Why::Byte {
        return bad_byte(alloc, head, text);
    }
    let fields = fields_of(alloc, text, is_whole)?;
    match fields.as_slice() {
        [] => Message::of(alloc, head)?.and(general(bad.why)),
        [first, ..] if bad.why == Why::Caller => Message::of(alloc, head)?
            .and("a line begins with a caller, 1 to 8, or is phase, and not with ")?
            .show(first),
        [first, ..] if bad.why == Why::Count && is_phase(first) => {
            Message::of(alloc, head)?.and("phase stands on a line of its own")
        }
        [_, rest @ ..] => bad_command(alloc, head, bad.why, rest, is_whole),
    }
}

/// The word that ends a phase.
fn is_phase(field: &[u8]) -> bool {
    field == b"phase".as_slice()
}

/// The first fields of a line. Of one that was cut the last isn't whole.
fn fields_of(alloc: Global, text: &[u8], is_whole: bool) -> Result<Vec<&[u8]>, NoMemory> {
    let text = if is_whole {
        without_cr(text)
    } else {
        without_last(text)
    };
    Ok(
        text.split(|byte| *byte == b' ')
            .filter(|field| !field.is_empty())
            .take(FIELDS_KEPT)
            .collect(alloc)?,
    )
}

fn without_cr(text: &[u8]) -> &[u8] {
    match text {
        [front @ .., b'\r'] => front,
        _ => text,
    }
}

fn without_last(text: &[u8]) -> &[u8] {
    match text.iter().rposition(|byte| *byte == b' ') {
        Some(end) => &text[..end],
        None => &[],
    }
}

/// A byte of the line isn't allowed.
fn bad_byte(alloc: Global, head: &str, text: &[u8]) -> Result<Message, NoMemory> {
    let Some(at) = text.iter().position(|byte| !is_allowed(*byte)) else {
        return Message::of(alloc, head)?.and(general(Why::Byte));
    };
    let byte = text[at];
    let column = at as u64 + 1;
    let column = format!(in alloc; "{column}")?;
    if byte == b'\t' {
        return Message::of(alloc, head)?
            .and("byte ")?
            .and(&column)?
            .and(" is a tab; fields stand between spaces");
    }
    let shown = format!(in alloc; "{byte:02x}")?;
    Message::of(alloc, head)?
        .and("byte ")?
        .and(&column)?
        .and(", ")?
        .and(&shown)?
        .and(
            " in hexadecimal, is no visible ASCII character; write the field as =HEX, for example by xxd -p",
        )
}

fn is_allowed(byte: u8) -> bool {
    byte >= b' ' && byte <= b'~'
}

/// What stands behind the caller is bad.
fn bad_command(
    alloc: Global,
    head: &str,
    why: Why,
    rest: &[&[u8]],
    is_whole: bool,
) -> Result<Message, NoMemory> {
    let [command, fields @ ..] = rest else {
        let text = if is_whole && why == Why::Command {
            "no command stands behind the caller; ./lethe --help lists them"
        } else {
            general(why)
        };
        return Message::of(alloc, head)?.and(text);
    };
    match command_of(command) {
        Some(takes) => bad_fields(
            alloc,
            head,
            why,
            &Parts {
                command,
                takes,
                fields,
                is_whole,
            },
        ),
        None if why == Why::Command => Message::of(alloc, head)?
            .show(command)?
            .and(" is no command; ./lethe --help lists them"),
        None => Message::of(alloc, head)?.and(general(why)),
    }
}

/// What stands behind the command is bad.
fn bad_fields(alloc: Global, head: &str, why: Why, parts: &Parts<'_>) -> Result<Message, NoMemory> {
    let told = match why {
        Why::Count => bad_count(alloc, head, parts)?,
        Why::Range => bad_range(alloc, head, parts)?,
        _ => bad_field(alloc, head, why, parts)?,
    };
    match told {
        Some(message) => Ok(message),
        None => Message::of(alloc, head)?.and(general(why)),
    }
}
