//! Which field of a line is bad.

use crate::command::{Command, Taken};
use crate::message::Message;
use lethe_base::{MAX_TIME, NoMemory};
use lethe_script::{Why, read_number};
use std::alloc::Global;

/// What of a line stands behind its caller, as far as it stands whole in the bytes that are looked at.
#[derive(Drop)]
pub(crate) struct Parts<'a> {
    pub command: &'a [u8],
    pub takes: Command,
    pub fields: &'a [&'a [u8]],
    /// These are all of them.
    pub is_whole: bool,
}

/// What is said of a line where the field isn't known.
pub(crate) fn general(why: Why) -> &'static str {
    match why {
        Why::Size => "the script is longer than 16777216 bytes; split it",
        Why::Byte =>
            "a byte is neither a space nor a visible ASCII character; write the field as =HEX, for example by xxd -p",
        Why::Caller => "a line begins with a caller, 1 to 8, or is phase",
        Why::Command => "no command of this name; ./lethe --help lists them",
        Why::Count => "too few fields or too many; ./lethe --help lists what a command takes",
        Why::Number =>
            "a number has decimal digits without a leading zero and is below 2^64, a time at most 2^62",
        Why::Slot => "a slot is one digit, free for pin and held for pget, pscan and unpin",
        Why::Key =>
            "a key has from 1 to 255 bytes, or = and two lower-case hexadecimal digits for each",
        Why::Value =>
            "a value has at most 4096 bytes, or = and two lower-case hexadecimal digits for each",
        Why::Range => "the first number of an erase is below its second",
    }
}

/// There are too few fields or too many.
pub(crate) fn bad_count(
    alloc: Global,
    head: &str,
    parts: &Parts<'_>,
) -> Result<Option<Message>, NoMemory> {
    if !parts.is_whole {
        return Ok(None);
    }
    let takes = parts.takes;
    let why = match parts.fields.get(takes.fields.len()) {
        Some(field) if field.first() == Some(&b'#') => {
            let told = Message::of(alloc, head)?;
            return Ok(Some(told.and("a comment stands on a line of its own")?));
        }
        Some(_) => too_many(takes),
        None => ", and there are fewer fields",
    };
    let told = Message::of(alloc, head)?.show(parts.command)?;
    Ok(Some(told.and(" takes ")?.and(takes.form)?.and(why)?))
}

fn too_many(takes: Command) -> &'static str {
    if takes.fields.contains(&Taken::Value) {
        ", and there are more fields; a key and a value have no spaces; write =HEX, for example by xxd -p"
    } else if takes.fields.contains(&Taken::Key) {
        ", and there are more fields; a key has no spaces; write =HEX, for example by xxd -p"
    } else {
        ", and there are more fields"
    }
}

/// A field isn't what it should be.
pub(crate) fn bad_field(
    alloc: Global,
    head: &str,
    why: Why,
    parts: &Parts<'_>,
) -> Result<Option<Message>, NoMemory> {
    for (field, taken) in parts.fields.iter().zip(parts.takes.fields.iter()) {
        if is_bad(*taken, field, why) {
            return Ok(Some(field_told(alloc, head, *taken, field, parts)?));
        }
    }
    match parts.fields.first() {
        Some(slot) if why == Why::Slot => Ok(Some(slot_told(alloc, head, slot, parts)?)),
        _ => Ok(None),
    }
}

/// A field that should be of a kind is what the line is refused for.
fn is_bad(taken: Taken, field: &[u8], why: Why) -> bool {
    match taken {
        Taken::Key => why == Why::Key && (field == b"=".as_slice() || has_bad_digits(field)),
        Taken::Value => why == Why::Value && has_bad_digits(field),
        Taken::Number => why == Why::Number && read_number(field).is_err(),
        Taken::Time => why == Why::Number && !is_time(field),
        Taken::Slot => why == Why::Slot && !is_slot(field),
    }
}

fn is_time(field: &[u8]) -> bool {
    match read_number(field) {
        Ok(number) => number <= MAX_TIME,
        Err(_) => false,
    }
}

fn is_slot(field: &[u8]) -> bool {
    match field {
        [digit] => digit.is_ascii_digit(),
        _ => false,
    }
}

/// It begins with `=`, and what stands behind that aren't pairs of lower-case hexadecimal digits.
fn has_bad_digits(field: &[u8]) -> bool {
    match field {
        [b'=', digits @ ..] => digits.len() % 2 == 1 || !digits.iter().all(is_lower_digit),
        _ => false,
    }
}

fn is_lower_digit(digit: &u8) -> bool {
    matches!(digit, b'0'..=b'9' | b'a'..=b'f')
}

/// What is said of a field that isn't what it should be.
fn field_told(
    alloc: Global,
    head: &str,
    taken: Taken,
    field: &[u8],
    parts: &Parts<'_>,
) -> Result<Message, NoMemory> {
    let form = parts.takes.form;
    let command = parts.command;
    match taken {
        Taken::Key if field == b"=".as_slice() => {
            Message::of(alloc, head)?.and("a key is never empty")
        }
        Taken::Key => Message::of(alloc, head)?
            .show(field)?
            .and(" is no key")?
            .and(DIGITS),
        Taken::Value => Message::of(alloc, head)?
            .show(field)?
            .and(" is no value")?
            .and(DIGITS),
        Taken::Number => Message::of(alloc, head)?
            .show(field)?
            .and(" is no number: ")?
            .show(command)?
            .and(" takes ")?
            .and(form)?
            .and(", and a number has decimal digits without a leading zero and is below 2^64"),
        Taken::Time => Message::of(alloc, head)?.show(field)?.and(
            " is no time: tick takes T, decimal digits without a leading zero, at most 2^62",
        ),
        Taken::Slot => Message::of(alloc, head)?
            .show(field)?
            .and(" is no slot: ")?
            .show(command)?
            .and(" takes ")?
            .and(form)?
            .and(", and a slot is one digit"),
    }
}

const DIGITS: &str = ": behind = stand hexadecimal digits in lower case, two for each byte";

/// What is said of a slot that is held where it should be free, or free where it should be held.
fn slot_told(
    alloc: Global,
    head: &str,
    slot: &[u8],
    parts: &Parts<'_>,
) -> Result<Message, NoMemory> {
    let why = if parts.command == b"pin".as_slice() {
        " is held by a pin of a line above: unpin it first, or take another"
    } else {
        " is free: no pin of a line above holds it"
    };
    Message::of(alloc, head)?.and("slot ")?.show(slot)?.and(why)
}

/// The first number of an erase isn't below its second.
pub(crate) fn bad_range(
    alloc: Global,
    head: &str,
    parts: &Parts<'_>,
) -> Result<Option<Message>, NoMemory> {
    match parts.fields {
        [lo, hi] => {
            let told = Message::of(alloc, head)?
                .and("erase takes NUMBER NUMBER, and the first, ")?
                .show(lo)?;
            Ok(Some(told.and(", isn't below the second, ")?.show(hi)?))
        }
        _ => Ok(None),
    }
}
