//! The fields of a line.
ghost use Rattle.std.specs.Prelude.{◌≡◌, ◌↔◌, ◌∷◌, map, take, IsTrue, IfOk};
ghost use Rattle.std.specs.List.{list_all};
ghost use Rattle.lethe_script.specs.Fields.{number_of, slot_of, time_of, text_of, key_of, value_of, fields, is_comment, caller_of, is_lower_digit};
ghost use Rattle.lethe_script.specs.Reading.{GivesLine, BeginsNumber};

use crate::caller::Caller;
use crate::refused::{LineRefused, Why};
use crate::slot::Slot;
use hex::FromHexError;
use lethe_base::{Key, MAX_KEY, MAX_VALUE, Value};
use lethe_time::Time;
use std::alloc::{AllocError, Global};
use std::str;

/// One more than the fields of the longest line that has a meaning, so that a line of very many fields needs no memory.
const FIELDS_KEPT: usize = 6;

/// The first fields of a line, which tell as much as all of them.
pub(crate) fn fields_of(alloc: Global, line: &[u8]) -> Result<Vec<&[u8]>, AllocError>
    ensures { IfOk result (λ parts. map (λ part. part.now) parts.items ≡ take 6 (fields line.now)) }
{
    line.split(|byte| *byte == b' ')
        .filter(|field| !field.is_empty())
        .take(FIELDS_KEPT)
        .collect(alloc)
}

/// A line whose first field begins so is a comment.
pub(crate) fn is_comment(first: &[u8]) -> bool
    ensures { result ≡ is_comment first.now }
{
    !first.is_empty() && first[0] == b'#'
}

/// The caller that a field of a line is: one digit from 1 to 8.
#[tactic(auto, unfolding(crate::specs::Fields::caller_of))]
pub(crate) fn caller(field: &[u8]) -> Result<Caller, LineRefused>
    ensures { GivesLine (λ caller. caller) result (caller_of field.now) }
{
    match field {
        [digit] if *digit >= b'0' => match Caller::new(u64::from(*digit - b'0')) {
            Some(caller) => Ok(caller),
            None => Err(LineRefused::Bad(Why::Caller)),
        },
        _ => Err(LineRefused::Bad(Why::Caller)),
    }
}

/// The number that a field of a line is: decimal digits without a leading zero, below 2^64. Else it is `Why::Number`.
pub fn read_number(field: &[u8]) -> Result<u64, Why>
    ensures { result ≡ number_of field.now }
{
    if !begins_a_number(field) {
        return Err(Why::Number);
    }
    match str::from_utf8(field) {
        Ok(text) => match text.parse::<u64>() {
            Ok(number) => Ok(number),
            Err(_) => Err(Why::Number),
        },
        Err(_) => Err(Why::Number),
    }
}

/// The time that a field of a line is: a number that a clock may show.
#[tactic(auto, unfolding(crate::specs::Fields::time_of))]
pub(crate) fn time(field: &[u8]) -> Result<Time, LineRefused>
    ensures { GivesLine (λ time. time) result (time_of field.now) }
{
    match Time::new(read_number(field)?) {
        Some(time) => Ok(time),
        None => Err(LineRefused::Bad(Why::Number)),
    }
}

/// The slot that a field of a line is: one digit.
#[tactic(auto, unfolding(crate::specs::Fields::slot_of))]
pub(crate) fn slot(field: &[u8]) -> Result<Slot, LineRefused>
    ensures { GivesLine (λ slot. slot) result (slot_of field.now) }
{
    match field {
        [digit] if *digit >= b'0' => match Slot::new(usize::from(*digit - b'0')) {
            Some(slot) => Ok(slot),
            None => Err(LineRefused::Bad(Why::Slot)),
        },
        _ => Err(LineRefused::Bad(Why::Slot)),
    }
}

/// There is a digit in front, and no zero before others.
fn begins_a_number(field: &[u8]) -> bool
    ensures { IsTrue result ↔ BeginsNumber field.now }
{
    !field.is_empty() && field[0].is_ascii_digit() && (field[0] != b'0' || field.len() == 1)
}

/// A key.
#[tactic(auto, unfolding(crate::specs::Fields::key_of))]
pub(crate) fn key(alloc: Global, field: &[u8]) -> Result<Key, LineRefused>
    ensures { GivesLine (λ key. key) result (key_of field.now) }
{
    let bytes = text(alloc, field, MAX_KEY, Why::Key)?;
    match Key::new(bytes) {
        Ok(key) => Ok(key),
        Err(_) => Err(LineRefused::Bad(Why::Key)),
    }
}

/// A value.
pub(crate) fn value(alloc: Global, field: &[u8]) -> Result<Value, LineRefused>
    ensures { GivesLine (λ value. value) result (value_of field.now) }
{
    let bytes = text(alloc, field, MAX_VALUE, Why::Value)?;
    match Value::new(bytes) {
        Ok(value) => Ok(value),
        Err(_) => Err(LineRefused::Bad(Why::Value)),
    }
}

/// The bytes that a field stands for, at most so many. Memory is taken for no more.
#[tactic(auto, unfolding(crate::specs::Fields::text_of))]
fn text(alloc: Global, field: &[u8], most: usize, why: Why) -> Result<Vec<u8>, LineRefused>
    ensures { GivesLine (λ bytes. bytes.items) result (text_of why most field.now) }
{
    match field {
        [b'=', digits @ ..] => decoded(alloc, digits, most, why),
        _ if field.len() > most => Err(LineRefused::Bad(why)),
        _ => Ok(Vec::from_slice(alloc, field)?),
    }
}

/// The bytes of the digits behind `=`.
#[tactic(auto, unfolding(crate::specs::Fields::text_of))]
fn decoded(alloc: Global, digits: &[u8], most: usize, why: Why) -> Result<Vec<u8>, LineRefused>
    ensures { GivesLine (λ bytes. bytes.items) result (text_of why most (61 ∷ digits.now)) }
{
    if digits.len() / 2 > most || !are_lower_digits(digits) {
        return Err(LineRefused::Bad(why));
    }
    match hex::decode(alloc, digits) {
        Ok(bytes) => Ok(bytes),
        Err(FromHexError::OutOfMemory) => Err(LineRefused::NoMemory),
        Err(_) => Err(LineRefused::Bad(why)),
    }
}

fn are_lower_digits(digits: &[u8]) -> bool
    ensures { result ≡ list_all is_lower_digit digits.now }
{
    digits
        .iter()
        .all(|digit| matches!(digit, b'0'..=b'9' | b'a'..=b'f'))
}
