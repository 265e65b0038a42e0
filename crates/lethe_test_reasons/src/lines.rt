//! Lines that are bad, and what is said of them.

use crate::shown::reads;
use lethe_reasons::bad_line;
use lethe_script::{BadLine, Why};
use std::alloc::Global;

/// A line, why it is refused, and the reason.
const ROWS: [(&[u8], Why, &[u8]); 25] = [
    (
        b"1 put a 5 x",
        Why::Size,
        b"line 3: the script is longer than 16777216 bytes; split it",
    ),
    (
        b"1 get\ta",
        Why::Byte,
        b"line 3: byte 6 is a tab; fields stand between spaces",
    ),
    (
        b"1 get caf\xc3\xa9",
        Why::Byte,
        b"line 3: byte 10, c3 in hexadecimal, is no visible ASCII character; write the field as =HEX, for example by xxd -p",
    ),
    (
        b"put a 5 x",
        Why::Caller,
        b"line 3: a line begins with a caller, 1 to 8, or is phase, and not with put",
    ),
    (
        b"phase 2",
        Why::Count,
        b"line 3: phase stands on a line of its own",
    ),
    (
        b"1",
        Why::Command,
        b"line 3: no command stands behind the caller; ./lethe --help lists them",
    ),
    (
        b"1 putt a 5 x",
        Why::Command,
        b"line 3: putt is no command; ./lethe --help lists them",
    ),
    (
        b"1 put a 5",
        Why::Count,
        b"line 3: put takes KEY NUMBER VALUE, and there are fewer fields",
    ),
    (
        b"1 put a 5 12 Elm Street",
        Why::Count,
        b"line 3: put takes KEY NUMBER VALUE, and there are more fields; a key and a value have no spaces; write =HEX, for example by xxd -p",
    ),
    (
        b"1 get a b",
        Why::Count,
        b"line 3: get takes KEY, and there are more fields; a key has no spaces; write =HEX, for example by xxd -p",
    ),
    (
        b"1 tick 5 # later",
        Why::Count,
        b"line 3: a comment stands on a line of its own",
    ),
    (
        b"1 tick 5 6",
        Why::Count,
        b"line 3: tick takes T, and there are more fields",
    ),
    (
        b"1 stat all",
        Why::Count,
        b"line 3: stat takes nothing, and there are more fields",
    ),
    (
        b"1 put 5 a x",
        Why::Number,
        b"line 3: a is no number: put takes KEY NUMBER VALUE, and a number has decimal digits without a leading zero and is below 2^64",
    ),
    (
        b"1 tick 2029-12-31\r",
        Why::Number,
        b"line 3: 2029-12-31 is no time: tick takes T, decimal digits without a leading zero, at most 2^62",
    ),
    (
        b"1 tick 4611686018427387905",
        Why::Number,
        b"line 3: 4611686018427387905 is no time: tick takes T, decimal digits without a leading zero, at most 2^62",
    ),
    (
        b"1 pin 12",
        Why::Slot,
        b"line 3: 12 is no slot: pin takes SLOT, and a slot is one digit",
    ),
    (
        b"1 pin 3",
        Why::Slot,
        b"line 3: slot 3 is held by a pin of a line above: unpin it first, or take another",
    ),
    (
        b"1 pget 3 a",
        Why::Slot,
        b"line 3: slot 3 is free: no pin of a line above holds it",
    ),
    (b"1 get =", Why::Key, b"line 3: a key is never empty"),
    (
        b"1 scan a =6",
        Why::Key,
        b"line 3: =6 is no key: behind = stand hexadecimal digits in lower case, two for each byte",
    ),
    (
        b"1 put a 5 =6G",
        Why::Value,
        b"line 3: =6G is no value: behind = stand hexadecimal digits in lower case, two for each byte",
    ),
    (
        b"1 erase 9 5",
        Why::Range,
        b"line 3: erase takes NUMBER NUMBER, and the first, 9, isn't below the second, 5",
    ),
    (
        b"",
        Why::Key,
        b"line 3: a key has from 1 to 255 bytes, or = and two lower-case hexadecimal digits for each",
    ),
    (
        b"1 nothing of the sort",
        Why::Range,
        b"line 3: the first number of an erase is below its second",
    ),
];

fn is_told(alloc: Global, text: &[u8], why: Why, reason: &[u8]) -> bool {
    reads(bad_line(alloc, BadLine { line: 3, why }, text), reason)
}

#[test]
fn lines_have_their_reason(rt: HostRuntime) {
    for (text, why, reason) in ROWS {
        let word = why.word();
        assert!(rt; is_told(rt.alloc(), text, why, reason), "{word}");
    }
}

/// A put of a value that is long.
fn is_cut(alloc: Global, why: Why, reason: &[u8]) -> bool {
    match vec![in alloc; b'1'; 5000] {
        Ok(mut line) => {
            line[1] = b' ';
            is_told(alloc, &line, why, reason)
        }
        Err(_) => false,
    }
}

#[test]
fn of_a_long_line_the_front_is_looked_at(rt: HostRuntime) {
    assert!(rt;
        is_cut(
            rt.alloc(),
            Why::Count,
            b"line 3: too few fields or too many; ./lethe --help lists what a command takes",
        )
    );
    assert!(rt;
        is_cut(
            rt.alloc(),
            Why::Command,
            b"line 3: no command of this name; ./lethe --help lists them",
        )
    );
    assert!(rt;
        is_cut(
            rt.alloc(),
            Why::Byte,
            b"line 3: a byte is neither a space nor a visible ASCII character; write the field as =HEX, for example by xxd -p",
        )
    );
}
