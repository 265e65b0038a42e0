//! Words that are no command, and what is said of them.

use crate::shown::reads;
use lethe_reasons::{bad_words, no_text};
use std::alloc::{AllocError, Global};

/// The words, with a space between each two, and the reason.
const ROWS: [(&str, &[u8]); 17] = [
    ("", b"there is no folder: ./lethe DIR run < SCRIPT"),
    (
        "data",
        b"behind the folder stands the command run: ./lethe DIR run < SCRIPT",
    ),
    (
        "data get a",
        b"behind the folder stands the command run: ./lethe DIR run < SCRIPT",
    ),
    (
        "data run --none 4",
        b"--none is no option: ./lethe --help lists them",
    ),
    (
        "data run data",
        b"data is no option: ./lethe --help lists them",
    ),
    ("data run --ratio", b"--ratio has no value"),
    ("data run --ratio 4 --ratio 4", b"--ratio is given twice"),
    (
        "data run --ratio abc",
        b"--ratio abc: --ratio is a number from 2 to 16",
    ),
    (
        "data run --ratio 1",
        b"--ratio 1: --ratio is a number from 2 to 16",
    ),
    (
        "data run --ratio 05",
        b"--ratio 05: --ratio is a number from 2 to 16",
    ),
    (
        "data run --threshold 0",
        b"--threshold 0: --threshold is a number from 1 to 1099511627776",
    ),
    (
        "data run --buffer 16385",
        b"--buffer 16385: --buffer is a number from 1 to 16384",
    ),
    ("data run --pick xx", b"--pick xx: --pick is so or sd"),
    (
        "data run --page 4",
        b"--page 4: the buffer's 512 is more than 4 x 4 x 8",
    ),
    (
        "data run --buffer 4000 --page 4",
        b"--page 4 --buffer 4000: the buffer's 4000 is more than 4 x 4 x 8",
    ),
    (
        "data run --tile 64 --page 1024",
        b"--page 1024 --tile 64: a file's 1024 x 64 x 8 entries are more than 65536",
    ),
    (
        "data run --line\nbreak 4",
        b"--line?break is no option: ./lethe --help lists them",
    ),
];

fn words_of(alloc: Global, text: &str) -> Result<Vec<String>, AllocError> {
    let mut words = Vec::new(alloc);
    for word in text.split(' ').filter(|word| !word.is_empty()) {
        words.push(String::from_str(alloc, word)?)?;
    }
    Ok(words)
}

fn is_told(alloc: Global, text: &str, reason: &[u8]) -> bool {
    match words_of(alloc, text) {
        Ok(words) => reads(bad_words(alloc, &words), reason),
        Err(_) => false,
    }
}

#[test]
fn words_have_their_reason(rt: HostRuntime) {
    for (text, reason) in ROWS {
        assert!(rt; is_told(rt.alloc(), text, reason), "{text}");
    }
    assert!(rt; reads(no_text(rt.alloc()), b"a word of the command is no text"));
}
