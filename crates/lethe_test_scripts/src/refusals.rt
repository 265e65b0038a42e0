//! Words and scripts that are refused.

use crate::common::{check_printed, check_prints, many, must, printed_of};
use lethe_rows::bytes_of;
use std::alloc::Global;
use std::process::Abort;

/// Bytes that are no script, and what is said of them.
const BAD_SCRIPTS: [(&[u8], &str); 34] = [
    (b"1 frob\n", "line 1 bad command\n"),
    (b"1 erase 20 10\n", "line 1 bad range\n"),
    (b"1 erase 5 5\n", "line 1 bad range\n"),
    (b"1 erase x 3 4\n", "line 1 bad count\n"),
    (b"1 erase 1 z\n", "line 1 bad number\n"),
    (b"1 unerase 1 2\n", "line 1 bad command\n"),
    (b"1 tick\n", "line 1 bad count\n"),
    (b"1 tick 5 5\n", "line 1 bad count\n"),
    (b"1 tick 4611686018427387905\n", "line 1 bad number\n"),
    (b"1 tick 05\n", "line 1 bad number\n"),
    (b"1\n", "line 1 bad command\n"),
    (b"9 get a\n", "line 1 bad caller\n"),
    (b"0 get a\n", "line 1 bad caller\n"),
    (b"01 get a\n", "line 1 bad caller\n"),
    (b"phases\n", "line 1 bad caller\n"),
    (b"phase x\n", "line 1 bad count\n"),
    (b"1 phase\n", "line 1 bad command\n"),
    (b"phase\n\nphase\n8 frob\n", "line 4 bad command\n"),
    (b"1 pin 0\n2 pget 0 a\n", "line 2 bad slot\n"),
    (b"1 get a\n1 get a b\n", "line 2 bad count\n"),
    (b"# none\n\n1 put a\n", "line 3 bad count\n"),
    (b"1 put a 05 x\n", "line 1 bad number\n"),
    (
        b"1 get a\n1 put a 18446744073709551616 x\n",
        "line 2 bad number\n",
    ),
    (b"1 put a -1 x\n", "line 1 bad number\n"),
    (b"1 put a + x\n", "line 1 bad number\n"),
    (b"1 get =616\n", "line 1 bad key\n"),
    (b"1 get =\n", "line 1 bad key\n"),
    (b"1 put a 1 =FF\n", "line 1 bad value\n"),
    (b"1 stat a\n", "line 1 bad count\n"),
    (b"1\tget a\n", "line 1 bad byte\n"),
    (b"\t# a comment\n", "line 1 bad byte\n"),
    (b"1 get \xff\n", "line 1 bad byte\n"),
    (b"1 get a\r", "line 1 bad byte\n"),
    (b"1 get a\n1 ge\rt a\r\n", "line 2 bad byte\n"),
];

#[test]
fn bytes_that_are_no_script_are_refused_at_the_first_bad_line(rt: HostRuntime) {
    for (script, text) in BAD_SCRIPTS {
        check_prints(rt.alloc(), &rt, script, 3, text);
    }
}

/// How long the key and the value of a put are, the status, and what is printed.
const LENGTHS: [(usize, usize, u8, &str); 3] = [
    (255, 4096, 0, "1 at 0 none\n1 ok 1\n"),
    (256, 4096, 3, "line 2 bad key\n"),
    (255, 4097, 3, "line 2 bad value\n"),
];

// A get, and a put of a key and a value that are so long.
fn put_of(alloc: Global, rt: &impl Abort, key: usize, value: usize) -> Vec<u8> {
    let key = many(alloc, rt, b'k', key);
    let value = many(alloc, rt, b'v', value);
    let parts = [b"1 get a\n1 put ".as_slice(), &key, b" 7 ", &value];
    must(rt, bytes_of(alloc, &parts))
}

#[test]
fn keys_and_values_have_limits(rt: HostRuntime) {
    for (key, value, status, text) in LENGTHS {
        let script = put_of(rt.alloc(), &rt, key, value);
        check_prints(rt.alloc(), &rt, &script, status, text);
    }
}

/// What stands in front of so many spaces, the status, and what is printed.
const SIZES: [(&[u8], usize, u8, &str); 5] = [
    (b"", 16_777_216, 0, ""),
    (b"", 16_777_217, 3, "line 1 bad size\n"),
    (b"1 frob\n", 16_777_216, 3, "line 1 bad command\n"),
    (b"1 get a\n", 16_777_208, 0, "1 at 0 none\n"),
    (b"1 get a\n", 16_777_209, 3, "line 2 bad size\n"),
];

// So many spaces behind a front.
fn spaced(alloc: Global, rt: &impl Abort, front: &[u8], spaces: usize) -> Vec<u8> {
    let spaces = many(alloc, rt, b' ', spaces);
    must(rt, bytes_of(alloc, &[front, &spaces]))
}

#[test]
fn a_script_has_a_greatest_size(rt: HostRuntime) {
    for (front, spaces, status, text) in SIZES {
        let script = spaced(rt.alloc(), &rt, front, spaces);
        check_prints(rt.alloc(), &rt, &script, status, text);
    }
}

/// Words that are no command.
const BAD_WORDS: [&[&str]; 22] = [
    &[],
    &["load"],
    &["run", "run"],
    &["Run"],
    &[""],
    &["--ratio", "3", "run"],
    &["run", "--"],
    &["run", "--ratio"],
    &["run", "--ratio", "3", "--ratio", "3"],
    &["run", "--ratio", "3", "--levels"],
    &["run", "--ratio=3"],
    &["run", "ratio", "3"],
    &["run", "--Ratio", "3"],
    &["run", "--speed", "3"],
    &["run", "--ratio", ""],
    &["run", "--ratio", "03"],
    &["run", "--ratio", "+3"],
    &["run", "--ratio", "1"],
    &["run", "--pick", "xd"],
    &["run", "--threshold", "1099511627777"],
    &["run", "--page", "1024", "--tile", "64"],
    &["run", "--buffer", "2049"],
];

#[test]
fn other_words_are_refused(rt: HostRuntime) {
    for words in BAD_WORDS {
        let printed = printed_of(rt.alloc(), &rt, words, b"1 get a\n", &[1], &[]);
        check_printed(&rt, &printed, 2, "bad words\n");
    }
}
