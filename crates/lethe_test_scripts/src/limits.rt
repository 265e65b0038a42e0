//! Limits of pins in generated scripts.

use crate::common::{empty_disk, run};
use lethe_rows::SMALL_WORDS;
use std::alloc::Global;
use std::process::Abort;
use std::str;

/// Scripts that `bench/limits_run` made, and what is printed of each without the digests: each limit is the one that its plain model knows, which keeps the history and no files.
const GENERATED: [(&str, &str); 3] = [
    (
        "1 put a 58 v\n1 tick 33\n1 erase 56 57\n1 stat\n1 pin 4\n1 put d 19 v\n1 put h 46 v\n1 put f 56 v\n1 put e 10 v\n1 put d 5 v\n1 put a 49 v\n1 put h 6 v\n1 put a 53 v\n1 erase 4 5\n1 tick 33\n1 put e 11 v\n1 put d 55 v\n1 put b 58 v\n1 tick 43\n1 unpin 4\n1 stat\n1 pin 6\n1 tick 143\n1 stat\n1 pin 0\n1 erase 30 37\n1 tick 193\n1 put c 25 v\n1 put b 1 v\n1 put c 58 v\n",
        "1 ok 1\n1 ok 2 clock 33\n1 ok 3\n1 at 3 stat clock 33 pins 0 pending 1 files 0 tombs 0\n1 at 3 pin 1 limit 133\n1 ok 4\n1 ok 5\n1 ok 6\n1 ok 7\n1 ok 8\n1 ok 9\n1 ok 10\n1 ok 11\n1 ok 12\n1 ok 13 clock 33\n1 ok 14\n1 ok 15\n1 ok 16\n1 ok 17 clock 43\n1 at 17 unpin 1\n1 at 17 stat clock 43 pins 0 pending 1 files 2 tombs 0\n1 at 17 pin 2 limit 133\n1 pinned 2 limit 133\n1 at 17 stat clock 43 pins 1 pending 1 files 2 tombs 0\n1 at 17 pin 3 limit 133\n1 ok 18\n1 pinned 2 limit 133\n1 ok 19\n1 ok 20\n1 ok 21\n",
    ),
    (
        "1 stat\n1 pin 3\n1 stat\n1 pin 2\n1 put h 2 v\n1 stat\n1 pin 9\n1 tick 0\n1 put d 27 v\n1 unpin 3\n1 put d 41 v\n1 put h 26 v\n1 put e 40 v\n1 put d 55 v\n1 erase 30 34\n1 tick 1\n1 put f 55 v\n1 tick 100\n1 del e\n1 tick 200\n1 unpin 9\n1 erase 8 15\n1 put h 40 v\n1 put h 38 v\n1 erase 57 60\n1 erase 35 36\n1 tick 220\n1 put g 5 v\n1 unpin 2\n1 put d 45 v\n1 stat\n1 pin 5\n1 put e 30 v\n",
        "1 at 0 stat clock 0 pins 0 pending 0 files 0 tombs 0\n1 at 0 pin 1 limit 100\n1 at 0 stat clock 0 pins 1 pending 0 files 0 tombs 0\n1 at 0 pin 2 limit 100\n1 ok 1\n1 at 1 stat clock 0 pins 2 pending 0 files 0 tombs 0\n1 at 1 pin 3 limit 100\n1 ok 2 clock 0\n1 ok 3\n1 at 3 unpin 1\n1 ok 4\n1 ok 5\n1 ok 6\n1 ok 7\n1 ok 8\n1 ok 9 clock 1\n1 ok 10\n1 pinned 2 limit 100\n1 ok 11\n1 pinned 2 limit 100\n1 at 11 unpin 3\n1 ok 12\n1 ok 13\n1 ok 14\n1 ok 15\n1 ok 16\n1 pinned 2 limit 100\n1 ok 17\n1 at 17 unpin 2\n1 ok 18\n1 at 18 stat clock 1 pins 0 pending 3 files 2 tombs 0\n1 at 18 pin 4 limit 101\n1 ok 19\n",
    ),
    (
        "1 stat\n1 pin 6\n1 erase 19 24\n1 erase 26 31\n1 erase 40 46\n1 stat\n1 pin 2\n1 put h 39 v\n1 erase 10 16\n1 put e 31 v\n1 put c 49 v\n1 tick 100\n1 put c 40 v\n1 put h 16 v\n1 stat\n1 pin 7\n1 del b\n1 tick 100\n1 tick 150\n1 put f 35 v\n1 put e 41 v\n1 tick 170\n1 put g 47 v\n1 tick 190\n1 erase 14 16\n1 erase 14 16\n1 put a 14 v\n1 put g 44 v\n",
        "1 at 0 stat clock 0 pins 0 pending 0 files 0 tombs 0\n1 at 0 pin 1 limit 100\n1 ok 1\n1 ok 2\n1 ok 3\n1 at 3 stat clock 0 pins 1 pending 0 files 0 tombs 0\n1 at 3 pin 2 limit 100\n1 ok 4\n1 ok 5\n1 ok 6\n1 ok 7\n1 pinned 1 limit 100\n1 ok 8\n1 ok 9\n1 at 9 stat clock 0 pins 2 pending 0 files 1 tombs 0\n1 at 9 pin 3 limit 100\n1 ok 10\n1 pinned 1 limit 100\n1 pinned 1 limit 100\n1 ok 11\n1 ok 12\n1 pinned 1 limit 100\n1 ok 13\n1 pinned 1 limit 100\n1 ok 14\n1 ok 15\n1 ok 16\n1 ok 17\n",
    ),
];

fn without_digest(line: &str) -> &str {
    match line.split_once(" sha256 ") {
        Some((front, _)) => front,
        None => line,
    }
}

/// The lines, each up to the digest that it may have.
fn without_digests(alloc: Global, rt: &impl Abort, text: &str) -> String {
    let mut lines = String::new(alloc);
    for line in text.lines() {
        lines.push_str(without_digest(line)).expect(rt, "memory");
        lines.push_str("\n").expect(rt, "memory");
    }
    lines
}

fn check_limits(alloc: Global, rt: &impl Abort, script: &str, told: &str) {
    let left = run(alloc, rt, &SMALL_WORDS, script, empty_disk(alloc, rt));
    let text = str::from_utf8(&left.printed.text).expect(rt, "a text");
    let text = without_digests(alloc, rt, text);
    assert!(rt; text.as_str() == told, "{text}");
}

#[test]
fn limits_of_generated_scripts_are_those_of_a_plain_model(rt: HostRuntime) {
    for (script, told) in GENERATED {
        check_limits(rt.alloc(), &rt, script, told);
    }
}
