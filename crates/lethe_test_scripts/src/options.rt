//! The words of a run: which configuration they ask for.

use crate::common::{answered, answered_for, answered_small, empty_disk, must};
use lethe_rows::{SMALL_WORDS, text_of};
use std::alloc::Global;
use std::process::Abort;

/// Words, and the configuration of a store that they make.
const ROWS: [(&[&str], &str); 5] = [
    (
        &["run", "--ratio", "3"],
        "threshold=1000 ratio=3 levels=3 page=64 tile=4 file=8 buffer=512 pick=so",
    ),
    (
        &["run", "--pick", "sd", "--threshold", "1099511627776"],
        "threshold=1099511627776 ratio=4 levels=3 page=64 tile=4 file=8 buffer=512 pick=sd",
    ),
    (
        &["run", "--pick", "so", "--levels", "6", "--buffer", "2048"],
        "threshold=1000 ratio=4 levels=6 page=64 tile=4 file=8 buffer=2048 pick=so",
    ),
    (
        &["run", "--file", "1", "--tile", "64", "--page", "1024"],
        "threshold=1000 ratio=4 levels=3 page=1024 tile=64 file=1 buffer=512 pick=so",
    ),
    (
        &[
            "run",
            "--buffer",
            "4",
            "--file",
            "2",
            "--tile",
            "2",
            "--page",
            "2",
            "--levels",
            "2",
            "--ratio",
            "2",
            "--threshold",
            "100",
            "--pick",
            "sd",
        ],
        "threshold=100 ratio=2 levels=2 page=2 tile=2 file=2 buffer=4 pick=sd",
    ),
];

/// What the word alone asks for.
const DEFAULT: &str = "threshold=1000 ratio=4 levels=3 page=64 tile=4 file=8 buffer=512 pick=so";

const PUT: &str = "1 put a 5 x\n";

const GET: &str = "1 get a\n";

const HELD: &str = "1 at 1 val 5 x\n";

// A store that is made with these words has to have this configuration.
fn check_config(alloc: Global, rt: &impl Abort, words: &[&str], config: &str) {
    let parts = ["other config kept ", config, " asked ", DEFAULT, "\n"];
    let other = must(rt, text_of(alloc, &parts));
    let disk = empty_disk(alloc, rt);
    let disk = answered_for(alloc, rt, words, PUT, disk, 0, "1 ok 1\n");
    let disk = answered(alloc, rt, GET, disk, 9, &other);
    answered_for(alloc, rt, words, GET, disk, 0, HELD);
}

#[test]
fn a_store_has_the_configuration_that_was_asked_for(rt: HostRuntime) {
    for (words, config) in ROWS {
        check_config(rt.alloc(), &rt, words, config);
    }
}

#[test]
fn a_store_of_another_ratio_is_told(rt: HostRuntime) {
    let alloc = rt.alloc();
    let mut other = SMALL_WORDS;
    other[14] = "3";
    let text =
        "other config kept threshold=100 ratio=2 levels=2 page=2 tile=2 file=2 buffer=4 pick=so asked threshold=100 ratio=3 levels=2 page=2 tile=2 file=2 buffer=4 pick=so\n";
    let disk = answered_small(alloc, &rt, PUT, empty_disk(alloc, &rt), 0, "1 ok 1\n");
    let disk = answered_for(alloc, &rt, &other, "1 del a\n", disk, 9, text);
    answered_small(alloc, &rt, GET, disk, 0, HELD);
}
