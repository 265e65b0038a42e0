//! Rows over the small configuration: scripts that are answered, and runs that end otherwise, with what a later run finds.

use crate::common::{answered_small, check_printed, empty_disk, many, must};
use lethe_base::{Kind, Name};
use lethe_images::names_of;
use lethe_memdisk::MemDisk;
use lethe_rows::{Left, SMALL_WORDS, bytes_of, run_over};
use std::alloc::Global;
use std::process::Abort;

/// Scripts, and what is printed of them.
const ANSWERED: [(&str, &str); 7] = [
    ("", ""),
    (
        "1 put a 5 x\n1 get a\n1 get b\n",
        "1 ok 1\n1 at 1 val 5 x\n1 at 1 none\n",
    ),
    (
        "1 put a 5 x\n1 del a\n1 get a\n1 scan a z\n",
        "1 ok 1\n1 ok 2\n1 at 2 none\n1 at 2 scan 0\n",
    ),
    ("1 del a\n1 get a\n", "1 ok 1\n1 at 1 none\n"),
    // The upper end of an erase is excluded, and what is put behind it stays.
    (ERASE, ERASED),
    (
        "1 put a 15 x\n1 erase 10 20\n1 put a 15 y\n1 get a\n",
        "1 ok 1\n1 ok 2\n1 ok 3\n1 at 3 val 15 y\n",
    ),
    // Bytes as digits, and what needs them when it is printed.
    (
        "1 put =6162 7 =\n1 get ab\n1 put c 8 =00ff\n1 get c\n",
        "1 ok 1\n1 at 1 val 7 =\n1 ok 2\n1 at 2 val 8 =00ff\n",
    ),
];

/// Four puts fill the buffer, and the erase meets it full.
const ERASE: &str =
    "1 put a 9 p\n1 put b 10 q\n1 put c 19 r\n1 put d 20 s\n1 erase 10 20\n1 scan a e\n";

const ERASED: &str = "1 ok 1\n1 ok 2\n1 ok 3\n1 ok 4\n1 ok 5\n1 at 5 scan 2 a 9 p d 20 s\n";

// Runs a script over an empty disk. All of it is answered.
fn behind(alloc: Global, rt: &impl Abort, script: &str, text: &str) -> MemDisk {
    answered_small(alloc, rt, script, empty_disk(alloc, rt), 0, text)
}

#[test]
fn scripts_print_their_replies_with_small_buffers(rt: HostRuntime) {
    for (script, text) in ANSWERED {
        behind(rt.alloc(), &rt, script, text);
    }
}

fn is_segment(name: &Name) -> bool {
    name.kind == Kind::Segment
}

// How many segments there are.
fn count_segments(alloc: Global, rt: &impl Abort, disk: &mut MemDisk) -> usize {
    let names = must(rt, names_of(alloc, disk));
    names.iter().filter(|name| is_segment(name)).count()
}

#[test]
fn an_erase_that_meets_a_full_buffer_freezes_it(rt: HostRuntime) {
    let alloc = rt.alloc();
    let mut disk = behind(alloc, &rt, ERASE, ERASED);
    assert!(rt; count_segments(alloc, &rt, &mut disk) == 2);
    let kept = "1 at 5 scan 2 a 9 p d 20 s\n";
    answered_small(alloc, &rt, "1 scan a e\n", disk, 0, kept);
}

// A script, the reads and the writes that fail, the status, what is printed, and what a later run finds under `a`.
struct Row {
    script: &'static [u8],
    failing_reads: &'static [u64],
    failing_writes: &'static [u64],
    status: u8,
    text: &'static str,
    found: &'static str,
}

const NONE: &str = "1 at 0 none\n";

const OTHERWISE: [Row; 3] = [
    Row {
        script: b"1 frob\n",
        failing_reads: &[],
        failing_writes: &[],
        status: 3,
        text: "line 1 bad command\n",
        found: NONE,
    },
    Row {
        script: b"1 put a 5 x\n",
        failing_reads: &[1],
        failing_writes: &[],
        status: 4,
        text: "",
        found: NONE,
    },
    Row {
        script: b"1 put a 5 x\n",
        failing_reads: &[],
        failing_writes: &[1],
        status: 5,
        text: "",
        found: "1 at 1 val 5 x\n",
    },
];

// Runs a script over an empty disk, where these reads and writes fail.
fn run_bytes(
    alloc: Global,
    rt: &impl Abort,
    script: &[u8],
    failing_reads: &[u64],
    failing_writes: &[u64],
) -> Left {
    let disk = empty_disk(alloc, rt);
    must(
        rt,
        run_over(
            alloc,
            &SMALL_WORDS,
            script,
            failing_reads,
            failing_writes,
            disk,
        ),
    )
}

fn check_row(alloc: Global, rt: &impl Abort, row: &Row) {
    let (reads, writes) = (row.failing_reads, row.failing_writes);
    let left = run_bytes(alloc, rt, row.script, reads, writes);
    check_printed(rt, &left.printed, row.status, row.text);
    answered_small(alloc, rt, "1 get a\n", left.disk, 0, row.found);
}

#[test]
fn runs_that_end_otherwise_leave_what_was_done(rt: HostRuntime) {
    for row in &OTHERWISE {
        check_row(rt.alloc(), &rt, row);
    }
}

/// How many letters a key has, the status of a get and a put of it, and what is printed.
const LETTERS: [(usize, u8, &str); 2] = [
    (255, 0, "1 at 0 none\n1 ok 1\n"),
    (256, 3, "line 2 bad key\n"),
];

// A get, and a put of a key of so many letters.
fn long_put(alloc: Global, rt: &impl Abort, letters: usize) -> Vec<u8> {
    let key = many(alloc, rt, b'k', letters);
    must(rt, bytes_of(alloc, &[b"1 get a\n1 put ", &key, b" 7 v\n"]))
}

// Nothing is on the disk where the script isn't carried out.
fn check_long_put(alloc: Global, rt: &impl Abort, letters: usize, status: u8, text: &str) {
    let script = long_put(alloc, rt, letters);
    let mut left = run_bytes(alloc, rt, &script, &[], &[]);
    check_printed(rt, &left.printed, status, text);
    let names = must(rt, names_of(alloc, &mut left.disk));
    assert!(rt; names.is_empty() == (status != 0));
}

#[test]
fn a_put_of_too_long_a_key_leaves_the_disk_untouched(rt: HostRuntime) {
    for (letters, status, text) in LETTERS {
        check_long_put(rt.alloc(), &rt, letters, status, text);
    }
}
