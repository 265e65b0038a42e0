//! Runs of scripts, which have to end and print so.

use lethe_images::disk_of;
use lethe_memdisk::MemDisk;
use lethe_rows::{Left, Printed, SMALL_WORDS, filled, run_of, run_over};
use std::alloc::Global;
use std::process::Abort;
use std::str;
use std::test::Fail;

/// What was made; the process ends where it wasn't.
pub fn must<T>(rt: &impl Abort, made: Result<T, Fail>) -> T {
    match made {
        Ok(value) => value,
        Err(_) => panic!(rt; "it isn't made"),
    }
}

/// An empty disk with room for many calls.
pub fn empty_disk(alloc: Global, rt: &impl Abort) -> MemDisk {
    must(rt, disk_of(alloc, &[]))
}

/// So many of a byte.
pub fn many(alloc: Global, rt: &impl Abort, byte: u8, count: usize) -> Vec<u8> {
    must(rt, filled(alloc, byte, count))
}

/// A run has to have ended and printed so.
pub fn check_printed(rt: &impl Abort, printed: &Printed, status: u8, text: &str) {
    let ended = printed.status;
    let found = str::from_utf8(&printed.text).expect(rt, "a text");
    assert!(rt; ended == status && found == text, "status {ended}: {found}");
}

/// Runs the words over a script and an empty disk, where the reads and the writes with these numbers fail.
pub fn printed_of(
    alloc: Global,
    rt: &impl Abort,
    words: &[&str],
    script: &[u8],
    failing_reads: &[u64],
    failing_writes: &[u64],
) -> Printed {
    must(
        rt,
        run_of(alloc, words, script, failing_reads, failing_writes),
    )
}

/// A script over an empty disk has to end and print so, with the default configuration.
pub fn check_prints(alloc: Global, rt: &impl Abort, script: &[u8], status: u8, text: &str) {
    let printed = printed_of(alloc, rt, &["run"], script, &[], &[]);
    check_printed(rt, &printed, status, text);
}

/// Runs a script with these words. Nothing of the source and the sink fails.
pub fn run(alloc: Global, rt: &impl Abort, words: &[&str], script: &str, disk: MemDisk) -> Left {
    must(
        rt,
        run_over(alloc, words, script.as_bytes(), &[], &[], disk),
    )
}

/// Runs a script with these words, which has to end and print so, and hands the disk back.
pub fn answered_for(
    alloc: Global,
    rt: &impl Abort,
    words: &[&str],
    script: &str,
    disk: MemDisk,
    status: u8,
    text: &str,
) -> MemDisk {
    let left = run(alloc, rt, words, script, disk);
    check_printed(rt, &left.printed, status, text);
    left.disk
}

/// The same with the default configuration.
pub fn answered(
    alloc: Global,
    rt: &impl Abort,
    script: &str,
    disk: MemDisk,
    status: u8,
    text: &str,
) -> MemDisk {
    answered_for(alloc, rt, &["run"], script, disk, status, text)
}

/// The same with the small configuration.
pub fn answered_small(
    alloc: Global,
    rt: &impl Abort,
    script: &str,
    disk: MemDisk,
    status: u8,
    text: &str,
) -> MemDisk {
    answered_for(alloc, rt, &SMALL_WORDS, script, disk, status, text)
}
