//! Runs over disks, which have to end and print so.
ghost use Rattle.std.specs.Prelude.{◌≡◌, Ok};

use lethe_images::{disk_of, roomy_disk};
use lethe_memdisk::MemDisk;
use lethe_rows::{Left, Printed, SMALL_WORDS, run_over};
use std::alloc::Global;
use std::process::Abort;
use std::str;
use std::test::Fail;

/// What was made; the process ends where it wasn't.
pub fn must<T>(rt: &impl Abort, made: Result<T, Fail>) -> T
    ensures { made ≡ Ok result }
{
    match made {
        Ok(value) => value,
        Err(_) => panic!(rt; "it isn't made"),
    }
}

/// An empty disk with room for many calls. The calls of these numbers fail.
pub fn failing_disk(alloc: Global, rt: &impl Abort, failing: &[u64]) -> MemDisk {
    must(rt, disk_of(alloc, failing))
}

pub fn empty_disk(alloc: Global, rt: &impl Abort) -> MemDisk {
    failing_disk(alloc, rt, &[])
}

/// An empty disk with room for a script and its merges, which is stopped behind so many calls.
pub fn stopped_disk(alloc: Global, rt: &impl Abort, calls: u64) -> MemDisk {
    let mut disk = must(rt, roomy_disk(alloc));
    disk.fuse(calls);
    disk
}

/// Runs a script with these words. Nothing of the source and the sink fails.
pub fn run(alloc: Global, rt: &impl Abort, words: &[&str], script: &str, disk: MemDisk) -> Left {
    must(
        rt,
        run_over(alloc, words, script.as_bytes(), &[], &[], disk),
    )
}

/// A run has to have ended and printed so.
pub fn check_printed(rt: &impl Abort, printed: &Printed, status: u8, text: &str) {
    let ended = printed.status;
    let found = str::from_utf8(&printed.text).expect(rt, "a text");
    assert!(rt; ended == status && found == text, "status {ended}: {found}");
}

/// Runs a script with these words, which has to end and print so, and hands the disk back.
pub fn answered_for(
    alloc: Global,
    rt: &impl Abort,
    words: &[&str],
    script: &str,
    disk: MemDisk,
    status: u8,
    text: &str,
) -> MemDisk {
    let left = run(alloc, rt, words, script, disk);
    check_printed(rt, &left.printed, status, text);
    left.disk
}

/// The same with the small configuration.
pub fn answered_small(
    alloc: Global,
    rt: &impl Abort,
    script: &str,
    disk: MemDisk,
    status: u8,
    text: &str,
) -> MemDisk {
    answered_for(alloc, rt, &SMALL_WORDS, script, disk, status, text)
}
