//! Changes one behind another: a script of five that is stopped at each device call.

use crate::common::{must, run, stopped_disk};
use lethe_images::{IMAGES, image_of, take_calls};
use lethe_memdisk::MemDisk;
use lethe_rows::{Left, SMALL_WORDS, done_lines};
use std::alloc::Global;
use std::process::Abort;

/// Five changes, of which a buffer of three records has the first three.
const FIVE: &str = "1 put a 1 v\n1 put b 2 w\n1 del a\n1 erase 2 3\n1 put c 4 x\n";

/// What a scan prints behind so many of them.
const BEHIND: [&str; 6] = [
    "1 at 0 scan 0\n",
    "1 at 1 scan 1 a 1 v\n",
    "1 at 2 scan 2 a 1 v b 2 w\n",
    "1 at 3 scan 1 b 2 w\n",
    "1 at 4 scan 0\n",
    "1 at 5 scan 1 c 4 x\n",
];

/// What is printed of them where the disk fails in the one behind so many, which may be none of them.
const PRINTED: [&str; 6] = [
    "1 fault 1 before 0 after 1\n1 stopped 1\n1 stopped 1\n1 stopped 1\n1 stopped 1\n",
    "1 ok 1\n1 fault 2 before 0 after 1\n1 stopped 2\n1 stopped 2\n1 stopped 2\n",
    "1 ok 1\n1 ok 2\n1 fault 3 before 0 after 1\n1 stopped 3\n1 stopped 3\n",
    "1 ok 1\n1 ok 2\n1 ok 3\n1 fault 4 before 0 after 1\n1 stopped 4\n",
    "1 ok 1\n1 ok 2\n1 ok 3\n1 ok 4\n1 fault 5 before 0 after 1\n",
    "1 ok 1\n1 ok 2\n1 ok 3\n1 ok 4\n1 ok 5\n",
];

/// How many device calls an opening takes.
const OPENING: u64 = 12;

/// How many the five changes take at least: a row of three, and one of two, for which room is made.
const ROWS: u64 = 17;

// Runs a script with a buffer of three records.
fn ran(alloc: Global, rt: &impl Abort, script: &str, disk: MemDisk) -> Left {
    let mut words = SMALL_WORDS;
    words[12] = "3";
    run(alloc, rt, &words, script, disk)
}

// Whether that is printed of exactly the first so many of the five changes, or one more.
fn is_front(text: &[u8], done: usize) -> bool {
    let mut fronts = BEHIND.iter().skip(done).take(2);
    fronts.any(|front| text == front.as_bytes())
}

// The store of a disk has to have exactly the first so many of the five changes, or one more.
fn check_front(alloc: Global, rt: &impl Abort, disk: MemDisk, done: usize) {
    let printed = ran(alloc, rt, "1 scan a z\n", disk).printed;
    assert!(rt; is_front(&printed.text, done), "behind {done} changes");
}

// The same of the disks that a crash may leave of this, behind so many of its calls, and of the disk itself.
fn check_fronts(alloc: Global, rt: &impl Abort, mut disk: MemDisk, calls: u64, done: usize) {
    disk.fuse(20_000);
    must(rt, take_calls(alloc, &mut disk, calls));
    for image in IMAGES {
        check_front(alloc, rt, must(rt, image_of(&disk, calls, image)), done);
    }
    check_front(alloc, rt, disk, done);
}

// What is printed where the disk is stopped behind so many calls, of which so many changes were done.
fn is_printed(calls: u64, done: usize, text: &[u8]) -> bool {
    if calls < OPENING {
        return text == b"open fault before 0 after 1\n".as_slice();
    }
    match PRINTED.get(done) {
        Some(wanted) => text == wanted.as_bytes(),
        None => false,
    }
}

// Stops the five behind so many device calls. Whether they weren't done by then.
fn is_stopped(alloc: Global, rt: &impl Abort, calls: u64) -> bool {
    let disk = stopped_disk(alloc, rt, calls);
    let Left { printed, disk } = ran(alloc, rt, FIVE, disk);
    let done = done_lines(&printed.text);
    assert!(rt;
        is_printed(calls, done, &printed.text),
        "behind {calls} calls other lines"
    );
    check_fronts(alloc, rt, disk, calls, done);
    printed.status != 0
}

// Stops the five behind each number of device calls that they take, and counts these.
fn stop_at_each(alloc: Global, rt: &impl Abort) -> u64 {
    for calls in 0..200 {
        if !is_stopped(alloc, rt, calls) {
            return calls;
        }
    }
    panic!(rt; "too many calls")
}

#[test]
fn a_row_that_is_stopped_has_what_was_answered(rt: HostRuntime) {
    assert!(rt; stop_at_each(rt.alloc(), &rt) > OPENING + ROWS);
}
