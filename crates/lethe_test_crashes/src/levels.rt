//! Stores whose buffers are small, so that their entries come into files.

use crate::common::{answered_for, answered_small, check_printed, empty_disk, must, run};
use lethe_base::{Kind, Name};
use lethe_images::{IMAGES, crashed, names_of, take_away};
use lethe_memdisk::{FlakyDisk, MemDisk};
use lethe_rows::{Left, SMALL_WORDS, done_lines, run_on, text_of};
use std::alloc::Global;
use std::process::Abort;

/// Puts of the keys from `a` on, each with the delete key 1 and the value `v`.
const NINE: &str =
    "1 put a 1 v\n1 put b 1 v\n1 put c 1 v\n1 put d 1 v\n1 put e 1 v\n1 put f 1 v\n1 put g 1 v\n1 put h 1 v\n1 put i 1 v\n";

/// What is printed of them.
const NINE_DONE: &str = "1 ok 1\n1 ok 2\n1 ok 3\n1 ok 4\n1 ok 5\n1 ok 6\n1 ok 7\n1 ok 8\n1 ok 9\n";

/// Four more.
const MORE: &str = "1 put j 1 v\n1 put k 1 v\n1 put l 1 v\n1 put m 1 v\n";

/// What is printed of these.
const MORE_DONE: &str = "1 ok 10\n1 ok 11\n1 ok 12\n1 ok 13\n";

// Runs the nine puts and this over an empty disk. All of it is answered.
fn behind_nine(alloc: Global, rt: &impl Abort, script: &str, text: &str) -> MemDisk {
    let script = must(rt, text_of(alloc, &[NINE, script]));
    let text = must(rt, text_of(alloc, &[NINE_DONE, text]));
    answered_small(alloc, rt, &script, empty_disk(alloc, rt), 0, &text)
}

#[test]
fn a_full_buffer_is_frozen_and_the_next_one_flushes_it(rt: HostRuntime) {
    let text = "1 at 9 stat clock 0 pins 0 pending 0 files 1 tombs 0\n";
    behind_nine(rt.alloc(), &rt, "1 stat\n", text);
}

/// Reads and changes: of `a` there is a file, of `e` the frozen buffer, of `i` the active one.
const READS: &str =
    "1 get a\n1 get e\n1 get i\n1 get aa\n1 scan c g\n1 del a\n1 del z\n1 get a\n1 scan a d\n1 put e 2 w\n1 get e\n1 stat\n";

/// What is printed of them.
const ANSWERS: &str =
    "1 at 9 val 1 v\n1 at 9 val 1 v\n1 at 9 val 1 v\n1 at 9 none\n1 at 9 scan 4 c 1 v d 1 v e 1 v f 1 v\n1 ok 10\n1 ok 11\n1 at 11 none\n1 at 11 scan 2 b 1 v c 1 v\n1 ok 12\n1 at 12 val 2 w\n1 at 12 stat clock 0 pins 0 pending 0 files 1 tombs 0\n";

/// What is printed when the store is opened again. Opening has made files of both segments: the tombstone of `a` lies in one,
/// since a file below has the key.
const OPENED: &str =
    "1 at 12 stat clock 0 pins 0 pending 0 files 3 tombs 1\n1 at 12 none\n1 at 12 scan 8 b 1 v c 1 v d 1 v e 2 w f 1 v g 1 v h 1 v i 1 v\n";

#[test]
fn reads_see_files_and_both_buffers(rt: HostRuntime) {
    let alloc = rt.alloc();
    let disk = behind_nine(alloc, &rt, READS, ANSWERS);
    let disk = answered_small(alloc, &rt, "1 stat\n1 get a\n1 scan a z\n", disk, 0, OPENED);
    let script = "1 put a 3 x\n1 get a\n1 del y\n1 stat\n";
    let text =
        "1 ok 13\n1 at 13 val 3 x\n1 ok 14\n1 at 14 stat clock 0 pins 0 pending 0 files 3 tombs 1\n";
    answered_small(alloc, &rt, script, disk, 0, text);
}

// The nine puts and four more: their files are 7, of the pages 5 and 6, and 13, of the pages 11 and 12.
fn two_files(alloc: Global, rt: &impl Abort) -> MemDisk {
    behind_nine(alloc, rt, MORE, MORE_DONE)
}

// The same, but page 12.
fn without_page(alloc: Global, rt: &impl Abort) -> MemDisk {
    let mut disk = two_files(alloc, rt);
    must(rt, take_away(alloc, &mut disk, Kind::Page, 12));
    disk
}

/// What is told where a store of the small configuration is opened with another ratio.
const OTHER: &str =
    "other config kept threshold=100 ratio=2 levels=2 page=2 tile=2 file=2 buffer=4 pick=so asked threshold=100 ratio=3 levels=2 page=2 tile=2 file=2 buffer=4 pick=so\n";

// Opens that store, which is told to be damaged, and to be of another configuration where another is asked for.
fn refused(alloc: Global, rt: &impl Abort, disk: MemDisk) -> MemDisk {
    let disk = answered_small(alloc, rt, "1 get a\n", disk, 8, "damaged page 12\n");
    let mut other = SMALL_WORDS;
    other[14] = "3";
    answered_for(alloc, rt, &other, "1 get a\n", disk, 9, OTHER)
}

// The names of what is there.
fn names_on(alloc: Global, rt: &impl Abort, disk: &mut MemDisk) -> Vec<Name> {
    must(rt, names_of(alloc, disk))
}

#[test]
fn a_store_that_lacks_a_page_is_told_and_stays(rt: HostRuntime) {
    let alloc = rt.alloc();
    let mut disk = without_page(alloc, &rt);
    let before = names_on(alloc, &rt, &mut disk);
    let mut disk = refused(alloc, &rt, disk);
    assert!(rt; names_on(alloc, &rt, &mut disk) == before);
}

/// Objects of a store of two files, and what is told where they were changed.
const CHANGED: [(Kind, u64, &str); 7] = [
    (Kind::Page, 5, "damaged page 5\n"),
    (Kind::Page, 12, "damaged page 12\n"),
    (Kind::File, 7, "damaged file 7\n"),
    (Kind::File, 13, "damaged file 13\n"),
    (Kind::Segment, 9, "damaged segment 9\n"),
    (Kind::Segment, 15, "damaged segment 15\n"),
    (Kind::Manifest, 16, "damaged manifest 16\n"),
];

// The store of two files, with other bytes in an object.
fn changed(alloc: Global, rt: &impl Abort, name: Name, bytes: &[u8]) -> MemDisk {
    let bytes = bytes.to_vec(alloc).expect(rt, "memory");
    let mut disk = two_files(alloc, rt);
    assert!(rt; disk.swap(name, bytes));
    disk
}

// That store isn't opened.
fn check_told(alloc: Global, rt: &impl Abort, name: Name, bytes: &[u8], text: &str) {
    let disk = changed(alloc, rt, name, bytes);
    let disk = answered_small(alloc, rt, "1 put z 1 z\n", disk, 8, text);
    answered_small(alloc, rt, "1 get a\n", disk, 8, text);
}

#[test]
fn an_object_that_was_changed_is_told(rt: HostRuntime) {
    let alloc = rt.alloc();
    for (kind, no, text) in CHANGED {
        check_told(alloc, &rt, Name { kind, no }, b"", text);
        check_told(alloc, &rt, Name { kind, no }, b"LP\x01\x01\0\0\0\x01", text);
    }
    let text = "1 at 13 scan 2 a 1 v b 1 v\n";
    answered_small(alloc, &rt, "1 scan a c\n", two_files(alloc, &rt), 0, text);
}

// The store of the nine puts, whose first fetch fails.
fn flaky(alloc: Global, rt: &impl Abort) -> FlakyDisk {
    let failing = vec![in alloc; 1].expect(rt, "memory");
    FlakyDisk::new(behind_nine(alloc, rt, "", ""), failing)
}

// Runs a script over such a disk, which has to end and print so.
fn check_flaky(alloc: Global, rt: &impl Abort, script: &[u8], status: u8, text: &str) {
    let ran = run_on(alloc, &SMALL_WORDS, script, &[], &[], flaky(alloc, rt));
    let (printed, _) = must(rt, ran);
    check_printed(rt, &printed, status, text);
}

#[test]
fn a_fetch_that_fails_is_told_and_may_be_tried_again(rt: HostRuntime) {
    let script = b"1 get a\n1 get a\n1 put j 2 w\n";
    let text = "1 readfault\n1 at 9 val 1 v\n1 ok 10\n";
    check_flaky(rt.alloc(), &rt, script, 6, text);
}

/// What a scan prints, for each number of the nine puts.
const FRONTS: [&str; 10] = [
    "1 at 0 scan 0\n",
    "1 at 1 scan 1 a 1 v\n",
    "1 at 2 scan 2 a 1 v b 1 v\n",
    "1 at 3 scan 3 a 1 v b 1 v c 1 v\n",
    "1 at 4 scan 4 a 1 v b 1 v c 1 v d 1 v\n",
    "1 at 5 scan 5 a 1 v b 1 v c 1 v d 1 v e 1 v\n",
    "1 at 6 scan 6 a 1 v b 1 v c 1 v d 1 v e 1 v f 1 v\n",
    "1 at 7 scan 7 a 1 v b 1 v c 1 v d 1 v e 1 v f 1 v g 1 v\n",
    "1 at 8 scan 8 a 1 v b 1 v c 1 v d 1 v e 1 v f 1 v g 1 v h 1 v\n",
    "1 at 9 scan 9 a 1 v b 1 v c 1 v d 1 v e 1 v f 1 v g 1 v h 1 v i 1 v\n",
];

// How many of the nine puts the store of a disk has, which has the first ones alone.
fn front_of(alloc: Global, rt: &impl Abort, disk: MemDisk) -> usize {
    let printed = run(alloc, rt, &SMALL_WORDS, "1 scan a z\n", disk).printed;
    assert!(rt; printed.status == 0);
    let text = printed.text.as_slice();
    let front = FRONTS.iter().position(|front| text == front.as_bytes());
    front.expect(rt, "a front")
}

// The store of a disk has to have so many puts, or one more.
fn check_kept(alloc: Global, rt: &impl Abort, disk: MemDisk, done: usize) {
    let kept = front_of(alloc, rt, disk);
    assert!(rt; kept == done || kept == done.saturating_add(1));
}

// The same of the disks that a crash may leave of this, behind so many of its calls, and of the disk itself.
fn check_all_kept(alloc: Global, rt: &impl Abort, mut disk: MemDisk, calls: u64, done: usize) {
    disk.fuse(1_000);
    for image in IMAGES {
        let left = must(rt, crashed(alloc, &mut disk, calls, image));
        check_kept(alloc, rt, left, done);
    }
    check_kept(alloc, rt, disk, done);
}

// Stops the nine puts behind so many device calls. Whether they weren't done by then.
fn is_stopped(alloc: Global, rt: &impl Abort, calls: u64) -> bool {
    let mut disk = empty_disk(alloc, rt);
    disk.fuse(calls);
    let Left { printed, disk } = run(alloc, rt, &SMALL_WORDS, NINE, disk);
    check_all_kept(alloc, rt, disk, calls, done_lines(&printed.text));
    printed.status != 0
}

// Stops them behind each number of device calls that they take, and counts these.
fn stop_at_each(alloc: Global, rt: &impl Abort) -> u64 {
    for calls in 0..200 {
        if !is_stopped(alloc, rt, calls) {
            return calls;
        }
    }
    panic!(rt; "too many calls")
}

#[test]
fn a_store_that_is_stopped_loses_nothing_that_was_answered(rt: HostRuntime) {
    assert!(rt; stop_at_each(rt.alloc(), &rt) > 60);
}
