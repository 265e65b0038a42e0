//! Runs over a disk with the small configuration: what they leave on it, and what a crash leaves of that.

use crate::common::{answered_small, check_printed, empty_disk, failing_disk, must, run};
use lethe_base::Config;
use lethe_images::{IMAGES, crashed};
use lethe_load::load;
use lethe_memdisk::MemDisk;
use lethe_rows::{Left, SMALL_WORDS, run_over};
use lethe_segment::Record;
use lethe_test_values::SMALL;
use std::alloc::Global;
use std::process::Abort;

/// How many device calls it takes to open the store of an empty disk.
const OPENING: u64 = 12;

/// How many a put takes: the record, a sync, its gate byte and a sync.
const PUT: u64 = 4;

const NONE: &str = "1 at 0 none\n";

const HELD: &str = "1 at 1 val 5 x\n";

// An empty disk that is stopped behind so many calls.
fn stopped(alloc: Global, rt: &impl Abort, calls: u64) -> MemDisk {
    let mut disk = empty_disk(alloc, rt);
    disk.fuse(calls);
    disk
}

// The status of a script over an empty disk that is stopped behind so many calls.
fn status_of(alloc: Global, rt: &impl Abort, script: &str, calls: u64) -> u8 {
    let disk = stopped(alloc, rt, calls);
    run(alloc, rt, &SMALL_WORDS, script, disk).printed.status
}

// How many device calls the script takes over an empty disk before its status is 0.
fn calls_of_script(alloc: Global, rt: &impl Abort, script: &str) -> u64 {
    for calls in 0..100 {
        if status_of(alloc, rt, script, calls) == 0 {
            return calls;
        }
    }
    panic!(rt; "too many calls")
}

/// Scripts, and how many device calls they take.
const CALLS: [(&str, u64); 4] = [
    ("", OPENING),
    ("1 get a\n", OPENING),
    ("1 put a 5 x\n", OPENING + PUT),
    ("1 del a\n", OPENING + PUT),
];

#[test]
fn a_put_takes_four_calls(rt: HostRuntime) {
    for (script, calls) in CALLS {
        assert!(rt;
            calls_of_script(rt.alloc(), &rt, script) == calls,
            "{script}"
        );
    }
}

// What is read of `a` from a disk.
fn check_read(alloc: Global, rt: &impl Abort, disk: MemDisk, text: &str) {
    answered_small(alloc, rt, "1 get a\n", disk, 0, text);
}

// What is read of `a` from what a crash after so many calls leaves of a disk. A gate byte that wasn't synced may be left
// as 1, and then the same is read as from the disk that goes on.
fn check_reads_crashed(
    alloc: Global,
    rt: &impl Abort,
    disk: &mut MemDisk,
    calls: u64,
    kept: &str,
    crashed_to: &str,
) {
    disk.fuse(1_000);
    for image in IMAGES {
        let text = if image.0 == 1 { kept } else { crashed_to };
        let left = must(rt, crashed(alloc, disk, calls, image));
        check_read(alloc, rt, left, text);
    }
}

// The same, and what is read from the disk that goes on.
fn check_reads(
    alloc: Global,
    rt: &impl Abort,
    mut disk: MemDisk,
    calls: u64,
    kept: &str,
    crashed_to: &str,
) {
    check_reads_crashed(alloc, rt, &mut disk, calls, kept, crashed_to);
    check_read(alloc, rt, disk, kept);
}

// The status of a put over an empty disk that is stopped behind so many calls, and what is printed of it.
fn put_stopped(calls: u64) -> (u8, &'static str) {
    match calls {
        0..OPENING => (6, "open fault before 0 after 1\n"),
        16 => (0, "1 ok 1\n"),
        _ => (6, "1 fault 1 before 0 after 1\n"),
    }
}

// What is read behind it of the disk that goes on, and what of those that a crash leaves.
fn reads_behind(calls: u64) -> (&'static str, &'static str) {
    match calls {
        16 => (HELD, HELD),
        15 => (HELD, NONE),
        _ => (NONE, NONE),
    }
}

fn check_put_stopped(alloc: Global, rt: &impl Abort, calls: u64) {
    let (status, text) = put_stopped(calls);
    let disk = stopped(alloc, rt, calls);
    let disk = answered_small(alloc, rt, "1 put a 5 x\n", disk, status, text);
    let (kept, crashed_to) = reads_behind(calls);
    check_reads(alloc, rt, disk, calls, kept, crashed_to);
}

#[test]
fn a_put_that_is_stopped_counts_from_its_gate_byte_on(rt: HostRuntime) {
    for calls in 0..=OPENING + PUT {
        check_put_stopped(rt.alloc(), &rt, calls);
    }
}

// Stops the second run over a disk behind so many of its calls. Whether it wasn't done by then.
fn is_stopped(alloc: Global, rt: &impl Abort, calls: u64) -> bool {
    let disk = empty_disk(alloc, rt);
    let mut disk = answered_small(alloc, rt, "1 put a 5 x\n", disk, 0, "1 ok 1\n");
    disk.fuse(calls);
    let Left { printed, disk } = run(alloc, rt, &SMALL_WORDS, "1 get a\n", disk);
    let all = calls.saturating_add(OPENING + PUT);
    check_reads(alloc, rt, disk, all, HELD, HELD);
    printed.status != 0
}

#[test]
fn an_opening_that_is_stopped_loses_nothing(rt: HostRuntime) {
    for calls in 0..100 {
        if !is_stopped(rt.alloc(), &rt, calls) {
            return;
        }
    }
    panic!(rt; "too many calls")
}

// The call of that number behind an opening fails in two puts and a get, and this is read then.
fn check_failing(alloc: Global, rt: &impl Abort, call: u64, kept: &str) {
    let script = "1 put a 5 x\n1 put b 6 y\n1 get a\n";
    let text = "1 fault 1 before 0 after 1\n1 stopped 1\n1 at 1 none\n";
    let calls = call.saturating_add(OPENING);
    let disk = failing_disk(alloc, rt, &[calls]);
    let disk = answered_small(alloc, rt, script, disk, 6, text);
    check_reads(alloc, rt, disk, calls, kept, NONE);
}

#[test]
fn a_change_that_fails_stops_the_later_ones(rt: HostRuntime) {
    // The record of the second put is written before the gate of the first one.
    for (call, kept) in [(1, NONE), (2, NONE), (3, NONE), (4, NONE), (5, HELD)] {
        check_failing(rt.alloc(), &rt, call, kept);
    }
}

// The disk behind a put whose line isn't written.
fn unprinted(alloc: Global, rt: &impl Abort) -> MemDisk {
    let disk = empty_disk(alloc, rt);
    let left = run_over(alloc, &SMALL_WORDS, b"1 put a 5 x\n", &[], &[1], disk);
    let left = must(rt, left);
    check_printed(rt, &left.printed, 5, "");
    left.disk
}

#[test]
fn a_fault_of_the_sink_undoes_no_change(rt: HostRuntime) {
    check_read(rt.alloc(), &rt, unprinted(rt.alloc(), &rt), HELD);
}

/// Scripts one after another, and what is printed of each.
const RUNS: [(&str, &str); 5] = [
    ("1 put a 5 x\n1 del b\n", "1 ok 1\n1 ok 2\n"),
    (
        "1 get a\n1 put b 6 y\n1 scan a z\n",
        "1 at 2 val 5 x\n1 ok 3\n1 at 3 scan 2 a 5 x b 6 y\n",
    ),
    ("", ""),
    ("1 del a\n1 del a\n", "1 ok 4\n1 ok 5\n"),
    ("1 get a\n1 get b\n", "1 at 5 none\n1 at 5 val 6 y\n"),
];

#[test]
fn one_run_goes_on_where_another_ended(rt: HostRuntime) {
    let mut disk = empty_disk(rt.alloc(), &rt);
    for (script, text) in RUNS {
        disk = answered_small(rt.alloc(), &rt, script, disk, 0, text);
    }
}

// How many blind deletes, and how many puts and tombstones, are among these.
fn counts_of(records: &[Record]) -> (usize, usize) {
    let (mut blind, mut entries): (usize, usize) = (0, 0);
    for record in records {
        match record {
            Record::Blind { .. } => blind = blind.saturating_add(1),
            Record::Entry(_) => entries = entries.saturating_add(1),
            _ => {}
        }
    }
    (blind, entries)
}

// How many of them the journal of a disk has.
fn records_of(alloc: Global, rt: &impl Abort, disk: &mut MemDisk) -> (usize, usize) {
    let config = Config::new(SMALL).expect(rt, "a configuration");
    let read = load(alloc, disk, &config).expect(rt, "a store");
    let segment = read.segments.items().first().expect(rt, "a segment");
    counts_of(segment.items())
}

/// Scripts, what is printed of each, and how many blind deletes and how many other records it leaves.
const DELETES: [(&str, &str, (usize, usize)); 4] = [
    ("1 del a\n1 get a\n", "1 ok 1\n1 at 1 none\n", (1, 0)),
    ("1 del a\n1 del a\n", "1 ok 1\n1 ok 2\n", (2, 0)),
    ("1 put a 5 x\n1 del a\n", "1 ok 1\n1 ok 2\n", (0, 2)),
    ("1 put a 5 x\n1 del b\n", "1 ok 1\n1 ok 2\n", (1, 1)),
];

fn check_deletes(
    alloc: Global,
    rt: &impl Abort,
    script: &str,
    text: &str,
    records: (usize, usize),
) {
    let mut disk = answered_small(alloc, rt, script, empty_disk(alloc, rt), 0, text);
    assert!(rt; records_of(alloc, rt, &mut disk) == records, "{script}");
}

#[test]
fn a_delete_leaves_a_tombstone_only_where_a_put_is(rt: HostRuntime) {
    for (script, text, records) in DELETES {
        check_deletes(rt.alloc(), &rt, script, text, records);
    }
}
