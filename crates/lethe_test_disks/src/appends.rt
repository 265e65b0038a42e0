//! Appends to a disk in memory, and what a crash leaves of them.
ghost use Rattle.std.specs.Prelude.{◌≡◌, ◌≤◌, ◌<◌, ◌+◌, [], Some, IfOk, IsTrue, IsSome};
ghost use Rattle.lethe_disk.specs.Directory.{object};
ghost use Rattle.lethe_disk.specs.Runs.{Throughout};
ghost use Rattle.lethe_memdisk.specs.Held.{seen_of, calls_of};
ghost use Rattle.lethe_segment.specs.Records.{RecordHasSpelling, record_seq};
ghost use Rattle.lethe_commit.specs.Append.{EndsAt};

use crate::common::{crashed, has, must};
use lethe_base::{Body, Entry, Kind, Name};
use lethe_commit::append;
use lethe_disk::{Disk, DiskRefused};
use lethe_memdisk::MemDisk;
use lethe_segment::{Record, new_segment, replay, write_record};
use lethe_test_values::{key_of, value_of};
use std::alloc::Global;
use std::process::Abort;
use std::test::Fail;

const SEGMENT: Name = Name {
    kind: Kind::Segment,
    no: 3,
};

// A disk with a new segment, after two calls. The later calls of these numbers fail.
fn disk_of_a_segment(alloc: Global, failing: Vec<u64>) -> Result<MemDisk, Fail>
    ensures ready { IfOk result (λ disk. EndsAt (seen_of disk) SEGMENT 3 [] 11) }
    ensures calls { IfOk result (λ disk. calls_of disk ≡ 2) }
{
    let mut disk = MemDisk::new(alloc, 20, failing)?;
    let Ok(()) = disk.create(SEGMENT, &new_segment(3)) else {
        return Err(Fail::new("a new segment"));
    };
    let Ok(()) = disk.sync() else {
        return Err(Fail::new("a synced segment"));
    };
    Ok(disk)
}

// The put of key `a`, delete key 5, value `x` at place 1.
fn first_put(alloc: Global, rt: &impl Abort) -> Record
    ensures spelled { RecordHasSpelling result }
    ensures place { 0 < record_seq result }
{
    let key = key_of(alloc, "a").expect(rt, "a key");
    let value = value_of(alloc, b"x").expect(rt, "a value");
    Record::Entry(Entry {
        seq: 1,
        key,
        body: Body::Put { dkey: 5, value },
        since: None,
    })
}

// Appends a record to the new segment, and answers whether that was done.
fn append_one(alloc: Global, disk: &mut MemDisk, item: &Record) -> Result<bool, Fail>
    requires ready { EndsAt (seen_of disk.old) SEGMENT 3 [] 11 }
    requires spelled { RecordHasSpelling item.now }
    requires place { 0 < record_seq item.now }
    ensures there { IfOk result (λ done. Throughout (λ c. IsSome (object c SEGMENT)) (seen_of disk.old) (seen_of disk.new)) }
    ensures now { IfOk result (λ done. IsSome (object (seen_of disk.new).directory SEGMENT)) }
    ensures calls { IfOk result (λ done. IsTrue done → calls_of disk.new ≡ calls_of disk.old + 4) }
{
    let body = write_record(alloc, item)?;
    match append(alloc, disk, SEGMENT, 11, &body) {
        Ok(()) => Ok(true),
        Err(DiskRefused::Failed) => Ok(false),
        Err(DiskRefused::NoMemory) => Err(Fail::new("no memory")),
    }
}

// How many records the segment has.
fn count(alloc: Global, rt: &impl Abort, disk: &mut MemDisk) -> usize
    requires { IsSome (object (seen_of disk.old).directory SEGMENT) }
{
    let bytes = disk.read(alloc, SEGMENT).expect(rt, "a segment");
    let records = replay(alloc, &bytes).expect(rt, "records");
    records.len()
}

/// How many calls of the append are done before a crash, what fills a byte that was being written, and how many records are left.
const IMAGES: [(u64, u8, usize); 7] = [
    (0, 1, 0),
    (1, 1, 0),
    (2, 1, 0),
    (3, 0, 0),
    (3, 7, 0),
    (3, 1, 1),
    (4, 0, 1),
];

// A disk behind such an append.
fn appended(alloc: Global, rt: &impl Abort) -> MemDisk
    ensures { calls_of result ≡ 6 }
{
    let mut disk = must(rt, disk_of_a_segment(alloc, Vec::new(alloc)));
    let item = first_put(alloc, rt);
    let done = must(rt, append_one(alloc, &mut disk, &item));
    assert!(rt; done);
    disk
}

// How many records a crash leaves.
fn count_left(alloc: Global, rt: &impl Abort, disk: &MemDisk, moment: u64, fill: u8) -> usize
    requires { moment ≤ calls_of disk.now }
{
    let mut left = crashed(rt, disk, moment, fill, true);
    let there = has(alloc, &mut left, SEGMENT).expect(rt, "names");
    assert!(rt; there);
    count(alloc, rt, &mut left)
}

fn check_images(alloc: Global, rt: &impl Abort, disk: &MemDisk)
    requires { calls_of disk.now ≡ 6 }
{
    for (calls, fill, records) in IMAGES {
        assert!(rt; count_left(alloc, rt, disk, 2 + calls.min(4), fill) == records);
    }
}

#[test]
fn an_append_that_a_crash_cuts_short_counts_from_its_gate_on(rt: HostRuntime) {
    check_images(rt.alloc(), &rt, &appended(rt.alloc(), &rt));
}

/// The number of the call that fails, whether the append is done, and how many records there are then.
const FAILURES: [(u64, bool, usize); 5] = [
    (3, false, 0),
    (4, false, 0),
    (5, false, 0),
    (6, false, 1),
    (8, true, 1),
];

// Whether the append is done, and how many records there are then, where this call fails.
fn append_failing(alloc: Global, rt: &impl Abort, failing: u64) -> (bool, usize) {
    let failing = vec![in alloc; failing].expect(rt, "memory");
    let mut disk = must(rt, disk_of_a_segment(alloc, failing));
    let item = first_put(alloc, rt);
    let done = must(rt, append_one(alloc, &mut disk, &item));
    (done, count(alloc, rt, &mut disk))
}

#[test]
fn an_append_fails_where_the_disk_does(rt: HostRuntime) {
    for (failing, done, records) in FAILURES {
        assert!(rt; append_failing(rt.alloc(), &rt, failing) == (done, records));
    }
}
