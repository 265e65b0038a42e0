//! Five records in a row: what a crash at each moment leaves of them, and how a disk ends the row that fails.
ghost use Rattle.std.specs.Prelude.{◌≡◌, ◌<◌, ◌+◌, [], length, IfOk, IfSome, IsSome};
ghost use Rattle.lethe_memdisk.specs.Held.{seen_of, calls_of};
ghost use Rattle.lethe_commit.specs.Append.{EndsAt};
ghost use Rattle.lethe_chain.specs.Chains.{Waits};

use crate::disks::{GATE, MAKING, SEGMENT, count, count_left, disk_of_a_segment};
use crate::records::{RECORDS, record_of};
use lethe_chain::{append_first, append_last, append_next};
use lethe_disk::DiskRefused;
use lethe_memdisk::MemDisk;
use lethe_segment::write_record;
use std::alloc::Global;
use std::test::Fail;

/// How many device calls the row takes.
const CALLS: u64 = 16;

// The place of the gate behind a record whose own gate is at `at`.
fn gate_behind(at: u64, body: &[u8]) -> Result<u64, Fail>
    ensures { IfOk result (λ end. end ≡ at + 1 + length body.now) }
{
    match at.checked_add(1 + body.len() as u64) {
        Some(end) => Ok(end),
        None => Err(Fail::new("a place")),
    }
}

// Appends the first record of a row. The place of the gate behind it, and None where the disk failed.
fn begin(alloc: Global, disk: &mut MemDisk) -> Result<Option<u64>, Fail>
    requires { EndsAt (seen_of disk.old) SEGMENT 3 [] GATE }
    ensures waits { IfOk result (λ end. IfSome end (λ end. Waits (seen_of disk.new) SEGMENT GATE end 1)) }
    ensures calls { IfOk result (λ end. IsSome end → calls_of disk.new ≡ calls_of disk.old + 2) }
{
    let item = record_of(alloc, 1)?;
    let body = write_record(alloc, &item)?;
    match append_first(alloc, disk, SEGMENT, GATE, &body) {
        Ok(()) => Ok(Some(gate_behind(GATE, &body)?)),
        Err(DiskRefused::Failed) => Ok(None),
        Err(DiskRefused::NoMemory) => Err(Fail::new("no memory")),
    }
}

// Appends the record behind the one of place `seq`, which waits. The place of the gate behind it, and None where the disk
// failed.
fn go_on(
    alloc: Global,
    disk: &mut MemDisk,
    at: u64,
    end: u64,
    seq: u64,
) -> Result<Option<u64>, Fail>
    requires waits { Waits (seen_of disk.old) SEGMENT at end seq }
    requires below { seq < RECORDS }
    ensures waits { IfOk result (λ next. IfSome next (λ next. Waits (seen_of disk.new) SEGMENT end next (seq + 1))) }
    ensures calls { IfOk result (λ next. IsSome next → calls_of disk.new ≡ calls_of disk.old + 3) }
{
    let item = record_of(alloc, seq + 1)?;
    let body = write_record(alloc, &item)?;
    match append_next(alloc, disk, SEGMENT, at, end, &body) {
        Ok(()) => Ok(Some(gate_behind(end, &body)?)),
        Err(DiskRefused::Failed) => Ok(None),
        Err(DiskRefused::NoMemory) => Err(Fail::new("no memory")),
    }
}

// Appends the row, up to the call that fails. How many records were acknowledged.
fn append_row(alloc: Global, disk: &mut MemDisk) -> Result<u64, Fail>
    requires { EndsAt (seen_of disk.old) SEGMENT 3 [] GATE }
    ensures { IfOk result (λ records. records ≡ RECORDS → calls_of disk.new ≡ calls_of disk.old + CALLS) }
{
    let Some(mut end) = begin(alloc, disk)? else {
        return Ok(0);
    };
    let mut at = GATE;
    for waiting in 1..RECORDS {
        let Some(next) = go_on(alloc, disk, at, end, waiting)? else {
            return Ok(waiting - 1);
        };
        at = end;
        end = next;
    }
    match append_last(disk, SEGMENT, at) {
        Ok(()) => Ok(RECORDS),
        Err(_) => Ok(RECORDS - 1),
    }
}

// A disk with the whole row.
fn disk_of_a_row(alloc: Global) -> Result<MemDisk, Fail>
    ensures { IfOk result (λ disk. calls_of disk ≡ MAKING + CALLS) }
{
    let mut disk = disk_of_a_segment(alloc, Vec::new(alloc))?;
    if append_row(alloc, &mut disk)? != RECORDS {
        return Err(Fail::new("a row"));
    }
    Ok(disk)
}

/// The bytes that a crash may leave where no sync followed, and whether what was created and removed stays so.
const IMAGES: [(u8, bool); 6] = [
    (0, false),
    (0, true),
    (1, false),
    (1, true),
    (255, false),
    (255, true),
];

/// For each number of calls of the row, how many records are acknowledged behind them, and how many a crash may leave.
const MOMENTS: [(u64, usize, usize); 17] = [
    (0, 0, 0),
    (1, 0, 0),
    (2, 0, 0),
    (3, 0, 0),
    (4, 0, 1),
    (5, 1, 1),
    (6, 1, 1),
    (7, 1, 2),
    (8, 2, 2),
    (9, 2, 2),
    (10, 2, 3),
    (11, 3, 3),
    (12, 3, 3),
    (13, 3, 4),
    (14, 4, 4),
    (15, 4, 5),
    (16, 5, 5),
];

#[test]
fn a_crash_leaves_what_was_acknowledged_and_at_most_one_more(rt: HostRuntime) -> Result<(), Fail> {
    let disk = disk_of_a_row(rt.alloc())?;
    for (calls, least, most) in MOMENTS {
        for (fill, keep) in IMAGES {
            // An unsynced gate is open where its byte is left as 1.
            let records = if fill == 1 { most } else { least };
            let left = count_left(rt.alloc(), &disk, MAKING + calls.min(CALLS), fill, keep)?;
            assert_eq!(rt; left, records, "behind {calls} calls, {fill}");
        }
    }
    Ok(())
}

/// For each call of the row that fails, how many records are acknowledged then, and how many the segment has.
const FAILURES: [(u64, u64, usize); 16] = [
    (1, 0, 0),
    (2, 0, 0),
    (3, 0, 0),
    (4, 0, 0),
    (5, 0, 1),
    (6, 1, 1),
    (7, 1, 1),
    (8, 1, 2),
    (9, 2, 2),
    (10, 2, 2),
    (11, 2, 3),
    (12, 3, 3),
    (13, 3, 3),
    (14, 3, 4),
    (15, 4, 4),
    (16, 4, 5),
];

// How many records are acknowledged, and how many there are, where this call of the disk fails.
fn append_failing(alloc: Global, failing: u64) -> Result<(u64, usize), Fail> {
    let mut disk = disk_of_a_segment(alloc, vec![in alloc; failing]?)?;
    let acknowledged = append_row(alloc, &mut disk)?;
    Ok((acknowledged, count(alloc, &mut disk)?))
}

#[test]
fn a_disk_that_fails_has_the_record_in_doubt_or_not(rt: HostRuntime) -> Result<(), Fail> {
    for (call, acknowledged, records) in FAILURES {
        let told = append_failing(rt.alloc(), MAKING + call.min(CALLS))?;
        assert_eq!(rt; told, (acknowledged, records), "at call {call}");
    }
    Ok(())
}
