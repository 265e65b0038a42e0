//! A disk in memory with one segment, and how many records the segment has.
ghost use Rattle.std.specs.Prelude.{◌≡◌, ◌≤◌, [], IfOk, IsTrue, OnOk, IsSome};
ghost use Rattle.lethe_disk.specs.Directory.{object};
ghost use Rattle.lethe_memdisk.specs.Held.{seen_of, calls_of};
ghost use Rattle.lethe_commit.specs.Append.{EndsAt};

use crate::records::front_of;
use lethe_base::{Kind, Name};
use lethe_disk::Disk;
use lethe_memdisk::MemDisk;
use lethe_segment::{new_segment, replay};
use std::alloc::Global;
use std::test::Fail;

/// The name of the segment.
pub const SEGMENT: Name = Name {
    kind: Kind::Segment,
    no: 3,
};

/// The place of the gate that ends the segment while it is new.
pub const GATE: u64 = 11;

/// How many device calls it takes to make the segment.
pub const MAKING: u64 = 2;

/// A disk with a new segment. The later calls of these numbers fail.
pub fn disk_of_a_segment(alloc: Global, failing: Vec<u64>) -> Result<MemDisk, Fail>
    ensures ready { IfOk result (λ disk. EndsAt (seen_of disk) SEGMENT 3 [] GATE) }
    ensures calls { IfOk result (λ disk. calls_of disk ≡ MAKING) }
{
    let mut disk = MemDisk::new(alloc, 40, failing)?;
    let Ok(()) = disk.create(SEGMENT, &new_segment(3)) else {
        return Err(Fail::new("a new segment"));
    };
    let Ok(()) = disk.sync() else {
        return Err(Fail::new("a synced segment"));
    };
    Ok(disk)
}

// Whether the segment is there. This takes one device call.
fn has_segment(alloc: Global, disk: &mut MemDisk) -> Result<bool, Fail>
    ensures { IfOk result (λ there. IsTrue there → IsSome (object (seen_of disk.new).directory SEGMENT)) }
{
    match disk.names(alloc) {
        Ok(names) => Ok(names.contains(&SEGMENT)),
        Err(_) => Err(Fail::new("names")),
    }
}

/// How many records the segment has. They are the first ones of the row.
pub fn count(alloc: Global, disk: &mut MemDisk) -> Result<usize, Fail> {
    if !has_segment(alloc, disk)? {
        return Err(Fail::new("a segment"));
    }
    let Ok(bytes) = disk.read(alloc, SEGMENT) else {
        return Err(Fail::new("bytes"));
    };
    let Ok(records) = replay(alloc, &bytes) else {
        return Err(Fail::new("records"));
    };
    if !bytes.starts_with(&front_of(alloc, records.len() as u64)?) {
        return Err(Fail::new("the first records of the row"));
    }
    Ok(records.len())
}

/// How many records a crash at a moment leaves, where each byte that was being written is left as `fill`.
pub fn count_left(
    alloc: Global,
    disk: &MemDisk,
    moment: u64,
    fill: u8,
    keep: bool,
) -> Result<usize, Fail>
    requires { moment ≤ calls_of disk.now }
{
    count(alloc, &mut disk.crash(moment, fill, keep)?)
}
