//! The bytes of a new store that a switch wrote.

use crate::common::{MANIFEST, count_objects, gives, has};
use crate::switches::switched;
use lethe_base::{Kind, Name};
use lethe_disk::Disk;
use lethe_memdisk::MemDisk;
use std::alloc::Global;
use std::process::Abort;

/// What a switch to a new store writes: the gate has no bytes.
const OBJECTS: [(Kind, &[u8]); 2] = [(Kind::Gate, &[]), (Kind::Manifest, &MANIFEST)];

// There is an object of that name, with these bytes.
fn check_object(alloc: Global, rt: &impl Abort, disk: &mut MemDisk, name: Name, bytes: &[u8]) {
    let there = has(alloc, disk, name).expect(rt, "names");
    assert!(rt; there);
    assert!(rt; gives(disk.read(alloc, name), bytes));
}

// The objects are these and no others.
fn check_objects(alloc: Global, rt: &impl Abort, disk: &mut MemDisk) {
    assert!(rt; count_objects(alloc, rt, disk) == OBJECTS.len());
    for (kind, bytes) in OBJECTS {
        check_object(alloc, rt, disk, Name { kind, no: 2 }, bytes);
    }
}

#[test]
fn a_switch_writes_a_new_store_byte_by_byte(rt: HostRuntime) {
    let mut disk = switched(rt.alloc(), &rt);
    check_objects(rt.alloc(), &rt, &mut disk);
}
