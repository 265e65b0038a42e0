//! Disks that a run doesn't open, and runs that leave their disk untouched.

use crate::common::{answered, answered_small, check_printed, empty_disk, many, must};
use lethe_base::{Kind, Name};
use lethe_images::{add, disk_of, names_of, objects_of};
use lethe_memdisk::MemDisk;
use lethe_rows::{Left, bytes_of, run_over};
use std::alloc::Global;
use std::process::Abort;

/// Manifest 2 of the default configuration, up to its count.
const HEAD: &[u8] =
    b"LM\x01\0\0\0\0\0\0\0\x02\0\0\0\0\0\0\x03\xe8\x04\x03\0\x40\x04\0\x08\x02\0\0\0\0\0\0\0\0\0\0";

/// What follows its next number. It cites segment 1.
const TAIL: &[u8] = b"\0\0\0\0\0\x01\0\0\0\0\0\0\0\x01\0\0\0\0";

/// Segment 1 with one put.
const ONE: &[u8] =
    b"LS\x01\0\0\0\0\0\0\0\x01\x01\x01\0\0\0\0\0\0\0\x01\0\x01a\0\0\0\0\0\0\0\x05\0\x01x\0";

/// Adds an object of a new name.
pub fn add_to(alloc: Global, rt: &impl Abort, disk: &mut MemDisk, name: Name, bytes: &[u8]) {
    must(rt, add(alloc, disk, name.kind, name.no, bytes));
}

const MANIFEST: Name = Name {
    kind: Kind::Manifest,
    no: 2,
};

const GATE: Name = Name {
    kind: Kind::Gate,
    no: 2,
};

pub const SEGMENT: Name = Name {
    kind: Kind::Segment,
    no: 1,
};

// The manifest that begins so, up to its count of changes, with this count and next number.
fn manifest_of(alloc: Global, rt: &impl Abort, head: &[u8], count: u64, next: u64) -> Vec<u8> {
    let (count, next) = (count.to_be_bytes(), next.to_be_bytes());
    must(rt, bytes_of(alloc, &[head, &count, &next, TAIL]))
}

/// A disk with gate 2 and the manifest 2 that begins so, of this count of changes and next number.
pub fn gated(alloc: Global, rt: &impl Abort, head: &[u8], count: u64, next: u64) -> MemDisk {
    let mut disk = empty_disk(alloc, rt);
    let manifest = manifest_of(alloc, rt, head, count, next);
    add_to(alloc, rt, &mut disk, MANIFEST, &manifest);
    add_to(alloc, rt, &mut disk, GATE, &[]);
    disk
}

// A store without its segment isn't opened, and has the same names then.
fn check_stays(alloc: Global, rt: &impl Abort, mut disk: MemDisk) -> MemDisk {
    let before = must(rt, names_of(alloc, &mut disk));
    let mut disk = answered(alloc, rt, "1 put a 5 y\n", disk, 8, "damaged segment 1\n");
    assert!(rt; must(rt, names_of(alloc, &mut disk)) == before);
    disk
}

#[test]
fn a_store_without_its_segment_stays_as_it_was(rt: HostRuntime) {
    let alloc = rt.alloc();
    let mut disk = check_stays(alloc, &rt, gated(alloc, &rt, HEAD, 0, 3));
    add_to(alloc, &rt, &mut disk, SEGMENT, ONE);
    answered(alloc, &rt, "1 get a\n", disk, 0, "1 at 1 val 5 x\n");
}

// Runs a word over a script, where these reads and writes fail.
fn run_failing(
    alloc: Global,
    rt: &impl Abort,
    word: &str,
    script: &[u8],
    failing: (&[u64], &[u64]),
    disk: MemDisk,
) -> Left {
    must(
        rt,
        run_over(alloc, &[word], script, failing.0, failing.1, disk),
    )
}

// A run whose sink fails leaves the objects as they are.
fn check_unprinted(alloc: Global, rt: &impl Abort, mut disk: MemDisk) {
    let before = must(rt, objects_of(alloc, &mut disk));
    let mut left = run_failing(alloc, rt, "run", b"1 put a 5 y\n", (&[], &[1]), disk);
    check_printed(rt, &left.printed, 5, "");
    assert!(rt; must(rt, objects_of(alloc, &mut left.disk)) == before);
}

#[test]
fn a_sink_that_fails_over_a_damaged_store_leaves_it_as_it_was(rt: HostRuntime) {
    check_unprinted(rt.alloc(), &rt, gated(rt.alloc(), &rt, HEAD, 0, 3));
}

#[test]
fn a_store_of_another_configuration_is_not_opened(rt: HostRuntime) {
    let alloc = rt.alloc();
    let text =
        "other config kept threshold=100 ratio=2 levels=2 page=2 tile=2 file=2 buffer=4 pick=so asked threshold=1000 ratio=4 levels=3 page=64 tile=4 file=8 buffer=512 pick=so\n";
    let disk = answered_small(alloc, &rt, "", empty_disk(alloc, &rt), 0, "");
    let disk = answered(alloc, &rt, "1 put a 5 x\n", disk, 9, text);
    answered(alloc, &rt, "1 get a\n", disk, 9, text);
}

// Runs a word over a disk whose first call fails, and that call is still to come behind it.
fn check_takes_no_call(
    alloc: Global,
    rt: &impl Abort,
    word: &str,
    script: &[u8],
    failing_reads: &[u64],
    status: u8,
    text: &str,
) {
    let disk = must(rt, disk_of(alloc, &[1]));
    let left = run_failing(alloc, rt, word, script, (failing_reads, &[]), disk);
    check_printed(rt, &left.printed, status, text);
    let fault = "open fault before 0 after 1\n";
    let disk = answered(alloc, rt, "1 get a\n", left.disk, 6, fault);
    answered(alloc, rt, "1 get a\n", disk, 0, "1 at 0 none\n");
}

// A script whose second line has a key that is too long.
fn long_script(alloc: Global, rt: &impl Abort) -> Vec<u8> {
    let key = many(alloc, rt, b'k', 256);
    let parts = [b"1 put a 5 x\n1 put ".as_slice(), &key, b" 7 v\n"];
    must(rt, bytes_of(alloc, &parts))
}

#[test]
fn a_run_without_a_script_takes_no_device_call(rt: HostRuntime) {
    let alloc = rt.alloc();
    let long = long_script(alloc, &rt);
    check_takes_no_call(alloc, &rt, "run", &long, &[], 3, "line 2 bad key\n");
    check_takes_no_call(alloc, &rt, "frob", b"1 put a 5 x\n", &[], 2, "bad words\n");
    check_takes_no_call(alloc, &rt, "run", b"1 put a 5 x\n", &[1], 4, "");
}
