//! Switches on a disk in memory, what a crash leaves of them, and clearing behind them.
ghost use Rattle.std.specs.Prelude.{◌≡◌, ◌≤◌, ◌+◌, ◌∷◌, [], None, IfOk, IsTrue};
ghost use Rattle.lethe_memdisk.specs.Held.{seen_of, calls_of};
ghost use Rattle.lethe_manifest.specs.Manifests.{HasSpelling};
ghost use Rattle.lethe_commit.specs.Clear.{ArePresent};
ghost use Rattle.lethe_commit.specs.Gates.{gate_name};
ghost use Rattle.lethe_commit.specs.Switch.{manifest_name, IsFree};

use crate::common::{count_objects, crashed, must};
use lethe_base::{Config, Kind, List, Name};
use lethe_commit::{clear, switch};
use lethe_disk::DiskRefused;
use lethe_manifest::Manifest;
use lethe_memdisk::MemDisk;
use lethe_test_values::SMALL;
use std::alloc::Global;
use std::process::Abort;
use std::test::Fail;

// An empty disk. The calls of these numbers fail.
fn empty_disk(alloc: Global, failing: Vec<u64>) -> Result<MemDisk, Fail>
    ensures free { IfOk result (λ disk. IsFree (seen_of disk) 2 None) }
    ensures calls { IfOk result (λ disk. calls_of disk ≡ 0) }
{
    Ok(MemDisk::new(alloc, 20, failing)?)
}

// The manifest of a new store.
fn new_store(alloc: Global) -> Result<Manifest, Fail>
    ensures spelled { IfOk result HasSpelling }
    ensures number { IfOk result (λ manifest. manifest.no ≡ 2) }
{
    let config = Config::new(SMALL).ok().ok_or("a configuration")?;
    let segments = vec![in alloc; 1; 1]?;
    Ok(Manifest {
        no: 2,
        config,
        clock: 0,
        count: 0,
        next: 3,
        certificate: None,
        erases: List::of(Vec::new(alloc)),
        segments: List::of(segments),
        files: List::of(Vec::new(alloc)),
    })
}

// Switches to the new store, and answers whether that was done.
fn switch_to_new(alloc: Global, disk: &mut MemDisk) -> Result<bool, Fail>
    requires { IsFree (seen_of disk.old) 2 None }
    ensures calls { IfOk result (λ done. IsTrue done → calls_of disk.old + 5 ≤ calls_of disk.new) }
    ensures both { IfOk result (λ done. IsTrue done → ArePresent (gate_name 2 ∷ manifest_name 2 ∷ []) (seen_of disk.new).directory) }
{
    let manifest = new_store(alloc)?;
    match switch(alloc, disk, &manifest) {
        Ok(()) => Ok(true),
        Err(DiskRefused::Failed) => Ok(false),
        Err(DiskRefused::NoMemory) => Err(Fail::new("no memory")),
    }
}

/// How many calls are done before a crash, whether it keeps what was created, and how many objects it leaves.
const IMAGES: [(u64, bool, usize); 7] = [
    (1, true, 0),
    (2, false, 0),
    (2, true, 1),
    (3, false, 1),
    (4, false, 1),
    (4, true, 2),
    (5, false, 2),
];

/// A disk behind such a switch.
pub fn switched(alloc: Global, rt: &impl Abort) -> MemDisk
    ensures { 5 ≤ calls_of result }
{
    let mut disk = must(rt, empty_disk(alloc, Vec::new(alloc)));
    let done = must(rt, switch_to_new(alloc, &mut disk));
    assert!(rt; done);
    disk
}

// How many objects a crash leaves.
fn count_left(alloc: Global, rt: &impl Abort, disk: &MemDisk, moment: u64, keep: bool) -> usize
    requires { moment ≤ calls_of disk.now }
{
    let mut left = crashed(rt, disk, moment, 0, keep);
    count_objects(alloc, rt, &mut left)
}

fn check_images(alloc: Global, rt: &impl Abort, disk: &MemDisk)
    requires { 5 ≤ calls_of disk.now }
{
    for (calls, keep, objects) in IMAGES {
        assert!(rt; count_left(alloc, rt, disk, calls.min(5), keep) == objects);
    }
}

#[test]
fn a_switch_that_a_crash_cuts_short_counts_from_its_gate_on(rt: HostRuntime) {
    check_images(rt.alloc(), &rt, &switched(rt.alloc(), &rt));
}

const GATE: Name = Name {
    kind: Kind::Gate,
    no: 2,
};

const MANIFEST: Name = Name {
    kind: Kind::Manifest,
    no: 2,
};

/// The number of the call that fails, whether the switch and the clear are done, and how many objects there are then.
const FAILURES: [(u64, bool, bool, usize); 9] = [
    (1, false, false, 0),
    (2, false, false, 0),
    (3, false, false, 1),
    (4, false, false, 1),
    (5, false, false, 2),
    (6, true, false, 2),
    (7, true, false, 1),
    (8, true, false, 0),
    (10, true, true, 0),
];

// Switches, and clears that behind it. Answers whether each is done.
fn switch_and_clear(alloc: Global, rt: &impl Abort, disk: &mut MemDisk) -> (bool, bool)
    requires { IsFree (seen_of disk.old) 2 None }
{
    if must(rt, switch_to_new(alloc, disk)) {
        (true, clear(disk, &[GATE, MANIFEST]).is_ok())
    } else {
        (false, false)
    }
}

// The same where this call fails, and how many objects there are then.
fn switch_failing(alloc: Global, rt: &impl Abort, failing: u64) -> (bool, bool, usize) {
    let failing = vec![in alloc; failing].expect(rt, "memory");
    let mut disk = must(rt, empty_disk(alloc, failing));
    let (switched, cleared) = switch_and_clear(alloc, rt, &mut disk);
    (switched, cleared, count_objects(alloc, rt, &mut disk))
}

#[test]
fn a_switch_and_a_clear_fail_where_the_disk_does(rt: HostRuntime) {
    for (failing, switched, cleared, objects) in FAILURES {
        let done = switch_failing(rt.alloc(), &rt, failing);
        assert!(rt; done == (switched, cleared, objects));
    }
}
