//! A store with a pin, stopped at each device call: what the pins of a stopped store read, and what is there when the store is opened again.

use crate::asks::{Ask, Told, Which, told_by};
use crate::barred::{DELETED, asks_of};
use crate::common::{Store, empty_disk, holds_value, must};
use lethe_base::{Kind, Name, Refused};
use lethe_header::{Header, read_header};
use lethe_images::{IMAGES, image_of, objects_of, take_calls};
use lethe_manifest::read_manifest;
use lethe_memdisk::MemDisk;
use std::alloc::Global;
use std::process::Abort;

/// Behind each number of changes how many values there are, and the clock.
const BEHIND: [(usize, u64); 5] = [(0, 0), (1, 0), (0, 0), (0, 99), (0, 100)];

/// From so many changes on no object has the value.
const CLEAN: u64 = 3;

/// The first answer with the pin of the rows held, and how many there are up to its release.
const HELD: (usize, usize) = (3, 5);

/// A pin that is made now, and what it reads.
const NOW: [Ask; 2] = [Ask::Pin(Which::One), Ask::Read(Which::One, &["a"])];

/// What is asked of the rows, and then a pin.
fn asks_and_now(alloc: Global, rt: &impl Abort) -> Vec<Ask> {
    let mut asks = asks_of(alloc, rt, &DELETED, DELETED.len());
    asks.extend_from_slice(&NOW).expect(rt, "memory");
    asks
}

/// What is told over a disk that stops behind so many calls. Nothing is told where the store isn't opened.
fn told_until(alloc: Global, rt: &impl Abort, calls: u64) -> (Vec<Told>, MemDisk) {
    let mut disk = empty_disk(alloc, rt);
    disk.fuse(calls);
    match Store::opened_or_left(alloc, rt, disk) {
        Ok(store) => told_by(alloc, rt, store, &asks_and_now(alloc, rt)),
        Err(disk) => (Vec::new(alloc), disk),
    }
}

/// How many changes were acknowledged.
fn count_done(told: &[Told]) -> u64 {
    let mut done: u64 = 0;
    for told in told {
        if let Told::Place(place) | Told::Ticked(place, _) = told {
            done = done.max(*place);
        }
    }
    done
}

fn is_fault(told: &Told) -> bool {
    matches!(told, Told::Refused(Refused::Fault { .. }))
}

/// How many values there are behind so many changes.
fn values_behind(changes: u64) -> usize {
    match BEHIND.get(changes as usize) {
        Some((values, _)) => *values,
        None => 0,
    }
}

/// Whether the pin that was made at first reads its point, and whether the one that was made at last does, which the failed call is counted in.
fn read_their_points(told: &[Told], failed: bool) -> bool {
    let done = count_done(told);
    let first = Told::Read(values_behind(done.min(1)), 0);
    let last = Told::Read(values_behind(done), 0);
    let place = done.saturating_add(u64::from(failed));
    let pin = told.get(DELETED.len());
    told.get(6) == Some(&first)
        && matches!(pin, Some(Told::Pin { number: 2, point, .. }) if *point == place)
        && told.last() == Some(&last)
}

/// How many pages the tiles of a header cite.
fn count_pages(header: &Header) -> usize {
    let mut count: usize = 0;
    for tile in header.tiles.items() {
        count = count.saturating_add(tile.pages.items().len());
    }
    count
}

/// How many objects a manifest cites.
fn count_cited_by_manifest(alloc: Global, rt: &impl Abort, bytes: &[u8]) -> usize {
    let manifest = read_manifest(alloc, bytes).expect(rt, "a manifest");
    let segments = manifest.segments.items().len();
    segments.saturating_add(manifest.files.items().len())
}

/// How many objects an object cites.
fn count_cited(alloc: Global, rt: &impl Abort, name: Name, bytes: &[u8]) -> usize {
    match name.kind {
        Kind::Manifest => count_cited_by_manifest(alloc, rt, bytes),
        Kind::File => count_pages(&read_header(alloc, bytes).expect(rt, "a header")),
        _ => 0,
    }
}

/// Whether there is a gate, a manifest, and what that cites, and nothing else.
fn has_no_more(alloc: Global, rt: &impl Abort, disk: &mut MemDisk) -> bool {
    let objects = must(rt, objects_of(alloc, disk));
    let mut cited: usize = 2;
    for (name, bytes) in &objects {
        cited = cited.saturating_add(count_cited(alloc, rt, *name, bytes));
    }
    objects.len() == cited
}

/// A disk has to have no more than it cites, and the value only where fewer changes were made than let it go.
fn check_clean(alloc: Global, rt: &impl Abort, disk: &mut MemDisk, changes: u64) {
    assert!(rt; changes < CLEAN || !holds_value(alloc, rt, disk));
    assert!(rt; has_no_more(alloc, rt, disk));
}

/// Whether the values and the clock are those behind so many changes, as the pin that is made at last reads them.
fn are_behind(told: &[Told], changes: u64, clock: u64) -> bool {
    let values = values_behind(changes);
    BEHIND.get(changes as usize) == Some(&(values, clock))
        && told.last() == Some(&Told::Read(values, 0))
}

/// The store that is opened of a disk may have lost nothing of that many changes, and has nothing that wasn't asked, nor more on its disk than it cites.
fn check_kept(alloc: Global, rt: &impl Abort, disk: MemDisk, done: u64) {
    let store = Store::opened(alloc, rt, disk);
    let (kept, clock) = (store.count(), store.clock());
    let (told, mut disk) = told_by(alloc, rt, store, &NOW);
    assert!(rt;
        done <= kept && kept <= done.saturating_add(1),
        "{kept} changes in place of {done}"
    );
    assert!(rt; are_behind(&told, kept, clock), "behind {kept} changes");
    check_clean(alloc, rt, &mut disk, kept);
}

/// Whether the disk failed while the pin was held.
fn failed_held(told: &[Told]) -> bool {
    let (first, count) = HELD;
    let mut held = told.iter().skip(first).take(count);
    held.any(|told| is_fault(told))
}

/// Where the disk failed while the pin was held, an object has to have the value that the pin reads.
fn check_held(alloc: Global, rt: &impl Abort, disk: &mut MemDisk, told: &[Told]) {
    assert!(rt; !failed_held(told) || holds_value(alloc, rt, disk));
}

/// The disks that a crash may leave of this, behind so many of its calls, and the disk itself have to keep what was told.
fn check_kept_crashed(
    alloc: Global,
    rt: &impl Abort,
    mut disk: MemDisk,
    calls: u64,
    told: &[Told],
) {
    let done = count_done(told);
    disk.fuse(20_000);
    must(rt, take_calls(alloc, &mut disk, calls));
    for image in IMAGES {
        check_kept(alloc, rt, must(rt, image_of(&disk, calls, image)), done);
    }
    check_held(alloc, rt, &mut disk, told);
    check_kept(alloc, rt, disk, done);
}

/// Whether the rows are stopped behind so many calls. What is left of them has to be what it should be.
fn is_stopped(alloc: Global, rt: &impl Abort, calls: u64) -> bool {
    let (told, disk) = told_until(alloc, rt, calls);
    let failed = told.iter().any(|told| is_fault(told));
    assert!(rt;
        told.is_empty() || read_their_points(&told, failed),
        "behind {calls}"
    );
    check_kept_crashed(alloc, rt, disk, calls, &told);
    failed || told.is_empty()
}

/// Stops the rows behind each number of calls that they take, and counts these.
fn stop_at_each(alloc: Global, rt: &impl Abort) -> u64 {
    for calls in 0..600 {
        if !is_stopped(alloc, rt, calls) {
            return calls;
        }
    }
    panic!(rt; "too many calls")
}

#[test]
fn a_store_with_a_pin_is_stopped_at_each_call(rt: HostRuntime) {
    assert!(rt; stop_at_each(rt.alloc(), &rt) > 60);
}
