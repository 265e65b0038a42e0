//! A tick with two flushes and two merges, whose device calls and fetches fail in turn.

use crate::common::{Ask, Store, held_on, new_disk};
use lethe_base::Refused;
use lethe_disk::Disk;
use lethe_images::Held;
use lethe_memdisk::{FlakyDisk, MemDisk};
use std::alloc::Global;
use std::process::Abort;

/// The time of the tick.
const TO: u64 = 140;

/// The letters of forty keys, which fill level 1 and come to level 2.
const FIRST: [&str; 5] = ["k", "l", "m", "n", "o"];

const SECOND: [&str; 8] = ["a", "b", "c", "d", "e", "f", "g", "h"];

/// The places of the puts that were erased a threshold before the tick: the one of ka, at 0, and the one of a, at 40.
const GONE: [u64; 2] = [1, 43];

/// The places of the last three puts, which nothing erases.
const LEFT: [u64; 3] = [45, 46, 47];

/// Behind those keys: a delete of time 0, which comes to level 1, over a put in level 2.
const OLD: [Ask; 2] = [Ask::Delete("ka"), Ask::Tick(40)];

/// And then a frozen buffer with a delete of time 40, and an active one of one record.
const YOUNG: [Ask; 5] = [
    Ask::Put("a", 1, "old"),
    Ask::Delete("a"),
    Ask::Put("b", 3, "more"),
    Ask::Put("c", 3, "more"),
    Ask::Put("d", 3, "more"),
];

/// Makes these calls, and tells whether none was refused.
fn make_all<D: Disk>(alloc: Global, rt: &impl Abort, store: &mut Store<D>, asks: &[Ask]) -> bool {
    for ask in asks {
        if store.answer(alloc, rt, *ask).is_err() {
            return false;
        }
    }
    true
}

/// Puts the keys that begin with a letter.
fn put_row(alloc: Global, rt: &impl Abort, store: &mut Store<MemDisk>, first: &str) {
    for second in &SECOND {
        let key = format!(in alloc; "{first}{second}").expect(rt, "memory");
        store.put(alloc, rt, &key, 5, "many").expect(rt, "a put");
    }
}

/// The disk of a store with two levels of files, of which the upper one has a tombstone over the lower.
fn disk_of_levels(alloc: Global, rt: &impl Abort) -> MemDisk {
    let mut store = Store::opened(alloc, rt, new_disk(alloc, rt));
    for first in &FIRST {
        put_row(alloc, rt, &mut store, *first);
    }
    assert!(rt; make_all(alloc, rt, &mut store, &OLD));
    store.into_disk()
}

/// What comes of the tick.
#[derive(Clone, Copy)]
enum Came {
    /// It isn't asked for, since a device call fails before it.
    Early,
    Made,
    Refused(Refused),
}

/// Makes the other changes and then the tick.
fn age_and_tick<D: Disk>(alloc: Global, rt: &impl Abort, store: &mut Store<D>) -> Came {
    if !make_all(alloc, rt, store, &YOUNG) {
        return Came::Early;
    }
    match store.tick(alloc, rt, TO) {
        Ok(_) => Came::Made,
        Err(why) => Came::Refused(why),
    }
}

/// The same over the disk of such levels, with the disk that it leaves; none where it isn't opened.
fn came_over<D: Disk>(alloc: Global, rt: &impl Abort, disk: D) -> Option<(Came, D)> {
    let mut store = Store::opened_if_sound(alloc, rt, disk)?;
    let came = age_and_tick(alloc, rt, &mut store);
    Some((came, store.into_disk()))
}

/// Whether the objects hold none of the puts that are to be gone, and each of the others.
fn is_clean(held: &Held) -> bool {
    let gone = GONE.iter().all(|place| !held.puts.contains(place));
    let left = LEFT.iter().all(|place| held.puts.contains(place));
    gone && left
}

/// Makes the tick over a disk that is opened: none of the puts that are to be gone is left.
fn check_ends_clean(alloc: Global, rt: &impl Abort, disk: MemDisk) {
    let mut store = Store::opened(alloc, rt, disk);
    store.must_tick(alloc, rt, TO);
    let held = held_on(alloc, rt, &mut store.into_disk());
    assert!(rt; is_clean(&held));
}

/// Whether the tick is refused where the device fails behind so many calls; then the same tick over what is left has to end clean.
fn is_refused_behind(alloc: Global, rt: &impl Abort, calls: u64) -> bool {
    let mut disk = disk_of_levels(alloc, rt);
    disk.fuse(calls);
    match came_over(alloc, rt, disk) {
        Some((Came::Refused(why), mut disk)) => {
            assert!(rt; matches!(why, Refused::Fault { place: 48, .. }));
            disk.fuse(1_000);
            check_ends_clean(alloc, rt, disk);
            true
        }
        _ => false,
    }
}

#[test]
fn a_fault_at_each_device_call_is_made_good_by_the_same_tick(rt: HostRuntime) {
    let mut refused: usize = 0;
    for calls in 0..200 {
        if is_refused_behind(rt.alloc(), &rt, calls) {
            refused = refused.saturating_add(1);
        }
    }
    // Two flushes, two merges and the last step.
    assert!(rt; refused >= 40);
}

/// The refusal of the first fetch that fails.
const FAULT: Refused = Refused::ReadFault {
    before: 0,
    after: 1,
};

/// A disk of such levels whose fetch of that number fails.
fn flaky_levels(alloc: Global, rt: &impl Abort, fetch: u64) -> FlakyDisk {
    let mut failing = Vec::new(alloc);
    failing.push(fetch).expect(rt, "memory");
    FlakyDisk::new(disk_of_levels(alloc, rt), failing)
}

/// Whether the tick is refused where that fetch fails; then the same tick over what is left has to end clean.
fn is_refused_at(alloc: Global, rt: &impl Abort, fetch: u64) -> bool {
    match came_over(alloc, rt, flaky_levels(alloc, rt, fetch)) {
        Some((Came::Refused(why), disk)) => {
            assert!(rt; why == FAULT);
            check_ends_clean(alloc, rt, disk.into_inner());
            true
        }
        Some((Came::Made, _)) => false,
        _ => panic!(rt; "the tick isn't asked for"),
    }
}

#[test]
fn a_fetch_that_fails_is_made_good_by_the_same_tick(rt: HostRuntime) {
    let mut refused: usize = 0;
    for fetch in 1..20 {
        if is_refused_at(rt.alloc(), &rt, fetch) {
            refused = refused.saturating_add(1);
        }
    }
    // The pages of the inputs of two merges.
    assert!(rt; refused >= 5);
}
