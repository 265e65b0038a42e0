//! Generated changes with a tick behind every tenth, compared with a plain map: what objects may hold behind a tick, seen from outside.

use crate::common::{Store, THRESHOLD, held_on, must, new_disk};
use lethe_base::Value;
use lethe_images::Dice;
use lethe_memdisk::MemDisk;
use std::alloc::Global;
use std::collections::BTreeMap;
use std::process::Abort;

/// The letters of the keys: with two they come again soon.
const LETTERS: [&str; 5] = ["a", "b", "c", "d", "e"];

/// A put of a plain map.
#[derive(Clone, Copy)]
struct Held {
    dkey: u64,
    place: u64,
}

/// A change of a store.
#[derive(Drop)]
enum Change {
    Put(String, u64),
    Delete(String),
    Erase(u64, u64),
    Tick,
}

/// Whether the change erases what was put under the key with the delete key before. A put erases nothing: what it replaces is erased by the next delete of the key, or the next
/// erase that has its own delete key.
fn is_eraser(change: &Change, key: &String, dkey: u64) -> bool {
    match change {
        Change::Delete(other) => key == other,
        Change::Erase(lo, hi) => *lo <= dkey && dkey < *hi,
        _ => false,
    }
}

/// What a store has to hold: a map from a key to its put, the clock, and the changes, each with the clock before it.
#[derive(Drop)]
struct Plain {
    map: BTreeMap<String, Held>,
    clock: u64,
    changes: Vec<(Change, u64)>,
}

impl Plain {
    fn new(alloc: Global) -> Plain {
        Plain {
            map: BTreeMap::new(alloc),
            clock: 0,
            changes: Vec::new(alloc),
        }
    }

    // How many changes there were.
    fn count(&self) -> u64 {
        self.changes.len() as u64
    }

    // Adds a change, and answers its place.
    fn add(&mut self, rt: &impl Abort, change: Change) -> u64 {
        self.changes.push((change, self.clock)).expect(rt, "memory");
        self.count()
    }

    fn put(&mut self, rt: &impl Abort, key: String, dkey: u64) -> u64 {
        let own = key.clone().expect(rt, "memory");
        let place = self.add(rt, Change::Put(own, dkey));
        let before: Result<_, _> = self.map.insert(key, Held { dkey, place });
        before.expect(rt, "memory");
        place
    }

    fn delete(&mut self, rt: &impl Abort, key: String) -> u64 {
        self.map.remove(&key);
        self.add(rt, Change::Delete(key))
    }

    fn erase(&mut self, rt: &impl Abort, lo: u64, hi: u64) -> u64 {
        self.map.retain(|_, held| held.dkey < lo || hi <= held.dkey);
        self.add(rt, Change::Erase(lo, hi))
    }

    fn tick(&mut self, rt: &impl Abort, to: u64) -> u64 {
        let place = self.add(rt, Change::Tick);
        self.clock = to;
        place
    }

    // When the put of that place was erased, if it was.
    fn erased(&self, place: u64) -> Option<u64> {
        let behind = place as usize;
        let (change, _) = self.changes.get(behind.saturating_sub(1))?;
        let Change::Put(key, dkey) = change else {
            return None;
        };
        for (later, clock) in self.changes.iter().skip(behind) {
            if is_eraser(later, key, *dkey) {
                return Some(*clock);
            }
        }
        None
    }

    // Whether the put of that place was erased a threshold before a time, or longer ago.
    fn is_overdue(&self, place: u64, time: u64) -> bool {
        match self.erased(place) {
            Some(at) => at.saturating_add(THRESHOLD) <= time,
            None => false,
        }
    }
}

// A value that names the place of its put.
fn value_at(alloc: Global, rt: &impl Abort, place: u64) -> String {
    format!(in alloc; "v{place}").expect(rt, "memory")
}

// Whether what was read is the put's delete key and value, or nothing where there is no put.
fn is_told(got: Option<&(u64, Value)>, held: Option<&Held>, value: &str) -> bool {
    match (got, held) {
        (None, None) => true,
        (Some((dkey, told)), Some(held)) => {
            *dkey == held.dkey && told.bytes() == value.as_bytes()
        }
        _ => false,
    }
}

// What the store answers of a key has to be what the map has.
fn check_get(
    alloc: Global,
    rt: &impl Abort,
    store: &mut Store<MemDisk>,
    plain: &Plain,
    key: &String,
) {
    let held = plain.map.get(key);
    let value = value_at(alloc, rt, held.map_or(0, |held| held.place));
    let got = store.get(alloc, rt, key);
    assert!(rt; is_told(got.as_ref(), held, &value));
}

// A put to the store and to the map, which have to answer the same.
fn take_put(
    alloc: Global,
    rt: &impl Abort,
    store: &mut Store<MemDisk>,
    plain: &mut Plain,
    key: String,
    dkey: u64,
) {
    let value = value_at(alloc, rt, plain.count().saturating_add(1));
    let place = store.put(alloc, rt, &key, dkey, &value).expect(rt, "a put");
    assert!(rt; place == plain.put(rt, key, dkey));
}

// A delete of both.
fn take_delete(
    alloc: Global,
    rt: &impl Abort,
    store: &mut Store<MemDisk>,
    plain: &mut Plain,
    key: String,
) {
    let place = store.delete(alloc, rt, &key).expect(rt, "a delete");
    assert!(rt; place == plain.delete(rt, key));
}

// An erase of both, of at most three of the nine delete keys.
fn take_erase(
    alloc: Global,
    rt: &impl Abort,
    store: &mut Store<MemDisk>,
    plain: &mut Plain,
    dice: &mut Dice,
) {
    let lo = dice.below(9) as u64;
    let hi = lo.saturating_add(dice.below(3) as u64).saturating_add(1);
    let place = store.erase(alloc, rt, lo, hi);
    assert!(rt; place == plain.erase(rt, lo, hi));
}

// A change or a read of the store and of the map.
fn take_line(
    alloc: Global,
    rt: &impl Abort,
    store: &mut Store<MemDisk>,
    plain: &mut Plain,
    dice: &mut Dice,
) {
    let key = must(rt, dice.key(alloc, &LETTERS));
    match dice.below(14) {
        0..5 | 10..13 => take_put(alloc, rt, store, plain, key, dice.below(9) as u64),
        5..8 => take_delete(alloc, rt, store, plain, key),
        8..10 => check_get(alloc, rt, store, plain, &key),
        _ => take_erase(alloc, rt, store, plain, dice),
    }
}

// Ten lines and a tick. Ticks that are far apart find erases due in files that weren't merged since.
fn take_part(
    alloc: Global,
    rt: &impl Abort,
    store: &mut Store<MemDisk>,
    plain: &mut Plain,
    dice: &mut Dice,
) {
    for _ in 0..10 {
        take_line(alloc, rt, store, plain, dice);
    }
    let to = plain.clock.saturating_add(dice.below(150) as u64);
    let ticked = store.must_tick(alloc, rt, to);
    assert!(rt; (ticked.place, ticked.clock) == (plain.tick(rt, to), to));
}

// What the store has to hold behind so many parts.
fn take_parts(alloc: Global, rt: &impl Abort, store: &mut Store<MemDisk>, parts: usize) -> Plain {
    let mut dice = Dice::new(1);
    let mut plain = Plain::new(alloc);
    for _ in 0..parts {
        take_part(alloc, rt, store, &mut plain, &mut dice);
    }
    plain
}

// Whether none of the puts was erased a threshold before the clock, or longer ago.
fn are_in_time(plain: &Plain, puts: &[u64]) -> bool {
    puts.iter()
        .all(|place| !plain.is_overdue(*place, plain.clock))
}

// Behind so many parts no object holds a put that was erased a threshold before the clock, or longer ago.
fn check_behind(alloc: Global, rt: &impl Abort, parts: usize) {
    let mut store = Store::opened(alloc, rt, new_disk(alloc, rt));
    let plain = take_parts(alloc, rt, &mut store, parts);
    let held = held_on(alloc, rt, &mut store.into_disk());
    assert!(rt; are_in_time(&plain, &held.puts), "behind {parts} parts");
}

#[test]
fn behind_each_tick_no_object_holds_what_was_erased_a_threshold_ago(rt: HostRuntime) {
    for parts in 1..31 {
        check_behind(rt.alloc(), &rt, parts);
    }
}
