//! Rows of changes and ticks, and what the disk holds behind them.

use crate::common::{Ask, Store, held_on, must, new_disk};
use lethe_base::{Kind, MAX_TIME, Name, Refused};
use lethe_engine::Ticked;
use lethe_images::{Held, objects_of};
use lethe_memdisk::MemDisk;
use sha2::{Digest, Sha256};
use std::alloc::Global;
use std::process::Abort;

/// What is answered.
#[derive(Clone, Copy, PartialEq, Eq)]
enum Told {
    Place(u64),
    /// The place, the clock, and of the certificate the number and the time up to which what was erased is gone.
    Ticked(u64, u64, Option<(u64, u64)>),
    Backwards(u64),
}

/// What is left: the places of the puts that objects hold, how many pages there are, the levels of the files, and how many entries have a time.
struct Left {
    puts: &'static [u64],
    pages: usize,
    levels: &'static [u64],
    timed: usize,
}

struct Row {
    asks: &'static [Ask],
    told: &'static [Told],
    left: Left,
}

const EMPTY: Left = Left {
    puts: &[],
    pages: 0,
    levels: &[],
    timed: 0,
};

const ROWS: [Row; 6] = [
    // One tick before the threshold answers no certificate, and the one at it does.
    Row {
        asks: &[
            Ask::Put("a", 5, "x"),
            Ask::Delete("a"),
            Ask::Tick(99),
            Ask::Tick(100),
        ],
        told: &[
            Told::Place(1),
            Told::Place(2),
            Told::Ticked(3, 99, None),
            Told::Ticked(4, 100, Some((1, 0))),
        ],
        left: EMPTY,
    },
    // The segment may hold the value for 33.
    Row {
        asks: &[Ask::Put("a", 5, "x"), Ask::Delete("a"), Ask::Tick(20)],
        told: &[Told::Place(1), Told::Place(2), Told::Ticked(3, 20, None)],
        left: Left {
            puts: &[1],
            pages: 0,
            levels: &[],
            timed: 1,
        },
    },
    Row {
        asks: &[Ask::Put("a", 5, "x"), Ask::Delete("a"), Ask::Tick(33)],
        told: &[Told::Place(1), Told::Place(2), Told::Ticked(3, 33, None)],
        left: EMPTY,
    },
    // One page of level 1 holds the one put that is left, without a time.
    Row {
        asks: &[
            Ask::Put("a", 1, "old"),
            Ask::Put("z", 2, "q"),
            Ask::Delete("z"),
            Ask::Tick(40),
            Ask::Delete("a"),
            Ask::Put("a", 3, "new"),
            Ask::Tick(140),
        ],
        told: &[
            Told::Place(1),
            Told::Place(2),
            Told::Place(3),
            Told::Ticked(4, 40, None),
            Told::Place(5),
            Told::Place(6),
            Told::Ticked(7, 140, Some((1, 40))),
        ],
        left: Left {
            puts: &[6],
            pages: 1,
            levels: &[1],
            timed: 0,
        },
    },
    Row {
        asks: &[Ask::Tick(50), Ask::Tick(49), Ask::Tick(50)],
        told: &[
            Told::Ticked(1, 50, None),
            Told::Backwards(50),
            Told::Ticked(2, 50, None),
        ],
        left: EMPTY,
    },
    // The greatest time, twice.
    Row {
        asks: &[
            Ask::Put("a", 5, "x"),
            Ask::Delete("a"),
            Ask::Tick(MAX_TIME),
            Ask::Put("b", 5, "y"),
            Ask::Delete("b"),
            Ask::Tick(MAX_TIME),
            Ask::Tick(0),
        ],
        told: &[
            Told::Place(1),
            Told::Place(2),
            Told::Ticked(3, MAX_TIME, Some((1, MAX_TIME - 100))),
            Told::Place(4),
            Told::Place(5),
            Told::Ticked(6, MAX_TIME, Some((2, MAX_TIME - 100))),
            Told::Backwards(MAX_TIME),
        ],
        left: Left {
            puts: &[4],
            pages: 0,
            levels: &[],
            timed: 1,
        },
    },
];

fn of_tick(rt: &impl Abort, answer: Result<Ticked, Refused>) -> Told {
    match answer {
        Ok(ticked) => {
            let certified = ticked.certificate.map(|is| (is.number, is.before));
            Told::Ticked(ticked.place, ticked.clock, certified)
        }
        Err(Refused::Backwards { clock }) => Told::Backwards(clock),
        Err(why) => panic!(rt; "{why:?}"),
    }
}

/// Makes the call, and tells what is answered.
fn told_of(alloc: Global, rt: &impl Abort, store: &mut Store<MemDisk>, ask: Ask) -> Told {
    match ask {
        Ask::Tick(to) => of_tick(rt, store.tick(alloc, rt, to)),
        _ => Told::Place(store.answer(alloc, rt, ask).expect(rt, "a place")),
    }
}

/// A new store has to answer that, and its disk to hold what is left then.
fn check_row(alloc: Global, rt: &impl Abort, row: &Row) {
    let mut store = Store::opened(alloc, rt, new_disk(alloc, rt));
    for (ask, told) in row.asks.iter().zip(row.told) {
        assert!(rt; told_of(alloc, rt, &mut store, *ask) == *told);
    }
    let held = held_on(alloc, rt, &mut store.into_disk());
    assert!(rt; is_left(&row.left, &held));
}

fn is_left(left: &Left, held: &Held) -> bool {
    held.puts.as_slice() == left.puts
        && held.levels.as_slice() == left.levels
        && (held.pages, held.timed) == (left.pages, left.timed)
}

#[test]
fn ticks_leave_what_may_be_there(rt: HostRuntime) {
    for row in &ROWS {
        check_row(rt.alloc(), &rt, row);
    }
}

/// Makes two ticks at the threshold over a new store, and answers the second with the disk behind it. The store has kept the certificates of both.
fn certified_twice(alloc: Global, rt: &impl Abort) -> (Ticked, MemDisk) {
    let mut store = Store::opened(alloc, rt, new_disk(alloc, rt));
    let first = store.must_tick(alloc, rt, 100);
    let second = store.must_tick(alloc, rt, 100);
    assert!(rt; store.has_certified(&first, &second));
    (second, store.into_disk())
}

fn digest_of(bytes: &[u8]) -> [u8; 32] {
    let mut hasher = Sha256::new();
    hasher.update(bytes);
    hasher.finalize()
}

/// The digest of the one manifest.
fn manifest_digest(alloc: Global, rt: &impl Abort, disk: &mut MemDisk) -> [u8; 32] {
    let objects = must(rt, objects_of(alloc, disk));
    let mut manifests = objects.iter().filter(|object| is_manifest(object));
    let (_, bytes) = manifests.next().expect(rt, "a manifest");
    let digest = digest_of(bytes);
    assert!(rt; manifests.next().is_none());
    digest
}

fn is_manifest(object: &(Name, Vec<u8>)) -> bool {
    object.0.kind == Kind::Manifest
}

#[test]
fn a_certificate_has_the_digest_of_the_manifest(rt: HostRuntime) {
    let (ticked, mut disk) = certified_twice(rt.alloc(), &rt);
    let certificate = ticked.certificate.expect(&rt, "a certificate");
    assert!(rt; (certificate.number, certificate.clock, certificate.before) == (2, 100, 0));
    assert!(rt; manifest_digest(rt.alloc(), &rt, &mut disk) == certificate.digest);
}
