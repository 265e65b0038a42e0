//! Which sweep is picked.

use crate::common::{Named, picked};
use lethe_base::{FileFacts, List, Pending, Range, Shape};
use lethe_fade::Claim;
use lethe_test_values::{SMALL, key_of};
use std::alloc::Global;
use std::process::Abort;

/// A file's level, number, keys, oldest time, tombstones, and the place up to which it is swept.
type FileRow = (u64, u64, &'static str, &'static str, Option<u64>, u64, u64);

/// The level of a claim, and its keys.
type ClaimRow = (u64, &'static str, &'static str);

/// Files, the places and times of the pending erases, the claims that stand, a clock, and what `pick` and `pick_due` name then.
type Row = (
    &'static [FileRow],
    &'static [(u64, u64)],
    &'static [ClaimRow],
    u64,
    Named,
    Named,
);

fn facts_of(alloc: Global, rt: &impl Abort, row: &FileRow) -> FileFacts {
    let (level, no, lo, hi, oldest, tombs, swept) = *row;
    FileFacts {
        no,
        level,
        lo: key_of(alloc, lo).expect(rt, "a key"),
        hi: key_of(alloc, hi).expect(rt, "a key"),
        oldest,
        tombs,
        entries: 4,
        max_seq: 0,
        swept,
    }
}

fn level_of(alloc: Global, rt: &impl Abort, level: u64, rows: &[FileRow]) -> List<FileFacts> {
    let mut files = Vec::new(alloc);
    for row in rows {
        if row.0 == level {
            files.push(facts_of(alloc, rt, row)).expect(rt, "memory");
        }
    }
    List::of(files)
}

fn erases_of(alloc: Global, rt: &impl Abort, rows: &[(u64, u64)]) -> List<Pending> {
    let range = Range::new(10, 20).expect(rt, "a range");
    let mut erases = Vec::new(alloc);
    for (seq, time) in rows {
        let (seq, time) = (*seq, *time);
        erases
            .push(Pending { seq, time, range })
            .expect(rt, "memory");
    }
    List::of(erases)
}

fn shape_of(alloc: Global, rt: &impl Abort, files: &[FileRow], erases: &[(u64, u64)]) -> Shape {
    let mut levels = Vec::new(alloc);
    for level in 0..3 {
        levels
            .push(level_of(alloc, rt, level, files))
            .expect(rt, "memory");
    }
    Shape {
        levels: List::of(levels),
        erases: erases_of(alloc, rt, erases),
    }
}

fn claim_of(alloc: Global, rt: &impl Abort, row: &ClaimRow) -> Claim {
    let (level, lo, hi) = *row;
    Claim {
        first: level,
        last: level,
        lo: key_of(alloc, lo).expect(rt, "a key"),
        hi: key_of(alloc, hi).expect(rt, "a key"),
    }
}

fn claims_of(alloc: Global, rt: &impl Abort, rows: &[ClaimRow]) -> Vec<Claim> {
    let mut claims = Vec::new(alloc);
    for row in rows {
        claims.push(claim_of(alloc, rt, row)).expect(rt, "memory");
    }
    claims
}

/// What `pick` and `pick_due` have to name.
fn check_row(alloc: Global, rt: &impl Abort, row: &Row) {
    let (files, erases, claimed, clock, told, due) = *row;
    let shape = shape_of(alloc, rt, files, erases);
    let claims = claims_of(alloc, rt, claimed);
    let named = picked(rt, &shape, SMALL, &claims, clock);
    assert!(rt;
        named == (told, due),
        "{files:?} {erases:?} {claimed:?} {clock}"
    );
}

/// One file of the last level.
const LAST: [FileRow; 1] = [(2, 7, "a", "c", None, 0, 4)];

const SWEPT: [FileRow; 1] = [(2, 7, "a", "c", None, 0, 5)];

/// The file of level 0 has a time.
const TIMED: [FileRow; 2] = [
    (0, 3, "a", "c", Some(60), 0, 4),
    (1, 2, "d", "f", None, 0, 4),
];

/// Level 0 is saturated, and swept. That of level 1 isn't.
const SATURATED: [FileRow; 3] = [
    (0, 3, "a", "c", None, 0, 5),
    (0, 2, "a", "c", None, 0, 5),
    (1, 7, "a", "c", None, 0, 4),
];

/// That of level 0 waits for the second erase, the other one for both.
const WAITING: [FileRow; 2] = [(0, 3, "a", "c", None, 0, 5), (1, 7, "a", "c", None, 0, 4)];

/// Of a level one without a time, and one with it.
const TIMELESS: [FileRow; 2] = [
    (1, 3, "a", "c", None, 9, 4),
    (1, 4, "d", "f", Some(50), 0, 4),
];

const OLDER: [FileRow; 2] = [
    (1, 3, "a", "c", Some(51), 9, 4),
    (1, 4, "d", "f", Some(50), 0, 4),
];

const MORE: [FileRow; 2] = [
    (1, 3, "a", "c", Some(50), 1, 4),
    (1, 4, "d", "f", Some(50), 2, 4),
];

const TIED: [FileRow; 2] = [
    (1, 4, "a", "c", Some(50), 2, 4),
    (1, 3, "d", "f", Some(50), 2, 4),
];

/// Two files of level 0.
const FIRSTS: [FileRow; 2] = [(0, 6, "a", "c", None, 0, 4), (0, 3, "d", "f", None, 0, 4)];

const ERASED: [(u64, u64); 1] = [(5, 50)];

const TWICE: [(u64, u64); 2] = [(5, 50), (8, 50)];

const ROWS: [Row; 16] = [
    // The file may be swept at once, and is due a threshold later.
    (&LAST, &ERASED, &[], 149, Some((7, Some(5))), None),
    (
        &LAST,
        &ERASED,
        &[],
        150,
        Some((7, Some(5))),
        Some((7, Some(5))),
    ),
    (&LAST, &[], &[], 150, None, None),
    (&SWEPT, &ERASED, &[], 150, None, None),
    // The lowest level comes first, and what is expired before all.
    (&TIMED, &ERASED, &[], 92, Some((3, Some(5))), None),
    (&TIMED, &ERASED, &[], 93, Some((3, None)), Some((3, None))),
    // Sweeps come before what is saturated, and those of the first erase alone.
    (&SATURATED, &ERASED, &[], 99, Some((7, Some(5))), None),
    (&WAITING, &TWICE, &[], 99, Some((7, Some(5))), None),
    // The least time comes first and none last, then the most tombstones, then the least number.
    (&TIMELESS, &ERASED, &[], 60, Some((4, Some(5))), None),
    (&OLDER, &ERASED, &[], 60, Some((4, Some(5))), None),
    (&MORE, &ERASED, &[], 60, Some((4, Some(5))), None),
    (&TIED, &ERASED, &[], 60, Some((3, Some(5))), None),
    // A sweep claims the level and the keys of its file alone. Claims don't hold back what is due.
    (
        &FIRSTS,
        &ERASED,
        &[],
        150,
        Some((3, Some(5))),
        Some((3, Some(5))),
    ),
    (
        &FIRSTS,
        &ERASED,
        &[(0, "d", "d")],
        150,
        Some((6, Some(5))),
        Some((3, Some(5))),
    ),
    (
        &FIRSTS,
        &ERASED,
        &[(0, "g", "z")],
        150,
        Some((3, Some(5))),
        Some((3, Some(5))),
    ),
    (
        &FIRSTS,
        &ERASED,
        &[(1, "a", "z")],
        150,
        Some((3, Some(5))),
        Some((3, Some(5))),
    ),
];

#[test]
fn sweeps_are_picked_in_their_order(rt: HostRuntime) {
    for row in &ROWS {
        check_row(rt.alloc(), &rt, row);
    }
}
