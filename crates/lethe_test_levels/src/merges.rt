//! The time of each level, and which merge is picked.

use crate::common::{config_of, picked};
use lethe_base::{Fields, FileFacts, List, Pick, Shape};
use lethe_fade::{Claim, cum};
use lethe_test_values::{SMALL, key_of};
use std::alloc::Global;
use std::process::Abort;

/// A file's level, number, keys, oldest time, tombstones and entries.
type Row = (u64, u64, &'static str, &'static str, Option<u64>, u64, u64);

/// The first and the last level of a claim, and its keys.
type ClaimRow = (u64, u64, &'static str, &'static str);

fn facts_of(alloc: Global, rt: &impl Abort, row: &Row) -> FileFacts {
    let (level, no, lo, hi, oldest, tombs, entries) = *row;
    FileFacts {
        no,
        level,
        lo: key_of(alloc, lo).expect(rt, "a key"),
        hi: key_of(alloc, hi).expect(rt, "a key"),
        oldest,
        tombs,
        entries,
        max_seq: 0,
        swept: 0,
    }
}

fn level_of(alloc: Global, rt: &impl Abort, level: u64, rows: &[Row]) -> List<FileFacts> {
    let mut files = Vec::new(alloc);
    for row in rows {
        if row.0 == level {
            files.push(facts_of(alloc, rt, row)).expect(rt, "memory");
        }
    }
    List::of(files)
}

fn shape_of(alloc: Global, rt: &impl Abort, rows: &[Row]) -> Shape {
    let mut levels = Vec::new(alloc);
    for level in 0..3 {
        levels
            .push(level_of(alloc, rt, level, rows))
            .expect(rt, "memory");
    }
    Shape {
        levels: List::of(levels),
        erases: List::of(Vec::new(alloc)),
    }
}

fn claim_of(alloc: Global, rt: &impl Abort, row: &ClaimRow) -> Claim {
    let (first, last, lo, hi) = *row;
    Claim {
        first,
        last,
        lo: key_of(alloc, lo).expect(rt, "a key"),
        hi: key_of(alloc, hi).expect(rt, "a key"),
    }
}

fn claims_of(alloc: Global, rt: &impl Abort, rows: &[ClaimRow]) -> Vec<Claim> {
    let mut claims = Vec::new(alloc);
    for row in rows {
        claims.push(claim_of(alloc, rt, row)).expect(rt, "memory");
    }
    claims
}

/// The files that `pick` and `pick_due` name at a clock, where the claims stand.
fn named(
    alloc: Global,
    rt: &impl Abort,
    fields: Fields,
    rows: &[Row],
    claimed: &[ClaimRow],
    clock: u64,
) -> (Option<u64>, Option<u64>) {
    let shape = shape_of(alloc, rt, rows);
    let claims = claims_of(alloc, rt, claimed);
    let (picked, due) = picked(rt, &shape, fields, &claims, clock);
    (picked.map(|named| named.0), due.map(|named| named.0))
}

/// The file that is picked where nothing is expired.
fn merged(
    alloc: Global,
    rt: &impl Abort,
    order: Pick,
    rows: &[Row],
    claimed: &[ClaimRow],
) -> Option<u64> {
    let fields = Fields {
        pick: order,
        ..SMALL
    };
    named(alloc, rt, fields, rows, claimed, 0).0
}

/// The levels of a configuration have to have these times, from level 0 on.
fn check_times(rt: &impl Abort, fields: Fields, times: &[u64]) {
    let config = config_of(rt, fields);
    assert!(rt; config.fields().levels == times.len() as u64);
    for (level, time) in times.iter().enumerate() {
        assert!(rt; cum(&config, level as u64) == *time);
    }
}

#[test]
fn the_time_of_a_level_is_its_part_of_the_threshold(rt: HostRuntime) {
    check_times(&rt, Fields::default(), &[47, 238, 1000]);
    check_times(&rt, SMALL, &[33, 100]);
}

/// A single file of level 0.
const ONE: [Row; 1] = [(0, 7, "a", "c", Some(3), 1, 90)];

/// Two files of level 0, and one of level 1.
const TWO: [Row; 3] = [
    (0, 7, "a", "c", Some(3), 1, 4),
    (0, 5, "m", "p", None, 0, 4),
    (1, 3, "f", "g", None, 0, 16),
];

/// The order, the files, the claims that stand, and what is picked then: the merge takes all files of level 0, those of `TWO` have
/// the keys from `a` to `p`, and the least number is told.
const PICKS: [(Pick, &[Row], &[ClaimRow], Option<u64>); 9] = [
    (Pick::So, &ONE, &[], None),
    (Pick::So, &TWO, &[(0, 1, "p", "q")], None),
    (Pick::So, &TWO, &[(0, 1, "pp", "q")], Some(5)),
    (Pick::So, &TWO, &[(0, 0, "c", "e")], None),
    (Pick::So, &TWO, &[(1, 2, "Z", "a")], None),
    (Pick::So, &TWO, &[(1, 2, "Z", "_")], Some(5)),
    (Pick::So, &TWO, &[(2, 2, "a", "p")], Some(5)),
    (Pick::So, &TWO, &[(2, 3, "a", "p")], Some(5)),
    (Pick::Sd, &TWO, &[], Some(5)),
];

#[test]
fn level_0_is_merged_from_as_many_files_as_the_ratio(rt: HostRuntime) {
    for (order, files, claims, file) in PICKS {
        let got = merged(rt.alloc(), &rt, order, files, claims);
        assert!(rt; got == file, "{order:?} {claims:?}");
    }
}

/// The entries of the two files of level 1, those of the last level, and what is picked.
const SATURATIONS: [(u64, u64, u64, Option<u64>); 5] = [
    (8, 8, 0, None),
    (8, 9, 0, Some(4)),
    (u64::MAX, u64::MAX, 0, Some(4)),
    (0, 0, u64::MAX, None),
    (17, 0, u64::MAX, Some(9)),
];

#[test]
fn a_deeper_level_is_saturated_by_its_entries(rt: HostRuntime) {
    for (first, second, deepest, file) in SATURATIONS {
        let files: [Row; 3] = [
            (1, 9, "a", "c", None, 0, first),
            (1, 4, "d", "f", None, 0, second),
            (2, 1, "f", "h", None, 0, deepest),
        ];
        let got = merged(rt.alloc(), &rt, Pick::So, &files, &[]);
        assert!(rt; got == file, "{first} {second} {deepest}");
    }
}

/// A file of level 1: its number, its oldest time, its tombstones, and the entries that lie below it.
type Candidate = (u64, Option<u64>, u64, u64);

/// Two files of level 1, and what `so` and `sd` pick of them.
const ORDERS: [(Candidate, Candidate, u64, u64); 7] = [
    ((3, None, 5, 10), (4, None, 1, 9), 4, 3),
    ((3, None, 1, 10), (4, None, 5, 9), 4, 4),
    ((3, None, 1, 9), (4, None, 5, 10), 3, 4),
    ((3, Some(2), 1, 9), (4, Some(9), 5, 9), 4, 4),
    ((4, Some(7), 5, 9), (3, Some(6), 5, 9), 3, 3),
    ((4, Some(7), 5, 9), (3, None, 5, 9), 3, 4),
    ((4, None, 5, 9), (3, None, 5, 9), 3, 3),
];

fn files_of(first: Candidate, second: Candidate) -> [Row; 4] {
    [
        (1, first.0, "a", "c", first.1, first.2, 9),
        (1, second.0, "d", "f", second.1, second.2, 9),
        (2, 1, "c", "cc", None, 0, first.3),
        (2, 2, "e", "g", None, 0, second.3),
    ]
}

#[test]
fn files_are_merged_in_the_order_of_the_configuration(rt: HostRuntime) {
    for (first, second, so, sd) in ORDERS {
        let files = files_of(first, second);
        let by_so = merged(rt.alloc(), &rt, Pick::So, &files, &[]);
        let by_sd = merged(rt.alloc(), &rt, Pick::Sd, &files, &[]);
        assert!(rt;
            (by_so, by_sd) == (Some(so), Some(sd)),
            "{first:?} {second:?}"
        );
    }
}

/// Level 0 comes first, then file 3, whose merge has the keys from `a` to `e`, then file 4 with those from `m` to `z`.
const CANDIDATES: [Row; 6] = [
    (0, 8, "a", "b", None, 0, 4),
    (0, 6, "b", "d", None, 0, 4),
    (1, 4, "m", "p", None, 0, 9),
    (1, 3, "b", "d", None, 9, 9),
    (2, 1, "a", "e", None, 0, 5),
    (2, 2, "p", "z", None, 0, 6),
];

/// The claims that stand, and what is picked then. The last claims lie beyond the keys of file 4 itself.
const CLAIMED: [(&[ClaimRow], Option<u64>); 6] = [
    (&[(5, 6, "a", "z")], Some(6)),
    (&[(0, 0, "a", "z")], Some(3)),
    (&[(1, 1, "c", "c")], Some(4)),
    (&[(2, 3, "c", "z")], Some(6)),
    (&[(0, 1, "a", "z")], None),
    (&[(0, 0, "d", "x"), (2, 2, "e", "f")], Some(4)),
];

#[test]
fn a_claim_in_the_way_leaves_the_next_candidate(rt: HostRuntime) {
    for (claims, file) in CLAIMED {
        let got = merged(rt.alloc(), &rt, Pick::So, &CANDIDATES, claims);
        assert!(rt; got == file, "{claims:?}");
    }
}

/// A file of each level whose time is 10, and one of level 0 that has none.
const NEWEST: [Row; 1] = [(0, 7, "a", "c", Some(10), 1, 4)];

const MIDDLE: [Row; 1] = [(1, 7, "a", "c", Some(10), 1, 9)];

const LAST: [Row; 1] = [(2, 7, "a", "c", Some(10), 1, 9)];

const TIMELESS: [Row; 1] = [(0, 7, "a", "c", None, 1, 4)];

/// Its time is the greatest number.
const LATEST: [Row; 1] = [(0, 7, "a", "c", Some(u64::MAX), 1, 4)];

/// Level 0 has the younger file.
const TWO_LEVELS: [Row; 2] = [
    (0, 7, "a", "c", Some(60), 0, 4),
    (1, 3, "a", "c", Some(0), 5, 9),
];

/// Level 0 is saturated, and none of its files has a time.
const CROWDED: [Row; 3] = [
    (0, 8, "a", "c", None, 9, 4),
    (0, 6, "d", "f", None, 9, 4),
    (1, 9, "a", "c", Some(10), 0, 9),
];

/// Of the files of level 0 one has a time. The merge takes both, and is named by the least number until that one is expired.
const WHOLE: [Row; 2] = [
    (0, 3, "a", "c", None, 9, 4),
    (0, 8, "d", "f", Some(10), 0, 4),
];

/// A threshold, files and a clock, and the files that `pick` and `pick_due` name then. The times of levels 0 and 1 are 33 and 100 for threshold 100, and 0 and 1 for threshold 1.
const AGES: [(u64, &[Row], u64, Option<u64>, Option<u64>); 20] = [
    (100, &NEWEST, 42, None, None),
    (100, &NEWEST, 43, Some(7), Some(7)),
    (100, &NEWEST, 44, Some(7), Some(7)),
    (100, &MIDDLE, 109, None, None),
    (100, &MIDDLE, 110, Some(7), Some(7)),
    (100, &MIDDLE, 111, Some(7), Some(7)),
    (100, &LAST, u64::MAX, None, None),
    (100, &TIMELESS, u64::MAX, None, None),
    (100, &LATEST, u64::MAX, None, None),
    (1, &NEWEST, 9, None, None),
    (1, &NEWEST, 10, Some(7), Some(7)),
    (1, &LATEST, u64::MAX, Some(7), Some(7)),
    (1, &MIDDLE, 10, None, None),
    (1, &MIDDLE, 11, Some(7), Some(7)),
    (100, &TWO_LEVELS, 92, None, None),
    (100, &TWO_LEVELS, 100, Some(7), Some(7)),
    (100, &CROWDED, 109, Some(6), None),
    (100, &CROWDED, 110, Some(9), Some(9)),
    (100, &WHOLE, 42, Some(3), None),
    (100, &WHOLE, 43, Some(8), Some(8)),
];

#[test]
fn a_file_is_due_when_the_time_of_its_level_is_over(rt: HostRuntime) {
    for (threshold, files, clock, picked, due) in AGES {
        let fields = Fields { threshold, ..SMALL };
        let got = named(rt.alloc(), &rt, fields, files, &[], clock);
        assert!(rt; got == (picked, due), "{threshold} {files:?} {clock}");
    }
}

/// Two expired files of a level, with a number, a time and tombstones, and the one that comes first.
const TIES: [((u64, u64, u64), (u64, u64, u64), u64); 3] = [
    ((3, 7, 5), (4, 6, 1), 4),
    ((3, 6, 1), (4, 6, 2), 4),
    ((4, 6, 2), (3, 6, 2), 3),
];

#[test]
fn expired_files_come_by_time_then_tombstones_then_number(rt: HostRuntime) {
    for (first, second, file) in TIES {
        for level in 0..2 {
            let files: [Row; 2] = [
                (level, first.0, "a", "c", Some(first.1), first.2, 8),
                (level, second.0, "d", "f", Some(second.1), second.2, 4),
            ];
            let got = named(rt.alloc(), &rt, SMALL, &files, &[], 1000);
            assert!(rt;
                got == (Some(file), Some(file)),
                "{level} {first:?} {second:?}"
            );
        }
    }
}

/// All of these files are expired. The merge of level 0 has the keys from `a` to `p`, whichever file it is for.
const EXPIRED: [Row; 4] = [
    (0, 8, "a", "b", Some(2), 0, 4),
    (0, 6, "m", "p", Some(1), 0, 4),
    (1, 4, "f", "g", Some(1), 0, 4),
    (1, 5, "q", "z", Some(2), 0, 4),
];

/// The claims that stand, and what is picked then.
const STANDING: [(&[ClaimRow], Option<u64>); 4] = [
    (&[(2, 3, "a", "z")], Some(6)),
    (&[(0, 0, "a", "a")], Some(4)),
    (&[(0, 1, "c", "n")], Some(5)),
    (&[(1, 1, "a", "z")], None),
];

#[test]
fn claims_hold_back_what_is_picked_but_not_what_is_due(rt: HostRuntime) {
    for (claims, picked) in STANDING {
        let got = named(rt.alloc(), &rt, SMALL, &EXPIRED, claims, 1000);
        assert!(rt; got == (picked, Some(6)), "{claims:?}");
    }
}
