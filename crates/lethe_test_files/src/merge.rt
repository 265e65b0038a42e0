//! Merged lists of entries.
ghost use Rattle.std.specs.Prelude.{reverse};
ghost use Rattle.lethe_base.specs.Entries.{IsAscending};

use crate::common::{body_of, erase_of};
use lethe_base::{Body, Entry, Pending};
use lethe_disk::{Cursor, Disk, ReadRefused};
use lethe_memdisk::{MemDisk, MemPort};
use lethe_merge::{Merger, merge_entries, settle};
use lethe_test_values::key_of;
use lethe_tile::is_ascending;
use std::alloc::Global;
use std::process::Abort;

/// Gives entries that it holds, of which the last comes first. It has memory for so many answers.
#[derive(Drop)]
struct Listed {
    entries: Vec<Entry>,
    answers: u64,
}

impl<D: Disk> Cursor<D> for Listed {
    ghost may_ask = { λ _. Unit {0} };

    ghost sound = { λ c. IsAscending (reverse c.entries.items) };

    ghost left = { λ c. reverse c.entries.items };

    ghost awaits = { λ _. 0 };

    ghost damages = { λ _ _. ⊥ };

    ghost gives = { λ _ _. Unit {0} };

    ghost ascends = { λ c asked sound. sound };

    fn next(&mut self, _alloc: Global, _port: &mut D::Port) -> Result<Option<Entry>, ReadRefused> {
        if self.answers == 0 {
            return Err(ReadRefused::NoMemory);
        }
        self.answers -= 1;
        Ok(self.entries.pop())
    }
}

/// An entry: its key, its place, its delete key unless it is a tombstone, and its `since`.
type Row = (&'static str, u64, Option<u64>, Option<u64>);

/// An erase: its place, its time, and its range.
type Erase = (u64, u64, u64, u64);

fn entry_of(alloc: Global, rt: &impl Abort, row: &Row) -> Entry {
    let (key, seq, dkey, since) = *row;
    Entry {
        seq,
        key: key_of(alloc, key).expect(rt, "a key"),
        body: body_of(alloc, rt, dkey, b""),
        since,
    }
}

fn cursor_of(alloc: Global, rt: &impl Abort, rows: &[Row], answers: u64) -> Listed {
    let mut entries = Vec::new(alloc);
    for row in rows.iter().rev() {
        entries.push(entry_of(alloc, rt, row)).expect(rt, "memory");
    }
    Listed { entries, answers }
}

fn erases_of(alloc: Global, rt: &impl Abort, rows: &[Erase]) -> Vec<Pending> {
    let mut erases = Vec::new(alloc);
    for row in rows {
        let (seq, time, lo, hi) = *row;
        erases
            .push(erase_of(rt, seq, time, lo, hi))
            .expect(rt, "memory");
    }
    erases
}

fn is_row(entry: &Entry, row: &Row) -> bool {
    let (key, seq, dkey, since) = *row;
    let same = match entry.body {
        Body::Put { dkey: own, .. } => dkey == Some(own),
        Body::Tomb => dkey.is_none(),
    };
    same && entry.seq == seq && entry.since == since && entry.key.bytes() == key.as_bytes()
}

fn are_rows(entries: &[Entry], rows: &[Row]) -> bool {
    entries.len() == rows.len()
        && entries
            .iter()
            .zip(rows)
            .all(|(entry, row)| is_row(entry, row))
}

/// Lists that are merged, and what is given.
#[derive(Drop)]
struct Case {
    lists: &'static [&'static [Row]],
    erases: &'static [Erase],
    alone: bool,
    wanted: &'static [Row],
}

fn merger_of(alloc: Global, rt: &impl Abort, case: &Case) -> Merger<MemDisk, Listed> {
    let mut cursors = Vec::new(alloc);
    for list in case.lists {
        cursors
            .push(cursor_of(alloc, rt, list, u64::MAX))
            .expect(rt, "memory");
    }
    let erases = erases_of(alloc, rt, case.erases);
    Merger::new(alloc, cursors, erases, case.alone).expect(rt, "memory")
}

/// The next entry that is given.
fn next_of(
    alloc: Global,
    merger: &mut Merger<MemDisk, Listed>,
    port: &mut MemPort,
) -> Result<Option<Entry>, ReadRefused> {
    merger.next(alloc, port)
}

/// The row has to be given next, and without one there has to be an end.
fn check_next(
    alloc: Global,
    rt: &impl Abort,
    merger: &mut Merger<MemDisk, Listed>,
    port: &mut MemPort,
    row: Option<&Row>,
) {
    let given = next_of(alloc, merger, port).expect(rt, "an answer");
    let same = match (&given, row) {
        (Some(entry), Some(row)) => is_row(entry, row),
        (None, None) => true,
        _ => false,
    };
    assert!(rt; same, "{row:?}");
}

/// The merger has to give the entries that are wanted and then twice none.
fn check_case(alloc: Global, rt: &impl Abort, case: &Case) {
    let mut port = MemPort::new();
    let mut merger = merger_of(alloc, rt, case);
    for row in case.wanted {
        check_next(alloc, rt, &mut merger, &mut port, Some(row));
    }
    check_next(alloc, rt, &mut merger, &mut port, None);
    check_next(alloc, rt, &mut merger, &mut port, None);
}

fn check_cases(alloc: Global, rt: &impl Abort, cases: &[Case]) {
    for case in cases {
        check_case(alloc, rt, case);
    }
}

const NEWER: &[Row] = &[("b", 7, Some(1), None), ("d", 9, None, Some(4))];

const OLDER: &[Row] = &[
    ("a", 1, Some(2), None),
    ("b", 3, Some(3), Some(8)),
    ("d", 2, Some(5), Some(3)),
    ("e", 5, None, Some(6)),
];

const OLDEST: &[Row] = &[("b", 2, None, Some(6)), ("c", 4, Some(9), None)];

/// What these three are merged into.
const MERGED: &[Row] = &[
    ("a", 1, Some(2), None),
    ("b", 7, Some(1), Some(6)),
    ("c", 4, Some(9), None),
    ("d", 9, None, Some(3)),
    ("e", 5, None, Some(6)),
];

/// The same where nothing lies below.
const BARE: &[Row] = &[
    ("a", 1, Some(2), None),
    ("b", 7, Some(1), None),
    ("c", 4, Some(9), None),
];

const DROPPED: &[Row] = &[("a", 5, None, Some(1)), ("b", 6, None, Some(2))];

const NEWEST: [Case; 8] = [
    Case {
        lists: &[NEWER, OLDER, OLDEST],
        erases: &[],
        alone: false,
        wanted: MERGED,
    },
    Case {
        lists: &[OLDEST, NEWER, OLDER],
        erases: &[],
        alone: false,
        wanted: MERGED,
    },
    Case {
        lists: &[NEWER, OLDER, OLDEST],
        erases: &[],
        alone: true,
        wanted: BARE,
    },
    Case {
        lists: &[OLDER],
        erases: &[],
        alone: false,
        wanted: OLDER,
    },
    Case {
        lists: &[&[], OLDER, &[]],
        erases: &[],
        alone: false,
        wanted: OLDER,
    },
    Case {
        lists: &[&[], &[]],
        erases: &[],
        alone: true,
        wanted: &[],
    },
    Case {
        lists: &[],
        erases: &[],
        alone: false,
        wanted: &[],
    },
    Case {
        lists: &[DROPPED],
        erases: &[],
        alone: true,
        wanted: &[],
    },
];

#[test]
fn of_each_key_its_newest_entry_is_given_with_the_least_time(rt: HostRuntime) {
    check_cases(rt.alloc(), &rt, &NEWEST);
}

const FIRST: &[Row] = &[("a", 3, Some(1), None)];

const SECOND: &[Row] = &[("a", 3, Some(2), Some(7))];

const THIRD: &[Row] = &[("a", 3, None, Some(5))];

/// Lists of entries of one place.
const EQUAL: [Case; 3] = [
    Case {
        lists: &[FIRST, SECOND],
        erases: &[],
        alone: false,
        wanted: &[("a", 3, Some(1), Some(7))],
    },
    Case {
        lists: &[SECOND, FIRST],
        erases: &[],
        alone: false,
        wanted: &[("a", 3, Some(2), Some(7))],
    },
    Case {
        lists: &[THIRD, SECOND, FIRST],
        erases: &[],
        alone: false,
        wanted: &[("a", 3, None, Some(5))],
    },
];

#[test]
fn of_equal_places_the_earlier_cursors_entry_is_given(rt: HostRuntime) {
    check_cases(rt.alloc(), &rt, &EQUAL);
}

const PUT: &[Row] = &[("a", 4, Some(10), None)];

const TIMED: &[Row] = &[("a", 4, Some(10), Some(6))];

const BEHIND: &[Row] = &[("a", 9, Some(30), None)];

/// Lists with erases.
const ERASED: [Case; 9] = [
    Case {
        lists: &[PUT],
        erases: &[(5, 8, 10, 11)],
        alone: false,
        wanted: &[("a", 4, None, Some(8))],
    },
    Case {
        lists: &[PUT],
        erases: &[(5, 8, 10, 11)],
        alone: true,
        wanted: &[],
    },
    // The erase stands before the put, at it, or has another range.
    Case {
        lists: &[PUT],
        erases: &[(3, 8, 10, 11), (4, 8, 10, 11)],
        alone: false,
        wanted: PUT,
    },
    Case {
        lists: &[PUT],
        erases: &[(5, 8, 11, 12), (5, 8, 9, 10)],
        alone: false,
        wanted: PUT,
    },
    // The least of the times.
    Case {
        lists: &[PUT],
        erases: &[(5, 8, 10, 11), (6, 7, 0, 99)],
        alone: false,
        wanted: &[("a", 4, None, Some(7))],
    },
    Case {
        lists: &[TIMED],
        erases: &[(5, 8, 10, 11)],
        alone: false,
        wanted: &[("a", 4, None, Some(6))],
    },
    // An entry below the newest one is matched, and the newest one isn't.
    Case {
        lists: &[BEHIND, PUT],
        erases: &[(12, 8, 10, 20)],
        alone: false,
        wanted: &[("a", 9, Some(30), Some(8))],
    },
    Case {
        lists: &[BEHIND, PUT],
        erases: &[(12, 8, 10, 20)],
        alone: true,
        wanted: &[("a", 9, Some(30), None)],
    },
    Case {
        lists: &[BEHIND, PUT],
        erases: &[(12, 8, 30, 31)],
        alone: false,
        wanted: &[("a", 9, None, Some(8))],
    },
];

#[test]
fn a_put_that_an_erase_matches_is_given_as_a_tombstone(rt: HostRuntime) {
    check_cases(rt.alloc(), &rt, &ERASED);
}

const STRONG: &[Row] = &[("a", 1, Some(1), None), ("c", 2, Some(1), None)];

const WEAK: &[Row] = &[("b", 3, Some(1), None), ("d", 4, Some(1), None)];

/// A merger of two lists, the second of which has memory for one answer alone.
fn weak_merger(alloc: Global, rt: &impl Abort) -> Merger<MemDisk, Listed> {
    let strong = cursor_of(alloc, rt, STRONG, u64::MAX);
    let weak = cursor_of(alloc, rt, WEAK, 1);
    let mut cursors = Vec::new(alloc);
    cursors.push(strong).expect(rt, "memory");
    cursors.push(weak).expect(rt, "memory");
    Merger::new(alloc, cursors, Vec::new(alloc), false).expect(rt, "memory")
}

#[test]
fn a_refusal_of_a_cursor_is_handed_on(rt: HostRuntime) {
    let alloc = rt.alloc();
    let mut port = MemPort::new();
    let mut merger = weak_merger(alloc, &rt);
    check_next(alloc, &rt, &mut merger, &mut port, STRONG.first());
    check_next(alloc, &rt, &mut merger, &mut port, WEAK.first());
    let refused = next_of(alloc, &mut merger, &mut port).err();
    assert_eq!(rt; refused, Some(ReadRefused::NoMemory));
}

/// Entries, and what is left of them under the erases.
#[derive(Drop)]
struct Left {
    entries: &'static [Row],
    erases: &'static [Erase],
    alone: bool,
    wanted: &'static [Row],
}

fn entries_of(alloc: Global, rt: &impl Abort, rows: &[Row]) -> Vec<Entry> {
    let mut entries = Vec::new(alloc);
    for row in rows {
        entries.push(entry_of(alloc, rt, row)).expect(rt, "memory");
    }
    entries
}

const PAIR: &[Row] = &[("a", 4, Some(10), None), ("b", 9, Some(30), Some(6))];

/// One list, whose keys ascend.
const SETTLED: [Left; 4] = [
    Left {
        entries: PAIR,
        erases: &[],
        alone: false,
        wanted: PAIR,
    },
    Left {
        entries: PAIR,
        erases: &[(5, 8, 10, 31)],
        alone: false,
        wanted: &[("a", 4, None, Some(8)), ("b", 9, Some(30), Some(6))],
    },
    Left {
        entries: PAIR,
        erases: &[],
        alone: true,
        wanted: &[("a", 4, Some(10), None), ("b", 9, Some(30), None)],
    },
    Left {
        entries: PAIR,
        erases: &[(5, 8, 10, 31)],
        alone: true,
        wanted: &[("b", 9, Some(30), None)],
    },
];

/// What is left of a list whose keys ascend.
fn settled(alloc: Global, rt: &impl Abort, row: &Left) -> Vec<Entry> {
    let entries = entries_of(alloc, rt, row.entries);
    assert!(rt; is_ascending(&entries));
    let erases = erases_of(alloc, rt, row.erases);
    settle(alloc, entries, &erases, row.alone).expect(rt, "memory")
}

#[test]
fn one_list_is_settled(rt: HostRuntime) {
    for (place, row) in SETTLED.iter().enumerate() {
        let left = settled(rt.alloc(), &rt, row);
        assert!(rt; are_rows(&left, row.wanted), "row {place}");
    }
}

const MIXED: &[Row] = &[
    ("b", 4, Some(3), Some(8)),
    ("c", 6, None, Some(7)),
    ("a", 5, Some(1), None),
    ("b", 4, Some(2), Some(9)),
    ("c", 2, Some(4), Some(6)),
];

/// Entries in any order, also two of one key.
const GATHERED: [Left; 2] = [
    Left {
        entries: MIXED,
        erases: &[],
        alone: false,
        wanted: &[
            ("a", 5, Some(1), None),
            ("b", 4, Some(3), Some(8)),
            ("c", 6, None, Some(6)),
        ],
    },
    Left {
        entries: MIXED,
        erases: &[(6, 5, 1, 2)],
        alone: true,
        wanted: &[("b", 4, Some(3), None)],
    },
];

/// What is left of entries in any order.
fn gathered(alloc: Global, rt: &impl Abort, row: &Left) -> Vec<Entry> {
    let entries = entries_of(alloc, rt, row.entries);
    let erases = erases_of(alloc, rt, row.erases);
    merge_entries(alloc, entries, &erases, row.alone).expect(rt, "memory")
}

#[test]
fn entries_in_any_order_are_merged(rt: HostRuntime) {
    for (place, row) in GATHERED.iter().enumerate() {
        let left = gathered(rt.alloc(), &rt, row);
        assert!(rt; are_rows(&left, row.wanted), "row {place}");
    }
}
