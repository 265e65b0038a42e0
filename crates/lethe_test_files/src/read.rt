//! Gets and scans over two buffers, and scans over files by level.
ghost use Rattle.std.specs.Prelude.{All};
ghost use Rattle.lethe_base.specs.Spelling.{HasSpelling};

use crate::build::{build_files, config_of, spelled};
use crate::common::{body_of, erase_of, insert};
use crate::opening::{empty_disk, header_of, pages_on};
use lethe_base::{Entry, Key, Pending, Value};
use lethe_build::Built;
use lethe_disk::{Disk, ReadRefused};
use lethe_file::FileView;
use lethe_mem::VecBuffer;
use lethe_memdisk::{FlakyDisk, FlakyPort, MemDisk, MemPort};
use lethe_read::{get, scan};
use lethe_test_values::key_of;
use lethe_version::Version;
use std::alloc::Global;
use std::process::Abort;

/// An entry: its key, its place, and its delete key unless it is a tombstone. The one byte of its value is its place, and a tombstone's time.
type Row = (&'static str, u8, Option<u64>);

/// What a get answers: the delete key and the value, if there is a put.
type Answer = Option<(u64, Value)>;

/// A pair: its key, its delete key, and the one byte of its value.
type Shown = (&'static str, u64, u8);

fn entry_of(alloc: Global, rt: &impl Abort, row: &Row) -> Entry {
    let (key, seq, dkey) = *row;
    Entry {
        seq: seq as u64,
        key: key_of(alloc, key).expect(rt, "a key"),
        body: body_of(alloc, rt, dkey, &[seq]),
        since: if dkey.is_none() {
            Some(seq as u64)
        } else {
            None
        },
    }
}

fn buffer_of(alloc: Global, rt: &impl Abort, rows: &[Row]) -> VecBuffer {
    let mut buffer = VecBuffer::new(alloc);
    for row in rows {
        insert(rt, &mut buffer, entry_of(alloc, rt, row));
    }
    buffer
}

fn is_value(value: &Value, byte: u8) -> bool {
    value.bytes() == [byte].as_slice()
}

fn is_shown(pair: &(Key, u64, Value), shown: &Shown) -> bool {
    let (key, dkey, value) = pair;
    *dkey == shown.1 && is_value(value, shown.2) && key.bytes() == shown.0.as_bytes()
}

/// Whether these are the pairs.
fn are_shown(pairs: &[(Key, u64, Value)], wanted: &[Shown]) -> bool {
    pairs.len() == wanted.len()
        && pairs
            .iter()
            .zip(wanted)
            .all(|(pair, shown)| is_shown(pair, shown))
}

const ACTIVE: [Row; 3] = [("b", 7, Some(20)), ("d", 8, None), ("f", 9, Some(90))];

const FROZEN: [Row; 4] = [
    ("a", 1, Some(10)),
    ("b", 2, Some(11)),
    ("d", 3, Some(12)),
    ("e", 4, Some(13)),
];

/// A store without files.
#[derive(Drop)]
struct Store {
    active: VecBuffer,
    frozen: VecBuffer,
    version: Version<MemDisk>,
}

fn store_of(alloc: Global, rt: &impl Abort) -> Store {
    Store {
        active: buffer_of(alloc, rt, &ACTIVE),
        frozen: buffer_of(alloc, rt, &FROZEN),
        version: Version::of(alloc, Vec::new(alloc)).expect(rt, "memory"),
    }
}

/// What the store answers to a get of the key.
fn got(alloc: Global, rt: &impl Abort, store: &Store, erases: &[Pending], key: &Key) -> Answer {
    let mut port = MemPort::new();
    get(
        alloc,
        &store.active,
        Some(&store.frozen),
        &store.version,
        erases,
        &mut port,
        key,
    )
    .expect(rt, "an answer")
}

/// Whether the answer is this delete key and value, or none.
fn is_answer(answer: &Answer, wanted: Option<(u64, u8)>) -> bool {
    match (answer, wanted) {
        (Some((dkey, value)), Some((own, byte))) => *dkey == own && is_value(value, byte),
        (None, None) => true,
        _ => false,
    }
}

/// The key has to have this delete key and value, or nothing.
fn check_answer(
    alloc: Global,
    rt: &impl Abort,
    store: &Store,
    erases: &[Pending],
    row: (&str, Option<(u64, u8)>),
) {
    let (key, wanted) = row;
    let answer = got(
        alloc,
        rt,
        store,
        erases,
        &key_of(alloc, key).expect(rt, "a key"),
    );
    assert!(rt; is_answer(&answer, wanted), "{key}");
}

/// The pairs of the store between two keys.
fn scanned(
    alloc: Global,
    rt: &impl Abort,
    store: &Store,
    erases: &[Pending],
    lo: &Key,
    hi: &Key,
) -> Vec<(Key, u64, Value)> {
    let mut port = MemPort::new();
    scan(
        alloc,
        &store.active,
        Some(&store.frozen),
        &store.version,
        erases,
        &mut port,
        lo,
        hi,
    )
    .expect(rt, "pairs")
}

/// These have to be the pairs of the range.
fn check_scan(
    alloc: Global,
    rt: &impl Abort,
    store: &Store,
    erases: &[Pending],
    range: (&str, &str),
    wanted: &[Shown],
) {
    let lo = key_of(alloc, range.0).expect(rt, "a key");
    let hi = key_of(alloc, range.1).expect(rt, "a key");
    let pairs = scanned(alloc, rt, store, erases, &lo, &hi);
    assert!(rt; are_shown(&pairs, wanted), "from {}", range.0);
}

/// A key, and the delete key and the value that it has.
const ANSWERS: [(&str, Option<(u64, u8)>); 6] = [
    ("a", Some((10, 1))),
    // It stands behind the erase of its delete key.
    ("b", Some((20, 7))),
    ("c", None),
    ("d", None),
    // It stands before the erase.
    ("e", None),
    ("f", Some((90, 9))),
];

#[test]
fn a_key_has_what_its_newest_entry_says(rt: HostRuntime) {
    let store = store_of(rt.alloc(), &rt);
    let erases = [erase_of(&rt, 6, 1, 13, 14), erase_of(&rt, 6, 1, 20, 21)];
    for row in ANSWERS {
        check_answer(rt.alloc(), &rt, &store, &erases, row);
    }
}

/// A range, and its pairs.
const SCANS: [((&str, &str), &[Shown]); 6] = [
    (
        ("a", "g"),
        &[("a", 10, 1), ("b", 20, 7), ("e", 13, 4), ("f", 90, 9)],
    ),
    (("a", "f"), &[("a", 10, 1), ("b", 20, 7), ("e", 13, 4)]),
    (("aa", "ea"), &[("b", 20, 7), ("e", 13, 4)]),
    (("c", "e"), &[]),
    (("f", "f"), &[]),
    (("g", "a"), &[]),
];

#[test]
fn a_scan_lists_the_pairs_of_its_range_in_order(rt: HostRuntime) {
    let store = store_of(rt.alloc(), &rt);
    for (range, wanted) in SCANS {
        check_scan(rt.alloc(), &rt, &store, &[], range, wanted);
    }
    // Two of the pairs are erased, and a third stands behind its erase.
    let erases = [erase_of(&rt, 5, 1, 10, 14), erase_of(&rt, 6, 1, 20, 21)];
    let left: [Shown; 2] = [("b", 20, 7), ("f", 90, 9)];
    check_scan(rt.alloc(), &rt, &store, &erases, ("a", "g"), &left);
}

/// Level 1: three files of two rows each, whose keys follow one another.
const BEHIND: [Row; 6] = [
    ("b", 1, Some(10)),
    ("d", 2, Some(20)),
    ("f", 3, Some(30)),
    ("h", 4, Some(40)),
    ("k", 5, Some(50)),
    ("m", 6, Some(60)),
];

/// Level 0: an older file and a newer one, whose keys overlap.
const OLDER: [Row; 2] = [("d", 7, None), ("k", 8, Some(51))];

const NEWER: [Row; 2] = [("c", 9, Some(15)), ("g", 10, Some(35))];

/// The entries of rows, each of which has a spelling.
fn entries_of(alloc: Global, rt: &impl Abort, rows: &[Row]) -> Vec<Entry>
    ensures { All HasSpelling result.items }
{
    let mut entries = Vec::new(alloc);
    for row in rows {
        let entry = spelled(alloc, rt, entry_of(alloc, rt, row));
        entries.push(entry).expect(rt, "memory");
    }
    entries
}

/// The file that was built, its pages on the disk.
fn file_of(
    alloc: Global,
    rt: &impl Abort,
    disk: &mut MemDisk,
    built: &Built,
) -> FileView<FlakyDisk> {
    let header = header_of(alloc, rt, built.header_bytes.items());
    let mut pages = Vec::new(alloc);
    for page in built.pages.items() {
        pages.push(page.items()).expect(rt, "memory");
    }
    let opened = pages_on(alloc, rt, disk, &header, &pages, &[]);
    FileView::new(alloc, header, opened).expect(rt, "memory")
}

/// Files of two rows each, every row on a page of its own. Their numbers begin at `first`.
fn files_of(
    alloc: Global,
    rt: &impl Abort,
    disk: &mut MemDisk,
    rows: &[Row],
    first: u64,
) -> Vec<FileView<FlakyDisk>> {
    let entries = entries_of(alloc, rt, rows);
    let mut files = Vec::new(alloc);
    for built in &build_files(alloc, rt, entries, &config_of(rt, 1, 1), first) {
        files
            .push(file_of(alloc, rt, disk, built))
            .expect(rt, "memory");
    }
    files
}

/// The files of level 0.
fn level_0(alloc: Global, rt: &impl Abort, disk: &mut MemDisk) -> Vec<FileView<FlakyDisk>> {
    let mut files = files_of(alloc, rt, disk, &OLDER, 1);
    for file in files_of(alloc, rt, disk, &NEWER, 4) {
        files.push(file).expect(rt, "memory");
    }
    files
}

/// The files by level.
fn two_levels(alloc: Global, rt: &impl Abort) -> Version<FlakyDisk> {
    let mut disk = empty_disk(alloc, rt);
    let mut levels = Vec::new(alloc);
    levels
        .push(level_0(alloc, rt, &mut disk))
        .expect(rt, "memory");
    levels
        .push(files_of(alloc, rt, &mut disk, &BEHIND, 7))
        .expect(rt, "memory");
    Version::of(alloc, levels).expect(rt, "memory")
}

/// A port whose fetch of that number fails; the first one has the number 1.
fn port_of(alloc: Global, rt: &impl Abort, failing: u64) -> FlakyPort {
    let mut list = Vec::new(alloc);
    list.push(failing).expect(rt, "memory");
    let mut disk = FlakyDisk::new(empty_disk(alloc, rt), list);
    disk.port(alloc).expect(rt, "a port")
}

/// The pairs of the files between two keys, or why the scan is refused.
fn scan_files(
    alloc: Global,
    port: &mut FlakyPort,
    version: &Version<FlakyDisk>,
    lo: &Key,
    hi: &Key,
) -> Result<Vec<(Key, u64, Value)>, ReadRefused> {
    let active = VecBuffer::new(alloc);
    scan(alloc, &active, None, version, &[], port, lo, hi)
}

/// Whether these are the pairs of the range, or why the scan is refused.
fn lists_files(
    alloc: Global,
    rt: &impl Abort,
    port: &mut FlakyPort,
    version: &Version<FlakyDisk>,
    range: (&str, &str),
    wanted: &[Shown],
) -> Result<bool, ReadRefused> {
    let lo = key_of(alloc, range.0).expect(rt, "a key");
    let hi = key_of(alloc, range.1).expect(rt, "a key");
    let pairs = scan_files(alloc, port, version, &lo, &hi);
    pairs.map(|pairs| are_shown(&pairs, wanted))
}

/// All pairs of the files: of `d` there is a tombstone above, and of `k` a newer put.
const ALL: &[Shown] = &[
    ("b", 10, 1),
    ("c", 15, 9),
    ("f", 30, 3),
    ("g", 35, 10),
    ("h", 40, 4),
    ("k", 51, 8),
    ("m", 60, 6),
];

/// Those of these keys, each of which is a letter.
fn pairs_of(alloc: Global, rt: &impl Abort, keys: &str) -> Vec<Shown> {
    let mut pairs = Vec::new(alloc);
    for pair in ALL {
        if keys.contains(pair.0) {
            pairs.push(*pair).expect(rt, "memory");
        }
    }
    pairs
}

/// Ranges that begin and end within files, at their ends and between them, and the keys that are listed.
const RANGES: [(&str, &str, &str); 13] = [
    ("a", "z", "bcfghkm"),
    ("b", "m", "bcfghk"),
    ("d", "k", "fgh"),
    ("d", "f", ""),
    ("c", "d", "c"),
    ("ca", "gg", "fg"),
    ("e", "f", ""),
    ("i", "j", ""),
    ("hh", "z", "km"),
    ("k", "kk", "k"),
    ("m", "n", "m"),
    ("ma", "z", ""),
    ("A", "b", ""),
];

/// The keys have to be listed from `lo` up to `hi`.
fn check_range(
    alloc: Global,
    rt: &impl Abort,
    version: &Version<FlakyDisk>,
    row: (&str, &str, &str),
) {
    let (lo, hi, keys) = row;
    let mut port = port_of(alloc, rt, 0);
    let wanted = pairs_of(alloc, rt, keys);
    let listed = lists_files(alloc, rt, &mut port, version, (lo, hi), &wanted);
    assert_eq!(rt; listed, Ok(true), "from {lo} up to {hi}");
}

#[test]
fn files_by_level_are_listed_in_order(rt: HostRuntime) {
    let version = two_levels(rt.alloc(), &rt);
    for row in RANGES {
        check_range(rt.alloc(), &rt, &version, row);
    }
}

/// How many pages the files have.
const PAGES: u64 = 10;

const FAULT: ReadRefused = ReadRefused::ReadFault {
    before: 0,
    after: 1,
};

/// Two scans of all, of which the one that has the failing fetch is refused.
fn check_fault(alloc: Global, rt: &impl Abort, version: &Version<FlakyDisk>, failing: u64) {
    let mut port = port_of(alloc, rt, failing);
    let first = lists_files(alloc, rt, &mut port, version, ("a", "z"), ALL);
    let second = lists_files(alloc, rt, &mut port, version, ("a", "z"), ALL);
    // The fetch behind the last page's is the second scan's first one.
    let wanted = if failing <= PAGES {
        [Err(FAULT), Ok(true)]
    } else {
        [Ok(true), Err(FAULT)]
    };
    assert_eq!(rt; [first, second], wanted, "at the fetch {failing}");
}

#[test]
fn a_scan_that_a_fault_refused_lists_all_the_next_time(rt: HostRuntime) {
    let version = two_levels(rt.alloc(), &rt);
    for failing in 1..PAGES + 2 {
        check_fault(rt.alloc(), &rt, &version, failing);
    }
}
