//! Which files are swept of an erase one after another, and what stays of their pages.

use crate::common::{Store, count_puts, objects_of};
use crate::stores::{Step, Way, carry_out, carry_out_all, take_steps};
use lethe_base::{Kind, Name};
use lethe_header::{Header, read_header};
use lethe_images::bytes_at;
use lethe_manifest::{Cited, Manifest, read_manifest};
use lethe_memdisk::MemDisk;
use std::alloc::Global;
use std::str;
use std::test::Fail;

/// What a store is behind so many jobs.
struct Row {
    /// The files as the manifest cites them: of each one its level, its least key and the place up to which it is swept.
    files: &'static str,
    /// How many pages stayed with the last job by name and bytes, how many are gone, and how many are new.
    pages: [usize; 3],
    /// How many puts the pages have.
    puts: usize,
    /// How many erases are still to be done.
    pending: u64,
}

/// The first half of a file of four pages: the puts of m0 and m2 are one, and those of m1 and m3 another.
const FIRST: Step = Step::File(&[
    ("m0", Some(1)),
    ("m1", Some(12)),
    ("m2", Some(2)),
    ("m3", Some(13)),
]);

/// The second half: m5 and m4 are a page, and m7 and m6.
const SECOND: Step = Step::File(&[
    ("m4", Some(15)),
    ("m5", Some(1)),
    ("m6", Some(30)),
    ("m7", Some(16)),
]);

/// Keys among those: m8 and m9 are a page, and m1 and m2.
const OVER: Step = Step::File(&[
    ("m1", Some(14)),
    ("m2", Some(40)),
    ("m8", Some(1)),
    ("m9", Some(2)),
]);

/// Files in three levels, behind an erase of the delete keys from 10 up to 20. The one of m0, which was merged first, and that of e0 are in level 2.
const LEVELS: [Step; 16] = [
    FIRST,
    SECOND,
    Step::Job(0),
    Step::File(&[
        ("e0", Some(10)),
        ("e1", Some(11)),
        ("e2", Some(12)),
        ("e3", Some(13)),
    ]),
    Step::File(&[
        ("e4", Some(14)),
        ("e5", Some(15)),
        ("e6", Some(16)),
        ("e7", Some(17)),
    ]),
    Step::Job(1),
    Step::File(&[
        ("s0", Some(30)),
        ("s1", Some(31)),
        ("s2", Some(32)),
        ("s3", Some(33)),
    ]),
    Step::File(&[
        ("s4", Some(34)),
        ("s5", Some(35)),
        ("s6", Some(36)),
        ("s7", Some(37)),
    ]),
    Step::Job(2),
    // Level 1 has more than 16 entries: its first file goes down.
    Step::Job(3),
    OVER,
    Step::File(&[
        ("n0", Some(11)),
        ("n1", Some(12)),
        ("n2", Some(50)),
        ("n3", Some(51)),
    ]),
    Step::Job(4),
    Step::Job(5),
    Step::File(&[
        ("s6", Some(15)),
        ("s7", Some(60)),
        ("t0", Some(16)),
        ("t1", Some(61)),
    ]),
    Step::Erase(10, 20),
];

const UNSWEPT: Row = Row {
    files: "0 s6 36, 1 m1 32, 1 s0 24, 2 e0 32, 2 m0 24",
    pages: [0, 0, 18],
    puts: 36,
    pending: 1,
};

const LEVELS_SWEPT: [Row; 6] = [
    UNSWEPT,
    // A file below has the keys: a page of two tombstones comes in the place of the page of s6 and t0.
    Row {
        files: "0 s6 37, 1 m1 32, 1 s0 24, 2 e0 32, 2 m0 24",
        pages: [17, 1, 1],
        puts: 34,
        pending: 1,
    },
    // Of the two in level 1 the one of the lesser number has nothing to erase.
    Row {
        files: "0 s6 37, 1 m1 32, 1 s0 37, 2 e0 32, 2 m0 24",
        pages: [18, 0, 0],
        puts: 34,
        pending: 1,
    },
    // A file below has keys of the other: its first tile gets a tombstone and keeps one page and one of two puts, its second gets two tombstones and keeps one page.
    Row {
        files: "0 s6 37, 1 m1 37, 1 s0 37, 2 e0 32, 2 m0 24",
        pages: [16, 2, 3],
        puts: 31,
        pending: 1,
    },
    // In the last level one page stays, one goes unread, and two lose one of their puts.
    Row {
        files: "0 s6 37, 1 m1 37, 1 s0 37, 2 e0 32, 2 m0 37",
        pages: [16, 3, 2],
        puts: 27,
        pending: 1,
    },
    // All of the last file is erased.
    Row {
        files: "0 s6 37, 1 m1 37, 1 s0 37, 2 m0 37",
        pages: [14, 4, 0],
        puts: 19,
        pending: 0,
    },
];

/// Five files of level 0 over one of level 1: one without a time, two with the time 20, and two with the time 25.
const AGES: [Step; 11] = [
    FIRST,
    SECOND,
    Step::Job(0),
    Step::File(&[
        ("x0", Some(1)),
        ("x1", Some(2)),
        ("x2", Some(3)),
        ("x3", Some(4)),
    ]),
    Step::Tick(20),
    Step::File(&[("m0", None)]),
    Step::File(&[("m1", None), ("m2", None)]),
    Step::Tick(25),
    Step::File(&[("m3", None), ("m4", None), ("m5", None)]),
    Step::File(&[("m5", None), ("m6", None), ("m7", None)]),
    Step::Erase(10, 20),
];

const AGES_SWEPT: [Row; 8] = [
    Row {
        files: "0 m5 23, 0 m3 20, 0 m1 16, 0 m0 14, 0 x0 12, 1 m0 8",
        pages: [0, 0, 10],
        puts: 12,
        pending: 1,
    },
    // Of the time 20 the file with two tombstones comes first.
    Row {
        files: "0 m5 23, 0 m3 20, 0 m1 24, 0 m0 14, 0 x0 12, 1 m0 8",
        pages: [10, 0, 0],
        puts: 12,
        pending: 1,
    },
    Row {
        files: "0 m5 23, 0 m3 20, 0 m1 24, 0 m0 24, 0 x0 12, 1 m0 8",
        pages: [10, 0, 0],
        puts: 12,
        pending: 1,
    },
    // Of the time 25 the lesser number comes first.
    Row {
        files: "0 m5 23, 0 m3 24, 0 m1 24, 0 m0 24, 0 x0 12, 1 m0 8",
        pages: [10, 0, 0],
        puts: 12,
        pending: 1,
    },
    Row {
        files: "0 m5 24, 0 m3 24, 0 m1 24, 0 m0 24, 0 x0 12, 1 m0 8",
        pages: [10, 0, 0],
        puts: 12,
        pending: 1,
    },
    // The file without a time has the least number, and comes last.
    Row {
        files: "0 m5 24, 0 m3 24, 0 m1 24, 0 m0 24, 0 x0 24, 1 m0 8",
        pages: [10, 0, 0],
        puts: 12,
        pending: 1,
    },
    Row {
        files: "0 m5 24, 0 m3 24, 0 m1 24, 0 m0 24, 0 x0 24, 1 m0 24",
        pages: [7, 3, 2],
        puts: 8,
        pending: 0,
    },
    // Behind the sweeps level 0 is merged, which had too many files all along. What was deleted is gone with its tombstones.
    Row {
        files: "1 x0 24",
        pages: [0, 9, 2],
        puts: 4,
        pending: 0,
    },
];

/// One file of level 0 over one of level 1, behind two erases that both have the delete keys from 15 up to 20.
const OVERLAPPING: [Step; 6] = [
    FIRST,
    SECOND,
    Step::Job(0),
    OVER,
    Step::Erase(10, 20),
    Step::Erase(15, 45),
];

const OVERLAPPING_SWEPT: [Row; 5] = [
    Row {
        files: "0 m1 12, 1 m0 8",
        pages: [0, 0, 6],
        puts: 12,
        pending: 2,
    },
    Row {
        files: "0 m1 13, 1 m0 8",
        pages: [5, 1, 2],
        puts: 11,
        pending: 2,
    },
    Row {
        files: "0 m1 13, 1 m0 13",
        pages: [4, 3, 2],
        puts: 7,
        pending: 1,
    },
    // The tombstones of the first sweep and of the second are one page.
    Row {
        files: "0 m1 14, 1 m0 13",
        pages: [4, 2, 1],
        puts: 6,
        pending: 1,
    },
    Row {
        files: "0 m1 14, 1 m0 14",
        pages: [4, 1, 0],
        puts: 5,
        pending: 0,
    },
];

/// Two files of level 0 whose merge is begun before an erase and installed behind it.
const BEGUN: [Step; 5] = [
    FIRST,
    SECOND,
    Step::Begin,
    Step::Erase(10, 20),
    Step::Install(0),
];

const BEGUN_SWEPT: [Row; 2] = [
    Row {
        files: "1 m0 8",
        pages: [0, 0, 4],
        puts: 8,
        pending: 1,
    },
    Row {
        files: "1 m0 9",
        pages: [1, 3, 2],
        puts: 4,
        pending: 0,
    },
];

/// Two files of level 0, of which the newer one has a put that is erased over one that isn't.
const OLDER: [Step; 3] = [
    Step::File(&[("k", Some(1)), ("l", Some(1))]),
    Step::File(&[("k", Some(15))]),
    Step::Erase(10, 20),
];

const OLDER_SWEPT: [Row; 4] = [
    Row {
        files: "0 k 3, 0 k 2",
        pages: [0, 0, 2],
        puts: 3,
        pending: 1,
    },
    Row {
        files: "0 k 3, 0 k 4",
        pages: [2, 0, 0],
        puts: 3,
        pending: 1,
    },
    // A tombstone stays over the older put, which doesn't come back.
    Row {
        files: "0 k 4, 0 k 4",
        pages: [1, 1, 1],
        puts: 2,
        pending: 0,
    },
    Row {
        files: "1 l 4",
        pages: [0, 2, 1],
        puts: 1,
        pending: 0,
    },
];

/// Four files of level 0 over one of level 1, which waits for the erase, and a buffer that is full.
const CROWDED: [Step; 9] = [
    FIRST,
    SECOND,
    Step::Job(0),
    Step::Erase(10, 20),
    Step::File(&[("x0", Some(1))]),
    Step::File(&[("x1", Some(1))]),
    Step::File(&[("x2", Some(1))]),
    Step::File(&[("x3", Some(1))]),
    Step::Changes(&[
        ("y0", Some(1)),
        ("y1", Some(1)),
        ("y2", Some(1)),
        ("y3", Some(1)),
    ]),
];

const MAKING_ROOM: [Step; 1] = [Step::Changes(&[("y4", Some(1))])];

/// The file of level 1 has none of the keys that are merged: it is swept, and stays.
const ROOM_MADE: [Row; 2] = [
    Row {
        files: "0 x3 13, 0 x2 12, 0 x1 11, 0 x0 10, 1 m0 8",
        pages: [0, 0, 8],
        puts: 12,
        pending: 1,
    },
    Row {
        files: "1 m0 9, 1 x0 17",
        pages: [1, 7, 4],
        puts: 8,
        pending: 0,
    },
];

const TICKING: [Step; 2] = [Step::Tick(99), Step::Tick(100)];

/// The files in three levels. Before its threshold an erase isn't due.
const TICKED: [Row; 3] = [
    UNSWEPT,
    Row {
        files: "0 s6 36, 1 m1 32, 1 s0 24, 2 e0 32, 2 m0 24",
        pages: [18, 0, 0],
        puts: 36,
        pending: 1,
    },
    // The tombstones that a sweep leaves are a threshold old: their file is merged before the next one is swept. So that of s6 comes into the one of s0, and that of m1
    // into the one of m0. The file of e0 is swept last.
    Row {
        files: "1 s0 38, 2 m0 38",
        pages: [0, 18, 8],
        puts: 16,
        pending: 0,
    },
];

/// The one manifest of a disk.
fn manifest_of(alloc: Global, disk: &mut MemDisk) -> Result<Manifest, Fail> {
    let manifests = objects_of(alloc, disk, Kind::Manifest)?;
    match manifests.as_slice() {
        [(_, bytes)] => Ok(read_manifest(alloc, bytes).ok().ok_or("a manifest")?),
        _ => Err(Fail::new("one manifest")),
    }
}

fn header_of(alloc: Global, disk: &mut MemDisk, no: u64) -> Result<Header, Fail> {
    let name = Name {
        kind: Kind::File,
        no,
    };
    let bytes = bytes_at(alloc, disk, name)?;
    Ok(read_header(alloc, &bytes).ok().ok_or("a header")?)
}

/// The level of a file, its least key and the place up to which it is swept.
fn text_of(alloc: Global, file: &Cited, header: &Header) -> Result<String, Fail> {
    let tile = header.tiles.items().first().ok_or("a tile")?;
    let least = str::from_utf8(tile.lo.bytes())?;
    let level = file.level;
    let swept = file.swept;
    Ok(format!(in alloc; "{level} {least} {swept}")?)
}

/// These files, as a manifest cites them.
fn texts_of(alloc: Global, disk: &mut MemDisk, files: &[Cited]) -> Result<String, Fail> {
    let mut texts = String::new(alloc);
    for file in files {
        if !texts.is_empty() {
            texts.push_str(", ")?;
        }
        let header = header_of(alloc, disk, file.no)?;
        texts.push_str(&text_of(alloc, file, &header)?)?;
    }
    Ok(texts)
}

/// The files as the manifest cites them. No other header is on the disk.
fn files_of(alloc: Global, disk: &mut MemDisk) -> Result<String, Fail> {
    let manifest = manifest_of(alloc, disk)?;
    let files = manifest.files.items();
    if objects_of(alloc, disk, Kind::File)?.len() == files.len() {
        texts_of(alloc, disk, files)
    } else {
        Err(Fail::new("another header"))
    }
}

/// A page by its number and its bytes.
type Page = (u64, Vec<u8>);

/// How many pages are the same on both disks by name and bytes, how many are gone, and how many are new.
fn compare(before: &[Page], after: &[Page]) -> [usize; 3] {
    let mut stay: usize = 0;
    for page in after {
        if before.contains(page) {
            stay = stay.saturating_add(1);
        }
    }
    [
        stay,
        before.len().saturating_sub(stay),
        after.len().saturating_sub(stay),
    ]
}

/// Takes the steps, and carries so many jobs out.
fn go(alloc: Global, store: &mut Store, steps: &[Step], way: Way, jobs: usize) -> Result<(), Fail> {
    take_steps(alloc, store, steps)?;
    carry_out_all(alloc, store, way, jobs)
}

/// How many erases are still to be done, and the disk.
type Left = (u64, MemDisk);

/// What is left of a new store behind the steps and so many jobs.
fn behind(alloc: Global, steps: &[Step], way: Way, jobs: usize) -> Result<Left, Fail> {
    let mut store = Store::new(alloc)?;
    let gone = go(alloc, &mut store, steps, way, jobs);
    let left = store.close();
    gone?;
    Ok(left)
}

/// What is on a disk.
struct Found {
    files: String,
    puts: usize,
    pages: Vec<Page>,
}

fn found_on(alloc: Global, disk: &mut MemDisk) -> Result<Found, Fail> {
    Ok(Found {
        files: files_of(alloc, disk)?,
        puts: count_puts(alloc, disk)?,
        pages: objects_of(alloc, disk, Kind::Page)?,
    })
}

/// Fails where what is left isn't what the row tells, given the pages of the one before. It hands the pages on.
fn is_told(alloc: Global, left: Left, row: &Row, before: &[Page]) -> Result<Vec<Page>, Fail> {
    let (pending, mut disk) = left;
    let Found { files, puts, pages } = found_on(alloc, &mut disk)?;
    let counts = compare(before, &pages);
    if files.as_str() == row.files
        && counts == row.pages
        && (puts, pending) == (row.puts, row.pending)
    {
        Ok(pages)
    } else {
        Err(Fail::new(format_args!("{files}; {counts:?}, {puts} puts, pending {pending}")))
    }
}

/// The same, and whether one more job is due.
fn go_to_end(
    alloc: Global,
    store: &mut Store,
    steps: &[Step],
    way: Way,
    jobs: usize,
) -> Result<bool, Fail> {
    go(alloc, store, steps, way, jobs)?;
    carry_out(alloc, store, way)
}

/// Whether nothing is due behind so many jobs.
fn is_over(alloc: Global, steps: &[Step], way: Way, jobs: usize) -> Result<bool, Fail> {
    let mut store = Store::new(alloc)?;
    let is_due = go_to_end(alloc, &mut store, steps, way, jobs);
    store.close();
    Ok(!is_due?)
}

/// The jobs of the store behind the steps, one after another until nothing is due.
fn are_told(alloc: Global, steps: &[Step], way: Way, rows: &[Row]) -> Result<(), Fail> {
    let mut jobs: usize = 0;
    let mut pages = Vec::new(alloc);
    for row in rows {
        pages = is_told(alloc, behind(alloc, steps, way, jobs)?, row, &pages)?;
        jobs = jobs.saturating_add(1);
    }
    if is_over(alloc, steps, way, jobs.saturating_sub(1))? {
        Ok(())
    } else {
        Err(Fail::new("more is due"))
    }
}

/// The same where each job is given up once.
fn are_told_twice(alloc: Global, steps: &[Step], rows: &[Row]) -> Result<(), Fail> {
    are_told(alloc, steps, Way::Once, rows)?;
    are_told(alloc, steps, Way::GivenUp, rows)
}

/// Takes the steps and more of them.
fn go_on(alloc: Global, store: &mut Store, steps: &[Step], more: &[Step]) -> Result<(), Fail> {
    take_steps(alloc, store, steps)?;
    take_steps(alloc, store, more)
}

/// What is left of a new store behind the steps and more of them.
fn behind_more(alloc: Global, steps: &[Step], more: &[Step]) -> Result<Left, Fail> {
    let mut store = Store::new(alloc)?;
    let gone = go_on(alloc, &mut store, steps, more);
    let left = store.close();
    gone?;
    Ok(left)
}

/// What the store behind the steps is behind more of them, one after another.
fn are_told_behind(alloc: Global, steps: &[Step], more: &[Step], rows: &[Row]) -> Result<(), Fail> {
    let mut count: usize = 0;
    let mut pages = Vec::new(alloc);
    for row in rows {
        let left = behind_more(alloc, steps, more.get(..count).ok_or("a step")?)?;
        pages = is_told(alloc, left, row, &pages)?;
        count = count.saturating_add(1);
    }
    Ok(())
}

#[test]
fn files_of_three_levels_are_swept(rt: HostRuntime) -> Result<(), Fail> {
    are_told_twice(rt.alloc(), &LEVELS, &LEVELS_SWEPT)
}

#[test]
fn files_of_a_level_are_swept_by_their_ages(rt: HostRuntime) -> Result<(), Fail> {
    are_told_twice(rt.alloc(), &AGES, &AGES_SWEPT)
}

#[test]
fn the_sweeps_of_a_later_erase_come_later(rt: HostRuntime) -> Result<(), Fail> {
    are_told_twice(rt.alloc(), &OVERLAPPING, &OVERLAPPING_SWEPT)
}

#[test]
fn what_a_job_made_that_was_begun_before_is_swept(rt: HostRuntime) -> Result<(), Fail> {
    are_told_twice(rt.alloc(), &BEGUN, &BEGUN_SWEPT)
}

#[test]
fn a_tombstone_stays_over_an_older_file(rt: HostRuntime) -> Result<(), Fail> {
    are_told_twice(rt.alloc(), &OLDER, &OLDER_SWEPT)
}

#[test]
fn room_is_made_by_sweeps(rt: HostRuntime) -> Result<(), Fail> {
    are_told_behind(rt.alloc(), &CROWDED, &MAKING_ROOM, &ROOM_MADE)
}

#[test]
fn a_tick_sweeps_once_an_erase_is_due(rt: HostRuntime) -> Result<(), Fail> {
    are_told_behind(rt.alloc(), &LEVELS, &TICKING, &TICKED)
}
