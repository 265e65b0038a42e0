//! Files and what sweeps leave of them.
ghost use Rattle.std.specs.Prelude.{◌<◌, All, IsTrue};
ghost use Rattle.lethe_sweep.specs.Sweeping.{IsBehind};

use crate::files::{file_of, port_of};
use crate::texts::{text_of, text_of_tiles};
use lethe_base::{Kind, Name, Pending, Range};
use lethe_disk::ReadRefused;
use lethe_file::FileView;
use lethe_header::{PageLine, TileLine};
use lethe_memdisk::FlakyDisk;
use lethe_sweep::{sweep_file, sweep_tiles};
use std::alloc::Global;
use std::test::Fail;

/// A file of two puts or tombstones a page and two pages of puts a tile, the place of its first entry, an erase (its place, time and range), whether
/// the file is alone, what is left of its tiles, what becomes of its pages, and how many are fetched.
type Row = (
    &'static str,
    u64,
    (u64, u64, u64, u64),
    bool,
    &'static str,
    &'static str,
    u64,
);

const EIGHT: &str = "a=11 b=15 c=12 d=30 e=13 f=14 g=40 h=50";

const ROWS: [Row; 20] = [
    // Two pages are dropped unread, one is read, one stays.
    (
        EIGHT,
        1,
        (9, 7, 10, 20),
        true,
        "a..d [d4=30]; e..h 3; ",
        "kept 4 dropped 1 2 3 fresh [d4=30]",
        1,
    ),
    // In a file that isn't alone a page inside the range is read.
    (
        EIGHT,
        1,
        (9, 7, 10, 20),
        false,
        "a..d [a1-7 b2-7 c3-7] [d4=30]; e..h [e5-7 f6-7] 3; ",
        "kept 4 dropped 1 2 3 fresh [a1-7 b2-7 c3-7] [d4=30] [e5-7 f6-7]",
        3,
    ),
    (
        "a=11 b=12 c=13 d=30",
        2,
        (9, 7, 10, 20),
        false,
        "a..d [a2-7 b3-7 c4-7] [d5=30]; ",
        "kept dropped 1 2 fresh [a2-7 b3-7 c4-7] [d5=30]",
        2,
    ),
    // A page whose fence meets the range is written anew, though no put in it matches.
    (
        "a=5 b=30",
        1,
        (9, 7, 10, 20),
        true,
        "a..b [a1=5 b2=30]; ",
        "kept dropped 1 fresh [a1=5 b2=30]",
        1,
    ),
    (
        "a=5 b=30",
        1,
        (9, 7, 10, 20),
        false,
        "a..b [a1=5 b2=30]; ",
        "kept dropped 1 fresh [a1=5 b2=30]",
        1,
    ),
    // So are the tombstones of its tile in a file that isn't alone.
    (
        "a-3 b=5 c=30",
        1,
        (9, 7, 10, 20),
        false,
        "a..c [a1-3] [b2=5 c3=30]; ",
        "kept dropped 1 2 fresh [a1-3] [b2=5 c3=30]",
        2,
    ),
    // A tile that no page meets stays whole, with its tombstones.
    (
        "a-3 b=5 c=6",
        1,
        (9, 7, 10, 20),
        false,
        "a..c 0 1; ",
        "kept 1 2 dropped fresh",
        0,
    ),
    (
        "a-3 b=5 c=6",
        1,
        (9, 7, 10, 20),
        true,
        "a..c 0 1; ",
        "kept 1 2 dropped fresh",
        0,
    ),
    // Of a file that is alone the tombstones stay.
    (
        "a-3 b=11 c=30",
        1,
        (9, 7, 10, 20),
        true,
        "a..c 0 [c3=30]; ",
        "kept 1 dropped 2 fresh [c3=30]",
        1,
    ),
    // The tombstones of the tile and of the puts that match stand in one page, in the order of their keys.
    (
        "a=11 b-3 c=30 d=12",
        1,
        (9, 7, 10, 20),
        false,
        "a..d [a1-7 b2-3 d4-7] 2; ",
        "kept 3 dropped 1 2 fresh [a1-7 b2-3 d4-7]",
        2,
    ),
    (
        "a=11",
        1,
        (9, 7, 10, 20),
        false,
        "a..a [a1-7]; ",
        "kept dropped 1 fresh [a1-7]",
        1,
    ),
    // A range with every page leaves no tile.
    (
        EIGHT,
        1,
        (9, 7, 10, 60),
        true,
        "",
        "kept dropped 1 2 3 4 fresh",
        0,
    ),
    (
        "a=10 b=19",
        1,
        (9, 7, 10, 20),
        true,
        "",
        "kept dropped 1 fresh",
        0,
    ),
    // The upper end is excluded.
    (
        "a=11 b=20",
        1,
        (9, 7, 10, 20),
        true,
        "a..b [b2=20]; ",
        "kept dropped 1 fresh [b2=20]",
        1,
    ),
    (
        "a=20 b=30",
        1,
        (9, 7, 10, 20),
        true,
        "a..b 0; ",
        "kept 1 dropped fresh",
        0,
    ),
    (
        "a=5 b=10",
        1,
        (9, 7, 10, 20),
        true,
        "a..b [a1=5]; ",
        "kept dropped 1 fresh [a1=5]",
        1,
    ),
    (
        "a=5 b=9",
        1,
        (9, 7, 10, 20),
        false,
        "a..b 0; ",
        "kept 1 dropped fresh",
        0,
    ),
    // A tombstone has the lesser of the times of its put and of the erase; a put that stays keeps its own.
    (
        "a=11@2 b=12@8 c=11 d=30@5",
        1,
        (9, 7, 10, 20),
        false,
        "a..d [a1-2 b2-7 c3-7] [d4=30@5]; ",
        "kept dropped 1 2 fresh [a1-2 b2-7 c3-7] [d4=30@5]",
        2,
    ),
    (
        "a=5@2 b=12@8",
        1,
        (9, 7, 10, 20),
        true,
        "a..b [a1=5@2]; ",
        "kept dropped 1 fresh [a1=5@2]",
        1,
    ),
    // One tile goes, the other stays.
    (
        "a=11 b=12 c=13 d=14 e=40 f=50",
        1,
        (9, 7, 10, 20),
        true,
        "e..f 2; ",
        "kept 3 dropped 1 2 fresh",
        0,
    ),
];

/// Whether no page of these lines has an entry behind the erase.
fn are_earlier(lines: &[PageLine], erase: &Pending) -> bool
    ensures { IsTrue result → All (λ line. line.max_seq < erase.now.seq) lines.now }
{
    for line in lines {
        if line.max_seq >= erase.seq {
            return false;
        }
    }
    true
}

/// Whether no page of the tiles has an entry behind the erase.
fn is_behind(tiles: &[TileLine], erase: &Pending) -> bool
    ensures { IsTrue result → IsBehind erase.now tiles.now }
{
    for tile in tiles {
        if !are_earlier(tile.pages.items(), erase) {
            return false;
        }
    }
    true
}

/// What is left of the tiles and what becomes of the pages, or why that is refused, where the fetch of a number fails.
fn swept(
    alloc: Global,
    file: &FileView<FlakyDisk>,
    erase: &Pending,
    alone: bool,
    failing: u64,
) -> Result<Result<(String, String), ReadRefused>, Fail> {
    if !is_behind(file.header().tiles.items(), erase) {
        return Err(Fail::new("entries before the erase"));
    }
    let tiles = sweep_tiles(alloc, file, erase, alone, &mut port_of(alloc, failing)?);
    let pages = sweep_file(alloc, file, erase, alone, &mut port_of(alloc, failing)?);
    match (&tiles, &pages) {
        (Ok(tiles), Ok(pages)) => Ok(Ok((text_of_tiles(alloc, tiles)?, text_of(alloc, pages)?))),
        (Err(why), Err(other)) if why == other => Ok(Err(*why)),
        _ => Err(Fail::new("two answers")),
    }
}

fn erase_of(erase: (u64, u64, u64, u64)) -> Result<Pending, Fail> {
    let (seq, time, lo, hi) = erase;
    let range = Range::new(lo, hi).ok_or("a range")?;
    Ok(Pending { seq, time, range })
}

/// The file and the erase of a row.
fn read(
    alloc: Global,
    row: &Row,
    torn: Option<u64>,
) -> Result<(FileView<FlakyDisk>, Pending), Fail> {
    let file = file_of(alloc, row.0, row.1, torn)?;
    Ok((file, erase_of(row.2)?))
}

#[test]
fn a_sweep_leaves_what_its_rule_says(rt: HostRuntime) -> Result<(), Fail> {
    let alloc = rt.alloc();
    for (number, row) in ROWS.iter().enumerate() {
        let (file, erase) = read(alloc, row, None)?;
        let more = row.6.checked_add(1).ok_or("a number of a fetch")?;
        let (tiles, pages) = swept(alloc, &file, &erase, row.3, more)??;
        assert_eq!(rt; tiles.as_str(), row.4, "row {number}");
        assert_eq!(rt; pages.as_str(), row.5, "row {number}");
    }
    Ok(())
}

const FAULT: ReadRefused = ReadRefused::ReadFault {
    before: 0,
    after: 1,
};

#[test]
fn a_sweep_is_refused_at_each_of_its_fetches(rt: HostRuntime) -> Result<(), Fail> {
    let alloc = rt.alloc();
    for (number, row) in ROWS.iter().enumerate() {
        let (file, erase) = read(alloc, row, None)?;
        for failing in 1..=row.6 {
            let refused = swept(alloc, &file, &erase, row.3, failing)?;
            assert_eq!(rt; refused.err(), Some(FAULT), "row {number}, fetch {failing}");
        }
    }
    Ok(())
}

/// The place of a row, a page of it that is torn, and whether it is read.
const TORN: [(usize, u64, bool); 7] = [
    (0, 1, false),
    (0, 2, true),
    (0, 3, false),
    (0, 4, false),
    (1, 1, true),
    (1, 4, false),
    (5, 1, true),
];

#[test]
fn a_torn_page_is_told_where_it_is_read(rt: HostRuntime) -> Result<(), Fail> {
    let alloc = rt.alloc();
    for (place, no, told) in TORN {
        let row = ROWS.get(place).ok_or("a row")?;
        let (file, erase) = read(alloc, row, Some(no))?;
        let refused = swept(alloc, &file, &erase, row.3, 9)?.err();
        let name = Name {
            kind: Kind::Page,
            no,
        };
        let damaged = told.then_some(ReadRefused::Damaged { name });
        assert_eq!(rt; refused, damaged, "page {no} of row {place}");
    }
    Ok(())
}
