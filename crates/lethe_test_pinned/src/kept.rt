//! Files that a job merges while a pin is held: which of their headers and pages stay, over a disk in memory, one whose fetches fail, and a folder.

use crate::asks::{Ask, Told, Which, told_over};
use crate::common::{empty_disk, must, parts_of};
use lethe_base::{Kind, Name};
use lethe_dirdisk::DirDisk;
use lethe_disk::Disk;
use lethe_images::take_away;
use lethe_memdisk::{FlakyDisk, MemDisk};
use std::alloc::Global;
use std::fs;
use std::process::Abort;

/// What is asked, what is told, how many headers and pages of the first two files are there then, and how many headers and pages in all.
type Row = (Ask, Told, [usize; 4]);

/// The keys of two files, each of two pages.
const FIRST: &[&str] = &["a", "b", "c", "d"];

const SECOND: &[&str] = &["e", "f", "g", "h"];

const KEYS: &[&str] = &["a", "b", "c", "d", "e", "f", "g", "h"];

const READ: Ask = Ask::Read(Which::One, KEYS);

const PINNED: Told = Told::Pin {
    number: 1,
    point: 8,
    limit: 100,
};

/// The pages go with the second install behind the release, and with none before it.
const INSTALLED: [Row; 14] = [
    (Ask::File(FIRST), Told::Done, [1, 2, 1, 2]),
    (Ask::File(SECOND), Told::Done, [2, 4, 2, 4]),
    (Ask::Pin(Which::One), PINNED, [2, 4, 2, 4]),
    (Ask::Job, Told::Done, [0, 4, 1, 8]),
    (READ, Told::Read(8, 0), [0, 4, 1, 8]),
    (Ask::File(&["i", "j", "k", "l"]), Told::Done, [0, 4, 2, 10]),
    (Ask::File(&["m", "n", "o", "p"]), Told::Done, [0, 4, 3, 12]),
    // The pages of these two files no pin names.
    (Ask::Job, Told::Done, [0, 4, 2, 12]),
    (READ, Told::Read(8, 0), [0, 4, 2, 12]),
    (Ask::Release(Which::One), Told::Done, [0, 4, 2, 12]),
    (Ask::File(&["q", "r"]), Told::Done, [0, 4, 3, 13]),
    (Ask::File(&["s", "t"]), Told::Done, [0, 4, 4, 14]),
    (Ask::Job, Told::Done, [0, 0, 3, 10]),
    (Ask::Job, Told::Done, [0, 0, 3, 10]),
];

/// They go with the tick behind the release, and with none before it.
const TICKED: [Row; 10] = [
    (Ask::File(FIRST), Told::Done, [1, 2, 1, 2]),
    (Ask::File(SECOND), Told::Done, [2, 4, 2, 4]),
    (Ask::Pin(Which::One), PINNED, [2, 4, 2, 4]),
    (Ask::Job, Told::Done, [0, 4, 1, 8]),
    (READ, Told::Read(8, 0), [0, 4, 1, 8]),
    (Ask::Tick(99), Told::Ticked(9, None), [0, 4, 1, 8]),
    (READ, Told::Read(8, 0), [0, 4, 1, 8]),
    (Ask::Release(Which::One), Told::Done, [0, 4, 1, 8]),
    (Ask::Pin(Which::One), PINNED_AGAIN, [0, 4, 1, 8]),
    (Ask::Tick(100), Told::Ticked(10, Some(1)), [0, 0, 1, 4]),
];

/// This pin names the file that is there by then.
const PINNED_AGAIN: Told = Told::Pin {
    number: 2,
    point: 9,
    limit: 199,
};

/// A pin of a file of level 1, which is merged with two newer ones.
const DEEP: [Row; 10] = [
    (Ask::File(FIRST), Told::Done, [1, 2, 1, 2]),
    (Ask::File(SECOND), Told::Done, [2, 4, 2, 4]),
    (Ask::Job, Told::Done, [0, 0, 1, 4]),
    (Ask::Pin(Which::One), PINNED, [0, 0, 1, 4]),
    (Ask::File(FIRST), Told::Done, [0, 0, 2, 6]),
    (Ask::File(SECOND), Told::Done, [0, 0, 3, 8]),
    (Ask::Job, Told::Done, [0, 0, 1, 8]),
    (READ, Told::Read(8, 0), [0, 0, 1, 8]),
    (Ask::Release(Which::One), Told::Done, [0, 0, 1, 8]),
    (Ask::Tick(0), Told::Ticked(17, None), [0, 0, 1, 4]),
];

/// The headers and the pages of the first two files.
fn inputs_of(alloc: Global, rt: &impl Abort) -> Vec<Name> {
    let asks = [Ask::File(FIRST), Ask::File(SECOND)];
    let (_, mut disk) = told_over(alloc, rt, empty_disk(alloc, rt), &asks);
    parts_of(alloc, rt, &mut disk)
}

/// How many headers and how many pages are among these.
fn count(names: &[Name]) -> [usize; 2] {
    let mut counts: [usize; 2] = [0, 0];
    for name in names {
        if name.kind == Kind::File {
            counts[0] = counts[0].saturating_add(1);
        } else {
            counts[1] = counts[1].saturating_add(1);
        }
    }
    counts
}

/// How many of the inputs are among the parts, and how many headers and pages in all.
fn counts_among(mut inputs: Vec<Name>, parts: &[Name]) -> [usize; 4] {
    inputs.retain(|name| parts.contains(name));
    let ([headers, pages], [all_headers, all_pages]) = (count(&inputs), count(parts));
    [headers, pages, all_headers, all_pages]
}

/// How many of the inputs are there, and how many headers and pages in all.
fn counts_of<D: Disk>(alloc: Global, rt: &impl Abort, disk: &mut D) -> [usize; 4] {
    let parts = parts_of(alloc, rt, disk);
    counts_among(inputs_of(alloc, rt), &parts)
}

fn asks_of(alloc: Global, rt: &impl Abort, rows: &[Row], count: usize) -> Vec<Ask> {
    let mut asks = Vec::new(alloc);
    for (ask, _, _) in rows.iter().take(count) {
        asks.push(*ask).expect(rt, "memory");
    }
    asks
}

/// What is wanted, where a fetch fails among those of each reading.
fn wanted_of(told: Told, fails: bool) -> Told {
    match told {
        Told::Read(there, _) if fails => Told::Read(there, 1),
        _ => told,
    }
}

/// Whether that is told up to that row, where a fetch of each reading may fail.
fn are_told(told: &[Told], rows: &[Row], count: usize, fails: bool) -> bool {
    told.len() == count
        && told
            .iter()
            .zip(rows)
            .all(|(told, row)| *told == wanted_of(row.1, fails))
}

/// How many headers and pages are wanted behind so many rows.
fn counts_behind(rows: &[Row], count: usize) -> [usize; 4] {
    let mut last: [usize; 4] = [0, 0, 0, 0];
    for (_, _, counts) in rows.iter().take(count) {
        last = *counts;
    }
    last
}

/// That many of the rows have to go so over an empty disk, on which a fetch of each reading may fail.
fn check_rows<D: Disk>(
    alloc: Global,
    rt: &impl Abort,
    disk: D,
    rows: &[Row],
    count: usize,
    fails: bool,
) {
    let asks = asks_of(alloc, rt, rows, count);
    let (told, mut disk) = told_over(alloc, rt, disk, &asks);
    assert!(rt; are_told(&told, rows, count, fails), "behind {count}");
    let counts = counts_of(alloc, rt, &mut disk);
    assert!(rt; counts == counts_behind(rows, count), "behind {count}");
}

fn check_in_memory(alloc: Global, rt: &impl Abort, rows: &[Row]) {
    for count in 0..=rows.len() {
        check_rows(alloc, rt, empty_disk(alloc, rt), rows, count, false);
    }
}

#[test]
fn pages_that_a_pin_names_go_with_the_install_behind_its_release(rt: HostRuntime) {
    check_in_memory(rt.alloc(), &rt, &INSTALLED);
}

#[test]
fn pages_that_a_pin_names_go_with_the_tick_behind_its_release(rt: HostRuntime) {
    check_in_memory(rt.alloc(), &rt, &TICKED);
}

#[test]
fn a_pin_names_pages_of_each_level(rt: HostRuntime) {
    check_in_memory(rt.alloc(), &rt, &DEEP);
}

/// The rows over a disk each of whose ports fails in the fetch of that number. A job has four.
fn check_failing(alloc: Global, rt: &impl Abort, failing: u64, rows: &[Row]) {
    let failing = vec![in alloc; failing].expect(rt, "memory");
    let disk = FlakyDisk::new(empty_disk(alloc, rt), failing);
    check_rows(alloc, rt, disk, rows, rows.len(), true);
}

#[test]
fn each_key_is_read_by_a_fetch(rt: HostRuntime) {
    // Eight keys, one fetch each at least.
    for failing in 5..=8 {
        check_failing(rt.alloc(), &rt, failing, &INSTALLED);
        check_failing(rt.alloc(), &rt, failing, &TICKED);
    }
}

const FOLDER: &str = "lethe_pinned_folder";

/// The rows over a folder of its own.
fn check_in_folder(host: &HostRuntime, rt: &impl Abort, rows: &[Row], count: usize) {
    let _ = fs::remove_dir_all(host, FOLDER);
    let disk = DirDisk::open(host, host.alloc(), FOLDER).expect(rt, "a folder");
    check_rows(host.alloc(), rt, disk, rows, count, false);
    let _ = fs::remove_dir_all(host, FOLDER);
}

/// A fetch reads a file there.
#[test]
fn files_of_a_folder_stay_while_a_pin_names_them(rt: HostRuntime) {
    for count in [4, 9, 12, 13] {
        check_in_folder(&rt, &rt, &INSTALLED, count);
    }
    for count in 7..=TICKED.len() {
        check_in_folder(&rt, &rt, &TICKED, count);
    }
}

/// The disk of a store that ended while the pin was held.
fn killed(alloc: Global, rt: &impl Abort) -> MemDisk {
    let asks = asks_of(alloc, rt, &TICKED, 4);
    let (_, disk) = told_over(alloc, rt, empty_disk(alloc, rt), &asks);
    disk
}

/// One of the pages that the pin named.
fn named_page(alloc: Global, rt: &impl Abort) -> Name {
    let inputs = inputs_of(alloc, rt);
    let page = inputs.iter().find(|name| name.kind == Kind::Page);
    *page.expect(rt, "a page")
}

/// What was done to a page by hand.
#[derive(Clone, Copy)]
enum ByHand {
    Nothing,
    Changed,
    Removed,
}

fn change(alloc: Global, rt: &impl Abort, disk: &mut MemDisk, page: Name) {
    let bytes = b"no page".to_vec(alloc).expect(rt, "memory");
    assert!(rt; disk.swap(page, bytes));
}

/// The disk where that was done to a page that the pin named.
fn changed(alloc: Global, rt: &impl Abort, done: ByHand) -> MemDisk {
    let page = named_page(alloc, rt);
    let mut disk = killed(alloc, rt);
    match done {
        ByHand::Nothing => {}
        ByHand::Changed => change(alloc, rt, &mut disk, page),
        ByHand::Removed => must(rt, take_away(alloc, &mut disk, page.kind, page.no)),
    }
    disk
}

/// A store has to be opened of the disk, which has what was put, and no other page than those of its file.
fn check_opened(alloc: Global, rt: &impl Abort, disk: MemDisk) {
    let (told, mut disk) = told_over(alloc, rt, disk, &[Ask::Pin(Which::One), READ]);
    assert!(rt; told.last() == Some(&Told::Read(8, 0)));
    assert!(rt; counts_of(alloc, rt, &mut disk) == [0, 0, 1, 4]);
}

#[test]
fn an_opening_removes_what_a_pin_of_an_earlier_run_named(rt: HostRuntime) {
    // Also where a page that it named was changed by hand, or removed.
    for done in [ByHand::Nothing, ByHand::Changed, ByHand::Removed] {
        check_opened(rt.alloc(), &rt, changed(rt.alloc(), &rt, done));
    }
}
