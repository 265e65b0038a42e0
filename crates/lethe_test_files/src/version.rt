//! The files of a version.
ghost use Rattle.std.specs.Prelude.{All};
ghost use Rattle.lethe_base.specs.Spelling.{HasSpelling};

use crate::build::{build_files, config_of, spelled};
use crate::common::{FILE, PAGE_AC, PAGE_BD};
use crate::opening::{add_file, empty_disk, open_file};
use lethe_base::{Body, Entry};
use lethe_build::Built;
use lethe_disk::Disk;
use lethe_file::FileView;
use lethe_memdisk::{MemDisk, MemPort};
use lethe_test_values::key_of;
use lethe_version::Version;
use std::alloc::Global;
use std::process::Abort;

/// A key, and whether a page may have it: `A` and `e` have no tile, and no filter allows `bb`.
const TOLD: [(&str, bool); 7] = [
    ("A", false),
    ("a", true),
    ("b", true),
    ("bb", false),
    ("c", true),
    ("d", true),
    ("e", false),
];

/// A version of these files in level 0.
fn version_of(alloc: Global, rt: &impl Abort, files: Vec<FileView<MemDisk>>) -> Version<MemDisk> {
    let mut levels = Vec::new(alloc);
    levels.push(files).expect(rt, "memory");
    Version::of(alloc, levels).expect(rt, "memory")
}

/// A version of the one file.
fn one_file(alloc: Global, rt: &impl Abort) -> Version<MemDisk> {
    let (file, _) = open_file(alloc, rt, FILE, &[PAGE_AC, PAGE_BD], &[]);
    let mut files = Vec::new(alloc);
    files.push(file).expect(rt, "memory");
    version_of(alloc, rt, files)
}

fn check_told(alloc: Global, rt: &impl Abort, version: &Version<MemDisk>, key: &str, told: bool) {
    let may_hold = version.may_hold(&key_of(alloc, key).expect(rt, "a key"));
    assert_eq!(rt; may_hold, told, "{key}");
}

#[test]
fn fences_and_filters_tell_which_keys_a_file_may_have(rt: HostRuntime) {
    let version = one_file(rt.alloc(), &rt);
    for (key, told) in TOLD {
        check_told(rt.alloc(), &rt, &version, key, told);
    }
}

/// The places of the tombstones of `a` in the first file and in the second one, if they have one, and the time of the one that is found.
/// The first file's is 1, the second's 2.
const FOUND: [(Option<u64>, Option<u64>, Option<u64>); 6] = [
    (Some(3), Some(4), Some(2)),
    (Some(4), Some(3), Some(1)),
    (Some(4), Some(4), Some(1)),
    (Some(1), None, Some(1)),
    (None, Some(1), Some(2)),
    (None, None, None),
];

fn tombstone(alloc: Global, rt: &impl Abort, key: &str, seq: u64, since: u64) -> Entry
    ensures { HasSpelling result }
{
    spelled(
        alloc,
        rt,
        Entry {
            seq,
            key: key_of(alloc, key).expect(rt, "a key"),
            body: Body::Tomb,
            since: Some(since),
        },
    )
}

/// What a file has: the place of the tombstone of `a`, if it has one, its time, and the place of the tombstone of `b`, the greatest one.
#[derive(Drop)]
struct Content {
    place: Option<u64>,
    since: u64,
    greatest: u64,
}

/// The entries of the content.
fn entries_of(alloc: Global, rt: &impl Abort, content: &Content) -> Vec<Entry>
    ensures { All HasSpelling result.items }
{
    let since = content.since;
    let mut entries = Vec::new(alloc);
    if let Some(seq) = content.place {
        entries
            .push(tombstone(alloc, rt, "a", seq, since))
            .expect(rt, "memory");
    }
    entries
        .push(tombstone(alloc, rt, "b", content.greatest, since))
        .expect(rt, "memory");
    entries
}

/// The file that was built, which has one page.
fn opened(alloc: Global, rt: &impl Abort, disk: &mut MemDisk, built: &Built) -> FileView<MemDisk> {
    let page = built.pages.items().first().expect(rt, "a page");
    let header = built.header_bytes.items();
    add_file(alloc, rt, disk, header, &[page.items()], &[])
}

/// A file of one page of tombstones, and the numbers behind `first`.
fn file_of(
    alloc: Global,
    rt: &impl Abort,
    disk: &mut MemDisk,
    content: &Content,
    first: u64,
) -> FileView<MemDisk> {
    let entries = entries_of(alloc, rt, content);
    let files = build_files(alloc, rt, entries, &config_of(rt, 2, 1), first);
    opened(alloc, rt, disk, files.first().expect(rt, "a file"))
}

/// The files of both contents, of which the second one's has the lower numbers.
fn file_pair(
    alloc: Global,
    rt: &impl Abort,
    disk: &mut MemDisk,
    first: &Content,
    second: &Content,
) -> Vec<FileView<MemDisk>> {
    let mut files = Vec::new(alloc);
    files
        .push(file_of(alloc, rt, disk, second, 1))
        .expect(rt, "memory");
    files
        .push(file_of(alloc, rt, disk, first, 3))
        .expect(rt, "memory");
    files
}

/// A version of two files in level 0, where the first one's greatest place is greater, and a port of their disk. Each can have an entry
/// newer than those of `a`, so that both are asked.
fn two_files(
    alloc: Global,
    rt: &impl Abort,
    first: Option<u64>,
    second: Option<u64>,
) -> (Version<MemDisk>, MemPort) {
    let mut disk = empty_disk(alloc, rt);
    let first = Content {
        place: first,
        since: 1,
        greatest: 9,
    };
    let second = Content {
        place: second,
        since: 2,
        greatest: 8,
    };
    let files = file_pair(alloc, rt, &mut disk, &first, &second);
    let version = version_of(alloc, rt, files);
    let port = disk.port(alloc).expect(rt, "a port");
    (version, port)
}

/// The time of the entry that is found of `a`.
fn found(
    alloc: Global,
    rt: &impl Abort,
    version: &Version<MemDisk>,
    port: &mut MemPort,
) -> Option<u64> {
    let key = key_of(alloc, "a").expect(rt, "a key");
    let entry = version.find(alloc, port, &key).expect(rt, "an answer");
    entry.and_then(|entry| entry.since)
}

#[test]
fn the_greater_place_is_newer_and_of_equal_ones_the_first(rt: HostRuntime) {
    let alloc = rt.alloc();
    for (place, (first, second, since)) in FOUND.into_iter().enumerate() {
        let (version, mut port) = two_files(alloc, &rt, first, second);
        let found = found(alloc, &rt, &version, &mut port);
        assert_eq!(rt; found, since, "row {place}");
    }
}

fn is_shared<T: Send + Sync>(_value: &T) {}

// A version of any disk may be shared among threads.
fn versions_are_shared<D: Disk>(version: &Version<D>) {
    is_shared(version);
}
