//! Stores that are opened, and what isn't opened.

use crate::common::config_of;
use lethe_base::{Fields, Kind, MAX_PLACE, Name};
use lethe_disk::Disk;
use lethe_manifest::Manifest;
use lethe_memdisk::MemDisk;
use lethe_recover::{OpenWhy, Opened, open};
use lethe_test_values::SMALL;
use lethe_version::Version;
use std::alloc::Global;
use std::process::Abort;
use std::test::Fail;

/// Manifest 2, which cites the segments 0 and 1, the latter active. The next number is 3.
const MANIFEST: [u8; 79] =
    *b"LM\x01\0\0\0\0\0\0\0\x02\0\0\0\0\0\0\0\x64\x02\x02\0\x02\x02\0\x02\0\x04\0\0\0\0\0\0\0\0\0\0\0\0\0\0\0\0\0\0\0\0\0\0\0\0\x03\0\0\0\0\0\x02\0\0\0\0\0\0\0\0\0\0\0\0\0\0\0\x01\0\0\0\0";

/// The same with the last next number but one.
const SPENT: [u8; 79] =
    *b"LM\x01\0\0\0\0\0\0\0\x02\0\0\0\0\0\0\0\x64\x02\x02\0\x02\x02\0\x02\0\x04\0\0\0\0\0\0\0\0\0\0\0\0\0\0\0\0\0\x3f\xff\xff\xff\xff\xff\xff\xfe\0\0\0\0\0\x02\0\0\0\0\0\0\0\0\0\0\0\0\0\0\0\x01\0\0\0\0";

/// Segment 0 with the puts of `a` and `b` at the places 1 and 2.
const OLDER: [u8; 60] =
    *b"LS\x01\0\0\0\0\0\0\0\0\x01\x01\0\0\0\0\0\0\0\x01\0\x01a\0\0\0\0\0\0\0\x0b\0\x01x\x01\x01\0\0\0\0\0\0\0\x02\0\x01b\0\0\0\0\0\0\0\x0f\0\x01x\0";

/// Segment 1 with the puts of `c` and `d` at the places 3 and 4.
const NEWER: [u8; 60] =
    *b"LS\x01\0\0\0\0\0\0\0\x01\x01\x01\0\0\0\0\0\0\0\x03\0\x01c\0\0\0\0\0\0\0\x0c\0\x01x\x01\x01\0\0\0\0\0\0\0\x04\0\x01d\0\0\0\0\0\0\0\x1e\0\x01x\0";

// What is opened by the small configuration with this threshold, or why nothing is.
fn opened(
    alloc: Global,
    disk: &mut MemDisk,
    threshold: u64,
) -> Result<Result<Opened<MemDisk>, OpenWhy>, Fail> {
    let config = config_of(Fields { threshold, ..SMALL })?;
    Ok(open(alloc, disk, &config))
}

fn add(alloc: Global, disk: &mut MemDisk, kind: Kind, no: u64, bytes: &[u8]) -> Result<(), Fail> {
    let name = Name { kind, no };
    let Ok(names) = disk.names(alloc) else {
        return Err(Fail::new("names"));
    };
    if names.contains(&name) {
        return Err(Fail::new("a new name"));
    }
    match disk.create(name, bytes) {
        Ok(()) => Ok(()),
        Err(_) => Err(Fail::new("an object")),
    }
}

/// What a store of two segments has beside its manifest, and a page that nothing cites.
const OBJECTS: [(Kind, u64, &[u8]); 4] = [
    (Kind::Gate, 2, &[]),
    (Kind::Segment, 0, &OLDER),
    (Kind::Segment, 1, &NEWER),
    (Kind::Page, 2, b"?"),
];

// A store of two segments, beside which there is a page that nothing cites.
fn two_segments(alloc: Global, manifest: &[u8], failing: Vec<u64>) -> Result<MemDisk, Fail> {
    let mut disk = MemDisk::new(alloc, 100, failing)?;
    add(alloc, &mut disk, Kind::Manifest, 2, manifest)?;
    for (kind, no, bytes) in OBJECTS {
        add(alloc, &mut disk, kind, no, bytes)?;
    }
    Ok(disk)
}

fn has_names(alloc: Global, disk: &mut MemDisk, wanted: &[(Kind, u64)]) -> Result<bool, Fail> {
    let Ok(names) = disk.names(alloc) else {
        return Err(Fail::new("names"));
    };
    Ok(
        names.len() == wanted.len()
            && names
                .iter()
                .zip(wanted)
                .all(|(name, (kind, no))| name.kind == *kind && name.no == *no),
    )
}

/// A store that was opened: its disk, as it is behind that, and what is told of it.
#[derive(Drop)]
struct Store {
    disk: MemDisk,
    opened: Opened<MemDisk>,
}

fn store_on(alloc: Global, mut disk: MemDisk) -> Result<Store, Fail> {
    let opened = opened(alloc, &mut disk, 100)?.map_err(|_| "not opened")?;
    Ok(Store { disk, opened })
}

/// What is on the disk of a new store.
const NEW_NAMES: [(Kind, u64); 3] = [(Kind::Gate, 2), (Kind::Manifest, 2), (Kind::Segment, 1)];

#[test]
fn an_empty_disk_gets_a_new_store(rt: HostRuntime) -> Result<(), Fail> {
    let alloc = rt.alloc();
    let mut store = store_on(alloc, MemDisk::new(alloc, 100, Vec::new(alloc))?)?;
    let manifest = &store.opened.manifest;
    assert!(rt; (manifest.no, manifest.next) == (2, 3));
    assert!(rt; has_names(alloc, &mut store.disk, &NEW_NAMES)?);
    Ok(())
}

/// What is on the disk of a store of two segments once it is opened.
const FLUSHED_NAMES: [(Kind, u64); 7] = [
    (Kind::Gate, 8),
    (Kind::Manifest, 8),
    (Kind::Segment, 7),
    (Kind::File, 4),
    (Kind::File, 6),
    (Kind::Page, 3),
    (Kind::Page, 5),
];

fn check_flushed(rt: &impl Abort, manifest: &Manifest) -> Result<(), Fail> {
    assert!(rt; (manifest.no, manifest.next, manifest.count) == (8, 9, 4));
    assert!(rt; manifest.segments.items() == [7].as_slice());
    let [newer, older] = manifest.files.items() else {
        return Err(Fail::new("two files"));
    };
    assert!(rt; (newer.level, newer.no, newer.swept) == (0, 6, 4));
    assert!(rt; (older.level, older.no, older.swept) == (0, 4, 4));
    Ok(())
}

fn check_version(rt: &impl Abort, version: &Version<MemDisk>) {
    assert!(rt; version.levels() == 3);
    assert!(rt; version.files(0).len() == 2);
}

#[test]
fn two_segments_become_two_files_and_an_empty_segment(rt: HostRuntime) -> Result<(), Fail> {
    let alloc = rt.alloc();
    let mut store = store_on(alloc, two_segments(alloc, &MANIFEST, Vec::new(alloc))?)?;
    check_flushed(&rt, &store.opened.manifest)?;
    check_version(&rt, &store.opened.version);
    assert!(rt; has_names(alloc, &mut store.disk, &FLUSHED_NAMES)?);
    Ok(())
}

/// Why a store of two segments isn't opened, with this manifest and this threshold, where this call fails, if one does.
fn refused(
    alloc: Global,
    manifest: &[u8],
    threshold: u64,
    failing: Option<u64>,
) -> Result<OpenWhy, Fail> {
    let mut faults = Vec::new(alloc);
    if let Some(call) = failing {
        faults.push(call)?;
    }
    let mut disk = two_segments(alloc, manifest, faults)?;
    match opened(alloc, &mut disk, threshold)? {
        Ok(_) => Err(Fail::new("opened")),
        Err(why) => Ok(why),
    }
}

/// The bytes of the manifest, the number of the call that fails, if one does, and why the store isn't opened.
const REFUSALS: [(&[u8], Option<u64>, OpenWhy); 3] = [
    (
        b"?",
        None,
        OpenWhy::Damaged {
            name: Name {
                kind: Kind::Manifest,
                no: 2,
            },
        },
    ),
    (&SPENT, None, OpenWhy::Exhausted { last: MAX_PLACE }),
    (
        &MANIFEST,
        Some(13),
        OpenWhy::Fault {
            before: 0,
            after: 1,
        },
    ),
];

#[test]
fn what_cannot_be_opened_is_told(rt: HostRuntime) -> Result<(), Fail> {
    for (bytes, failing, why) in REFUSALS {
        let told = refused(rt.alloc(), bytes, 100, failing)?;
        assert!(rt; told == why, "{told:?}");
    }
    let kept = config_of(SMALL)?;
    let told = refused(rt.alloc(), &MANIFEST, 7, None)?;
    assert!(rt; told == OpenWhy::OtherConfig { kept });
    Ok(())
}
