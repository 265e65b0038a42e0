//! Reading a disk back, and opening it: what is there, what is damaged, another configuration, and faults.

use crate::common::{MANIFEST, add, has, must};
use lethe_base::{Config, Fields, Kind, Name};
use lethe_load::{RecoverRefused, Recovered, load};
use lethe_memdisk::MemDisk;
use lethe_recover::{OpenWhy, Opened, open};
use lethe_test_values::SMALL;
use std::alloc::Global;
use std::process::Abort;

/// The manifest of a new store, but that it cites segment 0 as the frozen one.
const TWO_SEGMENTS: [u8; 79] =
    *b"LM\x01\0\0\0\0\0\0\0\x02\0\0\0\0\0\0\0\x64\x02\x02\0\x02\x02\0\x02\0\x04\0\0\0\0\0\0\0\0\0\0\0\0\0\0\0\0\0\0\0\0\0\0\0\0\x03\0\0\0\0\0\x02\0\0\0\0\0\0\0\0\0\0\0\0\0\0\0\x01\0\0\0\0";

/// The same manifest, which cites segment 1 twice.
const TWICE: [u8; 79] =
    *b"LM\x01\0\0\0\0\0\0\0\x02\0\0\0\0\0\0\0\x64\x02\x02\0\x02\x02\0\x02\0\x04\0\0\0\0\0\0\0\0\0\0\0\0\0\0\0\0\0\0\0\0\0\0\0\0\x03\0\0\0\0\0\x02\0\0\0\0\0\0\0\x01\0\0\0\0\0\0\0\x01\0\0\0\0";

/// Segment 1 with one put.
const SEGMENT: [u8; 36] =
    *b"LS\x01\0\0\0\0\0\0\0\x01\x01\x01\0\0\0\0\0\0\0\x01\0\x01a\0\0\0\0\0\0\0\x05\0\x01x\0";

fn name(kind: Kind, no: u64) -> Name {
    Name { kind, no }
}

fn add_new(alloc: Global, rt: &impl Abort, disk: &mut MemDisk, name: Name, bytes: &[u8]) {
    let there = has(alloc, disk, name).expect(rt, "names");
    assert!(rt; !there);
    must(rt, add(disk, name, bytes));
}

// What of a store a disk is to have: its gates, manifest 2 and segment 1.
#[derive(Clone, Copy)]
struct Parts {
    gates: &'static [u64],
    manifest: Option<&'static [u8]>,
    segment: Option<&'static [u8]>,
}

fn disk_of(alloc: Global, rt: &impl Abort, parts: Parts, failing: Vec<u64>) -> MemDisk {
    let mut disk = MemDisk::new(alloc, 100, failing).expect(rt, "memory");
    for gate in parts.gates {
        add_new(alloc, rt, &mut disk, name(Kind::Gate, *gate), &[]);
    }
    if let Some(bytes) = parts.manifest {
        add_new(alloc, rt, &mut disk, name(Kind::Manifest, 2), bytes);
    }
    if let Some(bytes) = parts.segment {
        add_new(alloc, rt, &mut disk, name(Kind::Segment, 1), bytes);
    }
    disk
}

// How many records there are, if there is a gate.
fn count(read: &Recovered<MemDisk>) -> Option<usize> {
    if read.manifest.is_none() {
        return None;
    }
    match read.segments.items() {
        [held, ..] => Some(held.items().len()),
        [] => None,
    }
}

/// How many records are read, if there is a gate, or why nothing is.
type Told = Result<Option<usize>, RecoverRefused>;

fn config_of(rt: &impl Abort, fields: Fields) -> Config {
    Config::new(fields).expect(rt, "a configuration")
}

fn records(alloc: Global, disk: &mut MemDisk, config: &Config) -> Told {
    match load(alloc, disk, config) {
        Ok(read) => Ok(count(&read)),
        Err(why) => Err(why),
    }
}

// The same of a disk with these parts, where these calls fail.
fn records_of(
    alloc: Global,
    rt: &impl Abort,
    parts: Parts,
    fields: Fields,
    failing: Vec<u64>,
) -> Told {
    let mut disk = disk_of(alloc, rt, parts, failing);
    records(alloc, &mut disk, &config_of(rt, fields))
}

const WHOLE: Parts = Parts {
    gates: &[2],
    manifest: Some(&MANIFEST),
    segment: Some(&SEGMENT),
};

/// What a disk has, and how many records are read of it, if there is a gate, or which object is damaged.
type Read = (Parts, Result<Option<usize>, (Kind, u64)>);

const READS: [Read; 13] = [
    (WHOLE, Ok(Some(1))),
    (
        Parts {
            segment: Some(b"LS\x01\0\0\0\0\0\0\0\x01\0"),
            ..WHOLE
        },
        Ok(Some(0)),
    ),
    (
        Parts {
            segment: Some(b"LS\x01\0\0\0\0\0\0\0\x01"),
            ..WHOLE
        },
        Ok(Some(0)),
    ),
    (
        Parts {
            gates: &[],
            ..WHOLE
        },
        Ok(None),
    ),
    (
        Parts {
            gates: &[1, 2],
            ..WHOLE
        },
        Ok(Some(1)),
    ),
    (
        Parts {
            gates: &[2, 3],
            ..WHOLE
        },
        Err((Kind::Manifest, 3)),
    ),
    (
        Parts {
            manifest: None,
            ..WHOLE
        },
        Err((Kind::Manifest, 2)),
    ),
    (
        Parts {
            manifest: Some(b"LM\x01"),
            ..WHOLE
        },
        Err((Kind::Manifest, 2)),
    ),
    (
        Parts {
            manifest: Some(&TWO_SEGMENTS),
            ..WHOLE
        },
        Err((Kind::Segment, 0)),
    ),
    (
        Parts {
            manifest: Some(&TWICE),
            ..WHOLE
        },
        Err((Kind::Segment, 1)),
    ),
    (
        Parts {
            segment: None,
            ..WHOLE
        },
        Err((Kind::Segment, 1)),
    ),
    (
        Parts {
            segment: Some(b"LS"),
            ..WHOLE
        },
        Err((Kind::Segment, 1)),
    ),
    (
        Parts {
            segment: Some(b"LS\x01\0\0\0\0\0\0\0\x03\0"),
            ..WHOLE
        },
        Err((Kind::Segment, 1)),
    ),
];

fn check_read(alloc: Global, rt: &impl Abort, read: &Read) {
    let want = read.1.map_err(|(kind, no)| RecoverRefused::Damaged {
        name: name(kind, no),
    });
    assert!(rt; records_of(alloc, rt, read.0, SMALL, Vec::new(alloc)) == want);
}

#[test]
fn the_greatest_gate_tells_what_is_loaded(rt: HostRuntime) {
    for read in &READS {
        check_read(rt.alloc(), &rt, read);
    }
}

fn check_other_config(alloc: Global, rt: &impl Abort) {
    let kept = config_of(rt, SMALL);
    let other = records_of(alloc, rt, WHOLE, Fields::default(), Vec::new(alloc));
    assert!(rt; other == Err(RecoverRefused::OtherConfig { kept }));
}

fn check_fault(alloc: Global, rt: &impl Abort, failing: u64) {
    let failing = vec![in alloc; failing].expect(rt, "memory");
    let fault = RecoverRefused::Fault {
        before: 0,
        after: 1,
    };
    assert!(rt; records_of(alloc, rt, WHOLE, SMALL, failing) == Err(fault));
}

#[test]
fn another_configuration_and_faults_are_told(rt: HostRuntime) {
    check_other_config(rt.alloc(), &rt);
    for failing in 7..10 {
        check_fault(rt.alloc(), &rt, failing);
    }
}

const EMPTY: Parts = Parts {
    gates: &[],
    manifest: None,
    segment: None,
};

/// How many changes there are, how many files, the segment and the next number.
type Counts = (u64, usize, Option<u64>, u64);

/// What is opened, or why nothing is.
type Opening = Result<Counts, OpenWhy>;

fn counts(store: &Opened<MemDisk>) -> Counts {
    let manifest = &store.manifest;
    let segment = match manifest.segments.items() {
        [first, ..] => Some(*first),
        [] => None,
    };
    let files = manifest.files.items().len();
    (manifest.count, files, segment, manifest.next)
}

fn opened(alloc: Global, disk: &mut MemDisk, config: &Config) -> Opening {
    match open(alloc, disk, config) {
        Ok(store) => Ok(counts(&store)),
        Err(why) => Err(why),
    }
}

// What is opened of a disk with these parts, and what is opened again, by these configurations.
fn opened_twice(
    alloc: Global,
    rt: &impl Abort,
    parts: Parts,
    first: Fields,
    second: Fields,
) -> (Opening, Opening) {
    let mut disk = disk_of(alloc, rt, parts, Vec::new(alloc));
    let before = opened(alloc, &mut disk, &config_of(rt, first));
    (before, opened(alloc, &mut disk, &config_of(rt, second)))
}

/// What a disk has, and what is opened the first time and the second.
const OPENINGS: [(Parts, Counts, Counts); 3] = [
    (EMPTY, (0, 0, Some(1), 3), (0, 0, Some(3), 5)),
    (
        Parts {
            gates: &[],
            ..WHOLE
        },
        (0, 0, Some(1), 3),
        (0, 0, Some(3), 5),
    ),
    // The put becomes page 3 of file 4.
    (WHOLE, (1, 1, Some(5), 7), (1, 1, Some(7), 9)),
];

fn check_opening(alloc: Global, rt: &impl Abort, parts: Parts, first: Counts, second: Counts) {
    let told = opened_twice(alloc, rt, parts, SMALL, SMALL);
    assert!(rt; told == (Ok(first), Ok(second)));
}

#[test]
fn a_store_is_opened_and_opened_again(rt: HostRuntime) {
    for (parts, first, second) in OPENINGS {
        check_opening(rt.alloc(), &rt, parts, first, second);
    }
}

fn without_segment() -> OpenWhy {
    OpenWhy::Damaged {
        name: name(Kind::Segment, 1),
    }
}

const NO_SEGMENT: Parts = Parts {
    segment: None,
    ..WHOLE
};

fn check_other_opening(alloc: Global, rt: &impl Abort) {
    let kept = config_of(rt, SMALL);
    let (other, own) = opened_twice(alloc, rt, WHOLE, Fields::default(), SMALL);
    assert!(rt; other == Err(OpenWhy::OtherConfig { kept }));
    assert!(rt; own == Ok((1, 1, Some(5), 7)));
}

fn check_no_segment(alloc: Global, rt: &impl Abort) {
    let (first, again) = opened_twice(alloc, rt, NO_SEGMENT, SMALL, SMALL);
    assert!(rt; first == Err(without_segment()));
    assert!(rt; again == Err(without_segment()));
}

#[test]
fn what_is_not_opened_stays(rt: HostRuntime) {
    check_other_opening(rt.alloc(), &rt);
    check_no_segment(rt.alloc(), &rt);
}
