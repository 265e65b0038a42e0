//! Tests of the spelling of manifests.
ghost use Rattle.std.specs.Prelude.{IfOk};
ghost use Rattle.lethe_manifest.specs.Manifests.{HasSpelling};

use crate::common::{changed, check_bytes, cut, extended, replaced, small};
use lethe_base::{Config, Fields, List, Pending, Pick};
use lethe_manifest::{
    Cited, LastCert, Manifest, ManifestRefused, one_manifest, read_manifest, write_manifest,
};
use lethe_test_values::SMALL;
use std::alloc::Global;
use std::process::Abort;

/// A new store: manifest 2, threshold 100, ratio 2, levels 2, page 2, tile 2, file 2, buffer 4, pick so, segment 1.
const NEW: &[u8] =
    b"LM\x01\0\0\0\0\0\0\0\x02\0\0\0\0\0\0\0\x64\x02\x02\0\x02\x02\0\x02\0\x04\0\0\0\0\0\0\0\0\0\0\0\0\0\0\0\0\0\0\0\0\0\0\0\0\x03\0\0\0\0\0\x01\0\0\0\0\0\0\0\x01\0\0\0\0";

/// A store that has all parts: manifest 9 of the same configuration with pick sd, clock 50, count 20 and next 12;
/// certificate 3 at 40 of what was before 30; erase 5 at 10 from 1 to 9 and erase 7 at 20 of all but the greatest
/// delete key; segments 8 and 4; on level 1 file 6, never swept, and on level 2 file 7, swept to place 5.
const FULL: &[u8] =
    b"LM\x01\0\0\0\0\0\0\0\x09\0\0\0\0\0\0\0\x64\x02\x02\0\x02\x02\0\x02\0\x04\x01\0\0\0\0\0\0\0\x32\0\0\0\0\0\0\0\x14\0\0\0\0\0\0\0\x0c\x01\0\0\0\0\0\0\0\x03\0\0\0\0\0\0\0\x28\0\0\0\0\0\0\0\x1e\0\0\0\x02\0\0\0\0\0\0\0\x05\0\0\0\0\0\0\0\x0a\0\0\0\0\0\0\0\x01\0\0\0\0\0\0\0\x09\0\0\0\0\0\0\0\x07\0\0\0\0\0\0\0\x14\0\0\0\0\0\0\0\0\xff\xff\xff\xff\xff\xff\xff\xff\x02\0\0\0\0\0\0\0\x08\0\0\0\0\0\0\0\x04\0\0\0\x02\x01\0\0\0\0\0\0\0\x06\0\0\0\0\0\0\0\0abcdefghijklmnopqrstuvwxyz012345\x02\0\0\0\0\0\0\0\x07\0\0\0\0\0\0\0\x05ABCDEFGHIJKLMNOPQRSTUVWXYZ678901";

/// How the bytes are read.
fn read(alloc: Global, bytes: &[u8]) -> Result<Manifest, ManifestRefused>
    ensures { IfOk result HasSpelling }
{
    read_manifest(alloc, bytes)
}

/// The manifest that `NEW` spells.
fn new_store(alloc: Global, rt: &impl Abort) -> Manifest
    ensures { HasSpelling result }
{
    let config = small(rt, Pick::So);
    let segments = vec![in alloc; 1; 1].expect(rt, "memory");
    Manifest {
        no: 2,
        config,
        clock: 0,
        count: 0,
        next: 3,
        certificate: None,
        erases: List::of(Vec::new(alloc)),
        segments: List::of(segments),
        files: List::of(Vec::new(alloc)),
    }
}

/// Whether the manifest has this number, clock, count and next number.
fn are_numbers(manifest: &Manifest, no: u64, clock: u64, count: u64, next: u64) -> bool {
    manifest.no == no && manifest.clock == clock && manifest.count == count && manifest.next == next
}

/// Whether the configuration is the small one with this pick.
fn is_small(config: &Config, pick: Pick) -> bool {
    *config.fields() == Fields { pick, ..SMALL }
}

fn new_store_written(alloc: Global, rt: &impl Abort) -> Vec<u8> {
    let manifest = new_store(alloc, rt);
    write_manifest(alloc, &manifest).expect(rt, "a spelling")
}

#[test]
fn a_new_store_has_71_bytes(rt: HostRuntime) {
    check_bytes(&rt, &new_store_written(rt.alloc(), &rt), NEW);
    let manifest = read(rt.alloc(), NEW).expect(&rt, "a manifest");
    assert!(rt; are_numbers(&manifest, 2, 0, 0, 3));
    assert!(rt; is_small(&manifest.config, Pick::So));
    assert!(rt; manifest.segments.items() == [1].as_slice());
    one_manifest();
}

fn rewritten(alloc: Global, rt: &impl Abort, bytes: &[u8]) -> Vec<u8> {
    let manifest = read(alloc, bytes).expect(rt, "a manifest");
    write_manifest(alloc, &manifest).expect(rt, "a spelling")
}

#[test]
fn a_store_with_all_parts_is_written_as_it_was_read(rt: HostRuntime) {
    check_bytes(&rt, &rewritten(rt.alloc(), &rt, FULL), FULL);
}

/// An erase: its place, its time and its range.
type Erase = (u64, u64, u64, u64);

const ERASES_OF_FULL: &[Erase] = &[(5, 10, 1, 9), (7, 20, 0, u64::MAX)];

fn is_erase(erase: &Pending, wanted: &Erase) -> bool {
    let (seq, time, lo, hi) = *wanted;
    erase.seq == seq && erase.time == time && erase.range.lo() == lo && erase.range.hi() == hi
}

fn are_erases(erases: &[Pending], wanted: &[Erase]) -> bool {
    erases.len() == wanted.len()
        && erases
            .iter()
            .zip(wanted)
            .all(|(erase, wanted)| is_erase(erase, wanted))
}

/// A file: its level, its number, the place that it is swept to, and its digest.
type File = (u64, u64, u64, &'static [u8]);

const FILES_OF_FULL: &[File] = &[
    (1, 6, 0, b"abcdefghijklmnopqrstuvwxyz012345"),
    (2, 7, 5, b"ABCDEFGHIJKLMNOPQRSTUVWXYZ678901"),
];

fn is_file(file: &Cited, wanted: &File) -> bool {
    let (level, no, swept, digest) = *wanted;
    file.level == level && file.no == no && file.swept == swept && file.digest.as_slice() == digest
}

fn are_files(files: &[Cited], wanted: &[File]) -> bool {
    files.len() == wanted.len()
        && files
            .iter()
            .zip(wanted)
            .all(|(file, wanted)| is_file(file, wanted))
}

/// The certificate of `FULL`.
const CERTIFICATE: LastCert = LastCert {
    number: 3,
    clock: 40,
    before: 30,
};

#[test]
fn all_parts_of_a_store_are_read(rt: HostRuntime) {
    let manifest = read(rt.alloc(), FULL).expect(&rt, "a manifest");
    assert!(rt; are_numbers(&manifest, 9, 50, 20, 12));
    assert!(rt; is_small(&manifest.config, Pick::Sd));
    assert!(rt; manifest.certificate == Some(CERTIFICATE));
    assert!(rt; are_erases(manifest.erases.items(), ERASES_OF_FULL));
    assert!(rt; manifest.segments.items() == [8, 4].as_slice());
    assert!(rt; are_files(manifest.files.items(), FILES_OF_FULL));
}

/// A place, the byte that is put there, and why the manifest is then refused.
type Change = (usize, u8, ManifestRefused);

const CHANGES_OF_NEW: &[Change] = &[
    (0, b'M', ManifestRefused::Kind { at: 0 }),
    (1, b'S', ManifestRefused::Kind { at: 0 }),
    (2, 2, ManifestRefused::Kind { at: 2 }),
    (3, 0x40, ManifestRefused::Kind { at: 3 }),
    (10, 3, ManifestRefused::Order { at: 45 }),
    (18, 0, ManifestRefused::Kind { at: 11 }),
    (12, 2, ManifestRefused::Kind { at: 11 }),
    (19, 1, ManifestRefused::Kind { at: 19 }),
    (19, 17, ManifestRefused::Kind { at: 19 }),
    (20, 0, ManifestRefused::Kind { at: 20 }),
    (20, 7, ManifestRefused::Kind { at: 20 }),
    (21, 4, ManifestRefused::Kind { at: 21 }),
    (22, 0, ManifestRefused::Kind { at: 21 }),
    (23, 65, ManifestRefused::Kind { at: 23 }),
    (24, 1, ManifestRefused::Kind { at: 24 }),
    (26, 0x40, ManifestRefused::Kind { at: 26 }),
    (27, 9, ManifestRefused::Kind { at: 26 }),
    (28, 2, ManifestRefused::Kind { at: 28 }),
    (29, 0x41, ManifestRefused::Kind { at: 29 }),
    (37, 0x40, ManifestRefused::Kind { at: 37 }),
    (45, 0x40, ManifestRefused::Kind { at: 45 }),
    (52, 2, ManifestRefused::Order { at: 45 }),
    (53, 1, ManifestRefused::Short { at: 70 }),
    (57, 1, ManifestRefused::Short { at: 66 }),
    (58, 0, ManifestRefused::Kind { at: 58 }),
    (58, 2, ManifestRefused::Short { at: 67 }),
    (59, 0x40, ManifestRefused::Kind { at: 59 }),
    (66, 3, ManifestRefused::Order { at: 59 }),
    (70, 1, ManifestRefused::Short { at: 71 }),
];

/// The bytes have to be refused so.
fn check_refused(alloc: Global, rt: &impl Abort, bytes: &[u8], why: ManifestRefused) {
    let found = read(alloc, bytes).err();
    assert!(rt; found == Some(why), "{found:?}");
}

fn check_changes(alloc: Global, rt: &impl Abort, bytes: &[u8], changes: &[Change]) {
    for (place, byte, why) in changes {
        let other = changed(alloc, rt, bytes, *place, *byte);
        check_refused(alloc, rt, &other, *why);
    }
}

#[test]
fn other_bytes_are_refused_at_their_field(rt: HostRuntime) {
    check_changes(rt.alloc(), &rt, NEW, CHANGES_OF_NEW);
    let wide = replaced(rt.alloc(), &rt, NEW, 21, &[4, 0, 64]);
    check_refused(rt.alloc(), &rt, &wide, ManifestRefused::Kind { at: 24 });
}

const CHANGES_OF_FULL: &[Change] = &[
    // The mark and the certificate's number, clock and before.
    (53, 2, ManifestRefused::Kind { at: 53 }),
    (61, 0, ManifestRefused::Kind { at: 54 }),
    (54, 0x40, ManifestRefused::Kind { at: 54 }),
    (62, 0x41, ManifestRefused::Kind { at: 62 }),
    (70, 0x41, ManifestRefused::Kind { at: 70 }),
    // An erase's place, time and upper end. A place that breaks both its range and the order is `Kind`.
    (89, 0, ManifestRefused::Kind { at: 82 }),
    (82, 0x40, ManifestRefused::Kind { at: 82 }),
    (121, 5, ManifestRefused::Order { at: 114 }),
    (121, 0, ManifestRefused::Kind { at: 114 }),
    (90, 0x41, ManifestRefused::Kind { at: 90 }),
    (113, 1, ManifestRefused::Order { at: 106 }),
    // How many segments, and their numbers.
    (146, 0, ManifestRefused::Kind { at: 146 }),
    (146, 3, ManifestRefused::Kind { at: 146 }),
    (147, 0x40, ManifestRefused::Kind { at: 147 }),
    (154, 12, ManifestRefused::Order { at: 147 }),
    (162, 12, ManifestRefused::Order { at: 155 }),
    // A file's level, number and place swept to.
    (167, 3, ManifestRefused::Kind { at: 167 }),
    (216, 3, ManifestRefused::Kind { at: 216 }),
    (216, 0, ManifestRefused::Order { at: 216 }),
    (168, 0x40, ManifestRefused::Kind { at: 168 }),
    (175, 12, ManifestRefused::Order { at: 168 }),
    (224, 12, ManifestRefused::Order { at: 217 }),
    (176, 0x40, ManifestRefused::Kind { at: 176 }),
    // A file less than there are, and one more.
    (166, 1, ManifestRefused::Trailing { at: 216 }),
    (166, 3, ManifestRefused::Short { at: 265 }),
];

#[test]
fn a_part_is_refused_at_its_field(rt: HostRuntime) {
    check_changes(rt.alloc(), &rt, FULL, CHANGES_OF_FULL);
}

/// How much of `FULL` is there, and the field that goes past its end.
const CUTS: &[(usize, u64)] = &[
    (0, 0),
    (1, 0),
    (2, 2),
    (3, 3),
    (10, 3),
    (11, 11),
    (18, 11),
    (19, 19),
    (20, 20),
    (22, 21),
    (23, 23),
    (25, 24),
    (27, 26),
    (28, 28),
    (36, 29),
    (44, 37),
    (52, 45),
    (53, 53),
    (61, 54),
    (69, 62),
    (77, 70),
    (81, 78),
    (89, 82),
    (97, 90),
    (105, 98),
    (113, 106),
    (121, 114),
    (145, 138),
    (146, 146),
    (154, 147),
    (162, 155),
    (166, 163),
    (167, 167),
    (175, 168),
    (183, 176),
    (215, 184),
    (216, 216),
    (264, 233),
];

#[test]
fn a_cut_manifest_is_short_at_its_field(rt: HostRuntime) {
    for (len, at) in CUTS {
        let bytes = cut(&rt, FULL, *len);
        check_refused(rt.alloc(), &rt, bytes, ManifestRefused::Short { at: *at });
    }
    let long = extended(rt.alloc(), &rt, FULL, &[0]);
    let why = ManifestRefused::Trailing { at: 265 };
    check_refused(rt.alloc(), &rt, &long, why);
}

#[test]
fn no_memory_is_taken_on_the_word_of_a_count(rt: HostRuntime) {
    let most = extended(rt.alloc(), &rt, cut(&rt, NEW, 67), &[0xff; 4]);
    let why = ManifestRefused::Short { at: 71 };
    check_refused(rt.alloc(), &rt, &most, why);
}
