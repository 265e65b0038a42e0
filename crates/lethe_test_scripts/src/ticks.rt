//! Ticks and their certificates.

use crate::common::{check_printed, empty_disk, must, run};
use lethe_base::{Kind, Name};
use lethe_images::objects_of;
use lethe_memdisk::MemDisk;
use lethe_rows::SMALL_WORDS;
use sha2::{Digest, Sha256};
use std::alloc::Global;
use std::process::Abort;

/// A script, and what is printed of it, where H stands for the digest of the manifest that is there at the end; and whether an object still has the put of `a`.
type Row = (&'static str, &'static str, bool);

/// The put of the key `a` with the delete key 5 and the value `x`, as it stands in a segment or a page.
const PUT: &[u8] = b"\x01a\0\0\0\0\0\0\0\x05\0\x01x";

const ROWS: [Row; 17] = [
    (
        "1 put a 5 x\n1 del a\n1 tick 99\n1 get a\n1 tick 100\n",
        "1 ok 1\n1 ok 2\n1 ok 3 clock 99\n1 at 3 none\n1 ok 4 clock 100 cert 1 before 0 sha256 H\n",
        false,
    ),
    // A tick behind the clock isn't made, and the run goes on.
    (
        "1 tick 50\n1 tick 49\n1 tick 50\n",
        "1 ok 1 clock 50\n1 backwards 50\n1 ok 2 clock 50\n",
        false,
    ),
    (
        "1 put a 1 old\n1 put z 2 q\n1 del z\n1 tick 40\n1 del a\n1 put a 3 new\n1 tick 140\n1 get a\n",
        "1 ok 1\n1 ok 2\n1 ok 3\n1 ok 4 clock 40\n1 ok 5\n1 ok 6\n1 ok 7 clock 140 cert 1 before 40 sha256 H\n1 at 7 val 3 new\n",
        false,
    ),
    // The segment may hold the value for 33.
    (
        "1 put a 5 x\n1 del a\n1 tick 20\n1 get a\n",
        "1 ok 1\n1 ok 2\n1 ok 3 clock 20\n1 at 3 none\n",
        true,
    ),
    (
        "1 put a 5 x\n1 del a\n1 tick 33\n1 get a\n",
        "1 ok 1\n1 ok 2\n1 ok 3 clock 33\n1 at 3 none\n",
        false,
    ),
    // A value that wasn't erased stays.
    (
        "1 put a 5 x\n1 tick 100\n1 get a\n",
        "1 ok 1\n1 ok 2 clock 100 cert 1 before 0 sha256 H\n1 at 2 val 5 x\n",
        true,
    ),
    // The clock is told.
    (
        "1 tick 7\n1 stat\n1 tick 6\n1 stat\n",
        "1 ok 1 clock 7\n1 at 1 stat clock 7 pins 0 pending 0 files 0 tombs 0\n1 backwards 7\n1 at 1 stat clock 7 pins 0 pending 0 files 0 tombs 0\n",
        false,
    ),
    // What is erased by its delete key goes with its buffer.
    (
        "1 put a 5 x\n1 erase 5 6\n1 get a\n1 tick 33\n1 stat\n",
        "1 ok 1\n1 ok 2\n1 at 2 none\n1 ok 3 clock 33\n1 at 3 stat clock 33 pins 0 pending 0 files 0 tombs 0\n",
        false,
    ),
    (
        "1 put a 5 x\n1 erase 5 6\n1 tick 32\n1 stat\n",
        "1 ok 1\n1 ok 2\n1 ok 3 clock 32\n1 at 3 stat clock 32 pins 0 pending 1 files 0 tombs 0\n",
        true,
    ),
    // Of nine puts the first four are in a file. What is erased there may stay for a threshold; then the file is swept, and what isn't erased stays.
    (
        "1 put a 5 x\n1 put b 1 x\n1 put c 1 x\n1 put d 1 x\n1 put e 1 x\n1 put f 1 x\n1 put g 1 x\n1 put h 1 x\n1 put i 1 x\n1 erase 5 6\n1 get a\n1 tick 99\n1 stat\n",
        "1 ok 1\n1 ok 2\n1 ok 3\n1 ok 4\n1 ok 5\n1 ok 6\n1 ok 7\n1 ok 8\n1 ok 9\n1 ok 10\n1 at 10 none\n1 ok 11 clock 99\n1 at 11 stat clock 99 pins 0 pending 1 files 3 tombs 0\n",
        true,
    ),
    (
        "1 put a 5 x\n1 put b 1 x\n1 put c 1 x\n1 put d 1 x\n1 put e 1 x\n1 put f 1 x\n1 put g 1 x\n1 put h 1 x\n1 put i 1 x\n1 erase 5 6\n1 tick 99\n1 tick 100\n1 scan a z\n1 stat\n",
        "1 ok 1\n1 ok 2\n1 ok 3\n1 ok 4\n1 ok 5\n1 ok 6\n1 ok 7\n1 ok 8\n1 ok 9\n1 ok 10\n1 ok 11 clock 99\n1 ok 12 clock 100 cert 1 before 0 sha256 H\n1 at 12 scan 8 b 1 x c 1 x d 1 x e 1 x f 1 x g 1 x h 1 x i 1 x\n1 at 12 stat clock 100 pins 0 pending 0 files 3 tombs 0\n",
        false,
    ),
    (
        "1 put a 5 x\n1 put b 1 x\n1 put c 1 x\n1 put d 1 x\n1 put e 1 x\n1 put f 1 x\n1 put g 1 x\n1 put h 1 x\n1 put i 1 x\n1 erase 1 2\n1 tick 100\n1 scan a z\n1 stat\n",
        "1 ok 1\n1 ok 2\n1 ok 3\n1 ok 4\n1 ok 5\n1 ok 6\n1 ok 7\n1 ok 8\n1 ok 9\n1 ok 10\n1 ok 11 clock 100 cert 1 before 0 sha256 H\n1 at 11 scan 1 a 5 x\n1 at 11 stat clock 100 pins 0 pending 0 files 1 tombs 0\n",
        true,
    ),
    // A tick to the limit of a pin isn't made while the pin is held.
    (
        "1 put a 5 x\n1 pin 0\n1 del a\n1 tick 100\n1 pget 0 a\n1 unpin 0\n1 tick 100\n",
        "1 ok 1\n1 at 1 pin 1 limit 100\n1 ok 2\n1 pinned 1 limit 100\n1 pin 1 at 1 val 5 x\n1 at 2 unpin 1\n1 ok 3 clock 100 cert 1 before 0 sha256 H\n",
        false,
    ),
    // The limit is a threshold behind the delete, and not behind the clock.
    (
        "1 put a 5 x\n1 tick 10\n1 del a\n1 tick 40\n1 pin 0\n1 tick 109\n1 tick 110\n",
        "1 ok 1\n1 ok 2 clock 10\n1 ok 3\n1 ok 4 clock 40\n1 at 4 pin 1 limit 110\n1 ok 5 clock 109 cert 1 before 9 sha256 H\n1 pinned 1 limit 110\n",
        false,
    ),
    // An erase that is done bars no tick.
    (
        "1 put a 22 v\n1 put b 50 v\n1 put c 50 v\n1 erase 21 26\n1 tick 20\n1 put d 50 v\n1 put e 50 v\n1 put f 50 v\n1 put g 50 v\n1 put h 50 v\n1 stat\n1 pin 0\n1 tick 100\n1 unpin 0\n",
        "1 ok 1\n1 ok 2\n1 ok 3\n1 ok 4\n1 ok 5 clock 20\n1 ok 6\n1 ok 7\n1 ok 8\n1 ok 9\n1 ok 10\n1 at 10 stat clock 20 pins 0 pending 0 files 1 tombs 0\n1 at 10 pin 1 limit 120\n1 ok 11 clock 100 cert 1 before 0 sha256 H\n1 at 11 unpin 1\n",
        false,
    ),
    // The least and the greatest time.
    ("1 tick 0\n", "1 ok 1 clock 0\n", false),
    (
        "1 tick 4611686018427387904\n1 tick 0\n",
        "1 ok 1 clock 4611686018427387904 cert 1 before 4611686018427387804 sha256 H\n1 backwards 4611686018427387904\n",
        false,
    ),
];

/// Each name of what is there, with its bytes.
fn objects_on(alloc: Global, rt: &impl Abort, disk: &mut MemDisk) -> Vec<(Name, Vec<u8>)> {
    must(rt, objects_of(alloc, disk))
}

fn is_manifest(object: &(Name, Vec<u8>)) -> bool {
    object.0.kind == Kind::Manifest
}

/// The SHA-256 of bytes, in hexadecimal digits.
fn hex_digest(alloc: Global, rt: &impl Abort, bytes: &[u8]) -> String {
    let mut hasher = Sha256::new();
    hasher.update(bytes);
    hex::encode(alloc, hasher.finalize().as_slice()).expect(rt, "memory")
}

/// That of the one manifest that is there.
fn digest_of(alloc: Global, rt: &impl Abort, disk: &mut MemDisk) -> String {
    let objects = objects_on(alloc, rt, disk);
    let mut manifests = objects.iter().filter(|object| is_manifest(object));
    let (_, bytes) = manifests.next().expect(rt, "a manifest");
    let digest = hex_digest(alloc, rt, bytes);
    assert!(rt; manifests.next().is_none());
    digest
}

fn has_put_in(bytes: &[u8]) -> bool {
    bytes.windows(PUT.len()).any(|window| window == PUT)
}

/// Whether an object has the put in it.
fn has_put(alloc: Global, rt: &impl Abort, disk: &mut MemDisk) -> bool {
    let objects = objects_on(alloc, rt, disk);
    objects.iter().any(|object| has_put_in(&object.1))
}

/// The text with the digest in the place of H.
fn with_digest(alloc: Global, rt: &impl Abort, text: &str, digest: &str) -> String {
    let (front, behind) = match text.split_once('H') {
        Some((front, behind)) => (front, behind),
        None => return String::from_str(alloc, text).expect(rt, "memory"),
    };
    format!(in alloc; "{front}{digest}{behind}").expect(rt, "memory")
}

/// Runs a script over a disk, which has to print that text, with the digest of the manifest that it leaves. Hands the disk back.
fn certified(
    alloc: Global,
    rt: &impl Abort,
    words: &[&str],
    script: &str,
    text: &str,
    disk: MemDisk,
) -> MemDisk {
    let mut left = run(alloc, rt, words, script, disk);
    let digest = digest_of(alloc, rt, &mut left.disk);
    check_printed(rt, &left.printed, 0, &with_digest(alloc, rt, text, &digest));
    left.disk
}

/// The same with the small configuration.
pub fn certified_small(
    alloc: Global,
    rt: &impl Abort,
    script: &str,
    text: &str,
    disk: MemDisk,
) -> MemDisk {
    certified(alloc, rt, &SMALL_WORDS, script, text, disk)
}

fn check_row(alloc: Global, rt: &impl Abort, script: &str, text: &str, holds: bool) {
    let mut disk = certified_small(alloc, rt, script, text, empty_disk(alloc, rt));
    assert!(rt; has_put(alloc, rt, &mut disk) == holds, "{script}");
}

#[test]
fn ticks_print_the_clock_and_a_certificate(rt: HostRuntime) {
    for (script, text, holds) in ROWS {
        check_row(rt.alloc(), &rt, script, text, holds);
    }
}

/// Two runs over one disk, and what is printed of each.
const RUNS: [(&str, &str); 2] = [
    (
        "1 tick 100\n",
        "1 ok 1 clock 100 cert 1 before 0 sha256 H\n",
    ),
    (
        "1 tick 99\n1 tick 250\n",
        "1 backwards 100\n1 ok 2 clock 250 cert 2 before 150 sha256 H\n",
    ),
];

/// The second run of a script goes on with the clock and the number of the certificates.
#[test]
fn certificates_are_numbered_over_the_whole_life_of_a_store(rt: HostRuntime) {
    let mut disk = empty_disk(rt.alloc(), &rt);
    for (script, text) in RUNS {
        disk = certified_small(rt.alloc(), &rt, script, text, disk);
    }
}

/// A put that a range erases, over one that it replaced.
const REPLACED: &str =
    "1 put k 1 old\n1 put z 2 q\n1 del z\n1 tick 40\n1 put k 15 new\n1 erase 10 20\n1 get k\n1 tick 140\n1 get k\n";

const GONE: &str =
    "1 ok 1\n1 ok 2\n1 ok 3\n1 ok 4 clock 40\n1 ok 5\n1 ok 6\n1 at 6 none\n1 ok 7 clock 140 cert 1 before 40 sha256 H\n1 at 7 none\n";

fn is_of_a_file(object: &(Name, Vec<u8>)) -> bool {
    matches!(object.0.kind, Kind::File | Kind::Page)
}

/// Whether there is a header or a page of a file.
fn has_file(alloc: Global, rt: &impl Abort, disk: &mut MemDisk) -> bool {
    let objects = objects_on(alloc, rt, disk);
    objects.iter().any(|object| is_of_a_file(object))
}

#[test]
fn no_file_is_left_of_what_was_erased(rt: HostRuntime) {
    let alloc = rt.alloc();
    let mut disk = certified_small(alloc, &rt, REPLACED, GONE, empty_disk(alloc, &rt));
    assert!(rt; !has_file(alloc, &rt, &mut disk));
}

/// A script over the defaults: a retention in days, of which one is erased.
pub const RETENTION: &str =
    "# retention in days\n1 put user:17 20240 =7b7d\n1 put user:18 20241 alice\n1 tick 5\n1 erase 20240 20241\n1 scan user:0 user:9\n1 tick 1005\n";

const RETAINED: &str =
    "1 ok 1\n1 ok 2\n1 ok 3 clock 5\n1 ok 4\n1 at 4 scan 1 user:18 20241 alice\n1 ok 5 clock 1005 cert 1 before 5 sha256 H\n";

#[test]
fn a_day_that_was_erased_is_gone_a_threshold_later(rt: HostRuntime) {
    let disk = empty_disk(rt.alloc(), &rt);
    certified(rt.alloc(), &rt, &["run"], RETENTION, RETAINED, disk);
}
