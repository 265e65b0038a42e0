//! Scripts of several callers and phases.

use crate::common::{answered_small, empty_disk, run};
use crate::ticks::certified_small;
use lethe_memdisk::MemDisk;
use lethe_rows::SMALL_WORDS;
use std::alloc::Global;
use std::process::Abort;

/// Scripts, and what is printed of them, where H stands for the digest of the manifest that is there at the end.
const ROWS: [(&str, &str); 8] = [
    // A phase ends before the next begins, and its lines are printed caller by caller.
    (
        "1 put a 5 x\nphase\n2 get a\n1 get a\n",
        "1 ok 1\n1 at 1 val 5 x\n2 at 1 val 5 x\n",
    ),
    (
        "2 put a 5 x\nphase\n2 get a\n1 get a\n1 del a\n",
        "2 ok 1\n1 at 1 val 5 x\n1 ok 2\n2 at 2 none\n",
    ),
    // A slot is held over phases, and by its caller alone.
    (
        "1 put a 5 x\n1 pin 0\nphase\n2 del a\n2 tick 100\nphase\n1 pget 0 a\n1 unpin 0\nphase\n2 tick 100\n",
        "1 ok 1\n1 at 1 pin 1 limit 100\n2 ok 2\n2 pinned 1 limit 100\n1 pin 1 at 1 val 5 x\n1 at 2 unpin 1\n2 ok 3 clock 100 cert 1 before 0 sha256 H\n",
    ),
    (
        "1 pin 0\nphase\n1 put a 5 x\nphase\n2 pin 0\nphase\n2 pget 0 a\n1 pget 0 a\n",
        "1 at 0 pin 1 limit 100\n1 ok 1\n2 at 1 pin 2 limit 100\n1 pin 1 at 0 none\n2 pin 2 at 1 val 5 x\n",
    ),
    // A phase of one caller, which isn't the first one.
    (
        "1 put a 5 x\nphase\n8 get a\n8 put b 6 y\nphase\n1 get b\n",
        "1 ok 1\n8 at 1 val 5 x\n8 ok 2\n1 at 2 val 6 y\n",
    ),
    // Phases without lines.
    ("phase\n", ""),
    ("phase\n# none\n\n  phase  \r\nphase", ""),
    (
        "phase\nphase\n3 put a 5 x\nphase\nphase\n1 get a\nphase\n",
        "3 ok 1\n1 at 1 val 5 x\n",
    ),
];

#[test]
fn lines_are_printed_phase_by_phase_and_caller_by_caller(rt: HostRuntime) {
    for (script, text) in ROWS {
        certified_small(rt.alloc(), &rt, script, text, empty_disk(rt.alloc(), &rt));
    }
}

/// Two pins in a phase, and what may be printed of them: whichever caller comes first, the numbers are given once each.
const PINS: (&str, [&str; 2]) = (
    "2 pin 0\n1 pin 0\n",
    [
        "1 at 0 pin 1 limit 100\n2 at 0 pin 2 limit 100\n",
        "1 at 0 pin 2 limit 100\n2 at 0 pin 1 limit 100\n",
    ],
);

#[test]
fn each_pin_of_a_phase_has_a_number_of_its_own(rt: HostRuntime) {
    let (script, texts) = PINS;
    let disk = empty_disk(rt.alloc(), &rt);
    let printed = run(rt.alloc(), &rt, &SMALL_WORDS, script, disk).printed;
    assert!(rt; printed.status == 0);
    assert!(rt;
        texts
            .iter()
            .any(|text| printed.text.as_slice() == text.as_bytes())
    );
}

/// How many device calls it takes to open the store of an empty disk.
const OPENING: u64 = 12;

/// How many a put takes.
const PUT: u64 = 4;

/// Two callers of a phase, and one of another.
const FAILING: &str =
    "2 put b 6 y\n1 put a 5 x\n2 get a\n1 get b\n2 del a\n1 get a\nphase\n3 erase 5 6\n3 get a\n";

/// Behind how many device calls its disk fails, and what is printed then. The change that failed has its place.
const FAULTS: [(u64, &str); 4] = [
    (
        OPENING,
        "1 fault 1 before 0 after 1\n1 at 1 none\n1 at 1 none\n2 stopped 1\n2 at 1 none\n2 stopped 1\n3 stopped 1\n3 at 1 none\n",
    ),
    (
        OPENING + PUT,
        "1 ok 1\n1 at 1 none\n1 at 1 val 5 x\n2 fault 2 before 0 after 1\n2 at 2 val 5 x\n2 stopped 2\n3 stopped 2\n3 at 2 val 5 x\n",
    ),
    (
        OPENING + 2 * PUT,
        "1 ok 1\n1 at 1 none\n1 at 1 val 5 x\n2 ok 2\n2 at 2 val 5 x\n2 fault 3 before 0 after 1\n3 stopped 3\n3 at 3 val 5 x\n",
    ),
    (
        OPENING + 3 * PUT,
        "1 ok 1\n1 at 1 none\n1 at 1 val 5 x\n2 ok 2\n2 at 2 val 5 x\n2 ok 3\n3 fault 4 before 0 after 1\n3 at 4 none\n",
    ),
];

// An empty disk that is stopped behind so many calls.
fn stopped_disk(alloc: Global, rt: &impl Abort, calls: u64) -> MemDisk {
    let mut disk = empty_disk(alloc, rt);
    disk.fuse(calls);
    disk
}

#[test]
fn a_fault_of_one_caller_stops_the_changes_of_all(rt: HostRuntime) {
    for (calls, text) in FAULTS {
        let disk = stopped_disk(rt.alloc(), &rt, calls);
        answered_small(rt.alloc(), &rt, FAILING, disk, 6, text);
    }
}
