//! Pins in slots, and what they show.

use crate::common::{answered_small, empty_disk};
use std::alloc::Global;
use std::process::Abort;

/// Scripts, and what is printed of them over an empty disk.
const ROWS: [(&str, &str); 8] = [
    // A slot shows its own point, whatever comes behind it.
    (
        "1 pin 0\n1 put a 5 x\n1 pget 0 a\n1 get a\n",
        "1 at 0 pin 1 limit 100\n1 ok 1\n1 pin 1 at 0 none\n1 at 1 val 5 x\n",
    ),
    (
        "1 put a 5 x\n1 put b 6 y\n1 pin 3\n1 del a\n1 put b 7 z\n1 erase 6 8\n1 pscan 3 a z\n1 scan a z\n1 pget 3 b\n",
        "1 ok 1\n1 ok 2\n1 at 2 pin 1 limit 100\n1 ok 3\n1 ok 4\n1 ok 5\n1 pin 1 at 2 scan 2 a 5 x b 6 y\n1 at 5 scan 0\n1 pin 1 at 2 val 6 y\n",
    ),
    // Two slots at two points, in the order of their numbers.
    (
        "1 put a 1 p\n1 pin 9\n1 put a 2 q\n1 pin 0\n1 put a 3 r\n1 pget 9 a\n1 pget 0 a\n1 get a\n",
        "1 ok 1\n1 at 1 pin 1 limit 100\n1 ok 2\n1 at 2 pin 2 limit 100\n1 ok 3\n1 pin 1 at 1 val 1 p\n1 pin 2 at 2 val 2 q\n1 at 3 val 3 r\n",
    ),
    // A number never comes again, and a slot does.
    (
        "1 pin 0\n1 unpin 0\n1 put a 1 p\n1 pin 0\n1 pget 0 a\n1 unpin 0\n",
        "1 at 0 pin 1 limit 100\n1 at 0 unpin 1\n1 ok 1\n1 at 1 pin 2 limit 100\n1 pin 2 at 1 val 1 p\n1 at 1 unpin 2\n",
    ),
    // The store as a whole tells how many are held.
    (
        "1 pin 0\n1 pin 1\n1 stat\n1 unpin 0\n1 stat\n",
        "1 at 0 pin 1 limit 100\n1 at 0 pin 2 limit 100\n1 at 0 stat clock 0 pins 2 pending 0 files 0 tombs 0\n1 at 0 unpin 1\n1 at 0 stat clock 0 pins 1 pending 0 files 0 tombs 0\n",
    ),
    // The first of the least limit bars a tick, one below it passes, and so does one behind its unpin.
    (
        "1 pin 4\n1 tick 50\n1 pin 2\n1 tick 100\n1 unpin 4\n1 tick 99\n1 tick 60\n",
        "1 at 0 pin 1 limit 100\n1 ok 1 clock 50\n1 at 1 pin 2 limit 150\n1 pinned 1 limit 100\n1 at 1 unpin 1\n1 ok 2 clock 99\n1 backwards 99\n",
    ),
    // What is held in files stays where merges replace them.
    (
        "1 put a 1 p\n1 put b 1 p\n1 put c 1 p\n1 put d 1 p\n1 put e 1 p\n1 pin 0\n1 del a\n1 del b\n1 del c\n1 del d\n1 del e\n1 put f 1 p\n1 put g 1 p\n1 put h 1 p\n1 put i 1 p\n1 put j 1 p\n1 pscan 0 a z\n1 scan a f\n",
        "1 ok 1\n1 ok 2\n1 ok 3\n1 ok 4\n1 ok 5\n1 at 5 pin 1 limit 100\n1 ok 6\n1 ok 7\n1 ok 8\n1 ok 9\n1 ok 10\n1 ok 11\n1 ok 12\n1 ok 13\n1 ok 14\n1 ok 15\n1 pin 1 at 5 scan 5 a 1 p b 1 p c 1 p d 1 p e 1 p\n1 at 15 scan 0\n",
    ),
    // Empty values and other bytes are printed as everywhere.
    (
        "1 put =20 1 =\n1 pin 7\n1 pget 7 =20\n1 pscan 7 =00 =ff\n",
        "1 ok 1\n1 at 1 pin 1 limit 100\n1 pin 1 at 1 val 1 =\n1 pin 1 at 1 scan 1 =20 1 =\n",
    ),
];

// However the run ends, the disk is handed back as one that nothing was pinned on.
fn check_shown(alloc: Global, rt: &impl Abort, script: &str, text: &str) {
    let disk = answered_small(alloc, rt, script, empty_disk(alloc, rt), 0, text);
    answered_small(alloc, rt, "1 pget 0 a\n", disk, 3, "line 1 bad slot\n");
}

#[test]
fn slots_show_the_store_at_their_points(rt: HostRuntime) {
    for (script, text) in ROWS {
        check_shown(rt.alloc(), &rt, script, text);
    }
}

/// Scripts of which nothing is run, and what is said of them.
const BAD: [(&str, &str); 6] = [
    ("1 pget 0 a\n", "line 1 bad slot\n"),
    ("1 pin 0\n1 pin 0\n", "line 2 bad slot\n"),
    ("1 pin 0\n1 unpin 0\n1 unpin 0\n", "line 3 bad slot\n"),
    ("1 put a 1 x\n1 pscan 5 a b\n", "line 2 bad slot\n"),
    ("1 pin 10\n", "line 1 bad slot\n"),
    ("1 pget x =\n", "line 1 bad slot\n"),
];

fn check_bad(alloc: Global, rt: &impl Abort, script: &str, text: &str) {
    let disk = answered_small(alloc, rt, script, empty_disk(alloc, rt), 3, text);
    answered_small(alloc, rt, "1 get a\n", disk, 0, "1 at 0 none\n");
}

#[test]
fn slots_that_are_not_as_needed_are_refused(rt: HostRuntime) {
    for (script, text) in BAD {
        check_bad(rt.alloc(), &rt, script, text);
    }
}
