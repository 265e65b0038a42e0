//! What a reader finds in texts that a script of several callers might print.

use lethe_generated::first_wrong_line;

/// Two callers of one phase.
const TWO: &str = "1 put a 5 x\n2 put b 6 y\n1 get a\n2 scan a c\n";

/// A change in each of two phases.
const PHASES: &str = "2 put a 5 x\nphase\n2 get a\n1 del a\n";

/// Two callers, each with a pin.
const SLOTS: &str =
    "1 pin 0\nphase\n2 erase 7 8\n2 put a 5 x\n2 pin 0\nphase\n1 pget 0 a\n2 pscan 0 a b\n1 unpin 0\n";

/// Ticks to the limit of a pin and beyond.
const TICKS: &str =
    "1 pin 0\n1 tick 99\n1 tick 100\nphase\n1 unpin 0\n2 tick 100\nphase\n1 tick 7\n2 stat\n";

/// Scripts, what might be printed of them, and the first line that is wrong.
const ROWS: [(&str, &str, Option<usize>); 36] = [
    (
        TWO,
        "1 ok 1\n1 at 1 val 5 x\n2 ok 2\n2 at 2 scan 2 a 5 x b 6 y\n",
        None,
    ),
    // The second caller comes first.
    (
        TWO,
        "1 ok 2\n1 at 2 val 5 x\n2 ok 1\n2 at 1 scan 1 b 6 y\n",
        None,
    ),
    (
        TWO,
        "1 ok 2\n1 at 2 val 5 x\n2 ok 1\n2 at 2 scan 2 a 5 x b 6 y\n",
        None,
    ),
    // A place twice, and one that isn't there.
    (
        TWO,
        "1 ok 1\n1 at 1 val 5 x\n2 ok 1\n2 at 1 scan 1 b 6 y\n",
        Some(3),
    ),
    (
        TWO,
        "1 ok 3\n1 at 3 val 5 x\n2 ok 1\n2 at 1 scan 1 b 6 y\n",
        Some(1),
    ),
    // A read that doesn't see its caller's change, and one that sees more than there is.
    (
        TWO,
        "1 ok 2\n1 at 1 none\n2 ok 1\n2 at 1 scan 1 b 6 y\n",
        Some(2),
    ),
    (
        TWO,
        "1 ok 1\n1 at 1 val 5 x\n2 ok 2\n2 at 3 scan 2 a 5 x b 6 y\n",
        Some(4),
    ),
    // The lines in the order of the script.
    (
        TWO,
        "1 ok 1\n2 ok 2\n1 at 1 val 5 x\n2 at 2 scan 2 a 5 x b 6 y\n",
        Some(2),
    ),
    // What isn't there, and what isn't all.
    (
        TWO,
        "1 ok 1\n1 at 1 val 5 y\n2 ok 2\n2 at 2 scan 2 a 5 x b 6 y\n",
        Some(2),
    ),
    (
        TWO,
        "1 ok 1\n1 at 2 none\n2 ok 2\n2 at 2 scan 2 a 5 x b 6 y\n",
        Some(2),
    ),
    (
        TWO,
        "1 ok 1\n1 at 1 val 5 x\n2 ok 2\n2 at 2 scan 1 b 6 y\n",
        Some(4),
    ),
    (
        TWO,
        "1 ok 1\n1 at 1 val 5 x\n2 ok 2\n2 at 2 scan 2 b 6 y a 5 x\n",
        Some(4),
    ),
    // A line is missing, and one is too many.
    (TWO, "1 ok 1\n1 at 1 val 5 x\n2 ok 2\n", Some(4)),
    (
        TWO,
        "1 ok 1\n1 at 1 val 5 x\n2 ok 2\n2 at 2 scan 2 a 5 x b 6 y\n2 at 2 none\n",
        Some(5),
    ),
    (PHASES, "2 ok 1\n1 ok 2\n2 at 1 val 5 x\n", None),
    (PHASES, "2 ok 1\n1 ok 2\n2 at 2 none\n", None),
    // The change of the second phase is made in the first.
    (PHASES, "2 ok 2\n1 ok 1\n2 at 2 val 5 x\n", Some(1)),
    // What the first phase made isn't seen.
    (PHASES, "2 ok 1\n1 ok 2\n2 at 0 none\n", Some(3)),
    (
        SLOTS,
        "1 at 0 pin 1 limit 100\n2 ok 1\n2 ok 2\n2 at 2 pin 2 limit 100\n1 pin 1 at 0 none\n1 at 2 unpin 1\n2 pin 2 at 2 scan 1 a 5 x\n",
        None,
    ),
    // A limit later than the threshold.
    (
        SLOTS,
        "1 at 0 pin 1 limit 101\n2 ok 1\n2 ok 2\n2 at 2 pin 2 limit 100\n1 pin 1 at 0 none\n1 at 2 unpin 1\n2 pin 2 at 2 scan 1 a 5 x\n",
        Some(1),
    ),
    // Numbers in another order, and a number twice.
    (
        SLOTS,
        "1 at 0 pin 2 limit 100\n2 ok 1\n2 ok 2\n2 at 2 pin 1 limit 100\n1 pin 2 at 0 none\n1 at 2 unpin 2\n2 pin 1 at 2 scan 1 a 5 x\n",
        Some(1),
    ),
    (
        SLOTS,
        "1 at 0 pin 1 limit 100\n2 ok 1\n2 ok 2\n2 at 2 pin 1 limit 100\n1 pin 1 at 0 none\n1 at 2 unpin 1\n2 pin 1 at 2 scan 1 a 5 x\n",
        Some(4),
    ),
    // What the other caller's slot holds, and what no slot holds.
    (
        SLOTS,
        "1 at 0 pin 1 limit 100\n2 ok 1\n2 ok 2\n2 at 2 pin 2 limit 100\n1 pin 2 at 2 val 5 x\n1 at 2 unpin 1\n2 pin 2 at 2 scan 1 a 5 x\n",
        Some(5),
    ),
    (
        SLOTS,
        "1 at 0 pin 1 limit 100\n2 ok 1\n2 ok 2\n2 at 2 pin 2 limit 100\n1 pin 1 at 2 val 5 x\n1 at 2 unpin 1\n2 pin 2 at 2 scan 1 a 5 x\n",
        Some(5),
    ),
    (
        SLOTS,
        "1 at 0 pin 1 limit 100\n2 ok 1\n2 ok 2\n2 at 2 pin 2 limit 100\n1 pin 1 at 0 none\n1 at 2 unpin 2\n2 pin 2 at 2 scan 1 a 5 x\n",
        Some(6),
    ),
    (
        SLOTS,
        "1 at 0 pin 1 limit 100\n2 ok 1\n2 ok 2\n2 at 2 pin 2 limit 100\n1 pin 1 at 0 none\n1 at 2 unpin 1\n2 pin 2 at 2 scan 0\n",
        Some(7),
    ),
    (
        TICKS,
        "1 at 0 pin 1 limit 100\n1 ok 1 clock 99\n1 pinned 1 limit 100\n1 at 1 unpin 1\n2 ok 2 clock 100 cert 1 before 0 sha256 00000000000000000000000000000000000000000000000000000000000000af\n1 backwards 100\n2 at 2 stat clock 100 pins 0 pending 0 files 0 tombs 0\n",
        None,
    ),
    (
        TICKS,
        "1 at 0 pin 1 limit 100\n1 ok 1 clock 99\n1 pinned 1 limit 100\n1 at 1 unpin 1\n2 pinned 1 limit 100\n1 backwards 99\n2 at 1 stat clock 99 pins 0 pending 0 files 0 tombs 0\n",
        None,
    ),
    // A tick past the limit of a pin that is held.
    (
        TICKS,
        "1 at 0 pin 1 limit 100\n1 ok 1 clock 99\n1 ok 2 clock 100 cert 1 before 0 sha256 00000000000000000000000000000000000000000000000000000000000000af\n1 at 2 unpin 1\n2 ok 3 clock 100 cert 2 before 0 sha256 00000000000000000000000000000000000000000000000000000000000000af\n1 backwards 100\n2 at 3 stat clock 100 pins 0 pending 0 files 0 tombs 0\n",
        Some(3),
    ),
    // A pin and a clock that there wasn't.
    (
        TICKS,
        "1 at 0 pin 1 limit 100\n1 ok 1 clock 99\n1 pinned 2 limit 100\n1 at 1 unpin 1\n2 pinned 1 limit 100\n1 backwards 99\n2 at 1 stat clock 99 pins 0 pending 0 files 0 tombs 0\n",
        Some(3),
    ),
    (
        TICKS,
        "1 at 0 pin 1 limit 100\n1 ok 1 clock 99\n1 pinned 1 limit 100\n1 at 1 unpin 1\n2 pinned 1 limit 100\n1 backwards 98\n2 at 1 stat clock 99 pins 0 pending 0 files 0 tombs 0\n",
        Some(6),
    ),
    (
        TICKS,
        "1 at 0 pin 1 limit 100\n1 ok 1 clock 99\n1 pinned 1 limit 100\n1 at 1 unpin 1\n2 pinned 1 limit 100\n1 backwards 99\n2 at 1 stat clock 98 pins 0 pending 0 files 0 tombs 0\n",
        Some(7),
    ),
    // Another certificate, and none where one is due.
    (
        TICKS,
        "1 at 0 pin 1 limit 100\n1 ok 1 clock 99\n1 pinned 1 limit 100\n1 at 1 unpin 1\n2 ok 2 clock 100 cert 2 before 0 sha256 00000000000000000000000000000000000000000000000000000000000000af\n1 backwards 100\n2 at 2 stat clock 100 pins 0 pending 0 files 0 tombs 0\n",
        Some(5),
    ),
    (
        TICKS,
        "1 at 0 pin 1 limit 100\n1 ok 1 clock 99\n1 pinned 1 limit 100\n1 at 1 unpin 1\n2 ok 2 clock 100 cert 1 before 1 sha256 00000000000000000000000000000000000000000000000000000000000000af\n1 backwards 100\n2 at 2 stat clock 100 pins 0 pending 0 files 0 tombs 0\n",
        Some(5),
    ),
    (
        TICKS,
        "1 at 0 pin 1 limit 100\n1 ok 1 clock 99\n1 pinned 1 limit 100\n1 at 1 unpin 1\n2 ok 2 clock 100 cert 1 before 0 sha256 00000000000000000000000000000000000000000000000000000000000000a\n1 backwards 100\n2 at 2 stat clock 100 pins 0 pending 0 files 0 tombs 0\n",
        Some(5),
    ),
    (
        TICKS,
        "1 at 0 pin 1 limit 100\n1 ok 1 clock 99\n1 pinned 1 limit 100\n1 at 1 unpin 1\n2 ok 2 clock 100\n1 backwards 100\n2 at 2 stat clock 100 pins 0 pending 0 files 0 tombs 0\n",
        Some(5),
    ),
];

#[test]
fn a_reader_finds_the_first_line_that_is_wrong(rt: HostRuntime) {
    for (script, printed, wrong) in ROWS {
        let found = first_wrong_line(rt.alloc(), script, printed).expect(&rt, "memory");
        assert!(rt; found == wrong, "{found:?} in {printed}");
    }
}
