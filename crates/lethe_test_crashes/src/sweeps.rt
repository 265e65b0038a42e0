//! Scripts that sweep files in a tick and to make room, stopped and crashed at each device call.

use crate::common::{must, run, stopped_disk};
use lethe_images::{IMAGES, image_of, objects_of, take_calls};
use lethe_memdisk::MemDisk;
use lethe_rows::{Left, SMALL_WORDS, done_lines};
use std::alloc::Global;
use std::process::Abort;

/// A script: puts of the keys from `a` on, the first with the delete key 5 and the value `Elm`, the others with the delete key 1 and the value `x`; then an erase of the delete
/// key 5, then more such puts, and then a tick.
struct Script {
    /// How many records a buffer has.
    buffer: &'static str,
    text: &'static str,
    /// How many puts come before the erase, and how many behind it.
    before: usize,
    behind: usize,
    /// From so many changes on no object has the value that is erased.
    clean: usize,
    /// How many device calls it takes at least.
    calls: u64,
}

/// Nine puts, of which the first four come into a file, an erase of one of these, and the tick a threshold later, which sweeps the file.
const TICKING: Script = Script {
    buffer: "4",
    text: "1 put a 5 Elm\n1 put b 1 x\n1 put c 1 x\n1 put d 1 x\n1 put e 1 x\n1 put f 1 x\n1 put g 1 x\n1 put h 1 x\n1 put i 1 x\n1 erase 5 6\n1 tick 100\n",
    before: 9,
    behind: 0,
    clean: 11,
    calls: 80,
};

/// The last put makes room: the fourth file of two puts is flushed, with which level 0 is crowded. The other three were flushed before the erase: they are swept, and then all four
/// are merged.
const CROWDED: Script = Script {
    buffer: "2",
    text: "1 put a 5 Elm\n1 put b 1 x\n1 put c 1 x\n1 put d 1 x\n1 put e 1 x\n1 put f 1 x\n1 put g 1 x\n1 put h 1 x\n1 put i 1 x\n1 erase 5 6\n1 put j 1 x\n1 tick 100\n",
    before: 9,
    behind: 1,
    clean: 11,
    calls: 120,
};

/// The keys of the puts.
const KEYS: [&str; 10] = ["a", "b", "c", "d", "e", "f", "g", "h", "i", "j"];

impl Script {
    /// Runs some lines of a script with its configuration. Nothing of the source and the sink fails.
    fn run(&self, alloc: Global, rt: &impl Abort, lines: &str, disk: MemDisk) -> Left {
        let mut words = SMALL_WORDS;
        words[12] = self.buffer;
        run(alloc, rt, &words, lines, disk)
    }

    /// How many puts are among the first changes.
    fn puts(&self, changes: usize) -> usize {
        if changes <= self.before {
            changes
        } else {
            let behind = changes.saturating_sub(self.before).saturating_sub(1);
            self.before.saturating_add(behind.min(self.behind))
        }
    }

    /// Whether the first put is there behind so many changes.
    fn has_first(&self, changes: usize) -> bool {
        0 < changes && changes <= self.before
    }

    /// How many pairs a scan has behind so many changes.
    fn count(&self, changes: usize) -> usize {
        let others = self.puts(changes).saturating_sub(1);
        others.saturating_add(usize::from(self.has_first(changes)))
    }

    /// What a scan prints of the pairs behind so many changes.
    fn pairs(&self, alloc: Global, rt: &impl Abort, changes: usize) -> String {
        let first = if self.has_first(changes) {
            " a 5 Elm"
        } else {
            ""
        };
        let mut pairs = String::from_str(alloc, first).expect(rt, "memory");
        for key in KEYS.iter().take(self.puts(changes)).skip(1) {
            write!(pairs, " {key} 1 x").expect(rt, "memory");
        }
        pairs
    }

    /// What a scan prints behind so many changes.
    fn scanned(&self, alloc: Global, rt: &impl Abort, changes: usize) -> String {
        let (count, pairs) = (self.count(changes), self.pairs(alloc, rt, changes));
        let line = format!(in alloc; "1 at {changes} scan {count}{pairs}\n");
        line.expect(rt, "memory")
    }
}

/// The value that is erased.
const ERASED: &[u8] = b"Elm";

fn has_value(bytes: &[u8]) -> bool {
    bytes.windows(ERASED.len()).any(|window| window == ERASED)
}

// Whether an object has the value that is erased.
fn has_erased(alloc: Global, rt: &impl Abort, disk: &mut MemDisk) -> bool {
    let objects = must(rt, objects_of(alloc, disk));
    objects.iter().any(|object| has_value(&object.1))
}

// How many changes were made where a scan prints that: so many, or one more.
fn changes_of(alloc: Global, rt: &impl Abort, script: &Script, done: usize, text: &[u8]) -> usize {
    for changes in [done, done.saturating_add(1)] {
        if text == script.scanned(alloc, rt, changes).as_bytes() {
            return changes;
        }
    }
    panic!(rt; "other changes")
}

// The store of a disk has to have so many changes, or one more, and no value that was swept.
fn check_kept(alloc: Global, rt: &impl Abort, script: &Script, disk: MemDisk, done: usize) {
    let Left { printed, mut disk } = script.run(alloc, rt, "1 scan a z\n", disk);
    let changes = changes_of(alloc, rt, script, done, &printed.text);
    assert!(rt; changes < script.clean || !has_erased(alloc, rt, &mut disk));
}

// The same of the disks that a crash may leave of this, behind so many of its calls, and of the disk itself.
fn check_all_kept(
    alloc: Global,
    rt: &impl Abort,
    script: &Script,
    mut disk: MemDisk,
    calls: u64,
    done: usize,
) {
    disk.fuse(20_000);
    must(rt, take_calls(alloc, &mut disk, calls));
    for image in IMAGES {
        check_kept(
            alloc,
            rt,
            script,
            must(rt, image_of(&disk, calls, image)),
            done,
        );
    }
    check_kept(alloc, rt, script, disk, done);
}

// Stops the script behind so many device calls. Whether it wasn't done by then.
fn is_stopped(alloc: Global, rt: &impl Abort, script: &Script, calls: u64) -> bool {
    let disk = stopped_disk(alloc, rt, calls);
    let Left { printed, disk } = script.run(alloc, rt, script.text, disk);
    let done = done_lines(&printed.text);
    check_all_kept(alloc, rt, script, disk, calls, done);
    printed.status != 0
}

// Stops it behind each number of device calls that it takes, and counts these.
fn stop_at_each(alloc: Global, rt: &impl Abort, script: &Script) -> u64 {
    for calls in 0..600 {
        if !is_stopped(alloc, rt, script, calls) {
            return calls;
        }
    }
    panic!(rt; "too many calls")
}

// The script has to take more device calls than that, whichever it is stopped behind.
fn check_stopped(alloc: Global, rt: &impl Abort, script: &Script) {
    assert!(rt; stop_at_each(alloc, rt, script) > script.calls);
}

#[test]
fn a_tick_that_sweeps_is_stopped_at_each_call(rt: HostRuntime) {
    check_stopped(rt.alloc(), &rt, &TICKING);
}

#[test]
fn room_that_is_made_by_sweeps_is_stopped_at_each_call(rt: HostRuntime) {
    check_stopped(rt.alloc(), &rt, &CROWDED);
}
