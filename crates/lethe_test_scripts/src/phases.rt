//! When the text of a phase is printed.

use crate::common::{check_printed, empty_disk};
use crate::counting::{Calls, CountingDisk, NotingSink};
use lethe_memdisk::MemDisk;
use lethe_rows::{Printed, SMALL_WORDS};
use lethe_run::run;
use lethe_wire::{MemSink, MemSource};
use std::alloc::Global;
use std::process::Abort;

/// A put of each of two callers.
const BOTH: &str = "2 put b 1 v\n1 put a 1 v\n";

/// The first put of the script.
const FIRST: &str = "1 put a 1 v\n";

/// Nine changes, of which the fifth freezes a buffer and the ninth makes a file of it. The reads find the file, the active buffer and the frozen one.
const SCRIPT: &str =
    "1 put a 1 v\n1 put b 1 v\n1 put c 1 v\n1 put d 1 v\n1 put e 1 v\n1 put f 1 v\n1 put g 1 v\n1 put h 1 v\n1 del b\n1 get a\n1 get b\n1 get e\n1 stat\n";

/// What is printed of them.
const TEXT: &str =
    "1 ok 1\n1 ok 2\n1 ok 3\n1 ok 4\n1 ok 5\n1 ok 6\n1 ok 7\n1 ok 8\n1 ok 9\n1 at 9 val 1 v\n1 at 9 none\n1 at 9 val 1 v\n1 at 9 stat clock 0 pins 0 pending 0 files 1 tombs 0\n";

// How many device calls there were at the first write, where there was one, and at the end of the run.
#[derive(Clone, Copy)]
struct Counts {
    first_write: Option<u64>,
    end: u64,
}

fn words_of(alloc: Global, rt: &impl Abort) -> Vec<String> {
    let mut words = Vec::new(alloc);
    for word in SMALL_WORDS {
        let word = String::from_str(alloc, word).expect(rt, "memory");
        words.push(word).expect(rt, "memory");
    }
    words
}

// An empty disk, which raises the count.
fn counting_disk(alloc: Global, rt: &impl Abort, calls: &Calls) -> CountingDisk<MemDisk> {
    CountingDisk::new(empty_disk(alloc, rt), calls.share().expect(rt, "memory"))
}

// A sink that notes the count.
fn noting_sink(alloc: Global, rt: &impl Abort, calls: &Calls) -> NotingSink {
    let sink = MemSink::new(alloc, Vec::new(alloc)).expect(rt, "memory");
    NotingSink::new(sink, calls.share().expect(rt, "memory"))
}

fn source_of(alloc: Global, rt: &impl Abort, script: &str) -> MemSource {
    let bytes = script.as_bytes().to_vec(alloc).expect(rt, "memory");
    MemSource::new(bytes, Vec::new(alloc))
}

// Runs a script with the small configuration over an empty disk, and tells what was printed, and how many calls there were at the first write.
fn run_counted(
    alloc: Global,
    rt: &impl Abort,
    script: &str,
    calls: &Calls,
) -> (Printed, Option<u64>) {
    let mut source = source_of(alloc, rt, script);
    let mut sink = noting_sink(alloc, rt, calls);
    let disk = counting_disk(alloc, rt, calls);
    let ended = run(alloc, &words_of(alloc, rt), &mut source, &mut sink, disk);
    let text = sink.bytes().to_vec(alloc).expect(rt, "memory");
    let status = ended.status;
    (Printed { status, text }, sink.first())
}

// The same, where it is answered, and prints this.
fn counts_of(alloc: Global, rt: &impl Abort, script: &str, text: &str) -> Counts {
    let calls = Calls::none(alloc).expect(rt, "memory");
    let (printed, first_write) = run_counted(alloc, rt, script, &calls);
    check_printed(rt, &printed, 0, text);
    Counts {
        first_write,
        end: calls.count(),
    }
}

#[test]
fn a_phase_is_printed_behind_its_last_device_call(rt: HostRuntime) {
    let first = counts_of(rt.alloc(), &rt, FIRST, "1 ok 1\n");
    let both = counts_of(rt.alloc(), &rt, BOTH, "1 ok 1\n2 ok 2\n");
    let all = counts_of(rt.alloc(), &rt, SCRIPT, TEXT);
    assert!(rt; first.first_write == Some(first.end));
    assert!(rt; both.first_write == Some(both.end));
    assert!(rt; all.first_write == Some(all.end));
    // What follows the first put takes calls, so a line written before that would have found fewer.
    assert!(rt; first.end < both.end && first.end < all.end);
}
