//! Sources and sinks that fail.

use crate::common::{check_printed, many, must, printed_of};
use lethe_rows::{bytes_of, repeated};
use std::alloc::Global;
use std::process::Abort;

// A word and a script, the reads and the writes that fail, the status, and what is written.
struct Row {
    word: &'static str,
    script: &'static [u8],
    failing_reads: &'static [u64],
    failing_writes: &'static [u64],
    status: u8,
    text: &'static str,
}

const ROWS: [Row; 6] = [
    Row {
        word: "run",
        script: b"1 put a 5 x\n",
        failing_reads: &[1],
        failing_writes: &[],
        status: 4,
        text: "",
    },
    Row {
        word: "run",
        script: b"1 put a 5 x\n",
        failing_reads: &[2],
        failing_writes: &[],
        status: 4,
        text: "",
    },
    Row {
        word: "run",
        script: b"1 put a 5 x\n",
        failing_reads: &[3],
        failing_writes: &[],
        status: 0,
        text: "1 ok 1\n",
    },
    Row {
        word: "run",
        script: b"1 put a 5 x\n",
        failing_reads: &[],
        failing_writes: &[1],
        status: 5,
        text: "",
    },
    Row {
        word: "run",
        script: b"1 frob\n",
        failing_reads: &[],
        failing_writes: &[1],
        status: 5,
        text: "",
    },
    Row {
        word: "frob",
        script: b"1 put a 5 x\n",
        failing_reads: &[],
        failing_writes: &[1],
        status: 5,
        text: "",
    },
];

fn check_row(alloc: Global, rt: &impl Abort, row: &Row) {
    let (reads, writes) = (row.failing_reads, row.failing_writes);
    let printed = printed_of(alloc, rt, &[row.word], row.script, reads, writes);
    check_printed(rt, &printed, row.status, row.text);
}

#[test]
fn faults_have_their_status(rt: HostRuntime) {
    for row in &ROWS {
        check_row(rt.alloc(), &rt, row);
    }
}

// A put of a long value, and many gets of it.
fn long_script(alloc: Global, rt: &impl Abort) -> Vec<u8> {
    let value = many(alloc, rt, b'v', 4096);
    let gets = must(rt, repeated(alloc, b"1 get a\n", 300));
    must(rt, bytes_of(alloc, &[b"1 put a 1 ", &value, b"\n", &gets]))
}

#[test]
fn a_full_sink_has_taken_a_front_of_the_text(rt: HostRuntime) {
    let script = long_script(rt.alloc(), &rt);
    let printed = printed_of(rt.alloc(), &rt, &["run"], &script, &[], &[]);
    assert!(rt; printed.status == 5 && printed.text.len() == 1 << 20);
    assert!(rt; printed.text.starts_with(b"1 ok 1\n1 at 1 val 1 vvv"));
}
