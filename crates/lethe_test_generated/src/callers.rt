//! Generated scripts of several callers and phases, and what a reader finds in their texts.

use lethe_generated::{CallersScript, first_wrong_line};
use lethe_images::roomy_disk;
use lethe_rows::{Printed, run_over};
use std::alloc::Global;
use std::process::Abort;
use std::str;
use std::test::Fail;

// What was made; the process ends where it wasn't.
fn must<T>(rt: &impl Abort, made: Result<T, Fail>) -> T {
    match made {
        Ok(value) => value,
        Err(_) => panic!(rt; "it isn't made"),
    }
}

/// The seeds of scripts that are run.
const SEEDS: [u64; 3] = [1, 2, 3];

fn printed_of(alloc: Global, rt: &impl Abort, made: &CallersScript) -> Printed {
    let disk = must(rt, roomy_disk(alloc));
    let script = made.script.as_bytes();
    must(rt, run_over(alloc, &made.words, script, &[], &[], disk)).printed
}

fn check_seed(alloc: Global, rt: &impl Abort, seed: u64) {
    let made = must(rt, CallersScript::of(alloc, seed));
    let printed = printed_of(alloc, rt, &made);
    let text = str::from_utf8(&printed.text).expect(rt, "a text");
    let (status, script) = (printed.status, made.script.as_str());
    let wrong = first_wrong_line(alloc, script, text).expect(rt, "memory");
    assert!(rt;
        status == 0 && wrong.is_none(),
        "seed {seed}, status {status}, line {wrong:?}: {text}"
    );
}

#[test]
fn a_reader_finds_nothing_wrong_in_scripts_of_several_callers(rt: HostRuntime) {
    for seed in SEEDS {
        check_seed(rt.alloc(), &rt, seed);
    }
}
