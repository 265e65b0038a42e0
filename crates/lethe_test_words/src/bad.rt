//! Words of no command.

use crate::common::{read, read_line};

/// A line of words in each row, between single spaces: none is a command.
const BAD: [&str; 63] = [
    "",
    "-",
    "--",
    "help",
    "RUN",
    "run ",
    " run",
    "ru",
    "runs",
    "audit",
    "--ratio 4 run",
    "-- run",
    "run run",
    "run load 1 2",
    "run help",
    "run --help",
    "run -h",
    "run --version",
    "run -V",
    "run -",
    "run --",
    "run -- --ratio 4",
    "run --ratio 4 --",
    "run --ratio 4 5",
    "run 4",
    "run --ratio",
    "run --ratio=",
    "run --ratio ",
    "run --ratio --ratio 4",
    "run --ratio -1",
    "run --ratio=-1",
    "run --ratio +4",
    "run --ratio=04",
    "run --ratio=4=5",
    "run --ratio 1",
    "run --ratio 17",
    "run --rat 4",
    "run --RATIO 4",
    "run -ratio 4",
    "run ---ratio 4",
    "run --=4",
    "run --ratio 4 --ratio 4",
    "run --ratio=4 --ratio 4",
    "run --pick=so --pick sd",
    "run --pick s",
    "run --pick=",
    "run --page 4",
    "run --workers 5",
    "run --workers=-0",
    "run --turns 0",
    "run --turns 1000001",
    "run --certs xml",
    "run --certs",
    "run --SEED 4",
    "run --N=4",
    "load",
    "load 1",
    "load 1 100001",
    "load 01 5",
    "load 18446744073709551616 1",
    "load 1 2 3",
    "load --ratio 4 1 2",
    "load 1 --ratio 4 2",
];

#[test]
fn words_of_no_command_ask_for_nothing(rt: HostRuntime) {
    for line in BAD {
        let asked = read_line(rt.alloc(), &rt, line);
        assert!(rt; asked.is_none(), "{line}");
    }
}

#[test]
fn no_word_asks_for_nothing(rt: HostRuntime) {
    assert!(rt; read(rt.alloc(), &rt, &[]).is_none());
}

#[test]
fn a_word_of_a_megabyte_asks_for_nothing(rt: HostRuntime) {
    let long = "x".repeat(rt.alloc(), 1 << 20).expect(&rt, "memory");
    assert!(rt; read(rt.alloc(), &rt, &[&long]).is_none());
    assert!(rt; read(rt.alloc(), &rt, &["run", &long]).is_none());
    assert!(rt; read(rt.alloc(), &rt, &["run", "--ratio", &long]).is_none());
    assert!(rt; read(rt.alloc(), &rt, &["load", &long, "1"]).is_none());
}
