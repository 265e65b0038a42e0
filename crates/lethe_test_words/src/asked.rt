//! What the words of commands ask for.

use crate::common::{Asked, plain, read_line};
use lethe_base::{Fields, Pick};
use lethe_test_values::SMALL;
use lethe_words::{Certs, Command};

/// `run` with these fields.
fn with_fields(fields: Fields) -> Asked {
    Asked { fields, ..plain() }
}

/// `load` with nothing else.
fn load(seed: u64, rounds: u64) -> Asked {
    Asked {
        command: Command::Load { seed, rounds },
        ..plain()
    }
}

#[test]
fn what_is_not_given_has_its_default(rt: HostRuntime) {
    let asked = read_line(rt.alloc(), &rt, "run");
    assert!(rt; asked == Some(plain()));
    let loaded = read_line(rt.alloc(), &rt, "load 7 20000");
    assert!(rt; loaded == Some(load(7, 20_000)));
}

#[test]
fn seeds_and_rounds_have_their_limits(rt: HostRuntime) {
    let least = read_line(rt.alloc(), &rt, "load 0 0");
    assert!(rt; least == Some(load(0, 0)));
    let greatest = read_line(rt.alloc(), &rt, "load 18446744073709551615 100000");
    assert!(rt; greatest == Some(load(u64::MAX, 100_000)));
}

#[test]
fn options_stand_in_one_word_or_in_two(rt: HostRuntime) {
    let line =
        "run --threshold=100 --ratio 2 --levels=2 --page 2 --tile=2 --file 2 --buffer=4 --certs json";
    let asked = read_line(rt.alloc(), &rt, line);
    let wanted = Asked {
        certs: Certs::Json,
        ..with_fields(SMALL)
    };
    assert!(rt; asked == Some(wanted));
}

#[test]
fn options_stand_in_any_order(rt: HostRuntime) {
    let line = "load 3 4 --turns=1 --certs=text --workers 4 --pick sd";
    let asked = read_line(rt.alloc(), &rt, line);
    let wanted = Asked {
        fields: Fields {
            pick: Pick::Sd,
            ..Fields::default()
        },
        workers: 4,
        turns: 1,
        ..load(3, 4)
    };
    assert!(rt; asked == Some(wanted));
}

#[test]
fn workers_and_turns_have_their_limits(rt: HostRuntime) {
    let asked = read_line(rt.alloc(), &rt, "run --workers 0 --turns 1000000");
    let wanted = Asked {
        turns: 1_000_000,
        ..plain()
    };
    assert!(rt; asked == Some(wanted));
}

/// A line of words in each row, and the fields that it asks for.
fn fields_asked() -> [(&'static str, Fields); 8] {
    let default = Fields::default();
    [
        (
            "run --threshold 1099511627776",
            Fields {
                threshold: 1 << 40,
                ..default
            },
        ),
        (
            "run --ratio=16",
            Fields {
                ratio: 16,
                ..default
            },
        ),
        (
            "run --levels 6",
            Fields {
                levels: 6,
                ..default
            },
        ),
        (
            "run --page=1024",
            Fields {
                page: 1024,
                ..default
            },
        ),
        (
            "run --tile 64",
            Fields {
                tile: 64,
                ..default
            },
        ),
        (
            "run --file=256",
            Fields {
                file: 256,
                ..default
            },
        ),
        (
            "run --buffer 2048",
            Fields {
                buffer: 2048,
                ..default
            },
        ),
        ("run --pick=so", default),
    ]
}

#[test]
fn each_option_sets_its_field(rt: HostRuntime) {
    for (line, fields) in fields_asked() {
        let asked = read_line(rt.alloc(), &rt, line);
        assert!(rt; asked == Some(with_fields(fields)), "{line}");
    }
}
