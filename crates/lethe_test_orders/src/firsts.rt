//! The first expired file, and orders that are made of a shape.
ghost use Rattle.std.specs.Prelude.{◌≡◌, ◌<◌};

use crate::common::{Row, config_of, first_in, shape_of};
use lethe_base::{Config, Shape};
use lethe_fade::pick_due;
use lethe_test_values::SMALL;
use std::alloc::Global;
use std::marker::Brand;
use std::process::Abort;
use std::sync::ledger::Blank;

/// The first expired file at a time, of a shape of levels 0 to 2.
fn first_at(
    rt: &impl Abort,
    alloc: Global,
    shape: &Shape,
    config: &Config,
    to: u64,
) -> Option<u64> {
    assert!(rt; shape.levels.items().len() as u64 == config.fields().levels + 1);
    let first = first_in::<Brand, _>(rt, alloc, shape, config, to, Blank::new(1));
    let due = pick_due(shape, config, to).map(|plan| plan.file);
    assert!(rt; first == due);
    first
}

/// One file, of level 0.
const ONE: [Row; 1] = [(0, 7, Some(10), 1)];

/// Level 1 has an older file, and a file without a time.
const TWO_LEVELS: [Row; 4] = [
    (0, 7, Some(50), 1),
    (1, 5, Some(3), 1),
    (1, 4, None, 9),
    (2, 2, Some(0), 9),
];

/// Files of one time, of which two have as many tombstones.
const TIED: [Row; 5] = [
    (0, 2, Some(11), 9),
    (0, 3, Some(10), 4),
    (0, 9, Some(10), 5),
    (0, 8, Some(10), 5),
    (0, 1, None, 9),
];

/// Level 0 has no file with a time, and the last level has no time.
const TIMELESS: [Row; 3] = [(0, 6, None, 3), (1, 5, None, 3), (2, 4, Some(0), 3)];

/// The least and the greatest time.
const ENDS: [Row; 2] = [(0, 6, Some(u64::MAX), 3), (1, 5, Some(0), 3)];

/// The files, a time, and the first file that is expired then. The deadline of level 0 is 33, and that of level 1 is 100.
const FIRSTS: [(&[Row], u64, Option<u64>); 15] = [
    (&ONE, 42, None),
    (&ONE, 43, Some(7)),
    (&ONE, u64::MAX, Some(7)),
    (&TWO_LEVELS, 82, None),
    (&TWO_LEVELS, 83, Some(7)),
    (&TWO_LEVELS, 103, Some(7)),
    (&TIED, 42, None),
    (&TIED, 43, Some(8)),
    (&TIED, 44, Some(8)),
    (&TIMELESS, 0, None),
    (&TIMELESS, u64::MAX, None),
    (&ENDS, 99, None),
    (&ENDS, 100, Some(5)),
    (&ENDS, u64::MAX, Some(5)),
    (&[], u64::MAX, None),
];

#[test]
fn the_first_expired_file_is_the_lowest_levels(rt: HostRuntime) {
    let config = config_of(&rt, SMALL);
    for (rows, to, first) in &FIRSTS {
        let shape = shape_of(rt.alloc(), &rt, rows);
        assert!(&rt; first_at(&rt, rt.alloc(), &shape, &config, *to) == *first);
    }
}

/// A few hundred files of both levels, with few times and fewer counts of tombstones, so that many are tied.
fn many(alloc: Global, rt: &impl Abort) -> Vec<Row> {
    let mut rows = Vec::new(alloc);
    for no in 0..300u64 {
        let oldest = if no % 7 == 0 {
            None
        } else {
            Some(no * 31 % 40)
        };
        rows.push((no % 2, no * 77 % 512, oldest, no % 3))
            .expect(rt, "memory");
    }
    rows
}

#[test]
fn many_files_have_the_first_that_is_due(rt: HostRuntime) {
    let config = config_of(&rt, SMALL);
    let rows = many(rt.alloc(), &rt);
    let shape = shape_of(rt.alloc(), &rt, &rows);
    for to in 30..50 {
        let first = first_at(&rt, rt.alloc(), &shape, &config, to);
        assert!(&rt; first.is_some() == (to >= 33));
    }
}
