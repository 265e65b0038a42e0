//! What the tests of orders share.
ghost use Rattle.std.specs.Prelude.{◌≡◌, ◌<◌, ◌+◌, length};

use crate::apart::are_apart;
use lethe_base::{Config, Fields, FileFacts, List, Shape};
use lethe_orders::{Orders, first_expired};
use lethe_steps::Steps;
use lethe_test_values::key_of;
use std::alloc::Global;
use std::process::Abort;
use std::sync::ledger::{Blank, Ledger};

/// A file's level, number, oldest time and tombstones.
pub type Row = (u64, u64, Option<u64>, u64);

pub fn config_of(rt: &impl Abort, fields: Fields) -> Config {
    Config::new(fields).expect(rt, "a configuration")
}

pub fn facts_of(alloc: Global, rt: &impl Abort, row: &Row) -> FileFacts {
    let (level, no, oldest, tombs) = *row;
    FileFacts {
        no,
        level,
        lo: key_of(alloc, "a").expect(rt, "a key"),
        hi: key_of(alloc, "b").expect(rt, "a key"),
        oldest,
        tombs,
        entries: 9,
        max_seq: 0,
        swept: 0,
    }
}

fn level_of(alloc: Global, rt: &impl Abort, level: u64, rows: &[Row]) -> List<FileFacts> {
    let mut files = Vec::new(alloc);
    for row in rows {
        if row.0 == level {
            files.push(facts_of(alloc, rt, row)).expect(rt, "memory");
        }
    }
    List::of(files)
}

/// A shape of levels 0 to 2.
pub fn shape_of(alloc: Global, rt: &impl Abort, rows: &[Row]) -> Shape {
    let mut levels = Vec::new(alloc);
    for level in 0..3 {
        levels
            .push(level_of(alloc, rt, level, rows))
            .expect(rt, "memory");
    }
    Shape {
        levels: List::of(levels),
        erases: List::of(Vec::new(alloc)),
    }
}

/// The first expired file of a shape at a time, by orders that are made of the shape.
pub fn first_in<L: Ledger, R: Abort>(
    rt: &R,
    alloc: Global,
    shape: &Shape,
    config: &Config,
    to: u64,
    blank: Blank,
) -> Option<u64>
    requires name { blank.name ≡ L.name }
    requires parts { blank.parts ≡ L.parts }
    requires shared { 0 < blank.parts }
    requires levels { length shape.now.levels ≡ config.now.levels + 1 }
{
    assert!(rt; are_apart(shape.levels.items()));
    let mut steps = Steps::<L>::begin(blank);
    let orders = Orders::of(alloc, shape, config).expect(rt, "memory");
    let first = first_expired(shape, config, to, &orders, &mut steps);
    assert!(rt; orders.is_due(config, to, &mut steps) == first.is_some());
    first
}
