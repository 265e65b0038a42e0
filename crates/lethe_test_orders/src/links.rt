//! Files that are linked and unlinked.
ghost use Rattle.std.specs.Prelude.{◌≡◌, ◌<◌, ◌+◌, length};

use crate::apart::are_apart;
use crate::common::{Row, config_of, facts_of, shape_of};
use lethe_base::{Config, Shape};
use lethe_orders::Orders;
use lethe_steps::Steps;
use lethe_test_values::SMALL;
use std::alloc::Global;
use std::marker::Brand;
use std::process::Abort;
use std::sync::ledger::{Blank, Ledger};

/// Links a file. False where there is no memory, or its number is in its level's list, which then goes.
fn add<L: Ledger, R: Abort>(
    rt: &R,
    alloc: Global,
    orders: &mut Orders,
    row: &Row,
    steps: &mut Steps<L>,
) -> bool {
    let Ok(()) = orders.reserve(1) else {
        return false;
    };
    let file = facts_of(alloc, rt, row);
    if orders.unlink(file.level, file.no, steps) {
        return false;
    }
    orders.link(file.level, &file, steps);
    true
}

fn orders_of(rt: &impl Abort, alloc: Global, config: &Config, rows: &[Row]) -> Orders {
    let shape = shape_of(alloc, rt, rows);
    assert!(rt; shape.levels.items().len() as u64 == config.fields().levels + 1);
    assert!(rt; are_apart(shape.levels.items()));
    Orders::of(alloc, &shape, config).expect(rt, "memory")
}

/// Two files of level 0, and one of level 1.
const THREE: [Row; 3] = [
    (0, 4, Some(50), 1),
    (0, 2, Some(10), 1),
    (1, 4, Some(10), 1),
];

fn goes_and_comes<L: Ledger, R: Abort>(rt: &R, alloc: Global, blank: Blank)
    requires name { blank.name ≡ L.name }
    requires parts { blank.parts ≡ L.parts }
    requires shared { 0 < blank.parts }
{
    let mut steps = Steps::<L>::begin(blank);
    let config = config_of(rt, SMALL);
    let mut orders = orders_of(rt, alloc, &config, &THREE);
    assert!(rt; orders.is_due(&config, 43, &mut steps));
    assert!(rt; orders.unlink(0, 2, &mut steps));
    assert!(rt; !orders.unlink(0, 2, &mut steps));
    assert!(rt; !orders.unlink(1, 2, &mut steps));
    assert!(rt; !orders.is_due(&config, 82, &mut steps));
    assert!(rt; orders.is_due(&config, 83, &mut steps));
    assert!(rt; orders.unlink(0, 4, &mut steps));
    assert!(rt; !orders.is_due(&config, 109, &mut steps));
    assert!(rt; orders.is_due(&config, 110, &mut steps));
    assert!(rt; add(rt, alloc, &mut orders, &(0, 4, Some(0), 1), &mut steps));
    assert!(rt; orders.is_due(&config, 33, &mut steps));
}

fn are_not_linked<L: Ledger, R: Abort>(rt: &R, alloc: Global, blank: Blank)
    requires name { blank.name ≡ L.name }
    requires parts { blank.parts ≡ L.parts }
    requires shared { 0 < blank.parts }
{
    let mut steps = Steps::<L>::begin(blank);
    let config = config_of(rt, SMALL);
    let mut orders = orders_of(rt, alloc, &config, &[]);
    assert!(rt; add(rt, alloc, &mut orders, &(0, 5, None, 1), &mut steps));
    assert!(rt; add(rt, alloc, &mut orders, &(2, 6, Some(0), 1), &mut steps));
    assert!(rt; !orders.unlink(0, 5, &mut steps));
    assert!(rt; !orders.unlink(2, 6, &mut steps));
    assert!(rt; !orders.unlink(u64::MAX, 6, &mut steps));
    assert!(rt; !orders.is_due(&config, u64::MAX, &mut steps));
    assert!(rt;
        add(
            rt,
            alloc,
            &mut orders,
            &(1, 7, Some(u64::MAX), 1),
            &mut steps
        )
    );
    assert!(rt; !add(rt, alloc, &mut orders, &(1, 7, Some(1), 1), &mut steps));
    assert!(rt; !orders.unlink(1, 7, &mut steps));
}

#[test]
fn a_file_that_goes_is_no_more_due(rt: HostRuntime) {
    goes_and_comes::<Brand, HostRuntime>(&rt, rt.alloc(), Blank::new(1));
}

#[test]
fn files_without_a_time_and_of_the_last_level_are_not_linked(rt: HostRuntime) {
    are_not_linked::<Brand, HostRuntime>(&rt, rt.alloc(), Blank::new(1));
}

#[test]
fn more_room_than_memory_has_is_refused(rt: HostRuntime) {
    let config = config_of(&rt, SMALL);
    let mut orders = orders_of(&rt, rt.alloc(), &config, &THREE);
    assert!(&rt; orders.reserve(usize::MAX).is_err());
    assert!(&rt; orders.reserve(300).is_ok());
}
