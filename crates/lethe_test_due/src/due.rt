//! Files of which two have one time.
ghost use Rattle.std.specs.Prelude.{◌≡◌, ◌<◌};

use lethe_due::DueList;
use lethe_steps::Steps;
use std::alloc::Global;
use std::marker::Brand;
use std::process::Abort;
use std::sync::ledger::{Blank, Ledger};

/// Links a file. False where there is no memory, or its number is in the list, which then goes.
fn add<L: Ledger>(due: &mut DueList, no: u64, oldest: u64, steps: &mut Steps<L>) -> bool {
    let Ok(()) = due.reserve(1) else {
        return false;
    };
    if due.unlink(no, steps) {
        return false;
    }
    due.link(no, oldest, steps);
    true
}

fn by_time<L: Ledger, R: Abort>(rt: &R, alloc: Global, blank: Blank)
    requires name { blank.name ≡ L.name }
    requires parts { blank.parts ≡ L.parts }
    requires shared { 0 < blank.parts }
{
    let mut steps = Steps::<L>::begin(blank);
    let mut due = DueList::new(alloc);
    assert_eq!(rt; due.first(&mut steps), None);
    assert!(rt; add(&mut due, 4, 50, &mut steps));
    assert!(rt; add(&mut due, 2, 50, &mut steps));
    assert!(rt; add(&mut due, 9, 10, &mut steps));
    assert_eq!(rt; due.first(&mut steps), Some((9, 10)));
    assert!(rt; due.unlink(9, &mut steps));
    assert_eq!(rt; due.first(&mut steps), Some((2, 50)));
    assert!(rt; !due.unlink(9, &mut steps));
    assert!(rt; !due.unlink(9, &mut steps));
    assert_eq!(rt; due.first(&mut steps), Some((2, 50)));
}

fn both_ends<L: Ledger, R: Abort>(rt: &R, alloc: Global, blank: Blank)
    requires name { blank.name ≡ L.name }
    requires parts { blank.parts ≡ L.parts }
    requires shared { 0 < blank.parts }
{
    let mut steps = Steps::<L>::begin(blank);
    let mut due = DueList::new(alloc);
    assert!(rt; add(&mut due, 1, u64::MAX, &mut steps));
    assert!(rt; add(&mut due, 3, 0, &mut steps));
    assert!(rt; add(&mut due, 2, 0, &mut steps));
    assert!(rt; !add(&mut due, 3, 7, &mut steps));
    assert_eq!(rt; due.first(&mut steps), Some((2, 0)));
    assert!(rt; due.unlink(2, &mut steps));
    assert_eq!(rt; due.first(&mut steps), Some((1, u64::MAX)));
    assert!(rt; due.unlink(1, &mut steps));
    assert_eq!(rt; due.first(&mut steps), None);
}

#[test]
fn files_come_by_time_then_by_number(rt: HostRuntime) {
    by_time::<Brand, HostRuntime>(&rt, rt.alloc(), Blank::new(1));
}

#[test]
fn the_least_and_the_greatest_time(rt: HostRuntime) {
    both_ends::<Brand, HostRuntime>(&rt, rt.alloc(), Blank::new(1));
}
