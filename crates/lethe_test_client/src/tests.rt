//! Runs of the clients.

use crate::client::{Left, put_and_get, put_and_tick};
use std::process::Abort;
use std::str;

// What it printed, which answers each line.
fn printed<'a>(rt: &impl Abort, left: &'a Left) -> &'a str {
    assert!(rt; left.status == 0);
    str::from_utf8(left.sink.bytes()).expect(rt, "a text")
}

#[test]
fn a_put_and_a_get_are_answered(rt: HostRuntime) {
    let left = put_and_get(&rt, rt.alloc()).expect(&rt, "memory");
    assert!(rt; printed(&rt, &left) == "1 ok 1\n1 at 1 val 5 x\n");
}

/// What stands in front of the certificate's digest.
const FRONT: &str = "1 ok 1\n1 ok 2 clock 1000 cert 1 before 0 sha256 ";

#[test]
fn a_put_and_a_tick_are_answered(rt: HostRuntime) {
    let left = put_and_tick(&rt, rt.alloc()).expect(&rt, "memory");
    let text = printed(&rt, &left);
    assert!(rt; text.starts_with(FRONT));
    assert!(rt; text.len() == FRONT.len() + 65);
}
