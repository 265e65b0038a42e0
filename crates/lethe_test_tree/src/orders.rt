//! Keys that come in several orders.

use crate::common::{are_same, entry_of, have_same_list, insert, key_of};
use lethe_mem::{Buffer, VecBuffer, first_from};
use lethe_tree::TreeBuffer;
use std::alloc::Global;
use std::process::Abort;

/// How many entries come.
const COUNT: u64 = 3_000;

/// Above all numbers of keys.
const ABOVE: u64 = 4_000;

#[derive(Clone, Copy, Debug)]
enum Order {
    Ascending,
    Descending,
    /// The lowest, the highest, the lowest but one and so on.
    BothEnds,
    /// Numbers of which some come again.
    Random,
}

/// An order, and how many keys come in it: of the last one counted by another program.
const ORDERS: [(Order, usize); 4] = [
    (Order::Ascending, 3_000),
    (Order::Descending, 3_000),
    (Order::BothEnds, 3_000),
    (Order::Random, 2_125),
];

/// The number at a place of a fixed sequence without order, by the generator SplitMix64.
fn random_at(place: u64) -> u64 {
    let mut mixed = place.wrapping_add(1).wrapping_mul(0x9E37_79B9_7F4A_7C15);
    mixed = (mixed ^ (mixed >> 30)).wrapping_mul(0xBF58_476D_1CE4_E5B9);
    mixed = (mixed ^ (mixed >> 27)).wrapping_mul(0x94D0_49BB_1331_11EB);
    (mixed ^ (mixed >> 31)) % ABOVE
}

/// The number of the key that comes at a place.
fn number_at(order: Order, place: u64) -> u64 {
    let last = COUNT - 1;
    match order {
        Order::Ascending => place,
        Order::Descending => last.saturating_sub(place),
        Order::BothEnds if place % 2 == 0 => place / 2,
        Order::BothEnds => last.saturating_sub(place / 2),
        Order::Random => random_at(place),
    }
}

/// Puts the keys of an order into a buffer, each with its place as that in the history.
fn fill<B: Buffer>(alloc: Global, rt: &impl Abort, buffer: &mut B, order: Order) {
    for place in 0..COUNT {
        let key = key_of(alloc, rt, &number_at(order, place).to_be_bytes());
        insert(rt, buffer, entry_of(key, place));
    }
}

/// Whether both find the same entry of each key, none above all, and as many entries below it.
fn find_same(alloc: Global, rt: &impl Abort, tree: &TreeBuffer, sorted: &VecBuffer) -> bool {
    let mut same = true;
    for number in 0..=ABOVE {
        let key = key_of(alloc, rt, &number.to_be_bytes());
        same = same
            && are_same(tree.find(&key), sorted.find(&key))
            && first_from(tree, &key) == first_from(sorted, &key);
    }
    same
}

/// Whether a copy of the tree has the same list, and one entry more in the copy leaves the tree as it was.
fn copies(alloc: Global, rt: &impl Abort, tree: &TreeBuffer, sorted: &VecBuffer) -> bool {
    let mut copy = tree.copy().expect(rt, "memory");
    let same = have_same_list(&copy, sorted);
    insert(
        rt,
        &mut copy,
        entry_of(key_of(alloc, rt, &ABOVE.to_be_bytes()), COUNT),
    );
    same && sorted.len().checked_add(1) == Some(copy.len()) && have_same_list(tree, sorted)
}

fn check(alloc: Global, rt: &impl Abort, order: Order, count: usize) {
    let mut tree = TreeBuffer::new(alloc);
    fill(alloc, rt, &mut tree, order);
    let mut sorted = VecBuffer::new(alloc);
    fill(alloc, rt, &mut sorted, order);
    assert!(rt; tree.len() == count, "{order:?}");
    assert!(rt; have_same_list(&tree, &sorted), "{order:?}");
    assert!(rt; find_same(alloc, rt, &tree, &sorted), "{order:?}");
    assert!(rt; copies(alloc, rt, &tree, &sorted), "{order:?}");
}

#[test]
fn both_buffers_have_one_list_whatever_the_order(rt: HostRuntime) {
    for (order, count) in ORDERS {
        check(rt.alloc(), &rt, order, count);
    }
}
