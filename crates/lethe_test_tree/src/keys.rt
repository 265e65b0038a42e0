//! Keys of which each is a front of the next one, and one key again and again.
ghost use Rattle.std.specs.Prelude.{◌≡◌, ◌<◌};

use crate::common::{entry_of, have_same_list, insert, key_of};
use lethe_base::{Entry, Key};
use lethe_mem::{Buffer, VecBuffer};
use lethe_steps::Steps;
use lethe_tree::TreeBuffer;
use std::alloc::Global;
use std::marker::Brand;
use std::process::Abort;
use std::sync::ledger::{Blank, Ledger};

/// As many bytes as a key may have.
const LONGEST: usize = 255;

/// The key of so many bytes, all the same.
fn key_of_length(alloc: Global, rt: &impl Abort, length: usize) -> Key {
    let bytes = [b'k'; LONGEST];
    key_of(alloc, rt, bytes.get(..length).expect(rt, "a length"))
}

/// Puts each of these keys into a buffer, neither from the shortest nor from the longest on.
fn fill<B: Buffer>(alloc: Global, rt: &impl Abort, buffer: &mut B) {
    for place in 0..LONGEST {
        let length = place * 101 % LONGEST + 1;
        insert(rt, buffer, entry_of(key_of_length(alloc, rt, length), 1));
    }
}

/// The number of bytes of an entry's key, or 0.
fn length_of(entry: Option<&Entry>) -> usize {
    entry.map_or(0, |entry| entry.key.bytes().len())
}

/// Whether the keys stand from the shortest to the longest, and each is found.
fn stand_by_length(alloc: Global, rt: &impl Abort, tree: &TreeBuffer) -> bool {
    let mut stand = true;
    for place in 0..LONGEST {
        let key = key_of_length(alloc, rt, place + 1);
        stand = stand
            && length_of(tree.at(place)) == place + 1
            && length_of(tree.find(&key)) == place + 1;
    }
    stand
}

#[test]
fn a_front_stands_before_what_it_is_a_front_of(rt: HostRuntime) {
    let alloc = rt.alloc();
    let mut tree = TreeBuffer::new(alloc);
    fill(alloc, &rt, &mut tree);
    let mut sorted = VecBuffer::new(alloc);
    fill(alloc, &rt, &mut sorted);
    assert!(rt; have_same_list(&tree, &sorted));
    assert!(rt; stand_by_length(alloc, &rt, &tree));
}

/// Keys neither in order nor against it.
const TEXTS: [&[u8]; 3] = [b"b", b"a", b"c"];

/// Puts entries of one key, at the places from 0 to the last one.
fn put_again(alloc: Global, rt: &impl Abort, tree: &mut TreeBuffer, text: &[u8], last: u64) {
    for seq in 0..=last {
        insert(rt, tree, entry_of(key_of(alloc, rt, text), seq));
    }
}

fn check_replaced<L: Ledger, R: Abort>(rt: &R, alloc: Global, blank: Blank)
    requires name { blank.name ≡ L.name }
    requires parts { blank.parts ≡ L.parts }
    requires shared { 0 < blank.parts }
{
    let mut steps = Steps::<L>::begin(blank);
    let mut tree = TreeBuffer::new(alloc);
    for text in TEXTS {
        put_again(alloc, rt, &mut tree, text, 0);
    }
    for text in TEXTS {
        put_again(alloc, rt, &mut tree, text, 1_000);
        let key = key_of(alloc, rt, text);
        let seq = tree.look(&key, &mut steps).map_or(0, |entry| entry.seq);
        assert!(rt; seq == 1_000);
    }
    assert!(rt; tree.len() == TEXTS.len());
}

#[test]
fn a_key_that_comes_again_replaces_its_entry(rt: HostRuntime) {
    check_replaced::<Brand, HostRuntime>(&rt, rt.alloc(), Blank::new(1));
}
