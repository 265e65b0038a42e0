//! Looking for a key, and for a place.
ghost use Rattle.std.specs.Prelude.{◌≡◌, ◌≤◌, ◌+◌, ◌-◌, ◌^◌, length, slice_get};
ghost use Rattle.std.specs.Option.{option_copied};
ghost use Rattle.lethe_base.specs.Keys.{key_cmp};
ghost use Rattle.lethe_tree.specs.Shape.{Shape, Lies, height, order, root_of};
ghost use Rattle.lethe_tree.specs.Looked.{IsFound, MayLook, looks, side_of};

use crate::link::{Link, link_at, size_at};
use lethe_base::{Entry, Key};
use lethe_steps::Steps;
use std::cmp::Ordering;
use std::sync::ledger::Ledger;

/// The entry at an index.
pub fn entry_at(entries: &[Entry], at: usize) -> Option<&Entry>
    ensures { option_copied result ≡ slice_get entries.now at }
{
    entries.get(at)
}

/// The side of a node on which a look for a key goes on. None where the key is that of the node's entry.
fn side_of(link: Link, key: &Key, entry: &Entry) -> Option<Option<usize>>
    ensures { result ≡ side_of link (key_cmp key.now entry.now.key) }
{
    match key.cmp(&entry.key) {
        Ordering::Less => Some(link.left),
        Ordering::Equal => None,
        Ordering::Greater => Some(link.right),
    }
}

/// The index of a key's entry in the tree that begins there. A step is a look at a node.
pub fn index_of<L: Ledger>(
    links: &[Link],
    entries: &[Entry],
    from: Option<usize>,
    key: &Key,
    steps: &mut Steps<L>,
) -> Option<usize>
    ensures found { (t : Shape) → MayLook links.now entries.now from t → IsFound entries.now key.now (order t) result }
    ensures each { (t : Shape) → MayLook links.now entries.now from t → steps.new ≡ steps.old + looks entries.now key.now t }
    ensures few { (t : Shape) → MayLook links.now entries.now from t → 2 ^ (steps.new - steps.old) ≤ (length (order t) + 1) ^ 2 }
{
    let mut left = 128usize;
    let mut at = from;
    while left > 0 {
        let Some(here) = at else { return None };
        let Some(link) = link_at(links, here) else {
            return None
        };
        let Some(entry) = entry_at(entries, here) else {
            return None
        };
        steps.look();
        let Some(side) = side_of(link, key, entry) else {
            return Some(here)
        };
        at = side;
        left -= 1;
    }
    None
}

/// The index at a place, counted from 0 from left to right.
pub fn index_at(links: &[Link], from: Option<usize>, place: usize) -> Option<usize>
    ensures { (t : Shape) → Lies links.now t → from ≡ root_of t → height t ≤ 128 → result ≡ slice_get (order t) place }
{
    let mut left = 128usize;
    let mut at = from;
    let mut rest = place;
    while left > 0 {
        let Some(here) = at else { return None };
        let Some(link) = link_at(links, here) else {
            return None
        };
        let before = size_at(links, link.left);
        if rest == before {
            return Some(here);
        }
        if rest < before {
            at = link.left;
        } else {
            at = link.right;
            rest -= before + 1;
        }
        left -= 1;
    }
    None
}
