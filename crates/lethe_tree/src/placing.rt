//! Where a key goes.
ghost use Rattle.std.specs.Prelude.{◌≡◌, ◌<◌};
ghost use Rattle.lethe_tree.specs.Shape.{Shape, order};
ghost use Rattle.lethe_tree.specs.Looked.{IsSpot, MayLook, is_behind};
ghost use Rattle.lethe_tree.specs.Tree.{last_of};

use crate::link::Link;
use crate::looking::index_of;
use lethe_base::{Entry, Key};
use lethe_steps::Steps;
use std::sync::ledger::{Blank, Ledger};

/// Where a key goes.
#[derive(Clone, Copy)]
pub enum Spot {
    /// Its entry has this index.
    Held(usize),
    /// Behind all.
    Behind,
    /// It has no entry, and there is a higher key.
    Among,
}

/// Where a key goes in the tree that begins there. That it goes behind all is told by one comparison.
pub fn spot_of<L: Ledger>(
    links: &[Link],
    entries: &[Entry],
    root: Option<usize>,
    last: Option<usize>,
    key: &Key,
    blank: Blank,
) -> Spot
    requires name { blank.name ≡ L.name }
    requires parts { blank.parts ≡ L.parts }
    requires shared { 0 < blank.parts }
    ensures { (t : Shape) → MayLook links.now entries.now root t → last ≡ last_of (order t) → IsSpot entries.now key.now (order t) result }
{
    if is_behind(entries, last, key) {
        return Spot::Behind;
    }
    let mut steps = Steps::<L>::begin(blank);
    match index_of(links, entries, root, key, &mut steps) {
        Some(at) => Spot::Held(at),
        None => Spot::Among,
    }
}

/// Whether a key is above that of the entry at the last index, or there is none.
fn is_behind(entries: &[Entry], last: Option<usize>, key: &Key) -> bool
    ensures { result ≡ is_behind entries.now key.now last }
{
    let Some(at) = last else { return true };
    match entries.get(at) {
        Some(entry) => entry.key < *key,
        None => false,
    }
}
