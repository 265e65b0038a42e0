//! Nodes that name each other by index.
ghost use Rattle.std.specs.Prelude.{◌≡◌, ◌≢◌, ◌≤◌, ◌+◌, ℕ, List, Some, None, length};
ghost use Rattle.std.specs.Option.{option_copied};
ghost use Rattle.slab.specs.Slab.{get, slab_len};
ghost use Rattle.lethe_due.specs.declared.node.Node as declared;
ghost use Rattle.lethe_due.specs.declared.due_file.DueFile as file;
ghost use Rattle.lethe_due.specs.Linked.{IsRelinked, Parted, Path, node_from, stops_at};

use crate::node::Node;
use crate::stop::{Stop, stops};
use lethe_steps::Steps;
use slab::Slab;
use std::sync::ledger::Ledger;

/// The node at the index, where there is one.
pub fn node_at(nodes: &Slab<Node>, from: Option<usize>) -> Option<&Node>
    ensures { option_copied result ≡ node_from (get nodes.now) from }
{
    match from {
        Some(key) => nodes.get(key),
        None => None,
    }
}

/// Lets the node at the index go on at another one.
fn set_next(nodes: &mut Slab<Node>, key: usize, next: Option<usize>)
    ensures there { (node : declared.Node) → get nodes.old key ≡ Some node → get nodes.new key ≡ Some (record node { next = next }) }
    ensures others { (other : ℕ) → other ≢ key → get nodes.new other ≡ get nodes.old other }
    ensures len { slab_len nodes.new ≡ slab_len nodes.old }
    ensures capacity { nodes.new.capacity ≡ nodes.old.capacity }
{
    if let Some(node) = nodes.get_mut(key) {
        node.next = next;
    }
}

/// Lets the list go on at an index behind a node, or where there is none begin there, and answers where it begins.
pub fn relink<L: Ledger>(
    nodes: &mut Slab<Node>,
    first: Option<usize>,
    behind: Option<usize>,
    to: Option<usize>,
    steps: &mut Steps<L>,
) -> Option<usize>
    ensures linked { IsRelinked (get nodes.old) (get nodes.new) first to result behind }
    ensures len { slab_len nodes.new ≡ slab_len nodes.old }
    ensures capacity { nodes.new.capacity ≡ nodes.old.capacity }
    ensures few { steps.new ≤ steps.old + 1 }
{
    let Some(key) = behind else {
        return to;
    };
    steps.look();
    set_next(nodes, key, to);
    first
}

/// Walks along the list to the first file to stop at: the index of the last one before it, and its own.
pub fn seek<L: Ledger>(
    nodes: &Slab<Node>,
    first: Option<usize>,
    stop: Stop,
    steps: &mut Steps<L>,
) -> (Option<usize>, Option<usize>)
    ensures parted { (cells : List (ℕ × file.DueFile)) → Path (get nodes.now) first cells None → slab_len nodes.now ≡ length cells
        → Parted (get nodes.now) first cells (stops_at stop) result.0 result.1 }
    ensures few { steps.new ≤ steps.old + slab_len nodes.now }
{
    let mut behind = None;
    let mut from = first;
    for place in 0..nodes.len() {
        let Some(node) = node_at(nodes, from) else {
            return (behind, from);
        };
        steps.look();
        if stops(&stop, &node.file) {
            return (behind, from);
        }
        behind = from;
        from = node.next;
    }
    (behind, from)
}
