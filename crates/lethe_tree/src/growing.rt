//! Hanging a new node in.
ghost use Rattle.std.specs.Prelude.{◌≡◌, ◌<◌, ◌≤◌, ◌+◌, length, vec_len, vec_capacity};
ghost use Rattle.std.specs.Option.{option_copied};
ghost use Rattle.lethe_tree.specs.Shape.{Shape, height};
ghost use Rattle.lethe_tree.specs.Grown.{IsGrown, IsHung, MayGrow, MayHang, goes_left};

use crate::link::{Link, height_at, link_at};
use crate::settling::settle;
use lethe_base::{Entry, Key};

/// Whether a key stands before that of the entry at an index. Without a key it is to stand behind all.
fn goes_left(entries: &[Entry], key: Option<&Key>, at: usize) -> bool
    ensures { result ≡ goes_left entries.now (option_copied key.entry) at }
{
    match (key, entries.get(at)) {
        (Some(key), Some(entry)) => *key < entry.key,
        _ => false,
    }
}

/// Hangs a node that has no sides into the tree that begins there and is no higher than `depth`, and answers where it begins then.
pub fn grow(
    links: &mut [Link],
    entries: &[Entry],
    from: Option<usize>,
    new: usize,
    depth: usize,
    key: Option<&Key>,
) -> usize
    ensures { (t : Shape) → MayGrow links.old (goes_left entries.now (option_copied key.entry)) from new t → height t ≤ depth
        → IsGrown links.old links.new (goes_left entries.now (option_copied key.entry)) t new result }
{
    let Some(top) = from else { return new };
    let Some(link) = link_at(links, top) else {
        return new
    };
    if depth == 0 {
        return new;
    }
    if goes_left(entries, key, top) {
        let left = grow(links, entries, link.left, new, depth - 1, key);
        settle(links, top, Some(left), link.right)
    } else {
        let right = grow(links, entries, link.right, new, depth - 1, key);
        settle(links, top, link.left, Some(right))
    }
}

/// Hangs one more node into a whole tree, where its key goes, and answers where the tree begins then.
pub fn hang(
    links: &mut Vec<Link>,
    entries: &[Entry],
    root: Option<usize>,
    key: Option<&Key>,
) -> usize
    requires { vec_len links.old < vec_capacity links.old }
    ensures grown { (t : Shape) → MayHang links.old.items (goes_left entries.now (option_copied key.entry)) root t
        → IsHung links.old.items links.new.items (goes_left entries.now (option_copied key.entry)) t result }
    ensures len { vec_len links.new ≡ vec_len links.old + 1 }
    ensures capacity { vec_capacity links.old ≤ vec_capacity links.new }
{
    let height = height_at(links, root);
    links.push(Link::ALONE).unwrap();
    let new = links.len() - 1;
    grow(links, entries, root, new, height, key)
}
