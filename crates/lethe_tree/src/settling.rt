//! Making a node's sides as high as each other again.
ghost use Rattle.std.specs.Prelude.{◌≡◌, ◌<◌, ◌+◌, length};
ghost use Rattle.lethe_tree.specs.Shape.{Shape, height};
ghost use Rattle.lethe_tree.specs.Settled.{IsReady, IsSettled};

use crate::link::{Link, height_at, join, link_at};

/// Hangs two sides under a node, of which one may be too high by one, and answers the node that stands above them then.
pub fn settle(links: &mut [Link], top: usize, left: Option<usize>, right: Option<usize>) -> usize
    requires { top < length links.old }
    ensures { (l r : Shape) → IsReady links.old left top right l r → IsSettled links.old links.new l top r result }
{
    let left_height = height_at(links, left);
    let right_height = height_at(links, right);
    if left_height > right_height.saturating_add(1) {
        lean_left(links, top, left, right)
    } else if right_height > left_height.saturating_add(1) {
        lean_right(links, top, left, right)
    } else {
        join(links, top, left, right);
        top
    }
}

fn lean_left(links: &mut [Link], top: usize, left: Option<usize>, right: Option<usize>) -> usize
    requires { top < length links.old }
    ensures { (l r : Shape) → IsReady links.old left top right l r → height l ≡ height r + 2 → IsSettled links.old links.new l top r result }
{
    let Some(a) = left else { return top };
    let Some(high) = link_at(links, a) else {
        return top
    };
    if height_at(links, high.left) >= height_at(links, high.right) {
        join(links, top, high.right, right);
        join(links, a, high.left, Some(top));
        return a;
    }
    let Some(b) = high.right else { return top };
    let Some(inner) = link_at(links, b) else {
        return top
    };
    join(links, a, high.left, inner.left);
    join(links, top, inner.right, right);
    join(links, b, Some(a), Some(top));
    b
}

fn lean_right(links: &mut [Link], top: usize, left: Option<usize>, right: Option<usize>) -> usize
    requires { top < length links.old }
    ensures { (l r : Shape) → IsReady links.old left top right l r → height r ≡ height l + 2 → IsSettled links.old links.new l top r result }
{
    let Some(a) = right else { return top };
    let Some(high) = link_at(links, a) else {
        return top
    };
    if height_at(links, high.right) >= height_at(links, high.left) {
        join(links, top, left, high.left);
        join(links, a, Some(top), high.right);
        return a;
    }
    let Some(b) = high.left else { return top };
    let Some(inner) = link_at(links, b) else {
        return top
    };
    join(links, top, left, inner.left);
    join(links, a, inner.right, high.right);
    join(links, b, Some(top), Some(a));
    b
}
