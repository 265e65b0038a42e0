//! Nodes that name each other by index.
ghost use Rattle.std.specs.Prelude.{◌≡◌, ◌<◌, length, slice_get};
ghost use Rattle.lethe_tree.specs.Shape.{Shape, Lies, height, root_of, size};
ghost use Rattle.lethe_tree.specs.Settled.{IsJoined};

/// A node.
#[derive(Clone, Copy, Debug, PartialEq, Eq)]
pub struct Link {
    pub left: Option<usize>,
    pub right: Option<usize>,
    /// How many nodes the longest way down leads over.
    pub height: usize,
    /// How many nodes there are here and below.
    pub size: usize,
}

impl Link {
    /// A node without sides.
    pub const ALONE: Link = Link {
        left: None,
        right: None,
        height: 1,
        size: 1,
    };
}

/// The node at an index.
pub fn link_at(links: &[Link], at: usize) -> Option<Link>
    ensures { result ≡ slice_get links.now at }
{
    links.get(at).copied()
}

/// The height of what begins there.
pub fn height_at(links: &[Link], from: Option<usize>) -> usize
    ensures { (t : Shape) → Lies links.now t → from ≡ root_of t → result ≡ height t }
{
    match from {
        Some(at) => link_at(links, at).map_or(0, |link| link.height),
        None => 0,
    }
}

/// How many nodes begin there.
pub fn size_at(links: &[Link], from: Option<usize>) -> usize
    ensures { (t : Shape) → Lies links.now t → from ≡ root_of t → result ≡ size t }
{
    match from {
        Some(at) => link_at(links, at).map_or(0, |link| link.size),
        None => 0,
    }
}

/// Hangs two sides under a node.
pub fn join(links: &mut [Link], at: usize, left: Option<usize>, right: Option<usize>)
    requires { at < length links.old }
    ensures { IsJoined links.old links.new at left right }
{
    let height = height_at(links, left).max(height_at(links, right));
    let size = size_at(links, left).saturating_add(size_at(links, right));
    links[at] = Link {
        left,
        right,
        height: height.saturating_add(1),
        size: size.saturating_add(1),
    };
}
