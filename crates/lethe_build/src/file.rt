//! The draft of a file of some tiles.
ghost use Rattle.std.specs.Prelude.{map, IfOk};
ghost use Rattle.lethe_tile.specs.Woven.{plain};
ghost use Rattle.lethe_build.specs.Drafts.{IsDraftOf};
ghost use Rattle.lethe_build.specs.Parts.{IsGroup};

use crate::draft::Draft;
use crate::tile::build_tile;
use lethe_base::{List, NoMemory};
use lethe_tile::Tile;
use std::alloc::Global;

/// The draft of the file of these tiles.
pub fn draft_of(alloc: Global, tiles: Vec<Tile>) -> Result<Draft, NoMemory>
    requires { IsGroup (map plain tiles.items) }
    ensures { IfOk result (IsDraftOf (map plain tiles.items)) }
{
    let mut pages = Vec::new(alloc);
    let mut lines = Vec::with_capacity(alloc, tiles.len())?;
    for tile in tiles {
        lines.push(build_tile(alloc, tile, &mut pages)?)?;
    }
    Ok(Draft {
        tiles: List::of(lines),
        pages: List::of(pages),
    })
}
