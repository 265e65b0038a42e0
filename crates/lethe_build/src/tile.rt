//! A tile's line, and the bytes of its pages.
ghost use Rattle.std.specs.Prelude.{◌≡◌, ◌++◌, map, IfOk, OnOk};
ghost use Rattle.lethe_tile.specs.Woven.{plain};
ghost use Rattle.lethe_build.specs.Built.{spelled};
ghost use Rattle.lethe_build.specs.Parts.{IsWhole, IsTileLineOf};

use crate::page::build_page;
use lethe_base::{List, NoMemory};
use lethe_header::TileLine;
use lethe_tile::Tile;
use std::alloc::Global;

/// The line of a tile, whose pages have no numbers yet. The bytes of its pages are put behind those of the tiles before.
pub fn build_tile(
    alloc: Global,
    tile: Tile,
    pages: &mut Vec<List<u8>>,
) -> Result<TileLine, NoMemory>
    requires { IsWhole (plain tile) }
    ensures line { IfOk result (IsTileLineOf (plain tile)) }
    ensures pages { OnOk result (pages.new.items ≡ pages.old.items ++ map spelled tile.pages) }
{
    let Tile {
        lo,
        hi,
        pages: parts,
    } = tile;
    let mut lines = Vec::new(alloc);
    for entries in parts.into_vec() {
        let (line, bytes) = build_page(alloc, entries)?;
        lines.push(line)?;
        pages.push(bytes)?;
    }
    Ok(TileLine {
        lo,
        hi,
        pages: List::of(lines),
    })
}
