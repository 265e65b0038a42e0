//! Cutting tiles into files.
ghost use Rattle.std.specs.Prelude.{◌≡◌, ◌<◌, map, IfOk};
ghost use Rattle.lethe_tile.specs.Woven.{joined, plain, IsCut};

use lethe_base::NoMemory;
use lethe_tile::Tile;
use std::alloc::Global;
use std::mem;

/// Cuts tiles from the left into groups of `most` tiles, of which the last may have fewer.
pub fn cut(alloc: Global, tiles: Vec<Tile>, most: usize) -> Result<Vec<Vec<Tile>>, NoMemory>
    requires { 0 < most }
    ensures joined { IfOk result (λ groups. joined (map (λ group. map plain group.items) groups.items) ≡ map plain tiles.items) }
    ensures lengths { IfOk result (λ groups. IsCut most (map (λ group. map plain group.items) groups.items)) }
{
    let mut groups = Vec::new(alloc);
    let mut group = Vec::new(alloc);
    for tile in tiles {
        if group.len() == most {
            groups.push(mem::replace(&mut group, Vec::new(alloc)))?;
        }
        group.push(tile)?;
    }
    if !group.is_empty() {
        groups.push(group)?;
    }
    Ok(groups)
}
