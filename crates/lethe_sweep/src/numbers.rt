//! The numbers of the pages that stay, and of those that go.
ghost use Rattle.std.specs.Prelude.{◌≡◌, ◌++◌, map, filter, not, IfOk, OnOk};
ghost use Rattle.lethe_sweep.specs.Fences.{is_kept, kept_numbers, dropped_numbers};

use crate::fence::Mode;
use lethe_base::{NoMemory, Range};
use lethe_header::{PageLine, TileLine};
use std::alloc::Global;

/// The numbers of a file's pages, in their order: of those that stay, and of all others.
#[derive(Drop)]
pub struct Numbers {
    pub kept: Vec<u64>,
    pub dropped: Vec<u64>,
}

/// Adds the numbers of the pages of a tile.
fn add_tile(
    numbers: &mut Numbers,
    lines: &[PageLine],
    range: &Range,
    alone: bool,
) -> Result<(), NoMemory>
    ensures kept { OnOk result (numbers.new.kept.items ≡ numbers.old.kept.items ++ map (λ line. line.no) (filter (is_kept alone range.now lines.now) lines.now)) }
    ensures dropped { OnOk result (numbers.new.dropped.items ≡ numbers.old.dropped.items ++ map (λ line. line.no) (filter (λ line. not (is_kept alone range.now lines.now line)) lines.now)) }
{
    let mode = Mode::of(alone, range, lines);
    for line in lines {
        if mode.is_kept(range, line) {
            numbers.kept.push(line.no)?;
        } else {
            numbers.dropped.push(line.no)?;
        }
    }
    Ok(())
}

/// The numbers of the pages of these tiles.
pub fn numbers_of(
    alloc: Global,
    tiles: &[TileLine],
    range: &Range,
    alone: bool,
) -> Result<Numbers, NoMemory>
    ensures kept { IfOk result (λ numbers. numbers.kept.items ≡ kept_numbers alone range.now tiles.now) }
    ensures dropped { IfOk result (λ numbers. numbers.dropped.items ≡ dropped_numbers alone range.now tiles.now) }
{
    let mut numbers = Numbers {
        kept: Vec::new(alloc),
        dropped: Vec::new(alloc),
    };
    for tile in tiles {
        add_tile(&mut numbers, tile.pages.items(), range, alone)?;
    }
    Ok(numbers)
}
