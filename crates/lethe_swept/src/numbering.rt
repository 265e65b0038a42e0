//! The file of a draft, once its new pages have numbers.
ghost use Rattle.std.specs.Prelude.{◌≡◌, ◌≤◌, ◌+◌, length, drop, flat_map, filter_map, All, IfOk, OnOk};
ghost use Rattle.lethe_base.specs.Limits.{max_place};
ghost use Rattle.lethe_swept.specs.Drafts.{IsDraft, IsNumbered, new_in, new_line, numbered, numbers_for, tiles_with};

use crate::draft::{DraftLine, DraftTile, SweptDraft};
use crate::page::digest_of;
use lethe_base::{List, NoMemory};
use lethe_build::Built;
use lethe_header::{Header, PageLine, TileLine, write_header};
use std::alloc::Global;

impl SweptDraft {
    /// The file with these numbers for its new pages, in their order, and that one for its header. Its `pages` are the new ones.
    pub fn numbered(self, alloc: Global, numbers: &[u64], no: u64) -> Result<Built, NoMemory>
        requires draft { IsDraft self }
        requires count { length numbers.now ≡ length self.pages }
        requires numbers { All (λ number. number ≤ max_place) numbers.now }
        requires no { no ≤ max_place }
        ensures { IfOk result (IsNumbered self numbers.now no) }
    {
        let SweptDraft { tiles, pages } = self;
        let header = Header {
            no,
            tiles: List::of(tiles_with(alloc, tiles.into_vec(), numbers)?),
        };
        let bytes = write_header(alloc, &header)?;
        let digest = digest_of(&bytes);
        Ok(Built {
            header,
            header_bytes: List::of(bytes),
            digest,
            pages,
        })
    }

    /// How many numbers it takes: one for each new page, and one for its header.
    pub fn numbers_for(&self) -> u64
        ensures { result ≡ numbers_for self.now }
    {
        self.pages.items().len() as u64 + 1
    }
}

/// The tiles' lines, of which those of new pages get these numbers in their order.
fn tiles_with(
    alloc: Global,
    tiles: Vec<DraftTile>,
    numbers: &[u64],
) -> Result<Vec<TileLine>, NoMemory>
    requires { length numbers.now ≡ length (flat_map new_in tiles.items) }
    ensures { IfOk result (λ lines. lines.items ≡ tiles_with numbers.now tiles.items) }
{
    let mut taken = 0;
    let mut all = Vec::with_capacity(alloc, tiles.len())?;
    for tile in tiles {
        let DraftTile { lo, hi, lines } = tile;
        let pages = number_lines(alloc, lines, numbers, &mut taken)?;
        all.push(TileLine { lo, hi, pages })?;
    }
    Ok(all)
}

/// The lines, of which those of new pages get the numbers behind the taken ones.
fn number_lines(
    alloc: Global,
    lines: List<DraftLine>,
    numbers: &[u64],
    taken: &mut usize,
) -> Result<List<PageLine>, NoMemory>
    requires { taken.old + length (filter_map new_line lines) ≤ length numbers.now }
    ensures lines { IfOk result (λ numbers_in. numbers_in ≡ numbered (drop taken.old numbers.now) lines) }
    ensures taken { OnOk result (taken.new ≡ taken.old + length (filter_map new_line lines)) }
{
    let lines = lines.into_vec();
    let mut pages = Vec::with_capacity(alloc, lines.len())?;
    for line in lines {
        match line {
            DraftLine::Own(line) => pages.push(line)?,
            DraftLine::New(mut line) => {
                line.no = numbers[*taken];
                *taken += 1;
                pages.push(line)?;
            }
        }
    }
    Ok(List::of(pages))
}
