//! A file that has no numbers yet.
ghost use Rattle.std.specs.Prelude.{◌≡◌, ◌≤◌, ◌-◌, ◌^◌, min, length, map, sum_by, zip, All, IfOk};
ghost use Rattle.lethe_base.specs.Limits.{max_place};
ghost use Rattle.lethe_header.specs.Facts.{lines_of};
ghost use Rattle.lethe_build.specs.Drafts.{IsDraft, IsNumbered, numbers_for, with_number, with_numbers};

use crate::built::Built;
use crate::page::digest_of;
use lethe_base::{List, NoMemory};
use lethe_header::{Header, PageLine, TileLine, write_header};
use std::alloc::Global;
use std::mem;

/// A file that has no numbers yet: what its header says of its tiles, where each page has the number 0, and the bytes of its pages, in the order
/// of their lines.
#[derive(Debug, Drop)]
pub struct Draft {
    pub tiles: List<TileLine>,
    pub pages: List<List<u8>>,
}

impl Draft {
    /// The file with these numbers for its pages, in their order, and that one for its header.
    pub fn numbered(self, alloc: Global, numbers: &[u64], no: u64) -> Result<Built, NoMemory>
        requires draft { IsDraft self }
        requires count { length numbers.now ≡ length self.pages }
        requires numbers { All (λ number. number ≤ max_place) numbers.now }
        requires no { no ≤ max_place }
        ensures { IfOk result (IsNumbered self numbers.now no) }
    {
        let Draft { tiles, pages } = self;
        let header = Header {
            no,
            tiles: with_numbers(alloc, tiles, numbers),
        };
        let bytes = write_header(alloc, &header)?;
        let digest = digest_of(&bytes);
        Ok(Built {
            header,
            header_bytes: List::of(bytes),
            digest,
            pages,
        })
    }
}

/// The tiles, whose pages get these numbers in their order.
fn with_numbers(alloc: Global, tiles: List<TileLine>, numbers: &[u64]) -> List<TileLine>
    requires { length numbers.now ≡ length (lines_of tiles) }
    ensures { result ≡ with_numbers numbers.now tiles }
{
    let mut tiles = tiles.into_vec();
    let mut left = numbers;
    for tile in tiles.iter_mut() {
        // The tile has no pages for a moment, so that its lines are changed where they stand.
        let lines = mem::replace(&mut tile.pages, List::of(Vec::new(alloc)));
        let (own, rest) = left.split_at(lines.items().len());
        tile.pages = number_lines(lines, own);
        left = rest;
    }
    List::of(tiles)
}

/// The lines with these numbers, in their order.
fn number_lines(lines: List<PageLine>, numbers: &[u64]) -> List<PageLine>
    requires { length numbers.now ≡ length lines }
    ensures { result ≡ map with_number (zip numbers.now lines) }
{
    let mut lines = lines.into_vec();
    for (i, line) in lines.iter_mut().enumerate() {
        line.no = numbers[i];
    }
    List::of(lines)
}

/// How many numbers the files take, one for each page and one for each header, or 2^64 - 1 where they take more.
pub fn numbers_for(drafts: &[Draft]) -> u64
    ensures { result ≡ min (2 ^ 64 - 1) (sum_by numbers_for drafts.now) }
{
    let mut numbers = 0u64;
    for draft in drafts {
        numbers = numbers.saturating_add(draft.pages.items().len() as u64 + 1);
    }
    numbers
}
