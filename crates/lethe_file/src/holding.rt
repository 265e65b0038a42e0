//! The pages that a cursor has still to fetch.
ghost use Rattle.std.specs.Prelude.{◌≡◌, map, length, reverse, IfOk};
ghost use Rattle.lethe_header.specs.Facts.{lines_of};
ghost use Rattle.lethe_file.specs.Waiting.{tiles_between, waiting, waits_for, waits_in};

use crate::page::{PageCheck, check_of};
use crate::range::KeyRange;
use lethe_base::{List, NoMemory};
use lethe_disk::Disk;
use lethe_header::{PageLine, TileLine};
use std::alloc::Global;
use std::sync::Arc;

/// A page that is still to be fetched, and what its line tells of it.
#[derive(Drop)]
pub struct HeldPage<P> {
    pub check: PageCheck,
    pub page: Arc<P>,
}

/// The pages of these lines, one for each.
fn hold_pages<D: Disk>(
    alloc: Global,
    lines: &[PageLine],
    pages: &[Arc<D::Page>],
) -> Result<List<HeldPage<D::Page>>, NoMemory>
    requires { length pages.now ≡ length lines.now }
    ensures { IfOk result (λ held. waits_in D.page_bytes held ≡ waits_for lines.now (map (λ page. D.page_bytes page.value) pages.now)) }
{
    let mut held = Vec::with_capacity(alloc, lines.len())?;
    for (place, line) in lines.iter().enumerate() {
        held.push(HeldPage {
            check: check_of(line),
            page: pages[place].clone()?,
        })?;
    }
    Ok(List::of(held))
}

/// Of each tile that meets the range its pages, the last tile first.
pub fn hold_tiles<D: Disk>(
    alloc: Global,
    tiles: &[TileLine],
    pages: &[Arc<D::Page>],
    range: &KeyRange,
) -> Result<Vec<List<HeldPage<D::Page>>>, NoMemory>
    requires { length pages.now ≡ length (lines_of tiles.now) }
    ensures { IfOk result (λ held. reverse (waiting D.page_bytes held.items) ≡ tiles_between range.now.lo range.now.hi tiles.now (map (λ page. D.page_bytes page.value) pages.now)) }
{
    let mut held = Vec::new(alloc);
    let mut rest = pages;
    for tile in tiles {
        let lines = tile.pages.items();
        let (own, behind) = rest.split_at(lines.len());
        if range.meets(tile) {
            held.push(hold_pages::<D>(alloc, lines, own)?)?;
        }
        rest = behind;
    }
    held.reverse();
    Ok(held)
}
