//! What a store tells of itself as a whole.
ghost use Rattle.std.specs.Prelude.{◌≡◌, length, sum_by};
ghost use Rattle.lethe_base.specs.History.{History, after};
ghost use Rattle.lethe_job.specs.Shapes.{due_shape};
ghost use Rattle.lethe_base.specs.declared.config.Fields.{Fields};
ghost use Rattle.lethe_header.specs.Facts.{lines_of, tombs_in};
ghost use Rattle.lethe_stored.specs.Stored.{Stored, layout_of};
ghost use Rattle.lethe_state.specs.Left.{left_with};
ghost use Rattle.lethe_state.specs.Remembered.{Remembers};
ghost use Rattle.lethe_version.specs.Versions.{files_of};
ghost use Rattle.lethe_engine.specs.Capped.{capped};
ghost use Rattle.lethe_core.specs.StandsNow.{StandsNow};
ghost use Rattle.lethe_core.specs.View.{view_of};

use crate::Engine;
use lethe_disk::Disk;
use lethe_header::{Header, PageLine};
use lethe_page::Class;
use lethe_version::Shared;

/// What a store tells of itself as a whole. A count that would pass 2^64 - 1 stays there.
#[derive(Clone, Copy, Debug, PartialEq, Eq)]
pub struct Stat {
    /// The time of the last tick.
    pub clock: u64,
    /// How many pins are held.
    pub pins: u64,
    /// How many erases are still to be carried out on files.
    pub pending: u64,
    /// How many files there are.
    pub files: u64,
    /// How many tombstones the files have.
    pub tombs: u64,
}

impl<D: Disk> Engine<D> {
    ghost use Rattle.lethe_engine.specs.Stats.{IsStatOf};

    /// What there is of the store as a whole. It makes no device call and no fetch, and answers on a stopped store too.
    pub fn stat(&self) -> Stat
        ensures stat { (config : Fields) (h : History) → StandsNow config h (view_of self.now.core)
            → result.clock ≡ (after h).clock }
        ensures shape { (s : Stored) → Remembers s self.now.core.state (view_of self.now.core).levels → IsStatOf (due_shape (layout_of s)) result }

        // On any disk, by what is in memory.
        ensures clock { result.clock ≡ self.now.core.state.manifest.clock }
        ensures pending { result.pending ≡ length (left_with self.now.core.state) }
        ensures files { result.files ≡ capped (length (files_of self.now.core.version)) }
        ensures tombs { result.tombs ≡ capped (sum_by (λ file. tombs_in (lines_of file.header.tiles)) (files_of self.now.core.version)) }
        ensures pins { result.pins ≡ length self.now.core.pins.pins }
    {
        let mut files: u64 = 0;
        let mut tombs: u64 = 0;
        for level in 0..self.core.version.levels() {
            let (more, dead) = counts_of(self.core.version.files(level));
            files = files.saturating_add(more);
            tombs = tombs.saturating_add(dead);
        }
        Stat {
            clock: self.core.state.manifest().clock,
            pins: self.core.pins.len() as u64,
            pending: self.core.state.left_count(),
            files,
            tombs,
        }
    }
}

/// How many files these are, and how many tombstones they have.
fn counts_of<D: Disk>(files: &[Shared<D>]) -> (u64, u64)
    ensures files { result.0 ≡ length files.now }
    ensures tombs { result.1 ≡ capped (sum_by (λ shared. tombs_in (lines_of shared.file.value.header.tiles)) files.now) }
{
    let mut tombs: u64 = 0;
    for file in files {
        tombs = tombs.saturating_add(tombs_of(file.file().header()));
    }
    (files.len() as u64, tombs)
}

/// How many tombstones the file of this header has.
fn tombs_of(header: &Header) -> u64
    ensures { result ≡ capped (tombs_in (lines_of header.now.tiles)) }
{
    let mut tombs: u64 = 0;
    let tiles = header.tiles.items();
    for tile in tiles {
        tombs = tombs.saturating_add(tombs_on(tile.pages.items()));
    }
    tombs
}

/// How many tombstones the pages of these lines have.
fn tombs_on(lines: &[PageLine]) -> u64
    ensures { result ≡ capped (tombs_in lines.now) }
{
    let mut tombs: u64 = 0;
    for line in lines {
        tombs = tombs.saturating_add(match line.class {
            Class::Puts => 0,
            Class::Tombs => line.entries as u64,
        });
    }
    tombs
}
