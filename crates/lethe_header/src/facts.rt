//! The facts of a file.
ghost use Rattle.std.specs.Prelude.{◌≡◌, ◌+◌, ◌<◌, ◌≤◌, ◌^◌, ◌++◌, ◌∷◌, [], List, length, All, IfOk};
ghost use Rattle.lethe_header.specs.Headers.{entries_in, HasFewEntries, HasSpelling};
ghost use Rattle.lethe_base.specs.Shapes.{earlier};
ghost use Rattle.lethe_header.specs.Facts.{facts_of, lines_of, sums_of, least_key, greatest_key};
ghost use Rattle.lethe_header.specs.declared.header.PageLine.{PageLine};

use crate::{Header, PageLine, TileLine};
use lethe_base::{FileFacts, Key, NoMemory};
use lethe_page::Class;

/// What lines say together.
#[derive(Clone, Copy, Debug, PartialEq, Eq)]
struct Sums {
    oldest: Option<u64>,
    tombs: u64,
    entries: u64,
    max_seq: u64,
}

/// The smaller of two times, where there are any.
fn earlier(time: Option<u64>, other: Option<u64>) -> Option<u64>
    ensures { result ≡ earlier time other }
{
    match (time, other) {
        (Some(time), Some(other)) => Some(time.min(other)),
        (Some(time), None) => Some(time),
        (None, other) => other,
    }
}

impl Sums {
    fn none() -> Sums
        ensures { result ≡ sums_of [] }
    {
        Sums {
            oldest: None,
            tombs: 0,
            entries: 0,
            max_seq: 0,
        }
    }

    fn with_line(self, line: &PageLine) -> Sums
        requires entries { self.entries + line.now.entries < 2 ^ 64 }
        requires tombs { self.tombs + line.now.entries < 2 ^ 64 }
        ensures sums { (before : List PageLine) → self ≡ sums_of before → result ≡ sums_of (before ++ line.now ∷ []) }
        ensures entries { result.entries ≡ self.entries + line.now.entries }
        ensures tombs { result.tombs ≤ self.tombs + line.now.entries }
    {
        let tombs = match line.class {
            Class::Puts => self.tombs,
            Class::Tombs => self.tombs + line.entries as u64,
        };
        Sums {
            oldest: earlier(self.oldest, line.oldest),
            tombs,
            entries: self.entries + line.entries as u64,
            max_seq: self.max_seq.max(line.max_seq),
        }
    }

    fn with_lines(self, lines: &[PageLine]) -> Sums
        requires entries { self.entries + entries_in lines.now < 2 ^ 64 }
        requires tombs { self.tombs + entries_in lines.now < 2 ^ 64 }
        ensures sums { (before : List PageLine) → self ≡ sums_of before → result ≡ sums_of (before ++ lines.now) }
        ensures entries { result.entries ≡ self.entries + entries_in lines.now }
        ensures tombs { result.tombs ≤ self.tombs + entries_in lines.now }
    {
        let mut sums = self;
        for line in lines {
            sums = sums.with_line(line);
        }
        sums
    }
}

fn sum_all(tiles: &[TileLine]) -> Sums
    requires few { length tiles.now ≤ 256 }
    requires tiles { All HasFewEntries tiles.now }
    ensures { result ≡ sums_of (lines_of tiles.now) }
{
    let mut sums = Sums::none();
    for tile in tiles {
        sums = sums.with_lines(tile.pages.items());
    }
    sums
}

/// Copies of the least and the greatest key.
fn end_keys(tiles: &[TileLine]) -> Result<(Key, Key), NoMemory>
    requires { 0 < length tiles.now }
    ensures { IfOk result (λ keys. (keys.0 ≡ least_key tiles.now) × (keys.1 ≡ greatest_key tiles.now)) }
{
    let lo = tiles[0].lo.copy()?;
    let hi = tiles[tiles.len() - 1].hi.copy()?;
    Ok((lo, hi))
}

impl Header {
    /// The facts of the file, which stands in that level and is swept up to that place. Only its two keys are copied.
    pub fn facts(&self, level: u64, swept: u64) -> Result<FileFacts, NoMemory>
        requires { HasSpelling self.now }
        ensures { IfOk result (λ facts. facts ≡ facts_of level swept self.now) }
    {
        let tiles = self.tiles.items();
        let (lo, hi) = end_keys(tiles)?;
        let Sums {
            oldest,
            tombs,
            entries,
            max_seq,
        } = sum_all(tiles);
        Ok(FileFacts {
            no: self.no,
            level,
            lo,
            hi,
            oldest,
            tombs,
            entries,
            max_seq,
            swept,
        })
    }
}
