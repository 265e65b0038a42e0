//! What the rules of a tile ask of the lines before another one.
ghost use Rattle.std.specs.Prelude.{◌≡◌, ◌<◌, ◌++◌, ◌+◌, ◌^◌, ◌∷◌, [], List, length};
ghost use Rattle.lethe_header.specs.Headers.{before_of, dkey_then, entries_in, puts_in};
ghost use Rattle.lethe_header.specs.declared.header.PageLine.{PageLine};

use crate::PageLine;
use lethe_page::Class;

/// The lines of a tile so far.
#[derive(Clone, Copy, Debug, PartialEq, Eq)]
pub struct Before {
    pub lines: u64,
    /// How many are of pages of puts.
    pub puts: u64,
    /// How many entries their pages have together.
    pub entries: u64,
    /// The greatest delete key of the last page of puts, 0 where there is none.
    pub dkey: u64,
}

impl Before {
    /// No line.
    pub fn none() -> Before
        ensures { result ≡ before_of [] }
    {
        Before {
            lines: 0,
            puts: 0,
            entries: 0,
            dkey: 0,
        }
    }

    /// With one line more.
    pub fn with(self, line: &PageLine) -> Before
        requires lines { self.lines + 1 < 2 ^ 64 }
        requires puts { self.puts + 1 < 2 ^ 64 }
        requires entries { self.entries + line.now.entries < 2 ^ 64 }
        ensures { (lines : List PageLine) → self ≡ before_of lines → result ≡ before_of (lines ++ line.now ∷ []) }
    {
        let puts = match line.class {
            Class::Puts => self.puts + 1,
            Class::Tombs => self.puts,
        };
        let dkey = match line.fence {
            Some((_, dkey)) => dkey,
            None => self.dkey,
        };
        Before {
            lines: self.lines + 1,
            puts,
            entries: self.entries + line.entries as u64,
            dkey,
        }
    }
}
