//! Ranges of keys that both ends belong to.
ghost use Rattle.std.specs.Prelude.{◌≡◌};
ghost use Rattle.lethe_fade.specs.Spans.{range_of, hull, joined, overlaps};

use lethe_base::{FileFacts, Key};
use std::marker::Model;

/// The keys from one to another, without copies of them. Contracts see the two keys.
#[derive(Drop)]
pub struct Span<'a> {
    lo: &'a Key,
    hi: &'a Key,
}

impl<'a> Model for Span<'a> {
    ghost use Rattle.lethe_fade.specs.Spans.{KeyRange};

    ghost Value = { KeyRange };

    ghost view = { λ s. record { lo = s.lo.now; hi = s.hi.now } };
}

impl<'a> Span<'a> {
    /// The keys from one to another.
    pub fn new(lo: &'a Key, hi: &'a Key) -> Span<'a>
        ensures { result ≡ record { lo = lo.now; hi = hi.now } }
    {
        Span { lo, hi }
    }

    /// The keys that a file may have.
    pub fn of(file: &'a FileFacts) -> Span<'a>
        ensures { result ≡ range_of file.now }
    {
        Span::new(&file.lo, &file.hi)
    }

    /// The least range that has all keys of some files.
    pub fn of_all(first: &'a FileFacts, others: &'a [FileFacts]) -> Span<'a>
        ensures { result ≡ hull (range_of first.now) others.now }
    {
        let mut keys = Span::of(first);
        for file in others {
            keys = keys.join(&Span::of(file));
        }
        keys
    }

    /// The same keys.
    pub fn copy(&self) -> Span<'a>
        ensures { result ≡ self.now }
    {
        Span::new(self.lo, self.hi)
    }

    /// Whether the two have a key in common.
    pub fn overlaps(&self, other: &Span) -> bool
        ensures { result ≡ overlaps self.now other.now }
    {
        self.lo <= other.hi && other.lo <= self.hi
    }

    /// The least range that has all keys of both.
    pub fn join(&self, other: &Span<'a>) -> Span<'a>
        ensures { result ≡ joined self.now other.now }
    {
        Span {
            lo: if other.lo < self.lo {
                other.lo
            } else {
                self.lo
            },
            hi: if other.hi < self.hi {
                self.hi
            } else {
                other.hi
            },
        }
    }
}
