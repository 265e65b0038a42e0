//! The keys that files reach.
ghost use Rattle.std.specs.Prelude.{◌≡◌, ◌<◌, map, length, IfOk};
ghost use Rattle.lethe_fade.specs.Claims.{claim_over};
ghost use Rattle.lethe_fade.specs.Spans.{joined, overlaps};
ghost use Rattle.lethe_header.specs.Facts.{least_key, greatest_key};
ghost use Rattle.lethe_job.specs.Chosen.{range_in, hull_in, hull_with};
ghost use Rattle.lethe_job.specs.Tasks.{plain_file};

use crate::filed::Filed;
use lethe_base::{Key, NoMemory};
use lethe_disk::Disk;
use lethe_fade::Claim;
use lethe_version::Shared;
use std::marker::Model;

/// The keys from one to another, both included, without copies of them. Contracts see the two keys.
#[derive(Drop)]
pub struct Reach<'a> {
    lo: &'a Key,
    hi: &'a Key,
}

impl<'a> Model for Reach<'a> {
    ghost use Rattle.lethe_fade.specs.Spans.{KeyRange};

    ghost Value = { KeyRange };

    ghost view = { λ s. record { lo = s.lo.now; hi = s.hi.now } };
}

impl<'a> Reach<'a> {
    /// The keys that a file may have.
    pub fn of<D: Disk>(file: &'a Filed<D>) -> Reach<'a>
        ensures { result ≡ range_in (plain_file file.now) }
    {
        Reach {
            lo: file.lo(),
            hi: file.hi(),
        }
    }

    /// The same of a file whose level isn't told.
    pub fn of_file<D: Disk>(file: &'a Shared<D>) -> Reach<'a>
        ensures { result ≡ record { lo = least_key file.now.file.value.header.tiles; hi = greatest_key file.now.file.value.header.tiles } }
    {
        let tiles = file.file().header().tiles.items();
        Reach {
            lo: &tiles[0].lo,
            hi: &tiles[tiles.len() - 1].hi,
        }
    }

    /// The least range that has all keys of some files, of which there has to be one.
    pub fn of_all<D: Disk>(files: &'a [Filed<D>]) -> Reach<'a>
        requires { 0 < length files.now }
        ensures { result ≡ hull_in (map plain_file files.now) }
    {
        Reach::of(&files[0]).with(&files[1..])
    }

    /// The least range that has all its keys and those of the files.
    pub fn with<D: Disk>(self, files: &'a [Filed<D>]) -> Reach<'a>
        ensures { result ≡ hull_with self.entry (map plain_file files.now) }
    {
        let mut reach = self;
        for file in files {
            reach = reach.join(&Reach::of(file));
        }
        reach
    }

    /// The least range that has all keys of both.
    fn join(&self, other: &Reach<'a>) -> Reach<'a>
        ensures { result ≡ joined self.now other.now }
    {
        Reach {
            lo: if other.lo < self.lo {
                other.lo
            } else {
                self.lo
            },
            hi: if other.hi < self.hi {
                self.hi
            } else {
                other.hi
            },
        }
    }

    /// Whether the two have a key in common.
    pub fn overlaps(&self, other: &Reach) -> bool
        ensures { result ≡ overlaps self.now other.now }
    {
        self.lo <= other.hi && other.lo <= self.hi
    }

    /// The claim on the levels from one to another, with copies of the two keys.
    pub fn claim(&self, first: u64, last: u64) -> Result<Claim, NoMemory>
        ensures { IfOk result (λ claim. claim ≡ claim_over first last self.now) }
    {
        let lo = self.lo.copy()?;
        let hi = self.hi.copy()?;
        Ok(Claim {
            first,
            last,
            lo,
            hi,
        })
    }
}
