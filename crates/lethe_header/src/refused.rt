//! Why bytes are no header.
ghost use Rattle.std.specs.Prelude.{◌≡◌};
ghost use Rattle.lethe_header.specs.Reading.{refusal_of};
ghost use Rattle.lethe_header.specs.declared.refused.HeaderRefused.TheVariants.{NoMemory};

use lethe_base::EntryRefused;
use std::alloc::AllocFailed;

/// Why bytes are no header. `at` is where the field begins.
#[derive(Clone, Copy, Debug, PartialEq, Eq)]
pub enum HeaderRefused {
    /// The field goes past the end.
    Short { at: u64 },
    /// No header has this in the field: other letters or another format, a number out of its range, a class that is
    /// neither 1 nor 2, a mark that is neither 0 nor 1, or a number of filter words that isn't that of so many entries.
    Kind { at: u64 },
    /// The field breaks a rule of tiles and lines. A key is told where its length stands, and a tombstone line that
    /// isn't the first, or a line of puts behind 64 others, at its class.
    Order { at: u64 },
    /// The header ends before the byte at `at`.
    Trailing { at: u64 },
    /// There was no memory for the tiles.
    NoMemory,
}

impl From<EntryRefused> for HeaderRefused {
    ghost from_gives = { λ why refused. refused ≡ refusal_of why };

    fn from(why: EntryRefused) -> Self {
        match why {
            EntryRefused::Short { at } => HeaderRefused::Short { at },
            EntryRefused::Kind { at } => HeaderRefused::Kind { at },
            EntryRefused::NoMemory => HeaderRefused::NoMemory,
        }
    }
}

impl<T: Drop> From<AllocFailed<T>> for HeaderRefused {
    ghost from_gives = { λ _ refused. refused ≡ NoMemory };

    fn from(_: AllocFailed<T>) -> Self {
        HeaderRefused::NoMemory
    }
}
