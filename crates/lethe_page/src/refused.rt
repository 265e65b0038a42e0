//! Why bytes are no page.
ghost use Rattle.std.specs.Prelude.{◌≡◌};
ghost use Rattle.lethe_page.specs.Reading.{refusal_of};
ghost use Rattle.lethe_page.specs.declared.refused.PageRefused.TheVariants.{NoMemory};

use lethe_base::EntryRefused;
use std::alloc::AllocFailed;

/// Why bytes are no page. `at` is where the field begins.
#[derive(Clone, Copy, Debug, PartialEq, Eq)]
pub enum PageRefused {
    /// The field goes past the end.
    Short { at: u64 },
    /// No page has this in the field: other letters or another format, a class that is neither 1 nor 2, no entries, an
    /// entry's kind that isn't the class's, or what no entry has there.
    Kind { at: u64 },
    /// The key isn't above the one before. `at` is where its length stands.
    Order { at: u64 },
    /// The page ends before the byte at `at`.
    Trailing { at: u64 },
    /// There was no memory for the entries.
    NoMemory,
}

impl From<EntryRefused> for PageRefused {
    ghost from_gives = { λ why refused. refused ≡ refusal_of why };

    fn from(why: EntryRefused) -> Self {
        match why {
            EntryRefused::Short { at } => PageRefused::Short { at },
            EntryRefused::Kind { at } => PageRefused::Kind { at },
            EntryRefused::NoMemory => PageRefused::NoMemory,
        }
    }
}

impl<T: Drop> From<AllocFailed<T>> for PageRefused {
    ghost from_gives = { λ _ refused. refused ≡ NoMemory };

    fn from(_: AllocFailed<T>) -> Self {
        PageRefused::NoMemory
    }
}
