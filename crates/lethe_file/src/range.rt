//! A range of keys.
ghost use Rattle.std.specs.Prelude.{◌≡◌, IfOk};
ghost use Rattle.std.specs.Option.{option_copied};
ghost use Rattle.lethe_file.specs.Between.{is_below, is_in, meets};

use lethe_base::{Key, NoMemory};
use lethe_header::TileLine;
use std::cmp::Ordering;

/// The keys from `lo` up to `hi`, which isn't one of them; to the last key where there is no `hi`.
#[derive(Debug, Drop)]
pub struct KeyRange {
    pub lo: Key,
    pub hi: Option<Key>,
}

impl KeyRange {
    /// The range of copies of these keys.
    pub fn of(lo: &Key, hi: Option<&Key>) -> Result<KeyRange, NoMemory>
        ensures { IfOk result (λ range. (range.lo ≡ lo.now) × (range.hi ≡ option_copied hi.entry)) }
    {
        let hi = match hi {
            Some(hi) => Some(hi.copy()?),
            None => None,
        };
        Ok(KeyRange { lo: lo.copy()?, hi })
    }

    /// Whether the key is in the range.
    pub fn has(&self, key: &Key) -> bool
        ensures { result ≡ is_in self.now.lo self.now.hi key.now }
    {
        self.lo.cmp(key) != Ordering::Greater && ends_above(&self.hi, key)
    }

    /// Whether a key of the tile may be in the range.
    pub fn meets(&self, tile: &TileLine) -> bool
        ensures { result ≡ meets self.now.lo self.now.hi tile.now }
    {
        self.lo.cmp(&tile.hi) != Ordering::Greater && ends_above(&self.hi, &tile.lo)
    }
}

/// Whether the key is below the upper end.
fn ends_above(hi: &Option<Key>, key: &Key) -> bool
    ensures { result ≡ is_below key.now hi.now }
{
    match hi {
        Some(hi) => key.cmp(hi) == Ordering::Less,
        None => true,
    }
}
