//! What a buffer answers, whatever it is made of.
ghost use Rattle.std.specs.Prelude.{◌≡◌, ℕ, ◌+◌, ◌≤◌, ◌↔◌, List, [], length, slice_get, IsTrue, OnOk, IfOk};
ghost use Rattle.std.specs.Option.{option_copied};
ghost use Rattle.lethe_base.specs.Entries.{IsAscending, entry_of, Inserts};
ghost use Rattle.lethe_base.specs.declared.entry.Entry.{Entry};
ghost use Rattle.lethe_mem.specs.Order.{count_below};

use lethe_base::{Entry, Key, NoMemory};

/// The entries of a store that no file holds yet, at most one of each key, in the order of the keys. Contracts see a buffer as
/// the list of its entries, and as `spare`, the number of inserts for which it has memory already.
pub trait Buffer: Drop + Send + Sync {
    ghost entries: { Self → List Entry };

    ghost spare: { Self → ℕ };

    /// Takes memory for so many inserts. The entries and the memory that was taken before stay, whatever it answers.
    fn reserve(&mut self, more: usize) -> Result<(), NoMemory>
        ensures entries { entries self.new ≡ entries self.old }
        ensures spare { OnOk result (more ≤ spare self.new) }
        ensures kept { spare self.old ≤ spare self.new };

    /// Puts an entry in the place of the one of its key, or adds it. It takes no memory.
    fn insert(&mut self, entry: Entry)
        requires { 1 ≤ spare self.old }
        ensures entries { Inserts entry (entries self.old) (entries self.new) }
        ensures spare { spare self.old ≤ spare self.new + 1 };

    /// The entry of a key.
    fn find(&self, key: &Key) -> Option<&Entry>
        ensures { option_copied result ≡ entry_of key.now (entries self.now) };

    /// The entry at a place, counted from 0 in the order of the keys.
    fn at(&self, place: usize) -> Option<&Entry>
        ensures { option_copied result ≡ slice_get (entries self.now) place };

    /// How many entries there are.
    fn len(&self) -> usize
        ensures { result ≡ length (entries self.now) };

    /// Whether there is no entry.
    fn is_empty(&self) -> bool
        ensures { IsTrue result ↔ (entries self.now ≡ []) };

    /// A buffer of the same entries, in memory of its own. How many inserts it has memory for is left open.
    fn copy(&self) -> Result<Self, NoMemory>
        ensures { IfOk result (λ copy. entries copy ≡ entries self.now) };

    ghost ascending: { (b : Self) → IsAscending (entries b) };
}

/// The place at which the keys from `lo` on begin: the number of entries whose keys are below `lo`.
pub fn first_from<B: Buffer>(buffer: &B, lo: &Key) -> usize
    ensures { result ≡ count_below lo.now (B.entries buffer.now) }
{
    let mut from = 0;
    let mut to = buffer.len();
    while from < to {
        let middle = from + (to - from) / 2;
        match buffer.at(middle) {
            Some(entry) if entry.key < *lo => from = middle + 1,
            _ => to = middle,
        }
    }
    from
}
