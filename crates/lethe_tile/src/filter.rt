//! Filters of keys.
ghost use Rattle.std.specs.Prelude.{◌≡◌, ℕ, [], ◌*◌, ◌%◌, ◌^◌, ◌<◌, ◌↔◌, ◌⊎◌, length, All, IfOk, IfSome, IsNone, IsTrue};
ghost use Rattle.lethe_tile.specs.Filters.{IsProbe, IsPlace, IsSet, MayHold, filter_bits, filter_len};

use crate::hash::{PROBES, hash_key, place};
use lethe_base::{Key, NoMemory};
use std::alloc::Global;
use std::marker::Model;

/// Bits by which it is told of most keys that they aren't among those of the filter. Contracts see a filter as the list of
/// its words, of which there is at least one.
#[derive(Debug, Drop)]
pub struct Filter {
    words: Vec<u64>,
}

impl Model for Filter {
    ghost use Rattle.std.specs.Prelude.{List, ℕ, ◌<◌, length};

    ghost Value = { List ℕ };

    ghost view = { λ f. f.words.items };

    ghost invariant = { λ f. 0 < length f.words.items };
}

impl Filter {
    /// The filter of these keys, with 10 bits or a few more for each: the bits of all their probes are set, and no others.
    pub fn build(alloc: Global, keys: &[Key]) -> Result<Filter, NoMemory>
        requires { 0 < length keys.now }
        ensures len { IfOk result (λ filter. 64 * length filter ≡ filter_len (length keys.now)) }
        ensures exact { IfOk result (λ filter. (bit : ℕ) → IsSet filter bit ↔ filter_bits keys.now bit) }
        ensures keys { IfOk result (λ filter. All (MayHold filter) keys.now) }
        ensures words { IfOk result (λ filter. All (λ word. word < 2 ^ 64) filter) }
    {
        let mut words = vec![in alloc; 0; (10 * keys.len()).div_ceil(64)]?;
        for key in keys {
            set_all(&mut words, hash_key(key));
        }
        Ok(Filter { words })
    }

    /// Whether the key may be among those of the filter: of each of those keys it says so, of any other rarely.
    pub fn may_hold(&self, key: &Key) -> bool
        ensures { IsTrue result ↔ MayHold self.now key.now }
    {
        let hash = hash_key(key);
        for probe in 0..PROBES {
            if !is_set(&self.words, place(hash, probe)) {
                return false;
            }
        }
        true
    }

    /// The filter of these words.
    pub fn of_words(words: Vec<u64>) -> Option<Filter>
        ensures some { IfSome result (λ filter. filter ≡ words.items) }
        ensures none { IsNone result ↔ (words.items ≡ []) }
    {
        if words.is_empty() {
            None
        } else {
            Some(Filter { words })
        }
    }

    /// Its words. Bit b is bit b % 64, counted from the least, of word b / 64.
    pub fn words(&self) -> &[u64]
        ensures words { result.now ≡ self.now }
        ensures some { 0 < length self.now }
    {
        &self.words
    }
}

/// Whether the bit at a place is set. A place past the last bit is counted on from the first one.
fn is_set(words: &[u64], place: u64) -> bool
    requires { 0 < length words.now }
    ensures { IsTrue result ↔ IsSet words.now (place % (64 * length words.now)) }
{
    words[(place / 64) as usize % words.len()] >> (place % 64) & 1 == 1
}

/// Sets the bit at a place, counted as by `is_set`.
fn set(words: &mut [u64], place: u64)
    requires { 0 < length words.old }
    ensures set { (bit : ℕ) → IsSet words.new bit ↔ (IsSet words.old bit ⊎ (bit ≡ place % (64 * length words.old))) }
    ensures words { All (λ word. word < 2 ^ 64) words.old → All (λ word. word < 2 ^ 64) words.new }
{
    let word = (place / 64) as usize % words.len();
    words[word] |= 1 << (place % 64);
}

/// Sets the bits of a key with this hash.
fn set_all(words: &mut [u64], hash: u64)
    requires { 0 < length words.old }
    ensures set { (bit : ℕ) → IsSet words.new bit ↔ (IsSet words.old bit ⊎ IsPlace (64 * length words.old) hash bit) }
    ensures words { All (λ word. word < 2 ^ 64) words.old → All (λ word. word < 2 ^ 64) words.new }
{
    for probe in 0..PROBES {
        set(words, place(hash, probe));
    }
}
