//! Keys, ordered by their bytes.
ghost use Rattle.std.specs.Prelude.{◌≡◌, ◌<◌, ◌↔◌, length, IfOk, IsErrOf};
ghost use Rattle.std.proofs.Common.{rules};
ghost use Rattle.std.specs.Cmp.{eq_by_cmp_equiv, partial_order_from_own_ties};
ghost use Rattle.std.specs.Cmp.Rules.{comparing};
ghost use Rattle.std.specs.Cmp.Lexicographic.{nat_list_cmp_total};
ghost use Rattle.std.specs.Ordering.{as_partial_cmp};
ghost use Rattle.lethe_base.specs.Limits.{IsKey};
ghost use Rattle.lethe_base.specs.Keys.{key_cmp, same_key};

use crate::NoMemory;
use std::cmp::Ordering;
use std::marker::Model;

/// The greatest number of bytes of a key.
pub const MAX_KEY: usize = 255;

/// From 1 to 255 bytes, any bytes. Contracts see a key as the list of its bytes.
#[derive(Debug, Drop)]
pub struct Key {
    bytes: Vec<u8>,
}

impl Model for Key {
    ghost use Rattle.std.specs.Prelude.{List, ℕ};
    ghost use Rattle.lethe_base.specs.Limits.{IsKey};

    ghost Value = { List ℕ };

    ghost view = { λ k. k.bytes.items };

    ghost invariant = { λ k. IsKey k.bytes.items };
}

/// Why bytes are no key.
#[derive(Clone, Copy, Debug, PartialEq, Eq)]
pub enum KeyRefused {
    /// There are no bytes.
    Empty,
    /// There are more than 255 bytes.
    Long,
}

impl Key {
    /// The key of these bytes.
    pub fn new(bytes: Vec<u8>) -> Result<Key, KeyRefused>
        ensures key { IfOk result (λ key. key ≡ bytes.items) }
        ensures empty { IsErrOf result KeyRefused.Empty ↔ (length bytes.items ≡ 0) }
        ensures long { IsErrOf result KeyRefused.Long ↔ (255 < length bytes.items) }
    {
        if bytes.is_empty() {
            Err(KeyRefused::Empty)
        } else if bytes.len() > MAX_KEY {
            Err(KeyRefused::Long)
        } else {
            Ok(Key { bytes })
        }
    }

    /// Its bytes.
    pub fn bytes(&self) -> &[u8]
        ensures bytes { result.now ≡ self.now }
        ensures limits { IsKey self.now }
    {
        &self.bytes
    }

    /// A key of the same bytes.
    pub fn copy(&self) -> Result<Key, NoMemory>
        ensures { IfOk result (λ key. key ≡ self.now) }
    {
        Ok(Key {
            bytes: Vec::from_slice(*self.bytes.allocator(), &self.bytes)?,
        })
    }
}

impl PartialEq for Key {
    ghost eq = { same_key };

    ghost laws = { Prim.search (comparing, rules, nat_list_cmp_total) };

    fn eq(&self, other: &Key) -> bool {
        self.cmp(other) == Ordering::Equal
    }
}

impl Eq for Key {
    ghost laws = { eq_by_cmp_equiv nat_list_cmp_total };
}

impl Ord for Key {
    ghost cmp = { key_cmp };

    ghost total = { nat_list_cmp_total };

    ghost matches_partial_cmp = { Prim.search (comparing, rules) };

    ghost matches_eq = { Prim.search (comparing, rules) };

    fn cmp(&self, other: &Key) -> Ordering {
        self.bytes().cmp(other.bytes())
    }
}

impl PartialOrd for Key {
    ghost partial_cmp = { as_partial_cmp key_cmp };

    ghost laws = { partial_order_from_own_ties (Prim.search (comparing, rules)) (Prim.search (comparing, rules)) };

    fn partial_cmp(&self, other: &Key) -> Option<Ordering> {
        Some(self.cmp(other))
    }
}
