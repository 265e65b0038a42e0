//! Keys that pages have.
ghost use Rattle.std.specs.Prelude.{◌↔◌, ◌⊎◌, All, Contains, IsTrue, OnOk};

use lethe_base::{Entry, Key, NoMemory};
use std::alloc::Global;
use std::collections::BTreeSet;

/// The keys of a tile's pages that were looked at so far.
#[derive(Drop)]
pub struct TakenKeys {
    keys: BTreeSet<Key>,
}

impl TakenKeys {
    ghost use Rattle.lethe_base.specs.Keys.{Bytes};
    ghost use Rattle.lethe_agreement.specs.Soundness.{IsTaken};

    /// No key.
    pub fn new(alloc: Global) -> TakenKeys
        ensures { (key : Bytes) → IsTaken result key → ⊥ }
    {
        TakenKeys {
            keys: BTreeSet::new(alloc),
        }
    }

    fn contains(&self, key: &Key) -> bool
        ensures { IsTrue result ↔ IsTaken self.now key.now }
    {
        self.keys.contains(key)
    }

    /// Whether no entry has a taken key.
    pub(crate) fn has_none(&self, entries: &[Entry]) -> bool
        ensures { IsTrue result ↔ All (λ entry. IsTaken self.now entry.key → ⊥) entries.now }
    {
        for entry in entries {
            if self.contains(&entry.key) {
                return false;
            }
        }
        true
    }

    /// Takes these keys too.
    pub(crate) fn take(&mut self, keys: Vec<Key>) -> Result<(), NoMemory>
        ensures { OnOk result ((key : Bytes) → IsTaken self.new key ↔ (IsTaken self.old key ⊎ Contains keys.items key)) }
    {
        for key in keys {
            self.keys.insert(key)?;
        }
        Ok(())
    }
}
