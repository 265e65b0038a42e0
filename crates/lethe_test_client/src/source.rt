//! A source that never fails.
ghost use Rattle.std.specs.Prelude.{◌≡◌};

use lethe_wire::{MemSource, Source, WireFailed};
use std::alloc::Global;
use std::marker::Model;

/// Gives its bytes, and never fails. Contracts see what is left.
#[derive(Drop)]
pub struct SteadySource {
    inner: MemSource,
}

impl Model for SteadySource {
    ghost use Rattle.std.specs.Prelude.{◌≡◌, [], List, ℕ};

    ghost Value = { List ℕ };

    ghost view = { λ s. s.inner.bytes };

    ghost invariant = { λ s. s.inner.failing ≡ [] };
}

impl SteadySource {
    /// A source of these bytes.
    pub fn new(alloc: Global, bytes: Vec<u8>) -> SteadySource
        ensures { result ≡ bytes.items }
    {
        SteadySource {
            inner: MemSource::new(bytes, Vec::new(alloc)),
        }
    }
}

impl Source for SteadySource {
    ghost use Rattle.std.specs.Prelude.{Some};

    ghost left = { λ s. Some s };

    ghost faults = { λ _. 0 };

    fn read(&mut self, into: &mut [u8]) -> Result<usize, WireFailed> {
        match self.inner.read(into) {
            Ok(count) => Ok(count),
            Err(_) => unreachable!(),
        }
    }
}
