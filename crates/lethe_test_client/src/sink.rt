//! A sink that fails only where it is full.
ghost use Rattle.std.specs.Prelude.{◌≡◌, [], Some, IfOk};
ghost use Rattle.lethe_test_client.specs.Roomy.{IsRoomySink};

use lethe_base::NoMemory;
use lethe_wire::{MemSink, Sink, WireFailed};
use std::alloc::Global;
use std::marker::Model;

/// Takes up to 1 MiB, and fails only where it is full. Contracts see what it took, and how its calls went.
#[derive(Drop)]
pub struct RoomySink {
    inner: MemSink,
}

impl Model for RoomySink {
    ghost use Rattle.lethe_wire.specs.Memory.{Wired};
    ghost use Rattle.lethe_test_client.specs.Roomy.{IsRoomySink};

    ghost Value = { Wired };

    ghost view = { λ s. s.inner };

    ghost invariant = { λ s. IsRoomySink s.inner };
}

impl RoomySink {
    /// A sink that has taken nothing.
    pub fn new(alloc: Global) -> Result<RoomySink, NoMemory>
        ensures { IfOk result (λ sink. sink ≡ record { bytes = []; failing = []; calls = 0; faults = 0 }) }
    {
        Ok(RoomySink {
            inner: MemSink::new(alloc, Vec::new(alloc))?,
        })
    }

    /// The sink in it.
    pub fn into_inner(self) -> MemSink
        ensures inner { result ≡ self }
        ensures roomy { IsRoomySink self }
    {
        self.inner
    }
}

impl Sink for RoomySink {
    ghost taken = { λ s. Some s.bytes };

    ghost faults = { λ s. s.faults };

    fn write(&mut self, bytes: &[u8]) -> Result<usize, WireFailed> {
        self.inner.write(bytes)
    }
}
