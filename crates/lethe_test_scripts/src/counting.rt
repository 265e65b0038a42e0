//! A disk that counts its device calls, and a sink that notes the count at its first write.
ghost use Rattle.std.specs.Prelude.{Some};

use lethe_base::{Name, NoMemory};
use lethe_disk::{Disk, DiskRefused};
use lethe_wire::{MemSink, Sink, WireFailed};
use std::alloc::{AllocError, Global};
use std::sync::Arc;
use std::sync::atomic::{AtomicU64, Ordering};

/// How many device calls there were. Those who share it see one count.
#[derive(Drop)]
pub struct Calls {
    count: Arc<AtomicU64>,
}

impl Calls {
    /// A count of no call.
    pub fn none(alloc: Global) -> Result<Calls, AllocError> {
        Ok(Calls {
            count: Arc::new(alloc, AtomicU64::new(0))?,
        })
    }

    /// The same count, for one more who shares it.
    pub fn share(&self) -> Result<Calls, AllocError> {
        Ok(Calls {
            count: Arc::try_clone(&self.count)?,
        })
    }

    /// How many there were up to now.
    pub fn count(&self) -> u64 {
        self.count.load(Ordering::SeqCst)
    }

    fn rise(&self) {
        self.count.fetch_add(1, Ordering::SeqCst);
    }
}

/// The disk that it was made of, whose device calls it counts, also those that fail.
#[derive(Drop)]
pub struct CountingDisk<D> {
    inner: D,
    calls: Calls,
}

impl<D: Disk> CountingDisk<D> {
    /// A disk whose calls raise this count.
    pub fn new(inner: D, calls: Calls) -> CountingDisk<D> {
        CountingDisk { inner, calls }
    }
}

impl<D: Disk> Disk for CountingDisk<D> {
    type Page = D::Page;

    type Port = D::Port;

    ghost tells = { D.tells };

    ghost seen = { λ d. D.seen d.inner };

    ghost faults = { λ d. D.faults d.inner };

    ghost ports_fail = { D.ports_fail };

    ghost page_bytes = { D.page_bytes };

    ghost port_faults = { D.port_faults };

    ghost fetches = { D.fetches };

    ghost itself = { λ told d. D.itself told d.inner };

    fn create(&mut self, name: Name, bytes: &[u8]) -> Result<(), DiskRefused> {
        self.calls.rise();
        self.inner.create(name, bytes)
    }

    fn write_at(&mut self, name: Name, at: u64, bytes: &[u8]) -> Result<(), DiskRefused> {
        self.calls.rise();
        self.inner.write_at(name, at, bytes)
    }

    fn remove(&mut self, name: Name) -> Result<(), DiskRefused> {
        self.calls.rise();
        self.inner.remove(name)
    }

    fn sync(&mut self) -> Result<(), DiskRefused> {
        self.calls.rise();
        self.inner.sync()
    }

    fn names(&mut self, alloc: Global) -> Result<Vec<Name>, DiskRefused> {
        self.calls.rise();
        self.inner.names(alloc)
    }

    fn read(&mut self, alloc: Global, name: Name) -> Result<Vec<u8>, DiskRefused> {
        self.calls.rise();
        self.inner.read(alloc, name)
    }

    fn open_page(&mut self, alloc: Global, name: Name) -> Result<D::Page, DiskRefused> {
        self.calls.rise();
        self.inner.open_page(alloc, name)
    }

    fn port(&mut self, alloc: Global) -> Result<D::Port, NoMemory> {
        self.inner.port(alloc)
    }

    fn fetch(alloc: Global, port: &mut D::Port, page: &D::Page) -> Result<Vec<u8>, DiskRefused> {
        D::fetch(alloc, port, page)
    }

    fn port_faults(port: &D::Port) -> u64 {
        D::port_faults(port)
    }

    fn faults(&self) -> u64 {
        self.inner.faults()
    }
}

/// A sink in memory that notes the count of calls that it finds at its first write.
#[derive(Drop)]
pub struct NotingSink {
    inner: MemSink,
    calls: Calls,
    first: Option<u64>,
}

impl NotingSink {
    /// A sink that notes this count.
    pub fn new(inner: MemSink, calls: Calls) -> NotingSink {
        NotingSink {
            inner,
            calls,
            first: None,
        }
    }

    /// The count at the first write, and None before it.
    pub fn first(&self) -> Option<u64> {
        self.first
    }

    /// What it has taken.
    pub fn bytes(&self) -> &[u8] {
        self.inner.bytes()
    }
}

impl Sink for NotingSink {
    ghost taken = { λ s. Some s.inner.bytes };

    ghost faults = { λ s. s.inner.faults };

    fn write(&mut self, bytes: &[u8]) -> Result<usize, WireFailed> {
        if self.first.is_none() {
            self.first = Some(self.calls.count());
        }
        self.inner.write(bytes)
    }
}
