//! A store of small files, what is asked of it, and what its disk holds.

use lethe_base::{Body, Config, Kind, Range, Value};
use lethe_drive::{Engine, Event, Reply, Time, drive};
use lethe_images::roomy_disk;
use lethe_manifest::read_manifest;
use lethe_memdisk::MemDisk;
use lethe_page::read_page;
use lethe_test_values::{SMALL, key_of, value_of};
use std::alloc::Global;
use std::marker::Model;
use std::test::Fail;

/// What is asked of a store. A put has a key and a delete key, and each value is the same.
#[derive(Clone, Copy)]
pub enum Ask {
    Put(&'static str, u64),
    Delete(&'static str),
    /// An erase of the delete keys from the first up to the second.
    Erase(u64, u64),
    Tick(u64),
    Get(&'static str),
    Freeze,
    Flush,
    Begin,
    WriteOut(usize),
    Install(usize),
    Cancel(usize),
}

fn put_of(alloc: Global, key: &str, dkey: u64) -> Result<Event, Fail> {
    let value = value_of(alloc, b"x")?;
    let key = key_of(alloc, key)?;
    Ok(Event::Put { key, dkey, value })
}

fn event_of(alloc: Global, ask: Ask) -> Result<Event, Fail> {
    match ask {
        Ask::Put(key, dkey) => put_of(alloc, key, dkey),
        Ask::Delete(key) => Ok(Event::Delete {
            key: key_of(alloc, key)?,
        }),
        Ask::Erase(lo, hi) => Ok(Event::Erase {
            range: Range::new(lo, hi).ok_or("a range")?,
        }),
        Ask::Tick(to) => Ok(Event::Tick {
            to: Time::new(to).ok_or("a time")?,
        }),
        Ask::Get(key) => Ok(Event::Get {
            key: key_of(alloc, key)?,
        }),
        Ask::Freeze => Ok(Event::Freeze),
        Ask::Flush => Ok(Event::Flush),
        Ask::Begin => Ok(Event::Begin),
        Ask::WriteOut(job) => Ok(Event::WriteOut { job }),
        Ask::Install(job) => Ok(Event::Install { job }),
        Ask::Cancel(job) => Ok(Event::Cancel { job }),
    }
}

fn events_of(alloc: Global, asks: &[Ask]) -> Result<Vec<Event>, Fail> {
    let mut events = Vec::new(alloc);
    for ask in asks {
        events.push(event_of(alloc, *ask)?)?;
    }
    Ok(events)
}

/// A store under test. That it is sound stands in its model, so its callers have nothing to prove.
#[derive(Drop)]
pub struct Store {
    engine: Engine<MemDisk>,
}

impl Model for Store {
    ghost use Rattle.std.specs.Prelude.{⊤};
    ghost use Rattle.lethe_core.specs.Running.{IsSound};
    ghost use Rattle.lethe_core.specs.View.{view_of};

    ghost Value = { Unit {0} };

    ghost view = { λ _. tt };

    ghost invariant = { λ s. IsSound ⊤ (view_of s.engine.core) };
}

impl Store {
    /// The store of a disk.
    pub fn opened(alloc: Global, disk: MemDisk) -> Result<Store, Fail> {
        match Engine::open(alloc, disk, &Config::new(SMALL)?) {
            Ok(engine) => Ok(Store { engine }),
            Err(_) => Err(Fail::new("not opened")),
        }
    }

    /// The store of an empty disk, with room for many calls.
    pub fn new(alloc: Global) -> Result<Store, Fail> {
        Store::opened(alloc, roomy_disk(alloc)?)
    }

    /// What is answered to a run of these.
    pub fn take(&mut self, alloc: Global, asks: &[Ask]) -> Result<Vec<Reply>, Fail> {
        let events = events_of(alloc, asks)?;
        let mut port = self.engine.new_port(alloc)?;
        Ok(drive(&mut self.engine, alloc, &mut port, events)?)
    }

    /// How many erases are still to be done, and the disk.
    pub fn close(self) -> (u64, MemDisk) {
        (self.engine.stat().pending, self.engine.into_disk())
    }
}

/// The objects of a kind, each by its number and its bytes.
pub fn objects_of(
    alloc: Global,
    disk: &mut MemDisk,
    kind: Kind,
) -> Result<Vec<(u64, Vec<u8>)>, Fail> {
    let mut objects = Vec::new(alloc);
    for (name, bytes) in lethe_images::objects_of(alloc, disk)? {
        if name.kind == kind {
            objects.push((name.no, bytes))?;
        }
    }
    Ok(objects)
}

fn add_erases(alloc: Global, places: &mut Vec<u64>, bytes: &[u8]) -> Result<(), Fail> {
    let manifest = read_manifest(alloc, bytes).ok().ok_or("a manifest")?;
    for erase in manifest.erases.items() {
        places.push(erase.seq)?;
    }
    Ok(())
}

/// The places of the erases of the manifests.
pub fn erases_of(alloc: Global, disk: &mut MemDisk) -> Result<Vec<u64>, Fail> {
    let mut places = Vec::new(alloc);
    for (_, bytes) in &objects_of(alloc, disk, Kind::Manifest)? {
        add_erases(alloc, &mut places, bytes)?;
    }
    Ok(places)
}

fn count_puts_in(alloc: Global, bytes: &[u8]) -> Result<usize, Fail> {
    let (_, entries) = read_page(alloc, bytes).ok().ok_or("a page")?;
    let mut count: usize = 0;
    for entry in &entries {
        if let Body::Put { .. } = entry.body {
            count = count.saturating_add(1);
        }
    }
    Ok(count)
}

/// How many puts the pages have.
pub fn count_puts(alloc: Global, disk: &mut MemDisk) -> Result<usize, Fail> {
    let mut count: usize = 0;
    for (_, bytes) in &objects_of(alloc, disk, Kind::Page)? {
        count = count.saturating_add(count_puts_in(alloc, bytes)?);
    }
    Ok(count)
}
