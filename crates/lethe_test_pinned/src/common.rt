//! A store of small files, the calls that its tests make, and what its disk holds.
ghost use Rattle.std.specs.Prelude.{◌≡◌, Ok};

use lethe_base::{Config, Kind, MAX_TIME, Name, Refused};
use lethe_disk::Disk;
use lethe_drive::{Event, Reply, drive};
use lethe_engine::{Engine, OpenRefused, Ticked};
use lethe_images::{objects_of, roomy_disk};
use lethe_memdisk::MemDisk;
use lethe_snapshot::Snapshot;
use lethe_test_values::{SMALL, key_of, value_of};
use std::alloc::Global;
use std::marker::Model;
use std::process::Abort;
use std::test::Fail;

/// The value of each put.
const VALUE: &[u8] = b"12 Elm Street";

/// What was made; the process ends where it wasn't.
pub fn must<T>(rt: &impl Abort, made: Result<T, Fail>) -> T
    ensures { made ≡ Ok result }
{
    match made {
        Ok(value) => value,
        Err(_) => panic!(rt; "it isn't made"),
    }
}

/// An empty disk, with room for many calls.
pub fn empty_disk(alloc: Global, rt: &impl Abort) -> MemDisk {
    must(rt, roomy_disk(alloc))
}

/// A store under test. That it is sound stands in its model, so its callers have nothing to prove. Each call has a port of its own.
#[derive(Drop)]
pub struct Store<D: Disk> {
    engine: Engine<D>,
}

impl<D: Disk> Model for Store<D> {
    ghost use Rattle.lethe_core.specs.Running.{IsSound};
    ghost use Rattle.lethe_core.specs.View.{view_of};

    ghost Value = { Unit {0} };

    ghost view = { λ _. tt };

    ghost invariant = { λ s. IsSound D.tells (view_of s.engine.core) };
}

impl<D: Disk> Store<D> {
    /// The store of a disk, or the disk where that fails.
    pub fn opened_or_left(alloc: Global, rt: &impl Abort, disk: D) -> Result<Store<D>, D> {
        let config = Config::new(SMALL).expect(rt, "a configuration");
        match Engine::open(alloc, disk, &config) {
            Ok(engine) => Ok(Store { engine }),
            Err(OpenRefused { disk, .. }) => Err(disk),
        }
    }

    pub fn opened(alloc: Global, rt: &impl Abort, disk: D) -> Store<D> {
        match Store::opened_or_left(alloc, rt, disk) {
            Ok(store) => store,
            Err(_) => panic!(rt; "no store"),
        }
    }

    pub fn port(&mut self, alloc: Global, rt: &impl Abort) -> D::Port {
        self.engine.new_port(alloc).expect(rt, "a port")
    }

    /// Puts the value under the key, with the delete key 7.
    pub fn put(&mut self, alloc: Global, rt: &impl Abort, key: &str) -> Result<u64, Refused> {
        let key = key_of(alloc, key).expect(rt, "a key");
        let value = value_of(alloc, VALUE).expect(rt, "a value");
        let mut port = self.port(alloc, rt);
        self.engine.put(alloc, &mut port, key, 7, value)
    }

    pub fn delete(&mut self, alloc: Global, rt: &impl Abort, key: &str) -> Result<u64, Refused> {
        let key = key_of(alloc, key).expect(rt, "a key");
        let mut port = self.port(alloc, rt);
        self.engine.delete(alloc, &mut port, key)
    }

    pub fn freeze(&mut self, alloc: Global) -> Result<bool, Refused> {
        self.engine.freeze(alloc)
    }

    pub fn flush(&mut self, alloc: Global) -> Result<bool, Refused> {
        self.engine.flush(alloc)
    }

    /// What is answered to a run of events.
    pub fn drive(&mut self, alloc: Global, rt: &impl Abort, events: Vec<Event>) -> Vec<Reply> {
        let mut port = self.port(alloc, rt);
        let replies = drive(&mut self.engine, alloc, &mut port, events);
        replies.expect(rt, "replies")
    }

    pub fn tick(&mut self, alloc: Global, rt: &impl Abort, to: u64) -> Result<Ticked, Refused> {
        assert!(rt; to <= MAX_TIME);
        let mut port = self.port(alloc, rt);
        self.engine.tick(alloc, &mut port, to)
    }

    pub fn pin(&mut self, alloc: Global) -> Result<Snapshot<D>, Refused> {
        self.engine.pin(alloc)
    }

    pub fn release(&mut self, snapshot: Snapshot<D>) {
        self.engine.release(snapshot);
    }

    /// How many changes there were.
    pub fn count(&self) -> u64 {
        self.engine.count()
    }

    pub fn clock(&self) -> u64 {
        self.engine.stat().clock
    }

    pub fn into_disk(self) -> D {
        self.engine.into_disk()
    }
}

/// Whether these are a put's value.
pub fn is_value(bytes: &[u8]) -> bool {
    bytes == VALUE
}

fn has_value(bytes: &[u8]) -> bool {
    bytes.windows(VALUE.len()).any(|window| is_value(window))
}

/// Whether an object has the value of a put.
pub fn holds_value(alloc: Global, rt: &impl Abort, disk: &mut MemDisk) -> bool {
    let objects = must(rt, objects_of(alloc, disk));
    objects.iter().any(|object| has_value(&object.1))
}

/// The names of the headers and the pages of a disk.
pub fn parts_of<D: Disk>(alloc: Global, rt: &impl Abort, disk: &mut D) -> Vec<Name> {
    let mut names = disk.names(alloc).expect(rt, "names");
    names.retain(|name| matches!(name.kind, Kind::File | Kind::Page));
    names
}
