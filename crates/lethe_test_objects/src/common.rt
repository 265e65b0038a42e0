//! A store of small files, and the calls that its tests make.
ghost use Rattle.lethe_core.specs.Running.{IsSound};
ghost use Rattle.lethe_core.specs.View.{view_of};

use lethe_base::{Config, MAX_TIME, Range, Refused, Value};
use lethe_disk::Disk;
use lethe_drive::{Event, Reply, drive};
use lethe_engine::{Engine, Ticked};
use lethe_images::{Held, held_by, roomy_disk};
use lethe_memdisk::MemDisk;
use lethe_test_values::{SMALL, key_of, value_of};
use std::alloc::Global;
use std::marker::Model;
use std::process::Abort;
use std::test::Fail;

/// The threshold of its configuration. Level 0 may have a value for 33 behind its erase, and level 1 for 100.
pub const THRESHOLD: u64 = 100;

/// What is asked of a store. A put has a key, a delete key and a value.
#[derive(Clone, Copy)]
pub enum Ask {
    Put(&'static str, u64, &'static str),
    Delete(&'static str),
    Tick(u64),
}

/// What was made; the process ends where it wasn't.
pub fn must<T>(rt: &impl Abort, made: Result<T, Fail>) -> T {
    match made {
        Ok(value) => value,
        Err(_) => panic!(rt; "it isn't made"),
    }
}

pub fn new_disk(alloc: Global, rt: &impl Abort) -> MemDisk {
    must(rt, roomy_disk(alloc))
}

/// What the objects of the disk hold.
pub fn held_on(alloc: Global, rt: &impl Abort, disk: &mut MemDisk) -> Held {
    must(rt, held_by(alloc, disk))
}

/// A store under test. That it is sound stands in its model, so its callers have nothing to prove. Each call has a port of its own.
#[derive(Drop)]
pub struct Store<D: Disk> {
    engine: Engine<D>,
}

impl<D: Disk> Model for Store<D> {
    ghost use Rattle.lethe_core.specs.Running.{IsSound};
    ghost use Rattle.lethe_core.specs.View.{view_of};

    ghost Value = { Unit {0} };

    ghost view = { λ _. tt };

    ghost invariant = { λ s. IsSound D.tells (view_of s.engine.core) };
}

impl<D: Disk> Store<D> {
    /// The store of a disk, or none where that fails.
    pub fn opened_if_sound(alloc: Global, rt: &impl Abort, disk: D) -> Option<Store<D>> {
        let config = Config::new(SMALL).expect(rt, "a configuration");
        match Engine::open(alloc, disk, &config) {
            Ok(engine) => Some(Store { engine }),
            Err(_) => None,
        }
    }

    pub fn opened(alloc: Global, rt: &impl Abort, disk: D) -> Store<D> {
        Store::opened_if_sound(alloc, rt, disk).expect(rt, "a store")
    }

    fn port(&mut self, alloc: Global, rt: &impl Abort) -> D::Port {
        self.engine.new_port(alloc).expect(rt, "a port")
    }

    /// Makes the put, and tells the place that it takes, or why it is refused.
    pub fn put(
        &mut self,
        alloc: Global,
        rt: &impl Abort,
        key: &str,
        dkey: u64,
        value: &str,
    ) -> Result<u64, Refused> {
        let key = key_of(alloc, key).expect(rt, "a key");
        let value = value_of(alloc, value.as_bytes()).expect(rt, "a value");
        let mut port = self.port(alloc, rt);
        self.engine.put(alloc, &mut port, key, dkey, value)
    }

    pub fn delete(&mut self, alloc: Global, rt: &impl Abort, key: &str) -> Result<u64, Refused> {
        let key = key_of(alloc, key).expect(rt, "a key");
        let mut port = self.port(alloc, rt);
        self.engine.delete(alloc, &mut port, key)
    }

    /// Erases the delete keys from the first up to the second.
    pub fn erase(&mut self, alloc: Global, rt: &impl Abort, lo: u64, hi: u64) -> u64 {
        let range = Range::new(lo, hi).expect(rt, "a range");
        let mut port = self.port(alloc, rt);
        let erased = self.engine.erase(alloc, &mut port, range);
        erased.expect(rt, "an erase")
    }

    /// Moves the clock, and tells what is answered.
    pub fn tick(&mut self, alloc: Global, rt: &impl Abort, to: u64) -> Result<Ticked, Refused> {
        assert!(rt; to <= MAX_TIME);
        let mut port = self.port(alloc, rt);
        self.engine.tick(alloc, &mut port, to)
    }

    /// Moves the clock, which is not refused.
    pub fn must_tick(&mut self, alloc: Global, rt: &impl Abort, to: u64) -> Ticked {
        self.tick(alloc, rt, to).expect(rt, "a tick")
    }

    /// Makes the call, and tells the place that it takes, or why it is refused.
    pub fn answer(&mut self, alloc: Global, rt: &impl Abort, ask: Ask) -> Result<u64, Refused> {
        match ask {
            Ask::Put(key, dkey, value) => self.put(alloc, rt, key, dkey, value),
            Ask::Delete(key) => self.delete(alloc, rt, key),
            Ask::Tick(to) => self.tick(alloc, rt, to).map(|ticked| ticked.place),
        }
    }

    /// The delete key and the value of a key.
    pub fn get(&mut self, alloc: Global, rt: &impl Abort, key: &str) -> Option<(u64, Value)> {
        let key = key_of(alloc, key).expect(rt, "a key");
        let mut port = self.port(alloc, rt);
        let got = self.engine.get(alloc, &mut port, &key);
        got.expect(rt, "an answer")
    }

    /// Flushes the frozen buffer.
    pub fn flush(&mut self, alloc: Global, rt: &impl Abort) {
        self.engine.flush(alloc).expect(rt, "a flush");
    }

    /// What is answered to a run of events.
    pub fn drive(&mut self, alloc: Global, rt: &impl Abort, events: Vec<Event>) -> Vec<Reply> {
        let mut port = self.port(alloc, rt);
        let replies = drive(&mut self.engine, alloc, &mut port, events);
        replies.expect(rt, "replies")
    }

    /// Whether the certificates that were answered are those of these two ticks.
    pub fn has_certified(&self, first: &Ticked, second: &Ticked) -> bool {
        match (first.certificate, second.certificate) {
            (Some(first), Some(second)) => {
                self.engine.certificates() == [first, second].as_slice()
            }
            _ => false,
        }
    }

    pub fn into_engine(self) -> Engine<D>
        ensures { IsSound D.tells (view_of result.core) }
    {
        self.engine
    }

    pub fn into_disk(self) -> D {
        self.engine.into_disk()
    }
}
