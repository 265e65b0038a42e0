//! A disk in memory, which fails at the calls that it is told.
ghost use Rattle.std.specs.Prelude.{◌≡◌, ◌≤◌, ◌<◌, ◌+◌, ◌↔◌, ⊤, [], Some, None, length, IfOk, IsTrue, IsFalse, IsSome, IsSomeAnd, IsErrOf, OnOk};
ghost use Rattle.std.specs.FinMap.{empty, keys};
ghost use Rattle.lethe_disk.specs.Directory.{object, content};
ghost use Rattle.lethe_disk.specs.Disk.{IsSynced};

use crate::objects::Objects;
use crate::page::{MemPage, MemPort};
use crate::past::Past;
use lethe_base::{Kind, Name, NoMemory};
use lethe_disk::{Disk, DiskRefused};
use std::alloc::Global;
use std::marker::Model;

/// A disk in memory. Some of its calls fail: those whose numbers, counted from 1, it was given, each
/// past the room that it was made with, and each past a fuse.
#[derive(Drop)]
pub struct MemDisk {
    alloc: Global,
    past: Past,
    // How many calls it had taken before those in `past`.
    earlier: u64,
    room: u64,
    failing: Vec<u64>,
    // The number of the last call that passes. It is wide enough for any fuse after any number of calls.
    fuse: Option<u128>,
    faults: u64,
}

impl Model for MemDisk {
    ghost use Rattle.std.specs.Prelude.{length};
    ghost use Rattle.lethe_memdisk.specs.Held.{Held, held_code, IsRoomy};

    ghost Value = { Held };

    ghost coded = { held_code };

    ghost view = { λ d. record { start = d.past.start; earlier = d.earlier; effects = d.past.effects; room = d.room; failing = d.failing.items; fuse = d.fuse; faults = d.faults } };

    ghost invariant = { λ d. IsRoomy d.earlier (length d.past.effects) d.room d.past.room };
}

impl MemDisk {
    ghost use Rattle.lethe_memdisk.specs.Held.{calls_of, fails, failed, fresh, swapped, seen_of, left_by_crash};

    /// An empty disk with room for so many device calls.
    pub fn new(alloc: Global, calls: u64, failing: Vec<u64>) -> Result<MemDisk, NoMemory>
        ensures { IfOk result (λ disk. disk ≡ fresh empty calls failing.items) }
    {
        MemDisk::of(alloc, Objects::new(alloc), calls, failing)
    }

    // These objects, all of them synced.
    fn of(
        alloc: Global,
        objects: Objects,
        calls: u64,
        failing: Vec<u64>,
    ) -> Result<MemDisk, NoMemory>
        ensures { IfOk result (λ disk. disk ≡ fresh objects calls failing.items) }
    {
        Ok(MemDisk {
            alloc,
            past: Past::new(alloc, objects, calls as usize)?,
            earlier: 0,
            room: calls,
            failing,
            fuse: None,
            faults: 0,
        })
    }

    /// Lets that many further calls pass, and fails every later one. It takes the place of an earlier fuse.
    pub fn fuse(&mut self, more: u64)
        ensures { self.new ≡ record self.old { fuse = Some (calls_of self.old + more) } }
    {
        self.fuse = Some(self.calls() as u128 + more as u128);
    }

    // How many calls it has taken.
    fn calls(&self) -> u64
        ensures calls { result ≡ calls_of self.now }
        ensures within { result ≤ self.now.room }
    {
        self.earlier + self.past.len() as u64
    }

    // Whether the next call fails.
    fn fails(&self) -> bool
        ensures fails { result ≡ fails self.now }
        ensures room { IsFalse result → calls_of self.now < self.now.room }
    {
        let calls = self.calls();
        if calls >= self.room {
            return true;
        }
        let number = calls + 1;
        if let Some(last) = self.fuse
            && last < number as u128
        {
            return true;
        }
        self.failing.contains(&number)
    }

    // Counts a call that fails.
    fn fail(&mut self) -> DiskRefused
        ensures failed { self.new ≡ failed self.old }
        ensures later { self.old.faults ≤ self.new.faults }
        ensures refused { result ≡ DiskRefused.Failed }
    {
        if self.calls() < self.room {
            self.past.nothing();
        }
        self.faults = self.faults.saturating_add(1);
        DiskRefused::Failed
    }

    /// A disk as a crash at a moment may leave this one, with no call taken and none that is to fail. Where no sync
    /// had followed, a range that was written holds `fill`, and what was created is there, and what was removed is
    /// gone, only where `keep` says so.
    pub fn crash(&self, moment: u64, fill: u8, keep: bool) -> Result<MemDisk, NoMemory>
        requires { moment ≤ calls_of self.now }
        ensures disk { IfOk result (λ disk. disk ≡ fresh (left_by_crash moment fill keep self.now) self.now.room []) }
        ensures image { (seen_of self.now).left moment (left_by_crash moment fill keep self.now) }
    {
        let calls = moment.saturating_sub(self.earlier);
        let objects = self.past.crashed(self.alloc, calls as usize, fill, keep)?;
        MemDisk::of(self.alloc, objects, self.room, Vec::new(self.alloc))
    }

    /// Puts other bytes into an object, for tests. It is no device call. All that is there then counts as synced,
    /// and what a crash may have left before is forgotten.
    pub fn swap(&mut self, name: Name, bytes: Vec<u8>) -> bool
        ensures found { IsTrue result ↔ IsSome (object (seen_of self.old).directory name) }
        ensures done { IsTrue result → self.new ≡ swapped name bytes.items self.old }
        ensures absent { IsFalse result → self.new ≡ self.old }
    {
        let calls = self.calls();
        if !self.past.swap(name, bytes) {
            return false;
        }
        self.earlier = calls;
        true
    }
}

impl Disk for MemDisk {
    type Page = MemPage;

    type Port = MemPort;

    ghost use Rattle.lethe_memdisk.specs.Effects.{Created, Written, Removed, Synced, Nothing};
    ghost use Rattle.lethe_memdisk.specs.Held.{seen_of, Answers};
    ghost use Rattle.lethe_memdisk.specs.Images.{directory_image};

    ghost tells = { ⊤ };

    ghost seen = { seen_of };

    ghost faults = { λ d. d.faults };

    ghost ports_fail = { ⊥ };

    ghost page_bytes = { λ p. p };

    ghost port_faults = { λ _. 0 };

    ghost fetches = { λ p. p };

    ghost itself = { λ told d. directory_image d };

    fn create(&mut self, name: Name, bytes: &[u8]) -> Result<(), DiskRefused>
        requires { object (seen_of self.old).directory name ≡ None }
        ensures { Answers (Created name bytes.now) result self.old self.new }
    {
        if self.fails() {
            return Err(self.fail());
        }
        self.past.create(name, bytes.to_vec(self.alloc)?)?;
        Ok(())
    }

    fn write_at(&mut self, name: Name, at: u64, bytes: &[u8]) -> Result<(), DiskRefused>
        requires { IsSomeAnd (object (seen_of self.old).directory name) (λ old. at ≤ length old) }
        ensures call { Answers (Written name at bytes.now) result self.old self.new }
        ensures byte { length bytes.now ≡ 1 → at < length (content (seen_of self.old).directory name) → IsErrOf result DiskRefused.NoMemory → ⊥ }
    {
        if self.fails() {
            return Err(self.fail());
        }
        self.past.write(self.alloc, name, at, bytes)?;
        Ok(())
    }

    fn remove(&mut self, name: Name) -> Result<(), DiskRefused>
        requires { IsSome (object (seen_of self.old).directory name) }
        ensures call { Answers (Removed name) result self.old self.new }
        ensures no_memory { IsErrOf result DiskRefused.NoMemory → ⊥ }
    {
        if self.fails() {
            return Err(self.fail());
        }
        self.past.remove(name);
        Ok(())
    }

    fn sync(&mut self) -> Result<(), DiskRefused>
        ensures call { Answers Synced result self.old self.new }
        ensures no_memory { IsErrOf result DiskRefused.NoMemory → ⊥ }
        ensures done { OnOk result (IsSynced (seen_of self.new)) }
    {
        if self.fails() {
            return Err(self.fail());
        }
        self.past.sync();
        Ok(())
    }

    fn names(&mut self, alloc: Global) -> Result<Vec<Name>, DiskRefused>
        ensures call { Answers Nothing result self.old self.new }
        ensures done { IfOk result (λ names. names.items ≡ keys (seen_of self.old).directory) }
    {
        if self.fails() {
            return Err(self.fail());
        }
        let names = self.past.objects().names(alloc)?;
        self.past.nothing();
        Ok(names)
    }

    fn read(&mut self, alloc: Global, name: Name) -> Result<Vec<u8>, DiskRefused>
        requires { IsSome (object (seen_of self.old).directory name) }
        ensures call { Answers Nothing result self.old self.new }
        ensures done { IfOk result (λ bytes. object (seen_of self.old).directory name ≡ Some bytes.items) }
    {
        if self.fails() {
            return Err(self.fail());
        }
        let bytes = self.past.objects().read(alloc, name)?;
        self.past.nothing();
        Ok(bytes)
    }

    fn open_page(&mut self, alloc: Global, name: Name) -> Result<MemPage, DiskRefused>
        requires kind { name.kind ≡ Kind.Page }
        requires present { IsSome (object (seen_of self.old).directory name) }
        ensures call { Answers Nothing result self.old self.new }
        ensures done { IfOk result (λ page. object (seen_of self.old).directory name ≡ Some page) }
    {
        Ok(MemPage::of(self.read(alloc, name)?))
    }

    fn port(&mut self, alloc: Global) -> Result<MemPort, NoMemory>
        ensures port { IfOk result (λ port. port ≡ 0) }
        ensures same { self.new ≡ self.old }
    {
        Ok(MemPort::new())
    }

    fn fetch(alloc: Global, port: &mut MemPort, page: &MemPage) -> Result<Vec<u8>, DiskRefused>
        ensures done { IfOk result (λ bytes. bytes.items ≡ page.now) }
        ensures counted { port.new ≡ port.old + 1 }
        ensures refused { IsErrOf result DiskRefused.Failed → ⊥ }
    {
        port.count();
        Ok(page.read(alloc)?)
    }

    fn port_faults(port: &MemPort) -> u64 {
        0
    }

    fn faults(&self) -> u64 {
        self.faults
    }
}
