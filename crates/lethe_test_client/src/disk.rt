//! A disk that never fails.
ghost use Rattle.std.specs.Prelude.{◌≡◌, ◌≤◌, ◌<◌, ◌+◌, ⊤, [], Some, None, length, IfOk, IsSome, IsSomeAnd, IsErrOf, OnOk};
ghost use Rattle.std.specs.FinMap.{empty, keys};
ghost use Rattle.lethe_disk.specs.Directory.{object, content};
ghost use Rattle.lethe_disk.specs.Disk.{IsSynced};
ghost use Rattle.lethe_test_client.specs.Roomy.{IsFull, IsRoomyDisk, disk_room};

use lethe_base::{Kind, Name, NoMemory};
use lethe_disk::{Disk, DiskRefused};
use lethe_memdisk::{MemDisk, MemPage, MemPort};
use std::alloc::Global;
use std::marker::Model;
use std::sync::Wait;

/// How many device calls a disk has room for.
pub const DISK_ROOM: u64 = 1000;

/// A disk in memory with room for a thousand device calls, which are those of the disk in it. It never fails: a call past its room waits forever.
#[derive(Drop)]
pub struct RoomyDisk<R: Wait + Send + Drop> {
    rt: R,
    inner: MemDisk,
}

impl<R: Wait + Send + Drop> Model for RoomyDisk<R> {
    ghost use Rattle.lethe_memdisk.specs.Held.{Held, held_code};
    ghost use Rattle.lethe_test_client.specs.Roomy.{IsRoomyDisk};

    ghost Value = { Held };

    ghost coded = { held_code };

    ghost view = { λ d. d.inner };

    ghost invariant = { λ d. IsRoomyDisk d.inner };
}

impl<R: Wait + Send + Drop> RoomyDisk<R> {
    ghost use Rattle.lethe_memdisk.specs.Held.{fresh};

    /// An empty disk.
    pub fn new(rt: R, alloc: Global) -> Result<RoomyDisk<R>, NoMemory>
        ensures { IfOk result (λ disk. disk ≡ fresh empty disk_room []) }
    {
        Ok(RoomyDisk {
            rt,
            inner: MemDisk::new(alloc, DISK_ROOM, Vec::new(alloc))?,
        })
    }

    /// The disk in it.
    pub fn into_inner(self) -> MemDisk
        ensures inner { result ≡ self }
        ensures roomy { IsRoomyDisk self }
    {
        self.inner
    }
}

/// Hands on what a call answered, and never returns where it failed, which it does only past the room.
fn unfailing<R: Wait, T>(
    rt: &R,
    disk: &MemDisk,
    answer: Result<T, DiskRefused>,
) -> Result<T, DiskRefused>
    requires full { IsErrOf answer DiskRefused.Failed → IsFull disk.now }
    ensures same { result ≡ answer }
    ensures unfailing { IsErrOf result DiskRefused.Failed → ⊥ }
{
    match answer {
        Err(DiskRefused::Failed) => wait_forever(rt, disk),
        other => other,
    }
}

/// Never returns.
fn wait_forever<R: Wait>(rt: &R, disk: &MemDisk) -> !
    requires { IsFull disk.now }
{
    for _ in rt.forever() {}
    unreachable!()
}

impl<R: Wait + Send + Drop> Disk for RoomyDisk<R> {
    type Page = MemPage;

    type Port = MemPort;

    ghost use Rattle.lethe_memdisk.specs.Effects.{Created, Written, Removed, Synced, Nothing};
    ghost use Rattle.lethe_memdisk.specs.Held.{seen_of, Answers};
    ghost use Rattle.lethe_memdisk.specs.Images.{directory_image};

    ghost tells = { ⊤ };

    ghost seen = { seen_of };

    ghost faults = { λ d. d.faults };

    ghost ports_fail = { ⊥ };

    ghost page_bytes = { λ p. p };

    ghost port_faults = { λ _. 0 };

    ghost fetches = { λ p. p };

    ghost itself = { λ told d. directory_image d };

    fn create(&mut self, name: Name, bytes: &[u8]) -> Result<(), DiskRefused>
        requires { object (seen_of self.old).directory name ≡ None }
        ensures { Answers (Created name bytes.now) result self.old self.new }
    {
        let answer = self.inner.create(name, bytes);
        unfailing(&self.rt, &self.inner, answer)
    }

    fn write_at(&mut self, name: Name, at: u64, bytes: &[u8]) -> Result<(), DiskRefused>
        requires { IsSomeAnd (object (seen_of self.old).directory name) (λ old. at ≤ length old) }
        ensures call { Answers (Written name at bytes.now) result self.old self.new }
        ensures byte { length bytes.now ≡ 1 → at < length (content (seen_of self.old).directory name) → IsErrOf result DiskRefused.NoMemory → ⊥ }
    {
        let answer = self.inner.write_at(name, at, bytes);
        unfailing(&self.rt, &self.inner, answer)
    }

    fn remove(&mut self, name: Name) -> Result<(), DiskRefused>
        requires { IsSome (object (seen_of self.old).directory name) }
        ensures call { Answers (Removed name) result self.old self.new }
        ensures no_memory { IsErrOf result DiskRefused.NoMemory → ⊥ }
    {
        let answer = self.inner.remove(name);
        unfailing(&self.rt, &self.inner, answer)
    }

    fn sync(&mut self) -> Result<(), DiskRefused>
        ensures call { Answers Synced result self.old self.new }
        ensures no_memory { IsErrOf result DiskRefused.NoMemory → ⊥ }
        ensures done { OnOk result (IsSynced (seen_of self.new)) }
    {
        let answer = self.inner.sync();
        unfailing(&self.rt, &self.inner, answer)
    }

    fn names(&mut self, alloc: Global) -> Result<Vec<Name>, DiskRefused>
        ensures call { Answers Nothing result self.old self.new }
        ensures done { IfOk result (λ names. names.items ≡ keys (seen_of self.old).directory) }
    {
        let answer = self.inner.names(alloc);
        unfailing(&self.rt, &self.inner, answer)
    }

    fn read(&mut self, alloc: Global, name: Name) -> Result<Vec<u8>, DiskRefused>
        requires { IsSome (object (seen_of self.old).directory name) }
        ensures call { Answers Nothing result self.old self.new }
        ensures done { IfOk result (λ bytes. object (seen_of self.old).directory name ≡ Some bytes.items) }
    {
        let answer = self.inner.read(alloc, name);
        unfailing(&self.rt, &self.inner, answer)
    }

    fn open_page(&mut self, alloc: Global, name: Name) -> Result<MemPage, DiskRefused>
        requires kind { name.kind ≡ Kind.Page }
        requires present { IsSome (object (seen_of self.old).directory name) }
        ensures call { Answers Nothing result self.old self.new }
        ensures done { IfOk result (λ page. object (seen_of self.old).directory name ≡ Some page) }
    {
        let answer = self.inner.open_page(alloc, name);
        unfailing(&self.rt, &self.inner, answer)
    }

    fn port(&mut self, alloc: Global) -> Result<MemPort, NoMemory>
        ensures port { IfOk result (λ port. port ≡ 0) }
        ensures same { self.new ≡ self.old }
    {
        self.inner.port(alloc)
    }

    fn fetch(alloc: Global, port: &mut MemPort, page: &MemPage) -> Result<Vec<u8>, DiskRefused>
        ensures done { IfOk result (λ bytes. bytes.items ≡ page.now) }
        ensures counted { port.new ≡ port.old + 1 }
        ensures refused { IsErrOf result DiskRefused.Failed → ⊥ }
    {
        MemDisk::fetch(alloc, port, page)
    }

    fn port_faults(port: &MemPort) -> u64 {
        MemDisk::port_faults(port)
    }

    fn faults(&self) -> u64 {
        self.inner.faults()
    }
}
