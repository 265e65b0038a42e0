//! A disk in memory whose ports fail at the fetches that they are told.
ghost use Rattle.std.specs.Prelude.{◌≡◌, ◌≤◌, ◌<◌, ◌+◌, ◌-◌, ◌^◌, ◌==◌, ◌↔◌, ℕ, min, ⊤, Some, None, length, IfOk, IsTrue, IsSome, IsSomeAnd, IsErrOf, OnOk};
ghost use Rattle.std.specs.FinMap.{keys};
ghost use Rattle.std.specs.List.{list_any};
ghost use Rattle.lethe_disk.specs.Directory.{object, content};
ghost use Rattle.lethe_disk.specs.Disk.{IsSynced, HasCause};

use crate::disk::MemDisk;
use crate::page::MemPage;
use lethe_base::{Kind, Name, NoMemory};
use lethe_disk::{Disk, DiskRefused, Fetches};
use std::alloc::{AllocError, Global};
use std::marker::Model;

/// A disk in memory, some of whose fetches fail: on each port that is made from it those whose numbers, counted from 1 on
/// that port, it was given. Its device calls are those of the disk that it was made of.
#[derive(Drop)]
pub struct FlakyDisk {
    inner: MemDisk,
    failing: Vec<u64>,
}

impl Model for FlakyDisk {
    ghost use Rattle.lethe_memdisk.specs.Flaky.{Flaky, flaky_code};

    ghost Value = { Flaky };

    ghost coded = { flaky_code };

    ghost view = { λ d. record { inner = d.inner; failing = d.failing.items } };
}

impl FlakyDisk {
    pub fn new(inner: MemDisk, fetches: Vec<u64>) -> FlakyDisk
        ensures { result ≡ record { inner = inner; failing = fetches.items } }
    {
        FlakyDisk {
            inner,
            failing: fetches,
        }
    }

    /// The disk that it was made of, as it is now.
    pub fn into_inner(self) -> MemDisk
        ensures { result ≡ self.inner }
    {
        self.inner
    }
}

/// A port of such a disk.
#[derive(Drop)]
pub struct FlakyPort {
    failing: Vec<u64>,
    fetches: Fetches,
    // How many fetches there were, up to the end of the type. No number behind it is listed.
    taken: u64,
    faults: u64,
}

impl Model for FlakyPort {
    ghost use Rattle.std.specs.Prelude.{◌≡◌, ◌-◌, ◌^◌, min};
    ghost use Rattle.lethe_memdisk.specs.Flaky.{Reader, reader_code};

    ghost Value = { Reader };

    ghost coded = { reader_code };

    ghost view = { λ p. record { failing = p.failing.items; fetches = p.fetches.count; faults = p.faults } };

    ghost invariant = { λ p. p.taken ≡ min p.fetches.count (2 ^ 64 - 1) };
}

// Whether a list has the number behind that of the last fetch. Where the count stands at the end of its type, it hasn't.
fn lists_next(listed: &[u64], taken: u64) -> bool
    ensures { (count : ℕ) → taken ≡ min count (2 ^ 64 - 1) → result ≡ list_any (λ n. n == count + 1) listed.now }
{
    match taken.checked_add(1) {
        Some(number) => listed.contains(&number),
        None => false,
    }
}

impl FlakyPort {
    ghost use Rattle.lethe_memdisk.specs.Flaky.{fresh_reader, fetch_fails, after_fetch};

    fn new(failing: Vec<u64>) -> FlakyPort
        ensures { result ≡ fresh_reader failing.items }
    {
        FlakyPort {
            failing,
            fetches: Fetches::new(),
            taken: 0,
            faults: 0,
        }
    }

    // Counts a fetch, and says whether it fails.
    fn count(&mut self) -> bool
        ensures port { self.new ≡ after_fetch self.old }
        ensures fails { result ≡ fetch_fails self.old }
        ensures later { self.old.faults ≤ self.new.faults }
    {
        let fails = lists_next(&self.failing, self.taken);
        self.fetches = self.fetches.next();
        self.taken = self.taken.saturating_add(1);
        if fails {
            self.faults = self.faults.saturating_add(1);
        }
        fails
    }
}

impl Disk for FlakyDisk {
    type Page = MemPage;

    type Port = FlakyPort;

    ghost use Rattle.lethe_memdisk.specs.Effects.{Created, Written, Removed, Synced, Nothing};
    ghost use Rattle.lethe_memdisk.specs.Held.{seen_of};
    ghost use Rattle.lethe_memdisk.specs.Images.{directory_image};
    ghost use Rattle.lethe_memdisk.specs.Flaky.{AnswersInside, fresh_reader, fetch_fails, after_fetch};

    ghost tells = { ⊤ };

    ghost seen = { λ d. seen_of d.inner };

    ghost faults = { λ d. d.inner.faults };

    ghost ports_fail = { ⊤ };

    ghost page_bytes = { λ p. p };

    ghost port_faults = { λ p. p.faults };

    ghost fetches = { λ p. p.fetches };

    ghost itself = { λ told d. directory_image d.inner };

    fn create(&mut self, name: Name, bytes: &[u8]) -> Result<(), DiskRefused>
        requires { object (seen_of self.old.inner).directory name ≡ None }
        ensures { AnswersInside (Created name bytes.now) result self.old self.new }
    {
        self.inner.create(name, bytes)
    }

    fn write_at(&mut self, name: Name, at: u64, bytes: &[u8]) -> Result<(), DiskRefused>
        requires { IsSomeAnd (object (seen_of self.old.inner).directory name) (λ old. at ≤ length old) }
        ensures call { AnswersInside (Written name at bytes.now) result self.old self.new }
        ensures byte { length bytes.now ≡ 1 → at < length (content (seen_of self.old.inner).directory name) → IsErrOf result DiskRefused.NoMemory → ⊥ }
    {
        self.inner.write_at(name, at, bytes)
    }

    fn remove(&mut self, name: Name) -> Result<(), DiskRefused>
        requires { IsSome (object (seen_of self.old.inner).directory name) }
        ensures call { AnswersInside (Removed name) result self.old self.new }
        ensures no_memory { IsErrOf result DiskRefused.NoMemory → ⊥ }
    {
        self.inner.remove(name)
    }

    fn sync(&mut self) -> Result<(), DiskRefused>
        ensures call { AnswersInside Synced result self.old self.new }
        ensures no_memory { IsErrOf result DiskRefused.NoMemory → ⊥ }
        ensures done { OnOk result (IsSynced (seen_of self.new.inner)) }
    {
        self.inner.sync()
    }

    fn names(&mut self, alloc: Global) -> Result<Vec<Name>, DiskRefused>
        ensures call { AnswersInside Nothing result self.old self.new }
        ensures done { IfOk result (λ names. names.items ≡ keys (seen_of self.old.inner).directory) }
    {
        self.inner.names(alloc)
    }

    fn read(&mut self, alloc: Global, name: Name) -> Result<Vec<u8>, DiskRefused>
        requires { IsSome (object (seen_of self.old.inner).directory name) }
        ensures call { AnswersInside Nothing result self.old self.new }
        ensures done { IfOk result (λ bytes. object (seen_of self.old.inner).directory name ≡ Some bytes.items) }
    {
        self.inner.read(alloc, name)
    }

    fn open_page(&mut self, alloc: Global, name: Name) -> Result<MemPage, DiskRefused>
        requires kind { name.kind ≡ Kind.Page }
        requires present { IsSome (object (seen_of self.old.inner).directory name) }
        ensures call { AnswersInside Nothing result self.old self.new }
        ensures done { IfOk result (λ page. object (seen_of self.old.inner).directory name ≡ Some page) }
    {
        self.inner.open_page(alloc, name)
    }

    fn port(&mut self, alloc: Global) -> Result<FlakyPort, NoMemory>
        ensures port { IfOk result (λ port. port ≡ fresh_reader self.old.failing) }
        ensures same { self.new ≡ self.old }
    {
        Ok(FlakyPort::new(self.failing.to_vec(alloc)?))
    }

    fn fetch(alloc: Global, port: &mut FlakyPort, page: &MemPage) -> Result<Vec<u8>, DiskRefused>
        ensures done { IfOk result (λ bytes. bytes.items ≡ page.now) }
        ensures port { port.new ≡ after_fetch port.old }
        ensures cause { HasCause port.old.faults port.new.faults result }
        ensures failed { IsErrOf result DiskRefused.Failed ↔ IsTrue (fetch_fails port.old) }
    {
        if port.count() {
            return Err(DiskRefused::Failed);
        }
        Ok(page.read(alloc)?)
    }

    fn port_faults(port: &FlakyPort) -> u64 {
        port.faults
    }

    fn faults(&self) -> u64 {
        self.inner.faults()
    }
}
