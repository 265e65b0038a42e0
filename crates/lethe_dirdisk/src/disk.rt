//! The folder as a disk. It counts its errors, and tells nothing of what it holds.
ghost use Rattle.std.specs.Prelude.{◌≡◌, ◌<◌, ◌≤◌, ◌+◌, IsErr, IsErrOf, Ok, IfOk, length, vec_len};
ghost use Rattle.lethe_disk.specs.Disk.{HasCause};
ghost use Rattle.lethe_base.specs.Counts.{counted};
ghost use Rattle.lethe_dirdisk.specs.Faults.{faults_after};
ghost use Rattle.lethe_dirdisk.specs.Lengths.{longest};

use crate::folder::Folder;
use crate::page::{DirPage, DirPort};
use crate::refusal::is_no_memory;
use lethe_base::{Name, NoMemory};
use lethe_disk::{Disk, DiskRefused};
use std::alloc::Global;
use std::io;
use std::marker::Model;

/// A disk whose objects are the files of a folder. As long as it lives no other disk has the folder. Contracts see its
/// count of faults.
#[derive(Drop)]
pub struct DirDisk {
    folder: Folder,
    faults: u64,
}

impl Model for DirDisk {
    ghost use Rattle.std.specs.Prelude.{ℕ};

    ghost Value = { ℕ };

    ghost view = { λ d. d.faults };
}

impl DirDisk {
    pub(crate) fn of(folder: Folder) -> DirDisk
        ensures { result ≡ 0 }
    {
        DirDisk { folder, faults: 0 }
    }

    // Counts a fault.
    fn fail(&mut self) -> DiskRefused
        ensures failed { result ≡ DiskRefused.Failed }
        ensures counted { self.new ≡ counted self.old }
        ensures later { self.old ≤ self.new }
    {
        self.faults = self.faults.saturating_add(1);
        DiskRefused::Failed
    }

    // What a call answers. An error of the file system is counted.
    fn tell<T: Drop>(&mut self, done: io::Result<T>) -> Result<T, DiskRefused>
        ensures value { IfOk result (λ value. done ≡ Ok value) }
        ensures count { self.new ≡ faults_after result self.old }
        ensures cause { HasCause self.old self.new result }
    {
        match done {
            Ok(value) => Ok(value),
            Err(error) if is_no_memory(&error) => Err(DiskRefused::NoMemory),
            Err(_) => Err(self.fail()),
        }
    }

    // The same of a call that never answers want of memory.
    fn tell_without_memory(&mut self, done: io::Result<()>) -> Result<(), DiskRefused>
        ensures value { IfOk result (λ value. done ≡ Ok value) }
        ensures no_memory { IsErrOf result DiskRefused.NoMemory → ⊥ }
        ensures count { self.new ≡ faults_after result self.old }
        ensures cause { HasCause self.old self.new result }
    {
        match done {
            Ok(()) => Ok(()),
            Err(_) => Err(self.fail()),
        }
    }
}

impl Disk for DirDisk {
    type Page = DirPage;

    type Port = DirPort;

    ghost use Rattle.lethe_dirdisk.specs.Faults.{untold};
    ghost use Rattle.std.specs.Prelude.{⊤, []};

    ghost tells = { ⊥ };

    ghost seen = { λ _. untold };

    ghost faults = { λ d. d };

    ghost ports_fail = { ⊤ };

    ghost page_bytes = { λ _. [] };

    ghost port_faults = { λ p. p.faults };

    ghost fetches = { λ p. p.fetches.count };

    ghost itself = { λ told _. absurd told };

    fn create(&mut self, name: Name, bytes: &[u8]) -> Result<(), DiskRefused>
        ensures long { longest name.kind < length bytes.now → IsErr result }
        ensures count { self.new ≡ faults_after result self.old }
        ensures cause { HasCause self.old self.new result }
    {
        let done = self.folder.create(name, bytes);
        self.tell(done)
    }

    fn write_at(&mut self, name: Name, at: u64, bytes: &[u8]) -> Result<(), DiskRefused>
        ensures long { longest name.kind < at + length bytes.now → IsErr result }
        ensures byte { length bytes.now ≡ 1 → IsErrOf result DiskRefused.NoMemory → ⊥ }
        ensures count { self.new ≡ faults_after result self.old }
        ensures cause { HasCause self.old self.new result }
    {
        let done = self.folder.write_at(name, at, bytes);
        if bytes.len() == 1 {
            self.tell_without_memory(done)
        } else {
            self.tell(done)
        }
    }

    fn remove(&mut self, name: Name) -> Result<(), DiskRefused>
        ensures no_memory { IsErrOf result DiskRefused.NoMemory → ⊥ }
        ensures count { self.new ≡ faults_after result self.old }
        ensures cause { HasCause self.old self.new result }
    {
        let done = self.folder.remove(name);
        self.tell_without_memory(done)
    }

    fn sync(&mut self) -> Result<(), DiskRefused>
        ensures no_memory { IsErrOf result DiskRefused.NoMemory → ⊥ }
        ensures count { self.new ≡ faults_after result self.old }
        ensures cause { HasCause self.old self.new result }
    {
        let done = self.folder.sync();
        self.tell_without_memory(done)
    }

    fn names(&mut self, alloc: Global) -> Result<Vec<Name>, DiskRefused>
        ensures count { self.new ≡ faults_after result self.old }
        ensures cause { HasCause self.old self.new result }
    {
        let done = self.folder.names(alloc);
        self.tell(done)
    }

    fn read(&mut self, alloc: Global, name: Name) -> Result<Vec<u8>, DiskRefused>
        ensures short { IfOk result (λ bytes. vec_len bytes ≤ longest name.kind) }
        ensures count { self.new ≡ faults_after result self.old }
        ensures cause { HasCause self.old self.new result }
    {
        let done = self.folder.read(alloc, name);
        self.tell(done)
    }

    fn open_page(&mut self, alloc: Global, name: Name) -> Result<DirPage, DiskRefused>
        ensures count { self.new ≡ faults_after result self.old }
        ensures cause { HasCause self.old self.new result }
    {
        let done = self.folder.look(name);
        self.tell(done)?;
        Ok(DirPage::of(name))
    }

    fn port(&mut self, alloc: Global) -> Result<DirPort, NoMemory>
        ensures fresh { IfOk result (λ port. (port.fetches.count ≡ 0) × (port.faults ≡ 0)) }
        ensures same { self.new ≡ self.old }
    {
        match self.folder.place(alloc) {
            Ok(place) => Ok(DirPort::new(Some(place))),
            Err(error) if is_no_memory(&error) => Err(NoMemory),
            Err(_) => Ok(DirPort::new(None)),
        }
    }

    fn fetch(alloc: Global, port: &mut DirPort, page: &DirPage) -> Result<Vec<u8>, DiskRefused>
        ensures count { port.new.faults ≡ faults_after result port.old.faults }
        ensures cause { HasCause port.old.faults port.new.faults result }
        ensures counted { port.new.fetches.count ≡ port.old.fetches.count + 1 }
    {
        port.fetch(alloc, page)
    }

    fn port_faults(port: &DirPort) -> u64 {
        port.faults()
    }

    fn faults(&self) -> u64 {
        self.faults
    }
}
