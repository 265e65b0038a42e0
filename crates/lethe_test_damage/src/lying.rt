//! A disk that lies about one of its pages.
ghost use Rattle.std.specs.Prelude.{[]};
ghost use Rattle.lethe_dirdisk.specs.Faults.{untold};

use lethe_base::{Name, NoMemory};
use lethe_disk::{Disk, DiskRefused, Fetches};
use std::alloc::Global;

/// A disk in memory that tells nothing, so that nothing is said of what it holds. A fetch of the page with that number gives other bytes than were written.
#[derive(Drop)]
pub struct LyingDisk {
    alloc: Global,
    objects: Vec<(Name, Vec<u8>)>,
    lies: u64,
}

/// An opened page: its number, and the bytes that were written.
#[derive(Drop)]
pub struct LyingPage {
    no: u64,
    bytes: Vec<u8>,
}

/// A port of such a disk.
#[derive(Drop)]
pub struct LyingPort {
    lies: u64,
    fetches: Fetches,
}

impl LyingDisk {
    /// An empty disk that lies about the page of that number.
    pub fn new(alloc: Global, lies: u64) -> LyingDisk {
        LyingDisk {
            alloc,
            objects: Vec::new(alloc),
            lies,
        }
    }

    // The place of the object of that name, or how many objects there are.
    fn place_of(&self, name: Name) -> usize {
        for (place, object) in self.objects.iter().enumerate() {
            if object.0 == name {
                return place;
            }
        }
        self.objects.len()
    }

    fn bytes_of(&self, alloc: Global, name: Name) -> Result<Vec<u8>, NoMemory> {
        for object in &self.objects {
            if object.0 == name {
                return Ok(object.1.to_vec(alloc)?);
            }
        }
        Ok(Vec::new(alloc))
    }
}

// Writes the bytes over those from there on, and past their end, as far as memory goes.
fn write_over(held: &mut Vec<u8>, at: u64, bytes: &[u8]) {
    let mut place = at as usize;
    for byte in bytes {
        if place < held.len() {
            held[place] = *byte;
        } else if held.push(*byte).is_err() {
            return;
        }
        place = place.saturating_add(1);
    }
}

impl Disk for LyingDisk {
    type Page = LyingPage;

    type Port = LyingPort;

    ghost tells = { ⊥ };

    ghost seen = { λ _. untold };

    ghost faults = { λ _. 0 };

    ghost ports_fail = { ⊥ };

    ghost page_bytes = { λ _. [] };

    ghost port_faults = { λ _. 0 };

    ghost fetches = { λ p. p.fetches.count };

    ghost itself = { λ told _. absurd told };

    fn create(&mut self, name: Name, bytes: &[u8]) -> Result<(), DiskRefused> {
        let bytes = bytes.to_vec(self.alloc)?;
        self.objects.push((name, bytes))?;
        Ok(())
    }

    fn write_at(&mut self, name: Name, at: u64, bytes: &[u8]) -> Result<(), DiskRefused> {
        let place = self.place_of(name);
        if place < self.objects.len() {
            write_over(&mut self.objects[place].1, at, bytes);
        }
        Ok(())
    }

    fn remove(&mut self, name: Name) -> Result<(), DiskRefused> {
        let place = self.place_of(name);
        if place < self.objects.len() {
            let _ = self.objects.swap_remove(place);
        }
        Ok(())
    }

    fn sync(&mut self) -> Result<(), DiskRefused> {
        Ok(())
    }

    fn names(&mut self, alloc: Global) -> Result<Vec<Name>, DiskRefused> {
        let mut names = Vec::new(alloc);
        for object in &self.objects {
            names.push(object.0)?;
        }
        names.sort_unstable();
        Ok(names)
    }

    fn read(&mut self, alloc: Global, name: Name) -> Result<Vec<u8>, DiskRefused> {
        Ok(self.bytes_of(alloc, name)?)
    }

    fn open_page(&mut self, alloc: Global, name: Name) -> Result<LyingPage, DiskRefused> {
        let bytes = self.bytes_of(alloc, name)?;
        Ok(LyingPage { no: name.no, bytes })
    }

    fn port(&mut self, _alloc: Global) -> Result<LyingPort, NoMemory> {
        Ok(LyingPort {
            lies: self.lies,
            fetches: Fetches::new(),
        })
    }

    fn fetch(
        alloc: Global,
        port: &mut LyingPort,
        page: &LyingPage,
    ) -> Result<Vec<u8>, DiskRefused> {
        port.fetches = port.fetches.next();
        let mut bytes = page.bytes.to_vec(alloc)?;
        if port.lies == page.no {
            // The last byte is another one.
            if let Some(last) = bytes.pop() {
                bytes.push(last ^ 1)?;
            }
        }
        Ok(bytes)
    }

    fn port_faults(_port: &LyingPort) -> u64 {
        0
    }

    fn faults(&self) -> u64 {
        0
    }
}
