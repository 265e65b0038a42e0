//! The pages and ports of a folder.
ghost use Rattle.std.specs.Prelude.{◌≡◌, ◌≤◌, ◌+◌};
ghost use Rattle.lethe_disk.specs.Disk.{HasCause};
ghost use Rattle.lethe_dirdisk.specs.Faults.{faults_after};

use crate::place::Place;
use crate::refusal::is_no_memory;
use lethe_base::Name;
use lethe_disk::{DiskRefused, Fetches};
use std::alloc::Global;
use std::io::{self, ErrorKind};

/// A page of a folder: its name. Its file is opened at each fetch.
#[derive(Drop)]
pub struct DirPage {
    name: Name,
}

impl DirPage {
    pub(crate) fn of(name: Name) -> DirPage {
        DirPage { name }
    }
}

/// A port of a folder.
#[derive(Drop)]
pub struct DirPort {
    // None where the system didn't open the folder for it. Then each fetch fails.
    place: Option<Place>,
    fetches: Fetches,
    faults: u64,
}

impl DirPort {
    pub(crate) fn new(place: Option<Place>) -> DirPort
        ensures fetches { result.fetches.count ≡ 0 }
        ensures faults { result.faults ≡ 0 }
    {
        DirPort {
            place,
            fetches: Fetches::new(),
            faults: 0,
        }
    }

    pub(crate) fn faults(&self) -> u64
        ensures { result ≡ self.now.faults }
    {
        self.faults
    }

    pub(crate) fn fetch(&mut self, alloc: Global, page: &DirPage) -> Result<Vec<u8>, DiskRefused>
        ensures count { self.new.faults ≡ faults_after result self.old.faults }
        ensures cause { HasCause self.old.faults self.new.faults result }
        ensures counted { self.new.fetches.count ≡ self.old.fetches.count + 1 }
    {
        self.fetches = self.fetches.next();
        match self.read(alloc, page.name) {
            Ok(bytes) => Ok(bytes),
            Err(error) if is_no_memory(&error) => Err(DiskRefused::NoMemory),
            Err(_) => {
                self.faults = self.faults.saturating_add(1);
                Err(DiskRefused::Failed)
            }
        }
    }

    fn read(&mut self, alloc: Global, name: Name) -> io::Result<Vec<u8>>
        ensures faults { self.new.faults ≡ self.old.faults }
        ensures fetches { self.new.fetches.count ≡ self.old.fetches.count }
    {
        match &mut self.place {
            Some(place) => place.read(alloc, name),
            None => Err(ErrorKind::NotFound.into()),
        }
    }
}
