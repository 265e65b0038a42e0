//! A disk that has memory for so many new objects, and runs over it.

use crate::common::{answered_small, check_printed, empty_disk, must};
use lethe_base::{Name, NoMemory};
use lethe_disk::{Disk, DiskRefused};
use lethe_memdisk::MemDisk;
use lethe_rows::{Printed, SMALL_WORDS, run_on};
use std::alloc::Global;
use std::process::Abort;

/// The disk that it was made of, with memory for so many more objects. Another one is refused for want of memory.
#[derive(Drop)]
struct ScarceDisk<D> {
    inner: D,
    objects: u64,
}

impl<D: Disk> Disk for ScarceDisk<D> {
    type Page = D::Page;

    type Port = D::Port;

    ghost tells = { D.tells };

    ghost seen = { λ d. D.seen d.inner };

    ghost faults = { λ d. D.faults d.inner };

    ghost ports_fail = { D.ports_fail };

    ghost page_bytes = { D.page_bytes };

    ghost port_faults = { D.port_faults };

    ghost fetches = { D.fetches };

    ghost itself = { λ told d. D.itself told d.inner };

    fn create(&mut self, name: Name, bytes: &[u8]) -> Result<(), DiskRefused> {
        if self.objects == 0 {
            return Err(DiskRefused::NoMemory);
        }
        self.objects -= 1;
        self.inner.create(name, bytes)
    }

    fn write_at(&mut self, name: Name, at: u64, bytes: &[u8]) -> Result<(), DiskRefused> {
        self.inner.write_at(name, at, bytes)
    }

    fn remove(&mut self, name: Name) -> Result<(), DiskRefused> {
        self.inner.remove(name)
    }

    fn sync(&mut self) -> Result<(), DiskRefused> {
        self.inner.sync()
    }

    fn names(&mut self, alloc: Global) -> Result<Vec<Name>, DiskRefused> {
        self.inner.names(alloc)
    }

    fn read(&mut self, alloc: Global, name: Name) -> Result<Vec<u8>, DiskRefused> {
        self.inner.read(alloc, name)
    }

    fn open_page(&mut self, alloc: Global, name: Name) -> Result<D::Page, DiskRefused> {
        self.inner.open_page(alloc, name)
    }

    fn port(&mut self, alloc: Global) -> Result<D::Port, NoMemory> {
        self.inner.port(alloc)
    }

    fn fetch(alloc: Global, port: &mut D::Port, page: &D::Page) -> Result<Vec<u8>, DiskRefused> {
        D::fetch(alloc, port, page)
    }

    fn port_faults(port: &D::Port) -> u64 {
        D::port_faults(port)
    }

    fn faults(&self) -> u64 {
        self.inner.faults()
    }
}

/// Four puts fill the buffer, and the fifth makes a segment, a manifest and a gate.
const FIVE: &str = "1 put a 1 p\n1 put b 1 q\n1 put c 1 r\n1 put d 1 s\n1 put e 1 t\n";

/// For how many objects there is memory, the status, what is printed, and what a later run finds.
const ROWS: [(u64, u8, &str, &str); 4] = [
    (0, 7, "", "1 at 0 scan 0\n"),
    (2, 7, "", "1 at 0 scan 0\n"),
    (3, 7, FOUR, "1 at 4 scan 4 a 1 p b 1 q c 1 r d 1 s\n"),
    (
        6,
        0,
        "1 ok 1\n1 ok 2\n1 ok 3\n1 ok 4\n1 ok 5\n",
        "1 at 5 scan 5 a 1 p b 1 q c 1 r d 1 s e 1 t\n",
    ),
];

const FOUR: &str = "1 ok 1\n1 ok 2\n1 ok 3\n1 ok 4\n";

// Runs the five puts over an empty disk with memory for so many objects.
fn run_scarce(alloc: Global, rt: &impl Abort, objects: u64) -> (Printed, MemDisk) {
    let inner = empty_disk(alloc, rt);
    let disk = ScarceDisk { inner, objects };
    let run = run_on(alloc, &SMALL_WORDS, FIVE.as_bytes(), &[], &[], disk);
    let (printed, disk) = must(rt, run);
    (printed, disk.inner)
}

// What the run prints, and what a later run finds.
fn check_row(alloc: Global, rt: &impl Abort, objects: u64, status: u8, text: &str, found: &str) {
    let (printed, disk) = run_scarce(alloc, rt, objects);
    check_printed(rt, &printed, status, text);
    answered_small(alloc, rt, "1 scan a z\n", disk, 0, found);
}

#[test]
fn a_run_ends_where_memory_is_refused(rt: HostRuntime) {
    for (objects, status, text, found) in ROWS {
        check_row(rt.alloc(), &rt, objects, status, text, found);
    }
}
