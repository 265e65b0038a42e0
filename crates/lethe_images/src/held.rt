//! Each object of a disk, read back as a whole.

use crate::disks::objects_of;
use lethe_base::{Body, Entry, Kind, Name};
use lethe_header::read_header;
use lethe_manifest::read_manifest;
use lethe_memdisk::MemDisk;
use lethe_page::read_page;
use lethe_segment::{Record, replay, segment_number, write_segment};
use std::alloc::Global;
use std::test::Fail;

/// How many objects there are of each kind, the places of all puts that they hold, how many entries have a time, and the levels of the files that the manifest cites.
#[derive(Drop)]
pub struct Held {
    pub gates: usize,
    pub manifests: usize,
    pub segments: usize,
    pub files: usize,
    pub pages: usize,
    pub puts: Vec<u64>,
    pub timed: usize,
    pub levels: Vec<u64>,
}

impl Held {
    fn new(alloc: Global) -> Held {
        Held {
            gates: 0,
            manifests: 0,
            segments: 0,
            files: 0,
            pages: 0,
            puts: Vec::new(alloc),
            timed: 0,
            levels: Vec::new(alloc),
        }
    }

    fn add(&mut self, entry: &Entry) -> Result<(), Fail> {
        if let Body::Put { .. } = entry.body {
            self.puts.push(entry.seq)?;
        }
        if entry.since.is_some() {
            self.timed = self.timed.saturating_add(1);
        }
        Ok(())
    }

    fn add_segment(&mut self, alloc: Global, no: u64, bytes: &[u8]) -> Result<(), Fail> {
        let records = replay(alloc, bytes).ok().ok_or("a segment")?;
        if segment_number(bytes) != Some(no) {
            return Err(Fail::new("another segment"));
        }
        // No byte is left over, so nothing is torn.
        if write_segment(alloc, no, &records)?.as_slice() != bytes {
            return Err(Fail::new("a torn end"));
        }
        for record in &records {
            if let Record::Entry(entry) = record {
                self.add(entry)?;
            }
        }
        self.segments = self.segments.saturating_add(1);
        Ok(())
    }

    // Adds a manifest, and answers its number.
    fn add_manifest(&mut self, alloc: Global, bytes: &[u8]) -> Result<u64, Fail> {
        let manifest = read_manifest(alloc, bytes).ok().ok_or("a manifest")?;
        self.manifests = self.manifests.saturating_add(1);
        for cited in manifest.files.items() {
            self.levels.push(cited.level)?;
        }
        Ok(manifest.no)
    }

    fn add_page(&mut self, alloc: Global, bytes: &[u8]) -> Result<(), Fail> {
        let (_, entries) = read_page(alloc, bytes).ok().ok_or("a page")?;
        for entry in &entries {
            self.add(entry)?;
        }
        self.pages = self.pages.saturating_add(1);
        Ok(())
    }

    // Adds the object of that name, whose bytes are its spelling, each of them.
    fn add_object(&mut self, alloc: Global, name: Name, bytes: &[u8]) -> Result<(), Fail> {
        let own = match name.kind {
            Kind::Gate => {
                self.gates = self.gates.saturating_add(1);
                bytes.is_empty()
            }
            Kind::Manifest => { self.add_manifest(alloc, bytes)? == name.no }
            Kind::Segment => {
                self.add_segment(alloc, name.no, bytes)?;
                true
            }
            Kind::File => {
                self.files = self.files.saturating_add(1);
                read_header(alloc, bytes).ok().ok_or("a header")?.no == name.no
            }
            Kind::Page => {
                self.add_page(alloc, bytes)?;
                true
            }
        };
        if own {
            Ok(())
        } else {
            Err(Fail::new("an object of another number"))
        }
    }
}

/// Reads each object back. It fails where one isn't its spelling, whole and with nothing behind it.
pub fn held_by(alloc: Global, disk: &mut MemDisk) -> Result<Held, Fail> {
    let mut held = Held::new(alloc);
    for (name, bytes) in objects_of(alloc, disk)? {
        held.add_object(alloc, name, &bytes)?;
    }
    Ok(held)
}
