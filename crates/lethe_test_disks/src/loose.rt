//! A page that is written beside a new store, and removed.
ghost use Rattle.std.specs.Prelude.{IfOk};
ghost use Rattle.lethe_memdisk.specs.Held.{seen_of};
ghost use Rattle.lethe_loose.specs.Example.{IsNew};

use crate::common::{MANIFEST, add, count_objects};
use lethe_base::{Kind, Name};
use lethe_disk::Disk;
use lethe_loose::{Written, remove_pages, write_page};
use lethe_memdisk::MemDisk;
use std::alloc::Global;
use std::test::Fail;

// A disk with a new store, whose manifest has the number 2.
fn new_store(alloc: Global) -> Result<MemDisk, Fail>
    ensures { IfOk result (λ disk. IsNew (seen_of disk)) }
{
    let gate = Name {
        kind: Kind::Gate,
        no: 2,
    };
    let manifest = Name {
        kind: Kind::Manifest,
        no: 2,
    };
    let segment = Name {
        kind: Kind::Segment,
        no: 1,
    };
    let mut disk = MemDisk::new(alloc, 20, Vec::new(alloc))?;
    add(&mut disk, segment, b"LS\x01\0\0\0\0\0\0\0\x01\0")?;
    add(&mut disk, manifest, &MANIFEST)?;
    add(&mut disk, gate, &[])?;
    match disk.sync() {
        Ok(()) => Ok(disk),
        Err(_) => Err(Fail::new("a sync")),
    }
}

#[test]
fn a_page_is_written_and_removed(rt: HostRuntime) -> Result<(), Fail> {
    let alloc = rt.alloc();
    let mut disk = new_store(alloc)?;
    let mut written = Written::new(alloc);
    let Ok(()) = write_page(&mut disk, &mut written, 3, b"page") else {
        return Err(Fail::new("not written"));
    };
    assert!(rt; written.names().len() == 1);
    if remove_pages(&mut disk, written).is_err() {
        return Err(Fail::new("not removed"));
    }
    assert!(rt; count_objects(alloc, &rt, &mut disk) == 3);
    Ok(())
}
