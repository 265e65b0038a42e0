//! Disks in memory, what is put on them, and what a crash leaves of them.
ghost use Rattle.std.specs.Prelude.{◌≡◌, ◌≤◌, ◌+◌, OnOk};
ghost use Rattle.lethe_memdisk.specs.Held.{calls_of};

use lethe_base::{Kind, Name};
use lethe_disk::Disk;
use lethe_memdisk::MemDisk;
use std::alloc::Global;
use std::test::Fail;

/// The bytes that a crash may leave where no sync followed, and whether what was created and removed stays so.
pub const IMAGES: [(u8, bool); 6] = [
    (0, false),
    (0, true),
    (1, false),
    (1, true),
    (255, false),
    (255, true),
];

/// A disk with room for many calls. The calls of these numbers fail.
pub fn disk_of(alloc: Global, failing: &[u64]) -> Result<MemDisk, Fail> {
    Ok(MemDisk::new(alloc, 1_000, failing.to_vec(alloc)?)?)
}

/// A disk with room for a script and its merges.
pub fn roomy_disk(alloc: Global) -> Result<MemDisk, Fail> {
    Ok(MemDisk::new(alloc, 20_000, Vec::new(alloc))?)
}

/// The names of what is there.
pub fn names_of(alloc: Global, disk: &mut MemDisk) -> Result<Vec<Name>, Fail> {
    match disk.names(alloc) {
        Ok(names) => Ok(names),
        Err(_) => Err(Fail::new("names")),
    }
}

/// The bytes of an object that is there.
pub fn bytes_at(alloc: Global, disk: &mut MemDisk, name: Name) -> Result<Vec<u8>, Fail> {
    let Ok(names) = disk.names(alloc) else {
        return Err(Fail::new("names"));
    };
    if names.contains(&name) {
        match disk.read(alloc, name) {
            Ok(bytes) => Ok(bytes),
            Err(_) => Err(Fail::new("bytes")),
        }
    } else {
        Err(Fail::new("an object"))
    }
}

/// Each name of what is there, with its bytes.
pub fn objects_of(alloc: Global, disk: &mut MemDisk) -> Result<Vec<(Name, Vec<u8>)>, Fail> {
    let mut objects = Vec::new(alloc);
    for name in names_of(alloc, disk)? {
        objects.push((name, bytes_at(alloc, disk, name)?))?;
    }
    Ok(objects)
}

/// Adds an object of a new name.
pub fn add(
    alloc: Global,
    disk: &mut MemDisk,
    kind: Kind,
    no: u64,
    bytes: &[u8],
) -> Result<(), Fail> {
    let name = Name { kind, no };
    let Ok(names) = disk.names(alloc) else {
        return Err(Fail::new("names"));
    };
    if names.contains(&name) {
        return Err(Fail::new("a new name"));
    }
    match disk.create(name, bytes) {
        Ok(()) => Ok(()),
        Err(_) => Err(Fail::new("an object")),
    }
}

/// Removes an object that is there.
pub fn take_away(alloc: Global, disk: &mut MemDisk, kind: Kind, no: u64) -> Result<(), Fail> {
    let name = Name { kind, no };
    let Ok(names) = disk.names(alloc) else {
        return Err(Fail::new("names"));
    };
    if names.contains(&name) {
        match disk.remove(name) {
            Ok(()) => Ok(()),
            Err(_) => Err(Fail::new("a removal")),
        }
    } else {
        Err(Fail::new("an object"))
    }
}

// Takes one more call of the disk.
fn take_call(alloc: Global, disk: &mut MemDisk) -> Result<(), Fail>
    ensures { OnOk result (calls_of disk.new ≡ calls_of disk.old + 1) }
{
    match disk.names(alloc) {
        Ok(_) => Ok(()),
        Err(_) => Err(Fail::new("names")),
    }
}

/// Takes so many more calls of the disk, which change nothing: so it has taken as many at least.
pub fn take_calls(alloc: Global, disk: &mut MemDisk, calls: u64) -> Result<(), Fail>
    ensures { OnOk result (calls ≤ calls_of disk.new) }
{
    let mut done = 0;
    while done < calls {
        take_call(alloc, disk)?;
        done += 1;
    }
    Ok(())
}

/// The disk as a crash after so many of its calls leaves it.
pub fn image_of(disk: &MemDisk, calls: u64, image: (u8, bool)) -> Result<MemDisk, Fail>
    requires { calls ≤ calls_of disk.now }
{
    let (fill, keep) = image;
    Ok(disk.crash(calls, fill, keep)?)
}

/// The same, where it may have taken fewer calls yet.
pub fn crashed(
    alloc: Global,
    disk: &mut MemDisk,
    calls: u64,
    image: (u8, bool),
) -> Result<MemDisk, Fail> {
    take_calls(alloc, disk, calls)?;
    image_of(disk, calls, image)
}
