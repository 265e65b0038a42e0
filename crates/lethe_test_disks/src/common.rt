//! What the tests of disks share.
ghost use Rattle.std.specs.Prelude.{◌≡◌, ◌≤◌, ◌+◌, Ok, None, IfOk, OnOk, IsTrue, IsFalse, IsSome};
ghost use Rattle.std.specs.FinMap.{insert};
ghost use Rattle.lethe_disk.specs.Directory.{object};
ghost use Rattle.lethe_memdisk.specs.Held.{seen_of, calls_of};

use lethe_base::Name;
use lethe_disk::{Disk, DiskRefused};
use lethe_memdisk::MemDisk;
use std::alloc::Global;
use std::process::Abort;
use std::test::Fail;

/// Manifest 2 of a new store, which cites segment 1.
pub const MANIFEST: [u8; 71] =
    *b"LM\x01\0\0\0\0\0\0\0\x02\0\0\0\0\0\0\0\x64\x02\x02\0\x02\x02\0\x02\0\x04\0\0\0\0\0\0\0\0\0\0\0\0\0\0\0\0\0\0\0\0\0\0\0\0\x03\0\0\0\0\0\x01\0\0\0\0\0\0\0\x01\0\0\0\0";

/// What was made; the process ends where it wasn't.
pub fn must<T>(rt: &impl Abort, made: Result<T, Fail>) -> T
    ensures { made ≡ Ok result }
{
    match made {
        Ok(value) => value,
        Err(_) => panic!(rt; "it isn't made"),
    }
}

/// Whether a call of a disk or a port failed.
pub fn fails<T: Drop>(answer: Result<T, DiskRefused>) -> bool {
    matches!(answer, Err(DiskRefused::Failed))
}

/// Whether a read or a fetch gave these bytes.
pub fn gives(answer: Result<Vec<u8>, DiskRefused>, bytes: &[u8]) -> bool {
    matches!(answer, Ok(read) if read.as_slice() == bytes)
}

/// Whether there is an object of that name. This takes one device call.
pub fn has(alloc: Global, disk: &mut MemDisk, name: Name) -> Result<bool, DiskRefused>
    ensures there { IfOk result (λ there. IsTrue there → IsSome (object (seen_of disk.new).directory name)) }
    ensures absent { IfOk result (λ there. IsFalse there → object (seen_of disk.new).directory name ≡ None) }
    ensures calls { OnOk result (calls_of disk.new ≡ calls_of disk.old + 1) }
{
    let names = disk.names(alloc)?;
    Ok(names.contains(&name))
}

/// Adds an object of a new name.
pub fn add(disk: &mut MemDisk, name: Name, bytes: &[u8]) -> Result<(), Fail>
    requires { object (seen_of disk.old).directory name ≡ None }
    ensures { OnOk result ((seen_of disk.new).directory ≡ insert (seen_of disk.old).directory name bytes.now) }
{
    match disk.create(name, bytes) {
        Ok(()) => Ok(()),
        Err(_) => Err(Fail::new("an object")),
    }
}

/// How many objects there are.
pub fn count_objects(alloc: Global, rt: &impl Abort, disk: &mut MemDisk) -> usize {
    disk.names(alloc).expect(rt, "names").len()
}

/// What a crash at a moment leaves of the disk, as `MemDisk::crash` has it.
pub fn crashed(rt: &impl Abort, disk: &MemDisk, moment: u64, fill: u8, keep: bool) -> MemDisk
    requires { moment ≤ calls_of disk.now }
{
    disk.crash(moment, fill, keep).expect(rt, "memory")
}
