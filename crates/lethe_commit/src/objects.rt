//! Making objects that aren't cited yet.
ghost use Rattle.std.specs.Prelude.{◌≡◌, ◌+◌, ◌*◌, ◌≤◌, length, map, None, OnOk, IsErrOf};
ghost use Rattle.std.specs.FinMap.{insert};
ghost use Rattle.lethe_disk.specs.declared.disk.DiskRefused.TheVariants.{NoMemory};
ghost use Rattle.lethe_disk.specs.Directory.{object, IsCreated, SameBeside};
ghost use Rattle.lethe_disk.specs.Disk.{IsSynced, HasCause};
ghost use Rattle.lethe_disk.specs.Runs.{Leads};
ghost use Rattle.lethe_commit.specs.Append.{IsUntouched};
ghost use Rattle.lethe_commit.specs.Clear.{ArePresent, IsCleared, remove_all};
ghost use Rattle.lethe_commit.specs.Place.{name_of, AreAbsent, insert_all};
ghost use Rattle.lethe_commit.specs.Switch.{IsTakenBack};

use lethe_base::{List, Name};
use lethe_disk::{Disk, DiskRefused};

/// An object that is to be written.
#[derive(Debug, Drop)]
pub struct Object {
    pub name: Name,
    pub bytes: List<u8>,
}

/// Creates an object of these bytes and syncs.
///
/// # Errors
///
/// `NoMemory` before any change. `Failed` where the disk failed: then a part of the object may be there.
pub fn place<D: Disk>(disk: &mut D, name: Name, bytes: &[u8]) -> Result<(), DiskRefused>
    requires { D.tells → object (D.seen disk.old).directory name ≡ None }

    // A crash at any moment of the call leaves every other object as it was.
    ensures any_moment { D.tells → Leads (IsCreated name) (D.seen disk.old) (D.seen disk.new) }
    ensures done { D.tells → OnOk result ((D.seen disk.new).directory ≡ insert (D.seen disk.old).directory name bytes.now) }
    ensures synced { D.tells → OnOk result (IsSynced (D.seen disk.new)) }
    ensures calls { D.tells → OnOk result ((D.seen disk.new).moment ≡ (D.seen disk.old).moment + 2) }
    ensures soon { D.tells → (D.seen disk.new).moment ≤ (D.seen disk.old).moment + 2 }
    ensures no_memory { D.tells → IsErrOf result NoMemory → IsUntouched (D.seen disk.old) (D.seen disk.new) }
    ensures cause { HasCause (D.faults disk.old) (D.faults disk.new) result }
{
    disk.create(name, bytes)?;
    disk.sync()
}

/// Creates these objects, none of which is there, and syncs once. It takes no memory of its own.
///
/// Where nothing is refused it takes a device call for each object and one for the sync, which it makes for an empty list too.
///
/// # Errors
///
/// `NoMemory` where there was no memory: then what was created is gone again, and synced. `Failed` where the disk failed: then a part of each
/// object may be there.
pub fn place_all<D: Disk>(disk: &mut D, objects: &[Object]) -> Result<(), DiskRefused>
    requires { D.tells → AreAbsent objects.now (D.seen disk.old).directory }

    // A crash at any moment of the call leaves every other object as it was.
    ensures any_moment { D.tells → Leads (SameBeside (map name_of objects.now)) (D.seen disk.old) (D.seen disk.new) }

    // Acknowledged: each crash leaves all of them.
    ensures done { D.tells → OnOk result ((D.seen disk.new).directory ≡ insert_all objects.now (D.seen disk.old).directory) }
    ensures synced { D.tells → OnOk result (IsSynced (D.seen disk.new)) }

    ensures calls { D.tells → OnOk result ((D.seen disk.new).moment ≡ (D.seen disk.old).moment + length objects.now + 1) }

    // Where it is refused, what was created may be removed again.
    ensures soon { D.tells → (D.seen disk.new).moment ≤ (D.seen disk.old).moment + 2 * length objects.now + 1 }
    ensures no_memory { D.tells → IsErrOf result NoMemory → IsTakenBack (D.seen disk.old) (D.seen disk.new) }
    ensures cause { HasCause (D.faults disk.old) (D.faults disk.new) result }
{
    create_each(disk, objects)?;
    disk.sync()
}

// Creates these objects and doesn't sync. Where there was no memory it removes what it created, and syncs.
fn create_each<D: Disk>(disk: &mut D, objects: &[Object]) -> Result<(), DiskRefused>
    requires { D.tells → AreAbsent objects.now (D.seen disk.old).directory }
    ensures any_moment { D.tells → Leads (SameBeside (map name_of objects.now)) (D.seen disk.old) (D.seen disk.new) }
    ensures done { D.tells → OnOk result ((D.seen disk.new).directory ≡ insert_all objects.now (D.seen disk.old).directory) }
    ensures calls { D.tells → OnOk result ((D.seen disk.new).moment ≡ (D.seen disk.old).moment + length objects.now) }
    ensures soon { D.tells → (D.seen disk.new).moment ≤ (D.seen disk.old).moment + 2 * length objects.now }
    ensures no_memory { D.tells → IsErrOf result NoMemory → IsTakenBack (D.seen disk.old) (D.seen disk.new) }
    ensures cause { HasCause (D.faults disk.old) (D.faults disk.new) result }
{
    for (created, object) in objects.iter().enumerate() {
        match disk.create(object.name, object.bytes.items()) {
            Ok(()) => {}
            Err(DiskRefused::Failed) => return Err(DiskRefused::Failed),
            Err(DiskRefused::NoMemory) => {
                remove_objects(disk, &objects[..created])?;
                disk.sync()?;
                return Err(DiskRefused::NoMemory);
            }
        }
    }
    Ok(())
}

/// Removes these objects, each of which stands in the list once, and doesn't sync. It takes no memory.
///
/// # Errors
///
/// `Failed` where the disk failed: then each of these objects may or may not be there.
pub fn remove_objects<D: Disk>(disk: &mut D, objects: &[Object]) -> Result<(), DiskRefused>
    requires { D.tells → ArePresent (map name_of objects.now) (D.seen disk.old).directory }
    ensures any_moment { D.tells → Leads (IsCleared (map name_of objects.now)) (D.seen disk.old) (D.seen disk.new) }
    ensures done { D.tells → OnOk result ((D.seen disk.new).directory ≡ remove_all (map name_of objects.now) (D.seen disk.old).directory) }
    ensures soon { D.tells → (D.seen disk.new).moment ≤ (D.seen disk.old).moment + length objects.now }
    ensures no_memory { IsErrOf result NoMemory → ⊥ }
    ensures cause { HasCause (D.faults disk.old) (D.faults disk.new) result }
{
    for object in objects {
        disk.remove(object.name)?;
    }
    Ok(())
}
