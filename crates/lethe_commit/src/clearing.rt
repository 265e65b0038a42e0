//! Removing the objects that nothing needs any more.
ghost use Rattle.std.specs.Prelude.{◌≡◌, ◌+◌, ◌≤◌, length, OnOk, IsErrOf};
ghost use Rattle.lethe_disk.specs.declared.disk.DiskRefused.TheVariants.{NoMemory};
ghost use Rattle.lethe_disk.specs.Disk.{IsSynced, HasCause};
ghost use Rattle.lethe_disk.specs.Runs.{Leads};
ghost use Rattle.lethe_commit.specs.Clear.{ArePresent, IsCleared, remove_all};

use lethe_base::Name;
use lethe_disk::{Disk, DiskRefused};

/// Removes these objects, each of which stands in the list once, and syncs. It takes no memory.
///
/// It takes a device call for each name and one for the sync, which it makes for an empty list too.
///
/// # Errors
///
/// `Failed` where the disk failed: then each of these objects may or may not be there.
pub fn clear<D: Disk>(disk: &mut D, names: &[Name]) -> Result<(), DiskRefused>
    requires { D.tells → ArePresent names.now (D.seen disk.old).directory }

    // A crash at any moment of the call leaves every other object as it was, and each of these so or absent.
    ensures any_moment { D.tells → Leads (IsCleared names.now) (D.seen disk.old) (D.seen disk.new) }

    // Acknowledged: each crash leaves none of them.
    ensures done { D.tells → OnOk result ((D.seen disk.new).directory ≡ remove_all names.now (D.seen disk.old).directory) }
    ensures synced { D.tells → OnOk result (IsSynced (D.seen disk.new)) }

    ensures calls { D.tells → OnOk result ((D.seen disk.new).moment ≡ (D.seen disk.old).moment + length names.now + 1) }
    ensures soon { D.tells → (D.seen disk.new).moment ≤ (D.seen disk.old).moment + length names.now + 1 }
    ensures no_memory { IsErrOf result NoMemory → ⊥ }
    ensures cause { HasCause (D.faults disk.old) (D.faults disk.new) result }
{
    remove_each(disk, names)?;
    disk.sync()
}

/// Removes these objects, each of which stands in the list once, and doesn't sync.
pub(crate) fn remove_each<D: Disk>(disk: &mut D, names: &[Name]) -> Result<(), DiskRefused>
    requires { D.tells → ArePresent names.now (D.seen disk.old).directory }
    ensures any_moment { D.tells → Leads (IsCleared names.now) (D.seen disk.old) (D.seen disk.new) }
    ensures done { D.tells → OnOk result ((D.seen disk.new).directory ≡ remove_all names.now (D.seen disk.old).directory) }
    ensures calls { D.tells → OnOk result ((D.seen disk.new).moment ≡ (D.seen disk.old).moment + length names.now) }
    ensures soon { D.tells → (D.seen disk.new).moment ≤ (D.seen disk.old).moment + length names.now }
    ensures no_memory { IsErrOf result NoMemory → ⊥ }
    ensures cause { HasCause (D.faults disk.old) (D.faults disk.new) result }
{
    for name in names {
        disk.remove(*name)?;
    }
    Ok(())
}
