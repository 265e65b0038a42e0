//! Removing pages that no manifest cites.
ghost use Rattle.std.specs.Prelude.{◌≡◌, ◌+◌, ℕ, List, length, OnOk, IsErrOf};
ghost use Rattle.lethe_base.specs.declared.name.Name.{Name};
ghost use Rattle.lethe_disk.specs.declared.disk.DiskRefused.TheVariants.{NoMemory};
ghost use Rattle.lethe_disk.specs.Directory.{SameBeside};
ghost use Rattle.lethe_disk.specs.Disk.{HasCause};
ghost use Rattle.lethe_disk.specs.Goes.{Goes};
ghost use Rattle.lethe_stored.specs.Stored.{Stored};
ghost use Rattle.lethe_stored.specs.Encodes.{Encodes};
ghost use Rattle.lethe_advance.specs.Settled.{IsSettled, HasOnly, names_in};
ghost use Rattle.lethe_loose.specs.Loose.{MayRemove};

use crate::Written;
use lethe_base::Name;
use lethe_commit::clear;
use lethe_disk::{Disk, DiskRefused};

/// Removes pages that no manifest cites, by their names, and syncs. It takes no memory.
///
/// It takes a device call for each page and one for the sync, which it makes for an empty list too.
///
/// # Errors
///
/// `Failed` where the disk failed: then each of the pages may or may not be there.
pub fn remove_named<D: Disk>(disk: &mut D, names: &[Name]) -> Result<(), DiskRefused>
    requires there { D.tells → (s : Stored) × (left : List (Name × List ℕ)) × (gone : List (Name × List ℕ))
        × MayRemove (D.seen disk.old) s left gone × (names.now ≡ names_in gone) }

    // A crash at any moment of the call leaves what was stored.
    ensures any_moment { D.tells → (s : Stored) (left gone : List (Name × List ℕ)) → MayRemove (D.seen disk.old) s left gone → names.now ≡ names_in gone
        → Goes (λ c. Encodes c s) (D.seen disk.old) (D.seen disk.new) }

    // Acknowledged: each crash leaves what is stored and the pages that stay, and nothing else.
    ensures done { D.tells → (s : Stored) (left gone : List (Name × List ℕ)) → MayRemove (D.seen disk.old) s left gone → names.now ≡ names_in gone
        → OnOk result (IsSettled (D.seen disk.new) s × HasOnly s left (D.seen disk.new).directory) }

    // Each object but the pages is as it was, whatever is answered.
    ensures others { D.tells → SameBeside names.now (D.seen disk.old).directory (D.seen disk.new).directory }

    ensures calls { D.tells → OnOk result ((D.seen disk.new).moment ≡ (D.seen disk.old).moment + length names.now + 1) }
    ensures no_memory { IsErrOf result NoMemory → ⊥ }
    ensures cause { HasCause (D.faults disk.old) (D.faults disk.new) result }
{
    clear(disk, names)
}

/// Removes the pages again, and syncs. It takes no memory.
///
/// It takes a device call for each page and one for the sync, which it makes where there is no page too.
///
/// # Errors
///
/// `Failed` where the disk failed: then each of the pages may or may not be there.
pub fn remove_pages<D: Disk>(disk: &mut D, written: Written) -> Result<(), DiskRefused>
    requires there { D.tells → (s : Stored) × (left : List (Name × List ℕ)) × MayRemove (D.seen disk.old) s left written }

    // A crash at any moment of the call leaves what was stored.
    ensures any_moment { D.tells → (s : Stored) (left : List (Name × List ℕ)) → MayRemove (D.seen disk.old) s left written
        → Goes (λ c. Encodes c s) (D.seen disk.old) (D.seen disk.new) }

    // Acknowledged: each crash leaves what is stored and the pages that stay, and nothing else.
    ensures done { D.tells → (s : Stored) (left : List (Name × List ℕ)) → MayRemove (D.seen disk.old) s left written
        → OnOk result (IsSettled (D.seen disk.new) s × HasOnly s left (D.seen disk.new).directory) }

    // Each object but the pages is as it was, whatever is answered.
    ensures others { D.tells → SameBeside (names_in written) (D.seen disk.old).directory (D.seen disk.new).directory }

    ensures calls { D.tells → OnOk result ((D.seen disk.new).moment ≡ (D.seen disk.old).moment + length written + 1) }
    ensures no_memory { IsErrOf result NoMemory → ⊥ }
    ensures cause { HasCause (D.faults disk.old) (D.faults disk.new) result }
{
    remove_named(disk, written.names())
}
