//! Writing a page that no manifest cites yet.
ghost use Rattle.std.specs.Prelude.{◌≡◌, ◌+◌, ◌≤◌, ℕ, List, [], ◌∷◌, ◌++◌, OnOk, OnErr, IsErrOf};
ghost use Rattle.lethe_base.specs.declared.name.Name as name;
ghost use Rattle.std.specs.FinMap.{insert};
ghost use Rattle.lethe_disk.specs.declared.disk.DiskRefused.TheVariants.{NoMemory};
ghost use Rattle.lethe_disk.specs.Directory.{SameBut};
ghost use Rattle.lethe_disk.specs.Disk.{HasCause};
ghost use Rattle.lethe_disk.specs.Goes.{Goes};
ghost use Rattle.lethe_file.specs.Agreement.{page_name};
ghost use Rattle.lethe_commit.specs.Append.{IsUntouched};
ghost use Rattle.lethe_stored.specs.Stored.{Stored, IsCoherent};
ghost use Rattle.lethe_stored.specs.Encodes.{Encodes};
ghost use Rattle.lethe_advance.specs.Settled.{IsSettled, HasOnly, AreDrawn, AreUncited, names_in};
ghost use Rattle.lethe_loose.specs.Loose.{MayWrite};

use crate::Written;
use lethe_base::{Kind, Name};
use lethe_commit::place;
use lethe_disk::{Disk, DiskRefused};

/// Writes a page under a number that hasn't been drawn, and syncs.
///
/// # Errors
///
/// `NoMemory` before any change. `Failed` where the disk failed: then a part of the page may be there, under a name that isn't among those
/// that are written.
pub fn write_page<D: Disk>(
    disk: &mut D,
    written: &mut Written,
    no: u64,
    bytes: &[u8],
) -> Result<(), DiskRefused>
    requires fresh { D.tells → (s : Stored) × (left : List (name.Name × List ℕ)) × MayWrite (D.seen disk.old) s (left ++ written.old) no }

    // A crash at any moment of the call leaves what was stored.
    ensures any_moment { D.tells → (s : Stored) (left : List (name.Name × List ℕ)) → MayWrite (D.seen disk.old) s (left ++ written.old) no
        → Goes (λ c. Encodes c s) (D.seen disk.old) (D.seen disk.new) }

    // Acknowledged: each crash leaves the page too, beside what is stored and the pages that lay there.
    ensures done { D.tells → (s : Stored) (left : List (name.Name × List ℕ)) → MayWrite (D.seen disk.old) s (left ++ written.old) no
        → OnOk result (IsSettled (D.seen disk.new) s × HasOnly s (left ++ written.new) (D.seen disk.new).directory) }
    ensures loose { (s : Stored) (left : List (name.Name × List ℕ)) → IsCoherent s → s.manifest.next ≤ no → AreUncited s (left ++ written.old) → OnOk result (AreUncited s (left ++ written.new)) }
    ensures written { OnOk result (written.new ≡ written.old ++ (page_name no, bytes.now) ∷ []) }
    ensures drawn { (left : List (name.Name × List ℕ)) → AreDrawn no (names_in (left ++ written.old)) → OnOk result (AreDrawn (no + 1) (names_in (left ++ written.new))) }
    ensures kept { OnErr result (written.new ≡ written.old) }

    // Each object but the page is as it was, whatever is answered.
    ensures beside { D.tells → SameBut (page_name no) (D.seen disk.old).directory (D.seen disk.new).directory }

    ensures others { D.tells → OnOk result ((D.seen disk.new).directory ≡ insert (D.seen disk.old).directory (page_name no) bytes.now) }

    ensures calls { D.tells → OnOk result ((D.seen disk.new).moment ≡ (D.seen disk.old).moment + 2) }
    ensures no_memory { D.tells → IsErrOf result NoMemory → IsUntouched (D.seen disk.old) (D.seen disk.new) }
    ensures cause { HasCause (D.faults disk.old) (D.faults disk.new) result }
{
    let name = Name {
        kind: Kind::Page,
        no,
    };
    written.names.push(name)?;
    if let Err(refused) = place(disk, name, bytes) {
        written.names.pop();
        return Err(refused);
    }
    written.contents = written.contents.with(bytes);
    Ok(())
}
