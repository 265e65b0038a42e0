//! Removing what the greatest gate doesn't commit.
ghost use Rattle.std.specs.Prelude.{◌≡◌, ◌↔◌, [], not, filter, IfOk, IsTrue, OnOk};
ghost use Rattle.std.specs.BTreeSet.{contains};
ghost use Rattle.std.specs.FinMap.{keys};
ghost use Rattle.lethe_base.specs.Names.{name_cmp};
ghost use Rattle.lethe_disk.specs.Disk.{HasCause};
ghost use Rattle.lethe_disk.specs.Goes.{Goes};
ghost use Rattle.lethe_stored.specs.Stored.{Stored, IsCited};
ghost use Rattle.lethe_base.specs.declared.name.Name as declared;
ghost use Rattle.lethe_stored.specs.Encodes.{Encodes};
ghost use Rattle.lethe_advance.specs.Settled.{IsSettled, HasOnly};

use lethe_base::{Name, NoMemory};
use lethe_commit::clear;
use lethe_disk::{Disk, DiskRefused};
use std::alloc::Global;
use std::collections::BTreeSet;

/// Removes every object whose name isn't in the set, and syncs. In the set are the greatest gate, its manifest and what this cites; `names` are all that
/// the disk has.
///
/// # Errors
///
/// `NoMemory` before any change. `Failed` where the disk failed: then each object that counts for nothing may be there or not.
pub fn tidy<D: Disk>(
    alloc: Global,
    disk: &mut D,
    names: &[Name],
    cited: &BTreeSet<Name>,
) -> Result<(), DiskRefused>
    requires listed { D.tells → names.now ≡ keys (D.seen disk.old).directory }
    requires settled { D.tells → (s : Stored) × IsSettled (D.seen disk.old) s × ((name : declared.Name) → IsTrue (contains name_cmp cited.now name) ↔ IsCited s name) }

    // A crash at any moment of the call leaves what is stored as it was.
    ensures any_moment { D.tells → (s : Stored) → IsSettled (D.seen disk.old) s → Goes (λ c. Encodes c s) (D.seen disk.old) (D.seen disk.new) }

    // Acknowledged: each crash leaves it, and nothing else.
    ensures done { D.tells → (s : Stored) → IsSettled (D.seen disk.old) s
        → OnOk result (IsSettled (D.seen disk.new) s × HasOnly s [] (D.seen disk.new).directory) }
    ensures cause { HasCause (D.faults disk.old) (D.faults disk.new) result }
{
    let rest = uncited(alloc, names, cited)?;
    clear(disk, &rest)
}

// The names that aren't in the set.
fn uncited(alloc: Global, names: &[Name], cited: &BTreeSet<Name>) -> Result<Vec<Name>, NoMemory>
    ensures { IfOk result (λ rest. rest.items ≡ filter (λ name. not (contains name_cmp cited.now name)) names.now) }
{
    let mut rest = Vec::new(alloc);
    for name in names {
        if !is_in(cited, *name) {
            rest.push(*name)?;
        }
    }
    Ok(rest)
}

fn is_in(cited: &BTreeSet<Name>, name: Name) -> bool
    ensures { result ≡ contains name_cmp cited.now name }
{
    cited.contains(&name)
}
