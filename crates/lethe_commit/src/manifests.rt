//! Switching to a new manifest.
ghost use Rattle.std.specs.Prelude.{◌≡◌, ◌+◌, ◌≤◌, ℕ, Option, Some, OnOk, IsErrOf, IsSome};
ghost use Rattle.lethe_disk.specs.declared.disk.DiskRefused.TheVariants.{NoMemory};
ghost use Rattle.lethe_disk.specs.Directory.{Directory, object};
ghost use Rattle.lethe_disk.specs.Disk.{Image, IsSynced, HasCause};
ghost use Rattle.lethe_disk.specs.Runs.{Leads, Throughout};
ghost use Rattle.lethe_manifest.specs.Manifests.{manifest_bytes, HasSpelling};
ghost use Rattle.lethe_commit.specs.Clear.{ArePresent, IsCleared, remove_all};
ghost use Rattle.lethe_commit.specs.Switch.{IsFree, IsPlaced, IsSwitched, IsUnswitched, HasNew, HasOldOrNew, IsTakenBack, TellsOlder, manifest_name, older_names, placed, switched};

use crate::clearing::{clear, remove_each};
use crate::gates::choose;
use crate::objects::place;
use lethe_base::{Kind, Name};
use lethe_disk::{Disk, DiskRefused};
use lethe_manifest::{Manifest, write_manifest};
use std::alloc::Global;

/// Writes a manifest and then its gate, by which it counts, and then removes the gate that was the greatest and its manifest.
///
/// It takes five to seven device calls: what is older is listed, the manifest is created and synced before the gate is, and
/// the gate is synced before the older gate is removed, and then its manifest. There is no sync behind the removals.
///
/// # Errors
///
/// `NoMemory` where there was no memory: then both are absent, and each crash leaves them so. `Failed`
/// where the disk failed: then the new manifest may count or not, a part of it may be there, and the older two may be there or not.
pub fn switch<D: Disk>(alloc: Global, disk: &mut D, manifest: &Manifest) -> Result<(), DiskRefused>
    requires spelled { HasSpelling manifest.now }
    requires free { D.tells → (greatest : Option ℕ) × IsFree (D.seen disk.old) manifest.now.no greatest }

    // A crash at any moment of the call leaves no new gate and the older two, or the new gate with its whole manifest, and all else as it was.
    ensures any_moment { D.tells → (greatest : Option ℕ) → IsFree (D.seen disk.old) manifest.now.no greatest
        → Leads (IsSwitched manifest.now.no (manifest_bytes manifest.now) greatest) (D.seen disk.old) (D.seen disk.new) }

    // So the old greatest gate counts, or the new one with its manifest.
    ensures greatest { D.tells → (greatest : Option ℕ) → IsFree (D.seen disk.old) manifest.now.no greatest
        → Throughout (HasOldOrNew greatest manifest.now.no (manifest_bytes manifest.now)) (D.seen disk.old) (D.seen disk.new) }

    // Acknowledged: each crash leaves the new one.
    ensures done { D.tells → (greatest : Option ℕ) → IsFree (D.seen disk.old) manifest.now.no greatest
        → OnOk result ((D.seen disk.new).directory ≡ switched manifest.now.no (manifest_bytes manifest.now) greatest (D.seen disk.old).directory) }
    ensures new { D.tells → OnOk result ((c : Directory) → Image (D.seen disk.new) c → HasNew manifest.now.no (manifest_bytes manifest.now) c) }

    ensures calls { D.tells → OnOk result ((D.seen disk.old).moment + 5 ≤ (D.seen disk.new).moment) }
    ensures soon { D.tells → (D.seen disk.new).moment ≤ (D.seen disk.old).moment + 7 }
    ensures no_memory { D.tells → IsErrOf result NoMemory → IsTakenBack (D.seen disk.old) (D.seen disk.new) }

    // Where there was no memory, no crash at any moment of the call leaves the new gate.
    ensures unswitched { D.tells → IsErrOf result NoMemory → Leads (IsUnswitched manifest.now.no) (D.seen disk.old) (D.seen disk.new) }
    ensures cause { HasCause (D.faults disk.old) (D.faults disk.new) result }
{
    let bytes = write_manifest(alloc, manifest)?;
    exchange(alloc, disk, manifest.no, &bytes)
}

/// Writes a manifest, spelled by these bytes, and then its gate, where it is known which gate is the greatest, and that its manifest is there, or that there is no gate: so nothing is
/// listed, and what is spelled is at hand for a digest.
///
/// It takes four to six device calls: those of `switch` but for the list.
///
/// # Errors
///
/// As those of `switch`.
pub fn switch_to<D: Disk>(
    disk: &mut D,
    older: Option<u64>,
    number: u64,
    bytes: &[u8],
) -> Result<(), DiskRefused>
    requires free { D.tells → IsFree (D.seen disk.old) number older }
    requires there { D.tells → (k : ℕ) → older ≡ Some k → IsSome (object (D.seen disk.old).directory (manifest_name k)) }
    ensures any_moment { D.tells → Leads (IsSwitched number bytes.now older) (D.seen disk.old) (D.seen disk.new) }
    ensures greatest { D.tells → Throughout (HasOldOrNew older number bytes.now) (D.seen disk.old) (D.seen disk.new) }
    ensures done { D.tells → OnOk result ((D.seen disk.new).directory ≡ switched number bytes.now older (D.seen disk.old).directory) }
    ensures new { D.tells → OnOk result ((c : Directory) → Image (D.seen disk.new) c → HasNew number bytes.now c) }
    ensures calls { D.tells → OnOk result ((D.seen disk.old).moment + 4 ≤ (D.seen disk.new).moment) }
    ensures soon { D.tells → (D.seen disk.new).moment ≤ (D.seen disk.old).moment + 6 }
    ensures no_memory { D.tells → IsErrOf result NoMemory → IsTakenBack (D.seen disk.old) (D.seen disk.new) }
    ensures unswitched { D.tells → IsErrOf result NoMemory → Leads (IsUnswitched number) (D.seen disk.old) (D.seen disk.new) }
    ensures cause { HasCause (D.faults disk.old) (D.faults disk.new) result }
{
    place_with_gate(disk, number, bytes)?;
    remove_known(disk, older)
}

// Removes the gate of this number and then its manifest, if there is one.
fn remove_known<D: Disk>(disk: &mut D, older: Option<u64>) -> Result<(), DiskRefused>
    requires { D.tells → ArePresent (older_names older) (D.seen disk.old).directory }
    ensures any_moment { D.tells → Leads (IsCleared (older_names older)) (D.seen disk.old) (D.seen disk.new) }
    ensures done { D.tells → OnOk result ((D.seen disk.new).directory ≡ remove_all (older_names older) (D.seen disk.old).directory) }
    ensures later { D.tells → (D.seen disk.old).moment ≤ (D.seen disk.new).moment }
    ensures soon { D.tells → (D.seen disk.new).moment ≤ (D.seen disk.old).moment + 2 }
    ensures no_memory { IsErrOf result NoMemory → ⊥ }
    ensures cause { HasCause (D.faults disk.old) (D.faults disk.new) result }
{
    let Some(number) = older else {
        return Ok(());
    };
    let gate = Name {
        kind: Kind::Gate,
        no: number,
    };
    let manifest = Name {
        kind: Kind::Manifest,
        no: number,
    };
    remove_each(disk, &[gate, manifest])
}

// Switches to the manifest of these bytes.
fn exchange<D: Disk>(
    alloc: Global,
    disk: &mut D,
    number: u64,
    bytes: &[u8],
) -> Result<(), DiskRefused>
    requires { D.tells → (greatest : Option ℕ) × IsFree (D.seen disk.old) number greatest }
    ensures any_moment { D.tells → (greatest : Option ℕ) → IsFree (D.seen disk.old) number greatest
        → Leads (IsSwitched number bytes.now greatest) (D.seen disk.old) (D.seen disk.new) }
    ensures done { D.tells → (greatest : Option ℕ) → IsFree (D.seen disk.old) number greatest
        → OnOk result ((D.seen disk.new).directory ≡ switched number bytes.now greatest (D.seen disk.old).directory) }
    ensures new { D.tells → OnOk result ((c : Directory) → Image (D.seen disk.new) c → HasNew number bytes.now c) }
    ensures calls { D.tells → OnOk result ((D.seen disk.old).moment + 5 ≤ (D.seen disk.new).moment) }
    ensures soon { D.tells → (D.seen disk.new).moment ≤ (D.seen disk.old).moment + 7 }
    ensures no_memory { D.tells → IsErrOf result NoMemory → IsTakenBack (D.seen disk.old) (D.seen disk.new) }
    ensures unswitched { D.tells → IsErrOf result NoMemory → Leads (IsUnswitched number) (D.seen disk.old) (D.seen disk.new) }
    ensures cause { HasCause (D.faults disk.old) (D.faults disk.new) result }
{
    let names = disk.names(alloc)?;
    place_with_gate(disk, number, bytes)?;
    remove_older(disk, &names)
}

// Removes the greatest gate among the names, and then its manifest if there is one.
fn remove_older<D: Disk>(disk: &mut D, names: &[Name]) -> Result<(), DiskRefused>
    requires { D.tells → (greatest : Option ℕ) × TellsOlder names.now greatest (D.seen disk.old).directory }
    ensures any_moment { D.tells → (greatest : Option ℕ) → TellsOlder names.now greatest (D.seen disk.old).directory
        → Leads (IsCleared (older_names greatest)) (D.seen disk.old) (D.seen disk.new) }
    ensures done { D.tells → (greatest : Option ℕ) → TellsOlder names.now greatest (D.seen disk.old).directory
        → OnOk result ((D.seen disk.new).directory ≡ remove_all (older_names greatest) (D.seen disk.old).directory) }
    ensures later { D.tells → (D.seen disk.old).moment ≤ (D.seen disk.new).moment }
    ensures soon { D.tells → (D.seen disk.new).moment ≤ (D.seen disk.old).moment + 2 }
    ensures no_memory { IsErrOf result NoMemory → ⊥ }
    ensures cause { HasCause (D.faults disk.old) (D.faults disk.new) result }
{
    let Some(greatest) = choose(names) else {
        return Ok(());
    };
    let gate = Name {
        kind: Kind::Gate,
        no: greatest,
    };
    let manifest = Name {
        kind: Kind::Manifest,
        no: greatest,
    };
    if names.contains(&manifest) {
        remove_each(disk, &[gate, manifest])
    } else {
        remove_each(disk, &[gate])
    }
}

// Creates the manifest of these bytes, and then its gate.
fn place_with_gate<D: Disk>(disk: &mut D, number: u64, bytes: &[u8]) -> Result<(), DiskRefused>
    requires { D.tells → (greatest : Option ℕ) × IsFree (D.seen disk.old) number greatest }
    ensures any_moment { D.tells → Leads (IsPlaced number bytes.now) (D.seen disk.old) (D.seen disk.new) }
    ensures done { D.tells → OnOk result ((D.seen disk.new).directory ≡ placed number bytes.now (D.seen disk.old).directory) }
    ensures synced { D.tells → OnOk result (IsSynced (D.seen disk.new)) }
    ensures calls { D.tells → OnOk result ((D.seen disk.new).moment ≡ (D.seen disk.old).moment + 4) }
    ensures soon { D.tells → (D.seen disk.new).moment ≤ (D.seen disk.old).moment + 4 }
    ensures no_memory { D.tells → IsErrOf result NoMemory → IsTakenBack (D.seen disk.old) (D.seen disk.new) }
    ensures unswitched { D.tells → IsErrOf result NoMemory → Leads (IsUnswitched number) (D.seen disk.old) (D.seen disk.new) }
    ensures cause { HasCause (D.faults disk.old) (D.faults disk.new) result }
{
    let manifest = Name {
        kind: Kind::Manifest,
        no: number,
    };
    let gate = Name {
        kind: Kind::Gate,
        no: number,
    };
    place(disk, manifest, bytes)?;
    match place(disk, gate, &[]) {
        Ok(()) => Ok(()),
        Err(DiskRefused::Failed) => Err(DiskRefused::Failed),
        Err(DiskRefused::NoMemory) => {
            clear(disk, &[manifest])?;
            Err(DiskRefused::NoMemory)
        }
    }
}
