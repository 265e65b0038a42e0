//! Going from what is stored to what is stored next.
ghost use Rattle.std.specs.Prelude.{◌≡◌, ◌⊎◌, ℕ, ◌+◌, ◌*◌, ◌<◌, ◌≤◌, List, [], Some, length, map, All, Contains, IfOk, OnOk, IsErrOf};
ghost use Rattle.lethe_base.specs.declared.name.Name.{Name};
ghost use Rattle.lethe_disk.specs.Directory.{Directory, SameBeside, object};
ghost use Rattle.lethe_disk.specs.Disk.{HasCause, IsSynced};
ghost use Rattle.lethe_disk.specs.Goes.{Goes};
ghost use Rattle.lethe_disk.specs.Runs.{Leads};
ghost use Rattle.lethe_disk.specs.declared.disk.DiskRefused.TheVariants.{NoMemory};
ghost use Rattle.lethe_header.specs.Headers as header;
ghost use Rattle.lethe_manifest.specs.Manifests.{manifest_bytes};
ghost use Rattle.lethe_commit.specs.Clear.{ArePresent, IsCleared, remove_all};
ghost use Rattle.lethe_commit.specs.Gates.{gate_name};
ghost use Rattle.lethe_commit.specs.Place.{AreAbsent, insert_all, name_of};
ghost use Rattle.lethe_commit.specs.Switch.{IsTakenBack};
ghost use Rattle.lethe_stored.specs.Stored.{Stored, part_names};
ghost use Rattle.lethe_stored.specs.Encodes.{Encodes};
ghost use Rattle.lethe_stored.specs.Levels.{HasFiles};
ghost use Rattle.lethe_version.specs.Versions.{levels_of};
ghost use Rattle.lethe_advance.specs.Calls.{most_calls};
ghost use Rattle.lethe_advance.specs.Settled.{IsSettled, HasOnly};
ghost use Rattle.lethe_advance.specs.Shown.{parts_by_level};
ghost use Rattle.lethe_advance.specs.Steps.{HasStayed, MayAdvance};

use crate::exchanging::exchange;
use crate::{NewHeader, Step};
use lethe_commit::{Object, clear, place_all, remove_objects};
use lethe_disk::{Disk, DiskRefused};
use lethe_version::Version;
use std::alloc::Global;

/// Goes from what is stored to what is stored next: writes the objects, opens the files of these headers, whose objects are among those
/// that are written or stored, and adds them to the version in their levels, switches to the manifest, which is spelled by these bytes, and removes what isn't cited any more.
///
/// # Errors
///
/// `NoMemory` where there was no memory: then nothing is changed, and what was written is gone again, and synced. `Failed` where the disk
/// failed: then each crash leaves what was stored, or what is stored next.
pub fn advance<D: Disk>(
    alloc: Global,
    disk: &mut D,
    version: &Version<D>,
    headers: Vec<NewHeader>,
    step: &Step,
    manifest: &[u8],
) -> Result<Version<D>, DiskRefused>
    requires bytes { manifest.now ≡ manifest_bytes step.now.manifest }
    requires headers { All (λ new. header.HasSpelling new.header) headers.items }
    requires levels { All (λ new. new.level < length (levels_of version.now)) headers.items }
    requires step { D.tells → (s t : Stored) × (loose left : List (Name × List ℕ)) × MayAdvance (D.seen disk.old) s loose t left headers.items step.now }

    // A crash at any moment of the call leaves what was stored, or what is stored next.
    ensures any_moment { D.tells → (s t : Stored) (loose left : List (Name × List ℕ)) → MayAdvance (D.seen disk.old) s loose t left headers.items step.now
        → Goes (λ c. Encodes c s ⊎ Encodes c t) (D.seen disk.old) (D.seen disk.new) }

    // Up to as many device calls as there are objects, it leaves what was stored.
    ensures early { D.tells → (s t : Stored) (loose left : List (Name × List ℕ)) → MayAdvance (D.seen disk.old) s loose t left headers.items step.now
        → (moment : ℕ) (c : Directory) → (D.seen disk.old).moment ≤ moment → moment ≤ (D.seen disk.new).moment
        → moment ≤ (D.seen disk.old).moment + length step.now.objects.items → (D.seen disk.new).left moment c → Encodes c s }

    // Acknowledged: each crash leaves what is stored next, and nothing else but the objects that are left beside it, with the bytes that they had.
    ensures done { D.tells → (s t : Stored) (loose left : List (Name × List ℕ)) → MayAdvance (D.seen disk.old) s loose t left headers.items step.now
        → OnOk result (IsSettled (D.seen disk.new) t × HasOnly t left (D.seen disk.new).directory) }

    // What stays is as it was byte for byte, and what was written is there.
    ensures kept { D.tells → (s t : Stored) (loose left : List (Name × List ℕ)) → MayAdvance (D.seen disk.old) s loose t left headers.items step.now
        → OnOk result ((name : Name) → Contains (part_names t) name
        → object (D.seen disk.new).directory name ≡ object (insert_all step.now.objects.items (D.seen disk.old).directory) name) }

    // Each object that was there, and is cited next or left beside that, is as it was, whatever is answered.
    ensures stays { D.tells → (s t : Stored) (loose left : List (Name × List ℕ)) → MayAdvance (D.seen disk.old) s loose t left headers.items step.now
        → HasStayed t left (D.seen disk.old).directory (D.seen disk.new).directory }

    // The new gate is empty.
    ensures gate { D.tells → (s t : Stored) (loose left : List (Name × List ℕ)) → MayAdvance (D.seen disk.old) s loose t left headers.items step.now
        → OnOk result (object (D.seen disk.new).directory (gate_name t.manifest.no) ≡ Some []) }

    // Where there was no memory, a crash at any moment of the call leaves what was stored.
    ensures unmoved { D.tells → (s t : Stored) (loose left : List (Name × List ℕ)) → MayAdvance (D.seen disk.old) s loose t left headers.items step.now
        → IsErrOf result NoMemory → Goes (λ c. Encodes c s) (D.seen disk.old) (D.seen disk.new) }

    ensures files { D.tells → (s t : Stored) (loose left : List (Name × List ℕ)) → MayAdvance (D.seen disk.old) s loose t left headers.items step.now
        → HasFiles s (parts_by_level version.now) → IfOk result (λ next. HasFiles t (parts_by_level next)) }
    ensures levels { IfOk result (λ next. length (levels_of next) ≡ length (levels_of version.now)) }
    ensures calls { D.tells → OnOk result ((D.seen disk.old).moment + length step.now.objects.items + 4 ≤ (D.seen disk.new).moment) }
    ensures most { D.tells → OnOk result ((D.seen disk.new).moment ≤ (D.seen disk.old).moment + most_calls headers.items step.now) }

    // Where it is refused, the objects that it made may be removed again.
    ensures soon { D.tells → (D.seen disk.new).moment ≤ (D.seen disk.old).moment + most_calls headers.items step.now + length step.now.objects.items }
    ensures no_memory { D.tells → IsErrOf result NoMemory → IsTakenBack (D.seen disk.old) (D.seen disk.new) }
    ensures cause { HasCause (D.faults disk.old) (D.faults disk.new) result }
{
    place_new(disk, &step.objects)?;
    match exchange(alloc, disk, version, headers, step, manifest) {
        Ok(next) => {
            clear(disk, &step.gone)?;
            Ok(next)
        }
        Err(DiskRefused::Failed) => Err(DiskRefused::Failed),
        Err(DiskRefused::NoMemory) => {
            take_back(disk, &step.objects)?;
            Err(DiskRefused::NoMemory)
        }
    }
}

// Creates these objects, none of which is there, and syncs once. Where there are none nothing is done: a sync would find nothing.
fn place_new<D: Disk>(disk: &mut D, objects: &[Object]) -> Result<(), DiskRefused>
    requires synced { D.tells → IsSynced (D.seen disk.old) }
    requires absent { D.tells → AreAbsent objects.now (D.seen disk.old).directory }
    ensures any_moment { D.tells → Leads (SameBeside (map name_of objects.now)) (D.seen disk.old) (D.seen disk.new) }
    ensures done { D.tells → OnOk result ((D.seen disk.new).directory ≡ insert_all objects.now (D.seen disk.old).directory) }
    ensures synced { D.tells → OnOk result (IsSynced (D.seen disk.new)) }
    ensures calls { D.tells → OnOk result ((D.seen disk.old).moment + length objects.now ≤ (D.seen disk.new).moment) }
    ensures most { D.tells → OnOk result ((D.seen disk.new).moment ≤ (D.seen disk.old).moment + length objects.now + 1) }
    ensures soon { D.tells → (D.seen disk.new).moment ≤ (D.seen disk.old).moment + 2 * length objects.now + 1 }
    ensures no_memory { D.tells → IsErrOf result NoMemory → IsTakenBack (D.seen disk.old) (D.seen disk.new) }
    ensures idle { objects.now ≡ [] → disk.new ≡ disk.old }
    ensures cause { HasCause (D.faults disk.old) (D.faults disk.new) result }
{
    if objects.is_empty() {
        return Ok(());
    }
    place_all(disk, objects)
}

// Removes these objects again, and syncs.
fn take_back<D: Disk>(disk: &mut D, objects: &[Object]) -> Result<(), DiskRefused>
    requires { D.tells → ArePresent (map name_of objects.now) (D.seen disk.old).directory }
    ensures any_moment { D.tells → Leads (IsCleared (map name_of objects.now)) (D.seen disk.old) (D.seen disk.new) }
    ensures done { D.tells → OnOk result ((D.seen disk.new).directory ≡ remove_all (map name_of objects.now) (D.seen disk.old).directory) }
    ensures synced { D.tells → OnOk result (IsSynced (D.seen disk.new)) }
    ensures soon { D.tells → (D.seen disk.new).moment ≤ (D.seen disk.old).moment + length objects.now + 1 }
    ensures no_memory { IsErrOf result NoMemory → ⊥ }
    ensures cause { HasCause (D.faults disk.old) (D.faults disk.new) result }
{
    remove_objects(disk, objects)?;
    disk.sync()
}
