//! Opening new files and switching to the manifest that cites them.
ghost use Rattle.std.specs.Prelude.{◌≡◌, ◌+◌, ◌<◌, ◌≤◌, Some, IsSome, length, map, All, IfOk, OnOk, IsErrOf};
ghost use Rattle.lethe_disk.specs.Directory.{object};
ghost use Rattle.lethe_disk.specs.Disk.{Image, HasCause};
ghost use Rattle.lethe_disk.specs.Quiet.{IsQuiet};
ghost use Rattle.lethe_disk.specs.Runs.{Leads};
ghost use Rattle.lethe_disk.specs.declared.disk.DiskRefused.TheVariants.{NoMemory};
ghost use Rattle.lethe_header.specs.Headers as header;
ghost use Rattle.lethe_manifest.specs.Manifests.{manifest_bytes};
ghost use Rattle.lethe_commit.specs.Switch.{IsFree, IsSwitched, IsUnswitched, HasNew, IsTakenBack, manifest_name, switched};
ghost use Rattle.lethe_version.specs.Versions.{levels_of};
ghost use Rattle.lethe_advance.specs.Calls.{opened_by};
ghost use Rattle.lethe_advance.specs.Shown.{HasPages, AreLevelsWith, new_parts, new_parts_at, parts_by_level};

use crate::{NewHeader, Step};
use lethe_commit::switch_to;
use lethe_disk::{Disk, DiskRefused};
use lethe_version::{NewFile, Version, open_file};
use std::alloc::Global;

/// Opens the files of these headers and adds them to the version in their levels, and then switches to the manifest, which is spelled by these bytes.
///
/// # Errors
///
/// `NoMemory` where there was no memory: then each crash leaves what it could leave before. `Failed` where the disk failed: then the new
/// manifest may count or not.
pub fn exchange<D: Disk>(
    alloc: Global,
    disk: &mut D,
    version: &Version<D>,
    headers: Vec<NewHeader>,
    step: &Step,
    manifest: &[u8],
) -> Result<Version<D>, DiskRefused>
    requires bytes { manifest.now ≡ manifest_bytes step.now.manifest }
    requires headers { All (λ new. header.HasSpelling new.header) headers.items }
    requires levels { All (λ new. new.level < length (levels_of version.now)) headers.items }
    requires present { D.tells → All (λ new. HasPages (D.seen disk.old).directory new.header) headers.items }
    requires free { D.tells → IsFree (D.seen disk.old) step.now.manifest.no (Some step.now.older) }
    requires older { D.tells → IsSome (object (D.seen disk.old).directory (manifest_name step.now.older)) }

    // A crash at any moment of the call leaves what a switch may leave.
    ensures any_moment { D.tells → Leads (IsSwitched step.now.manifest.no (manifest_bytes step.now.manifest) (Some step.now.older)) (D.seen disk.old) (D.seen disk.new) }
    ensures done { D.tells → OnOk result ((D.seen disk.new).directory
        ≡ switched step.now.manifest.no (manifest_bytes step.now.manifest) (Some step.now.older) (D.seen disk.old).directory) }
    ensures new { D.tells → OnOk result ((c : _) → Image (D.seen disk.new) c → HasNew step.now.manifest.no (manifest_bytes step.now.manifest) c) }

    ensures files { D.tells → IfOk result (λ next. AreLevelsWith step.now.merged.items (map (new_parts_at (D.seen disk.old).directory) headers.items)
        (parts_by_level version.now) (parts_by_level next)) }
    ensures levels { IfOk result (λ next. length (levels_of next) ≡ length (levels_of version.now)) }
    ensures calls { D.tells → OnOk result ((D.seen disk.old).moment + 4 ≤ (D.seen disk.new).moment) }

    // Each page is opened, and a switch takes at most six calls.
    ensures soon { D.tells → (D.seen disk.new).moment ≤ (D.seen disk.old).moment + opened_by headers.items + 6 }
    ensures no_memory { D.tells → IsErrOf result NoMemory → IsTakenBack (D.seen disk.old) (D.seen disk.new) }
    ensures unswitched { D.tells → IsErrOf result NoMemory → Leads (IsUnswitched step.now.manifest.no) (D.seen disk.old) (D.seen disk.new) }
    ensures cause { HasCause (D.faults disk.old) (D.faults disk.new) result }
{
    let files = open_files(alloc, disk, headers)?;
    let next = version.with(alloc, &step.merged, files)?;
    switch_to(disk, Some(step.older), step.manifest.no, manifest)?;
    Ok(next)
}

// Opens the files of these headers.
fn open_files<D: Disk>(
    alloc: Global,
    disk: &mut D,
    headers: Vec<NewHeader>,
) -> Result<Vec<NewFile<D>>, DiskRefused>
    requires headers { All (λ new. header.HasSpelling new.header) headers.items }
    requires present { D.tells → All (λ new. HasPages (D.seen disk.old).directory new.header) headers.items }
    ensures opened { D.tells → IfOk result (λ files. map new_parts files.items ≡ map (new_parts_at (D.seen disk.old).directory) headers.items) }

    // On any disk:
    ensures levels { IfOk result (λ files. map (λ new. new.level) files.items ≡ map (λ new. new.level) headers.items) }
    ensures quiet { D.tells → IsQuiet (D.seen disk.old) (D.seen disk.new) }
    ensures soon { D.tells → (D.seen disk.new).moment ≤ (D.seen disk.old).moment + opened_by headers.items }
    ensures cause { HasCause (D.faults disk.old) (D.faults disk.new) result }
{
    let mut files = Vec::new(alloc);
    for new in headers {
        let NewHeader { level, header } = new;
        let file = open_file(alloc, disk, header)?;
        files.push(NewFile { level, file })?;
    }
    Ok(files)
}
