//! Making an empty store.
ghost use Rattle.std.specs.Prelude.{◌≡◌, ◌⊎◌, [], None, IfOk, OnOk};
ghost use Rattle.lethe_base.specs.Configuration.{IsConfig};
ghost use Rattle.lethe_base.specs.declared.name.Name.{Name};
ghost use Rattle.lethe_disk.specs.Directory.{object};
ghost use Rattle.lethe_disk.specs.Disk.{IsSynced, HasCause};
ghost use Rattle.lethe_manifest.specs.Manifests.{HasSpelling};
ghost use Rattle.lethe_commit.specs.Switch.{HasGreatest};
ghost use Rattle.lethe_stored.specs.Stored.{IsCoherent};
ghost use Rattle.lethe_stored.specs.Encodes.{Encodes};
ghost use Rattle.lethe_disk.specs.Goes.{Goes};
ghost use Rattle.lethe_advance.specs.Settled.{IsSettled, HasOnly};
ghost use Rattle.lethe_advance.specs.Untorn.{IsUntorn};
ghost use Rattle.lethe_recover.specs.New.{first_manifest, new_stored};

use lethe_base::{Config, Kind, List, Name, NoMemory};
use lethe_commit::{clear, place, switch};
use lethe_disk::{Disk, DiskRefused};
use lethe_manifest::Manifest;
use lethe_segment::new_segment;
use std::alloc::Global;

/// Makes an empty store on a disk that has no gate: what is there is removed, and the store is segment 1, manifest 2 and its gate. It answers this manifest.
///
/// # Errors
///
/// `NoMemory` where there was no memory: then there is no gate. `Failed` where the disk failed: then there is none, or the new store.
pub fn begin<D: Disk>(alloc: Global, disk: &mut D, config: &Config) -> Result<Manifest, DiskRefused>
    requires none { D.tells → IsSynced (D.seen disk.old) × HasGreatest None (D.seen disk.old).directory }

    // A crash at any moment of the call leaves no gate, or the new store.
    ensures any_moment { D.tells → Goes (λ c. HasGreatest None c ⊎ Encodes c (new_stored config.now)) (D.seen disk.old) (D.seen disk.new) }

    // Acknowledged: each crash leaves the new store, untorn, and nothing else.
    ensures done { D.tells → OnOk result (IsSettled (D.seen disk.new) (new_stored config.now) × HasOnly (new_stored config.now) [] (D.seen disk.new).directory
        × IsUntorn (new_stored config.now) (D.seen disk.new).directory) }
    ensures is { IfOk result (λ manifest. manifest ≡ first_manifest config.now) }
    ensures cause { HasCause (D.faults disk.old) (D.faults disk.new) result }

    // What is made has a spelling.
    ensures coherent { IsCoherent (new_stored config.now) }
{
    let manifest = first_manifest(alloc, config)?;
    let segment = Name {
        kind: Kind::Segment,
        no: 1,
    };
    remove_everything(alloc, disk)?;
    place(disk, segment, &new_segment(1))?;
    switch(alloc, disk, &manifest)?;
    clear(disk, &[])?;
    Ok(manifest)
}

// Removes every object, and syncs.
fn remove_everything<D: Disk>(alloc: Global, disk: &mut D) -> Result<(), DiskRefused>
    requires { D.tells → IsSynced (D.seen disk.old) × HasGreatest None (D.seen disk.old).directory }
    ensures any_moment { D.tells → Goes (HasGreatest None) (D.seen disk.old) (D.seen disk.new) }
    ensures done { D.tells → OnOk result ((name : Name) → object (D.seen disk.new).directory name ≡ None) }
    ensures synced { D.tells → OnOk result (IsSynced (D.seen disk.new)) }
    ensures cause { HasCause (D.faults disk.old) (D.faults disk.new) result }
{
    let names = disk.names(alloc)?;
    clear(disk, &names)
}

// The manifest of a new store.
fn first_manifest(alloc: Global, config: &Config) -> Result<Manifest, NoMemory>
    ensures is { IfOk result (λ manifest. manifest ≡ first_manifest config.now) }
    ensures spelled { IfOk result HasSpelling }
    ensures limits { IsConfig config.now }
{
    // A configuration keeps its limits, which a spelling needs.
    prove!(config.fields().levels > 0);
    let mut segments = Vec::new(alloc);
    segments.push(1)?;
    Ok(Manifest {
        no: 2,
        config: *config,
        clock: 0,
        count: 0,
        next: 3,
        certificate: None,
        erases: List::of(Vec::new(alloc)),
        segments: List::of(segments),
        files: List::of(Vec::new(alloc)),
    })
}
