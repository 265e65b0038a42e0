//! A version of the same files, for one more owner.
ghost use Rattle.std.specs.Prelude.{[], IfOk};
ghost use Rattle.lethe_advance.specs.Shown.{AreLevelsWith, parts_by_level};
ghost use Rattle.lethe_stored.specs.Levels.{HasFiles};
ghost use Rattle.lethe_stored.specs.Stored.{Stored};
ghost use Rattle.lethe_snapshot.specs.Points.{AreSameFiles};

use lethe_base::NoMemory;
use lethe_disk::Disk;
use lethe_version::Version;
use std::alloc::Global;

/// The same files by level. They are shared, not copied.
pub fn share<D: Disk>(alloc: Global, version: &Version<D>) -> Result<Version<D>, NoMemory>
    ensures levels { IfOk result (λ next. AreLevelsWith [] [] (parts_by_level version.now) (parts_by_level next)) }
    ensures same { IfOk result (λ next. AreSameFiles (parts_by_level version.now) (parts_by_level next)) }
    ensures files { (s : Stored) → HasFiles s (parts_by_level version.now) → IfOk result (λ next. HasFiles s (parts_by_level next)) }
{
    version.with(alloc, &[], Vec::new(alloc))
}
