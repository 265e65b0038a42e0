//! The version of a manifest's files.
ghost use Rattle.std.specs.Prelude.{◌≡◌, ◌≢◌, ℕ, ◌+◌, ◌<◌, ◌++◌, ◌∷◌, [], map, length, slice_index_or, All, IfOk, OnOk};
ghost use Rattle.lethe_manifest.specs.Manifests.{HasSpelling};
ghost use Rattle.lethe_stored.specs.Files.{parts_of};
ghost use Rattle.lethe_stored.specs.Levels.{HasFiles};
ghost use Rattle.lethe_stored.specs.Stored.{Stored, IsCoherent};
ghost use Rattle.lethe_version.specs.Versions.{levels_of};
ghost use Rattle.lethe_advance.specs.Shown.{parts_in, parts_by_level};
ghost use Rattle.lethe_recover.specs.Leveled.{files_at};

use lethe_base::NoMemory;
use lethe_disk::Disk;
use lethe_file::FileView;
use lethe_manifest::{Cited, Manifest};
use lethe_version::Version;
use std::alloc::Global;

/// The version of a manifest's files, which are given in its order.
pub fn version_of<D: Disk>(
    alloc: Global,
    manifest: &Manifest,
    files: Vec<FileView<D>>,
) -> Result<Version<D>, NoMemory>
    requires spelled { HasSpelling manifest.now }
    requires cited { length manifest.now.files ≡ length files.items }
    ensures levels { IfOk result (λ version. length (levels_of version) ≡ manifest.now.config.levels + 1) }
    ensures files { IfOk result (λ version. (s : Stored) → IsCoherent s → s.manifest ≡ manifest.now → map parts_in files.items ≡ map parts_of s.files
        → HasFiles s (parts_by_level version)) }
{
    let count = manifest.config.fields().levels as usize + 1;
    let levels = by_level(alloc, manifest.files.items(), files, count)?;
    Version::of(alloc, levels)
}

// The files in so many lists, by the levels in which they are cited.
fn by_level<D: Disk>(
    alloc: Global,
    cited: &[Cited],
    files: Vec<FileView<D>>,
    count: usize,
) -> Result<Vec<Vec<FileView<D>>>, NoMemory>
    requires low { All (λ file. file.level < count) cited.now }
    requires lengths { length cited.now ≡ length files.items }
    ensures count { IfOk result (λ levels. length levels.items ≡ count) }
    ensures each { IfOk result (λ levels. (level : ℕ) (given : _) → level < count
        → (slice_index_or levels.items level given).items ≡ files_at level cited.now files.items) }
{
    let mut levels = empty_lists(alloc, count)?;
    let mut place = 0;
    for file in files {
        add_to(&mut levels, cited[place].level as usize, file)?;
        place += 1;
    }
    Ok(levels)
}

// So many lists without files.
fn empty_lists<D: Disk>(alloc: Global, count: usize) -> Result<Vec<Vec<FileView<D>>>, NoMemory>
    ensures count { IfOk result (λ levels. length levels.items ≡ count) }
    ensures each { IfOk result (λ levels. (level : ℕ) (given : _) → level < count → (slice_index_or levels.items level given).items ≡ []) }
{
    let mut levels = Vec::new(alloc);
    for made in 0..count {
        levels.push(Vec::new(alloc))?;
    }
    Ok(levels)
}

// Adds a file to the list at a place.
fn add_to<D: Disk>(
    levels: &mut Vec<Vec<FileView<D>>>,
    level: usize,
    file: FileView<D>,
) -> Result<(), NoMemory>
    requires { level < length levels.old.items }
    ensures count { OnOk result (length levels.new.items ≡ length levels.old.items) }
    ensures there { OnOk result ((given : _) → (slice_index_or levels.new.items level given).items ≡ (slice_index_or levels.old.items level given).items ++ file ∷ []) }
    ensures others { OnOk result ((other : ℕ) (given : _) → other ≢ level → slice_index_or levels.new.items other given ≡ slice_index_or levels.old.items other given) }
{
    levels[level].push(file)?;
    Ok(())
}
