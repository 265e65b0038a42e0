//! The files of a store as its manifest cites them.
ghost use Rattle.std.specs.Prelude.{◌≡◌, ◌<◌, [], map, length, slice_index_or, Contains, IfOk};
ghost use Rattle.std.specs.List.{AllZip};
ghost use Rattle.lethe_header.specs.Facts.{least_key, greatest_key};
ghost use Rattle.lethe_stored.specs.Levels.{HasFiles};
ghost use Rattle.lethe_stored.specs.Stored.{Stored, IsCoherent};
ghost use Rattle.lethe_version.specs.Versions.{levels_of};
ghost use Rattle.lethe_sweeps.specs.Shown.{parts_by_level};
ghost use Rattle.lethe_job.specs.Tasks.{IsCitedAs, plain_file};

use lethe_base::{Key, NoMemory};
use lethe_disk::Disk;
use lethe_manifest::Cited;
use lethe_version::{Shared, Version};
use std::alloc::Global;

/// A file with what a manifest says of it.
#[derive(Drop)]
pub struct Filed<D: Disk> {
    /// Its level, from 0.
    pub level: u64,
    /// The place up to which erases are applied to it.
    pub swept: u64,
    pub file: Shared<D>,
}

impl<D: Disk> Filed<D> {
    /// The same file, for one more owner.
    pub(crate) fn share(&self) -> Result<Filed<D>, NoMemory>
        ensures { IfOk result (λ filed. plain_file filed ≡ plain_file self.now) }
    {
        let file = self.file.share()?;
        Ok(Filed {
            level: self.level,
            swept: self.swept,
            file,
        })
    }

    /// Its number.
    pub(crate) fn no(&self) -> u64
        ensures { result ≡ (plain_file self.now).header.no }
    {
        self.file.no()
    }

    /// Its least key.
    pub(crate) fn lo(&self) -> &Key
        ensures { result.now ≡ least_key (plain_file self.now).header.tiles }
    {
        &self.file.file().header().tiles.items()[0].lo
    }

    /// Its greatest key.
    pub(crate) fn hi(&self) -> &Key
        ensures { result.now ≡ greatest_key (plain_file self.now).header.tiles }
    {
        let tiles = self.file.file().header().tiles.items();
        &tiles[tiles.len() - 1].hi
    }
}

/// The files of a version that are cited so, in this order. A version that lacks one is not of the manifest, and answers as if there were no memory.
pub fn cited_files<D: Disk>(
    alloc: Global,
    version: &Version<D>,
    cited: &[Cited],
) -> Result<Vec<Filed<D>>, NoMemory>
    ensures stored { (s : Stored) → IsCoherent s → s.manifest.files ≡ cited.now → HasFiles s (parts_by_level version.now) → IfOk result (λ files. map plain_file files.items ≡ s.files) }
    // On any disk, one for each.
    ensures each { IfOk result (λ files. AllZip (IsCitedAs (parts_by_level version.now)) cited.now (map plain_file files.items)) }
{
    let mut files = Vec::new(alloc);
    for one in cited {
        files.push(cited_file(version, one)?)?;
    }
    Ok(files)
}

/// The file of a version that is cited so.
fn cited_file<D: Disk>(version: &Version<D>, cited: &Cited) -> Result<Filed<D>, NoMemory>
    ensures level { IfOk result (λ filed. filed.level ≡ cited.now.level) }
    ensures swept { IfOk result (λ filed. filed.swept ≡ cited.now.swept) }
    ensures no { IfOk result (λ filed. filed.file.file.value.header.no ≡ cited.now.no) }
    ensures low { IfOk result (λ _. cited.now.level < length (levels_of version.now)) }
    ensures there { IfOk result (λ filed. Contains (slice_index_or (levels_of version.now) cited.now.level []) filed.file.file.value) }
{
    let level = cited.level as usize;
    if version.levels() <= level {
        return Err(NoMemory);
    }
    for file in version.files(level) {
        if file.no() == cited.no {
            let file = file.share()?;
            return Ok(Filed {
                level: cited.level,
                swept: cited.swept,
                file,
            });
        }
    }
    Err(NoMemory)
}
