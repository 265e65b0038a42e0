//! The files that a merge takes.
ghost use Rattle.std.specs.Prelude.{◌≡◌, map, IfOk};
ghost use Rattle.lethe_job.specs.Chosen.{is_below, is_named, is_source, level_named, lies_below, met_in, sources_in};
ghost use Rattle.lethe_job.specs.Tasks.{plain_file};

use crate::filed::Filed;
use crate::reach::Reach;
use lethe_base::NoMemory;
use lethe_disk::Disk;
use std::alloc::Global;

/// The level of the first file of that number above the last level.
pub fn level_named<D: Disk>(files: &[Filed<D>], levels: u64, number: u64) -> Option<u64>
    ensures { result ≡ level_named levels number (map plain_file files.now) }
{
    for file in files {
        if is_named(file, levels, number) {
            return Some(file.level);
        }
    }
    None
}

fn is_named<D: Disk>(file: &Filed<D>, levels: u64, number: u64) -> bool
    ensures { result ≡ is_named levels number (plain_file file.now) }
{
    file.level < levels && file.no() == number
}

/// The sources of the merge that a file's number names: of level 0 all files, and of another level that file.
pub fn sources_in<D: Disk>(
    alloc: Global,
    files: &[Filed<D>],
    level: u64,
    number: u64,
) -> Result<Vec<Filed<D>>, NoMemory>
    ensures { IfOk result (λ sources. map plain_file sources.items ≡ sources_in level number (map plain_file files.now)) }
{
    let mut sources = Vec::new(alloc);
    for file in files {
        if is_source(file, level, number) {
            sources.push(file.share()?)?;
        }
    }
    Ok(sources)
}

fn is_source<D: Disk>(file: &Filed<D>, level: u64, number: u64) -> bool
    ensures { result ≡ is_source level number (plain_file file.now) }
{
    file.level == level && (level == 0 || file.no() == number)
}

/// The files of a level that overlap some keys.
pub fn met_in<D: Disk>(
    alloc: Global,
    files: &[Filed<D>],
    level: u64,
    reach: &Reach,
) -> Result<Vec<Filed<D>>, NoMemory>
    ensures { IfOk result (λ met. map plain_file met.items ≡ met_in level reach.now (map plain_file files.now)) }
{
    let mut met = Vec::new(alloc);
    for file in files {
        if file.level == level && reach.overlaps(&Reach::of(file)) {
            met.push(file.share()?)?;
        }
    }
    Ok(met)
}

/// Whether a file of a deeper level overlaps some keys.
pub fn lies_below<D: Disk>(files: &[Filed<D>], level: u64, reach: &Reach) -> bool
    ensures { result ≡ lies_below level reach.now (map plain_file files.now) }
{
    for file in files {
        if is_below(file, level, reach) {
            return true;
        }
    }
    false
}

fn is_below<D: Disk>(file: &Filed<D>, level: u64, reach: &Reach) -> bool
    ensures { result ≡ is_below level reach.now (plain_file file.now) }
{
    level < file.level && reach.overlaps(&Reach::of(file))
}
