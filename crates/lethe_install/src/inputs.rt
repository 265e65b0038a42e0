//! The inputs of a job, and the files beside them.
ghost use Rattle.std.specs.Prelude.{◌≡◌, ◌++◌, map, flat_map, filter, IfOk, OnOk};
ghost use Rattle.lethe_header.specs.Facts.{least_key, greatest_key};
ghost use Rattle.lethe_stored.specs.Levels.{HasFiles};
ghost use Rattle.lethe_stored.specs.Stored.{Stored, IsCoherent};
ghost use Rattle.lethe_advance.specs.Shown.{parts_by_level};
ghost use Rattle.lethe_job.specs.Tasks.{merge_inputs, plain_file, plain_merge};
ghost use Rattle.lethe_install.specs.Inputs.{AreInputs, is_above, is_reached, names_of, number_of, numbered};

use crate::names::add_pages_of;
use lethe_base::{Key, Kind, Name, NoMemory};
use lethe_disk::Disk;
use lethe_job::{Filed, MergeTask, cited_files};
use lethe_manifest::Cited;
use lethe_version::Version;
use std::alloc::Global;

/// What has to be known of the files that go and of those beside them.
#[derive(Drop)]
pub struct Inputs {
    /// Their numbers.
    pub numbers: Vec<u64>,
    /// The numbers of the files of the level of what comes that stand behind it.
    pub above: Vec<u64>,
    /// The names of their headers and pages, but for pages that stay.
    pub names: Vec<Name>,
}

/// The inputs of a task whose outputs come into that level, and the files beside them.
pub fn inputs_of<D: Disk>(
    alloc: Global,
    version: &Version<D>,
    task: &MergeTask<D>,
    level: u64,
    cited: &[Cited],
) -> Result<Inputs, NoMemory>
    ensures numbers { IfOk result (λ inputs. inputs.numbers.items ≡ map number_of (merge_inputs (plain_merge task.now))) }
    ensures stored { (s : Stored) → IsCoherent s → s.manifest.files ≡ cited.now → HasFiles s (parts_by_level version.now)
        → IfOk result (AreInputs level (map plain_file task.now.sources.items) s.files) }
{
    let mut numbers = Vec::new(alloc);
    add_numbers(&mut numbers, &task.sources)?;
    add_numbers(&mut numbers, &task.met)?;
    let files = cited_files(alloc, version, cited)?;
    let above = numbers_above(alloc, &files, level, &task.sources)?;
    let names = names_in(alloc, &files, &numbers)?;
    Ok(Inputs {
        numbers,
        above,
        names,
    })
}

/// Adds the numbers of the files.
fn add_numbers<D: Disk>(numbers: &mut Vec<u64>, files: &[Filed<D>]) -> Result<(), NoMemory>
    ensures { OnOk result (numbers.new.items ≡ numbers.old.items ++ map number_of (map plain_file files.now)) }
{
    for file in files {
        numbers.push(file.file.no())?;
    }
    Ok(())
}

/// The numbers of the files of a level that stand above the sources.
fn numbers_above<D: Disk>(
    alloc: Global,
    files: &[Filed<D>],
    level: u64,
    sources: &[Filed<D>],
) -> Result<Vec<u64>, NoMemory>
    ensures { IfOk result (λ numbers. numbers.items ≡ map number_of (filter (is_above level (map plain_file sources.now)) (map plain_file files.now))) }
{
    let mut numbers = Vec::new(alloc);
    for file in files {
        if is_above(file, level, sources) {
            numbers.push(file.file.no())?;
        }
    }
    Ok(numbers)
}

fn is_above<D: Disk>(file: &Filed<D>, level: u64, sources: &[Filed<D>]) -> bool
    ensures { result ≡ is_above level (map plain_file sources.now) (plain_file file.now) }
{
    file.level == level && !is_reached(file, sources)
}

/// Whether a source has a key that isn't below all keys of the file.
fn is_reached<D: Disk>(file: &Filed<D>, sources: &[Filed<D>]) -> bool
    ensures { result ≡ is_reached (map plain_file sources.now) (plain_file file.now) }
{
    for source in sources {
        if lo(file) <= hi(source) {
            return true;
        }
    }
    false
}

/// Its least key.
fn lo<D: Disk>(file: &Filed<D>) -> &Key
    ensures { result.now ≡ least_key (plain_file file.now).header.tiles }
{
    &file.file.file().header().tiles.items()[0].lo
}

/// Its greatest key.
fn hi<D: Disk>(file: &Filed<D>) -> &Key
    ensures { result.now ≡ greatest_key (plain_file file.now).header.tiles }
{
    let tiles = file.file.file().header().tiles.items();
    &tiles[tiles.len() - 1].hi
}

/// The names of the headers and the pages of the files with these numbers.
fn names_in<D: Disk>(
    alloc: Global,
    files: &[Filed<D>],
    numbers: &[u64],
) -> Result<Vec<Name>, NoMemory>
    ensures { IfOk result (λ names. names.items ≡ flat_map names_of (numbered numbers.now (map plain_file files.now))) }
{
    let mut names = Vec::new(alloc);
    for file in files {
        if numbers.contains(&file.file.no()) {
            add_names(&mut names, file)?;
        }
    }
    Ok(names)
}

/// Adds the names of the file's header and pages.
fn add_names<D: Disk>(names: &mut Vec<Name>, file: &Filed<D>) -> Result<(), NoMemory>
    ensures { OnOk result (names.new.items ≡ names.old.items ++ names_of (plain_file file.now)) }
{
    names.push(Name {
        kind: Kind::File,
        no: file.file.no(),
    })?;
    add_pages_of(names, file.file.file().header())
}
