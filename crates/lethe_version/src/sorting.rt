//! The files of a level, and their order.
ghost use Rattle.std.specs.Prelude.{◌≡◌, ◌++◌, ◌∷◌, [], map, filter, IfOk, nat_lt};
ghost use Rattle.std.specs.Ordering.{is_lt, nat_cmp};
ghost use Rattle.lethe_base.specs.Keys.{key_cmp};
ghost use Rattle.lethe_header.specs.Facts.{least_key};
ghost use Rattle.lethe_version.specs.NewFiles.{shared_in};
ghost use Rattle.lethe_version.specs.Order.{IsOrderedBy, comes_before, greatest_place, is_kept};

use crate::{NewFile, Shared};
use lethe_base::NoMemory;
use lethe_disk::Disk;
use lethe_file::FileView;
use std::alloc::Global;

/// The files, to be shared.
pub fn shared<D: Disk>(alloc: Global, files: Vec<FileView<D>>) -> Result<Vec<Shared<D>>, NoMemory>
    ensures { IfOk result (λ shared. map (λ one. one.file.value) shared.items ≡ files.items) }
{
    let mut shared = Vec::new(alloc);
    for file in files {
        shared.push(Shared::new(alloc, file)?)?;
    }
    Ok(shared)
}

/// A file that comes into a level, to be shared.
#[derive(Drop)]
pub struct SharedIn<D: Disk> {
    level: u64,
    file: Shared<D>,
}

/// The files, to be shared, with their levels.
pub fn shared_in_levels<D: Disk>(
    alloc: Global,
    files: Vec<NewFile<D>>,
) -> Result<Vec<SharedIn<D>>, NoMemory>
    ensures { IfOk result (λ shared. map (λ one. record { level = one.level; file = one.file.file.value }) shared.items ≡ files.items) }
{
    let mut shared = Vec::new(alloc);
    for new in files {
        let NewFile { level, file } = new;
        let file = Shared::new(alloc, file)?;
        shared.push(SharedIn { level, file })?;
    }
    Ok(shared)
}

/// Adds those of the files that come into the level.
pub fn add_new<D: Disk>(
    files: &mut Vec<Shared<D>>,
    added: &[SharedIn<D>],
    level: usize,
) -> Result<(), NoMemory>
    ensures { IfOk result (λ _. map (λ one. one.file.value) files.new.items ≡ map (λ one. one.file.value) files.old.items ++ shared_in level added.now) }
{
    for new in added {
        if new.level == level as u64 {
            files.push(new.file.share()?)?;
        }
    }
    Ok(())
}

/// Adds the file, but where its number is gone.
fn add_other<D: Disk>(
    files: &mut Vec<Shared<D>>,
    file: &Shared<D>,
    gone: &[u64],
) -> Result<(), NoMemory>
    ensures { IfOk result (λ _. map (λ one. one.file.value) files.new.items
        ≡ map (λ one. one.file.value) files.old.items ++ filter (λ one. is_kept gone.now one.header) (file.now.file.value ∷ [])) }
{
    if gone.contains(&file.no()) {
        return Ok(());
    }
    files.push(file.share()?)?;
    Ok(())
}

/// Adds those of the files whose numbers aren't gone.
pub fn add_others<D: Disk>(
    files: &mut Vec<Shared<D>>,
    from: &[Shared<D>],
    gone: &[u64],
) -> Result<(), NoMemory>
    ensures { IfOk result (λ _. map (λ one. one.file.value) files.new.items
        ≡ map (λ one. one.file.value) files.old.items ++ filter (λ one. is_kept gone.now one.header) (map (λ one. one.file.value) from.now)) }
{
    for file in from {
        add_other(files, file, gone)?;
    }
    Ok(())
}

fn newest_first<D: Disk>(files: Vec<Shared<D>>) -> Result<Vec<Shared<D>>, NoMemory>
    ensures { IfOk result (λ sorted. IsOrderedBy (λ a b. is_lt (nat_cmp (greatest_place b.file.value.header) (greatest_place a.file.value.header))) files.items sorted.items) }
{
    let mut files = files;
    files.sort_by(|a, b| b.max_seq().cmp(&a.max_seq()))?;
    Ok(files)
}

fn by_least_key<D: Disk>(files: Vec<Shared<D>>) -> Result<Vec<Shared<D>>, NoMemory>
    ensures { IfOk result (λ sorted. IsOrderedBy (λ a b. is_lt (key_cmp (least_key a.file.value.header.tiles) (least_key b.file.value.header.tiles))) files.items sorted.items) }
{
    let mut files = files;
    files.sort_by(|a, b| a.lo().cmp(b.lo()))?;
    Ok(files)
}

/// The files in the order of the level.
pub fn ordered<D: Disk>(files: Vec<Shared<D>>, level: usize) -> Result<Vec<Shared<D>>, NoMemory>
    ensures { IfOk result (λ sorted. IsOrderedBy (λ a b. comes_before level a.file.value.header b.file.value.header) files.items sorted.items) }
{
    if level == 0 {
        newest_first(files)
    } else {
        by_least_key(files)
    }
}
