//! The files of one level.
ghost use Rattle.std.specs.Prelude.{◌≡◌, ◌≢◌, ◌==◌, [], ◌++◌, map, filter, find, IsTrue, IfOk};
ghost use Rattle.std.specs.Option.{option_copied};
ghost use Rattle.std.specs.Ordering.{is_lt};
ghost use Rattle.lethe_base.specs.Keys.{key_cmp};
ghost use Rattle.lethe_header.specs.Facts.{least_key, greatest_key};
ghost use Rattle.lethe_version.specs.NewFiles.{shared_in};
ghost use Rattle.lethe_version.specs.Order.{IsOrderedBy, Rise, comes_before, is_kept};
ghost use Rattle.lethe_version.specs.Probing.{IsNarrowed};

use crate::Shared;
use crate::sorting::{SharedIn, add_new, add_others, ordered, shared};
use lethe_base::{Key, NoMemory};
use lethe_disk::Disk;
use lethe_file::FileView;
use std::alloc::Global;
use std::cmp::Ordering;

/// The files of a level in its order, and whether they may be searched by halves.
#[derive(Drop)]
pub struct Level<D: Disk> {
    pub(crate) files: Vec<Shared<D>>,

    /// They ascend by key and are disjoint.
    rises: bool,
    ghost rising: { IsTrue rises → Rise (map (λ shared. shared.file.value.header) files.items) },
}

/// Whether the key is above the file's greatest key.
fn ends_below<D: Disk>(file: &Shared<D>, key: &Key) -> bool
    ensures { result ≡ is_lt (key_cmp (greatest_key file.now.file.value.header.tiles) key.now) }
{
    file.hi().cmp(key) == Ordering::Less
}

/// Whether the files ascend by key and are disjoint.
fn rise<D: Disk>(files: &[Shared<D>]) -> bool
    ensures { IsTrue result → Rise (map (λ shared. shared.file.value.header) files.now) }
{
    for place in 1..files.len() {
        if !ends_below(&files[place - 1], files[place].lo()) {
            return false;
        }
    }
    true
}

impl<D: Disk> Level<D> {
    /// The level of these files.
    pub(crate) fn of(files: Vec<Shared<D>>) -> Level<D>
        ensures { result.files ≡ files }
    {
        let rises = rise(&files);
        Level { files, rises }
    }

    /// The files that may have the key: at most one where the level is searched by halves, else all.
    pub(crate) fn candidates(&self, key: &Key) -> &[Shared<D>]
        ensures { IsNarrowed (λ shared. shared.file.value.header) key.now self.now.files.items result.now }
    {
        if !self.rises {
            return &self.files;
        }
        let place = self.files.partition_point(|file| ends_below(file, key));
        let (_, from) = self.files.split_at(place);
        let (candidates, _) = from.split_at(from.len().min(1));
        candidates
    }

    /// The first of its files that has that number.
    pub(crate) fn file(&self, no: u64) -> Option<&FileView<D>>
        ensures { option_copied result ≡ find (λ file. file.header.no == no) (map (λ shared. shared.file.value) self.now.files.items) }
    {
        for file in &self.files {
            if file.no() == no {
                return Some(file.file());
            }
        }
        None
    }
}

/// The level of that number with these files.
pub fn level_of<D: Disk>(
    alloc: Global,
    files: Vec<FileView<D>>,
    number: usize,
) -> Result<Level<D>, NoMemory>
    ensures { IfOk result (λ level. IsOrderedBy (λ a b. comes_before number a.header b.header) files.items (map (λ one. one.file.value) level.files.items)) }
{
    let files = ordered(shared(alloc, files)?, number)?;
    Ok(Level::of(files))
}

/// What the level of a number becomes where files are gone, and others are added in their levels.
pub fn level_with<D: Disk>(
    alloc: Global,
    old: &Level<D>,
    gone: &[u64],
    added: &[SharedIn<D>],
    number: usize,
) -> Result<Level<D>, NoMemory>
    ensures others { shared_in number added.now ≡ []
        → IfOk result (λ new. map (λ one. one.file.value) new.files.items ≡ filter (λ one. is_kept gone.now one.header) (map (λ one. one.file.value) old.now.files.items)) }
    ensures there { shared_in number added.now ≢ [] → IfOk result (λ new. IsOrderedBy (λ a b. comes_before number a.header b.header)
        (filter (λ one. is_kept gone.now one.header) (map (λ one. one.file.value) old.now.files.items) ++ shared_in number added.now)
        (map (λ one. one.file.value) new.files.items)) }
{
    let mut files = Vec::new(alloc);
    add_others(&mut files, &old.files, gone)?;
    let stay = files.len();
    add_new(&mut files, added, number)?;
    if files.len() == stay {
        return Ok(Level::of(files));
    }
    Ok(Level::of(ordered(files, number)?))
}
