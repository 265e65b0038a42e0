//! The files of a store by level.
ghost use Rattle.std.specs.Prelude.{◌≡◌, ◌≢◌, ◌↔◌, ◌+◌, ◌<◌, ◌≤◌, [], ◌++◌, ◌==◌, ℕ, IsTrue, map, find, length, slice_index_or, sum_by, All, Any, IfOk, IfSome, IsErrOf};
ghost use Rattle.std.specs.Option.{option_copied};
ghost use Rattle.lethe_base.specs.declared.name.Name.{Name};
ghost use Rattle.lethe_disk.specs.Reads.{HasReadCause, IsFault};
ghost use Rattle.lethe_disk.specs.declared.cursor.ReadRefused.TheVariants.{Damaged};
ghost use Rattle.lethe_version.specs.Newest.{IsNewestIn};
ghost use Rattle.lethe_version.specs.Probing.{bound};
ghost use Rattle.lethe_version.specs.Versions.{AreInOrder, HasKey, IsDamagedOf, IsInOrder, IsSound, IsVouchedBy, entries_of, files_of, in_level, levels_of, without};

use crate::level::{Level, level_of, level_with};
use crate::probing::any_may_hold;
use crate::searching::find_in;
use crate::sorting::shared_in_levels;
use crate::{NewFile, Shared};
use lethe_base::{Entry, Key, NoMemory};
use lethe_disk::{Disk, ReadRefused};
use lethe_file::FileView;
use std::alloc::Global;

/// The files of a store by level. It never changes; its users share it, and what follows it shares its files.
#[derive(Drop)]
pub struct Version<D: Disk> {
    pub(crate) levels: Vec<Level<D>>,
}

impl<D: Disk> Version<D> {
    /// The version of these files, which are given by level. Level 0 stands by the greatest place, greatest first; each other
    /// level by the least key.
    pub fn of(alloc: Global, levels: Vec<Vec<FileView<D>>>) -> Result<Version<D>, NoMemory>
        ensures count { IfOk result (λ version. length (levels_of version) ≡ length levels.items) }
        ensures files { IfOk result (λ version. (level : ℕ) (given : _) (files : _) → level < length levels.items
            → AreInOrder level (slice_index_or levels.items level given).items (slice_index_or (levels_of version) level files)) }
        ensures order { IfOk result IsInOrder }
    {
        let mut made = Vec::new(alloc);
        for files in levels {
            made.push(level_of(alloc, files, made.len())?)?;
        }
        Ok(Version { levels: made })
    }

    /// The version without the files whose numbers are gone, and with those added in their levels, each of which is put in its order. The
    /// other files are shared, not copied.
    pub fn with(
        &self,
        alloc: Global,
        gone: &[u64],
        added: Vec<NewFile<D>>,
    ) -> Result<Version<D>, NoMemory>
        requires { All (λ new. new.level < length (levels_of self.now)) added.items }
        ensures count { IfOk result (λ version. length (levels_of version) ≡ length (levels_of self.now)) }

        // A level that takes no file stands as it stood, without those that are gone.
        ensures others { IfOk result (λ version. (level : ℕ) (files : _) → level < length (levels_of self.now) → in_level level added.items ≡ []
            → slice_index_or (levels_of version) level files ≡ without gone.now (slice_index_or (levels_of self.now) level files)) }
        ensures files { IfOk result (λ version. (level : ℕ) (files : _) → level < length (levels_of self.now) → in_level level added.items ≢ []
            → AreInOrder level (without gone.now (slice_index_or (levels_of self.now) level files) ++ in_level level added.items) (slice_index_or (levels_of version) level files)) }
        ensures order { IsInOrder self.now → IfOk result IsInOrder }
    {
        let added = shared_in_levels(alloc, added)?;
        let mut made = Vec::new(alloc);
        for old in &self.levels {
            made.push(level_with(alloc, old, gone, &added, made.len())?)?;
        }
        Ok(Version { levels: made })
    }

    /// The entry of greatest place among the files' entries of the key, of equal places the first file's. A file is asked only
    /// where its level can't tell that it lacks the key, and where it can have a newer entry than the one that was found.
    pub fn find(
        &self,
        alloc: Global,
        port: &mut D::Port,
        key: &Key,
    ) -> Result<Option<Entry>, ReadRefused>
        ensures found { D.tells → All IsSound (files_of self.now) → IfOk result (IsNewestIn key.now (map entries_of (files_of self.now))) }

        // None where no file's fences and filters allow the key.
        ensures fetches { D.fetches port.new ≤ D.fetches port.old + sum_by (λ file. bound key.now file.header) (files_of self.now) }
        ensures later { D.fetches port.old ≤ D.fetches port.new }

        // Where a page is told as damaged, a fetch was made in this call, since the key may be there, and it is another page.
        ensures damaged { (name : Name) → IsErrOf result (Damaged name) → IsDamagedOf key.now self.now name × (D.fetches port.old < D.fetches port.new) }

        // On any disk the entry has the key, and a line of one of the files vouches for it.
        ensures vouched { IfOk result (λ found. IfSome found (λ entry. (entry.key ≡ key.now) × IsVouchedBy self.now entry)) }
        ensures undamaged { D.tells → All IsSound (files_of self.now) → (name : Name) → IsErrOf result (Damaged name) → ⊥ }
        ensures cause { HasReadCause (D.port_faults port.old) (D.port_faults port.new) result }
        ensures can_fail { IsFault result → D.ports_fail }
    {
        find_in::<D>(alloc, port, key, &self.levels)
    }

    /// Whether a page of a file may have the key, by its tile's fence and its filter. Nothing is fetched.
    pub fn may_hold(&self, key: &Key) -> bool
        ensures exact { IsTrue result ↔ Any (λ file. 0 < bound key.now file.header) (files_of self.now) }

        // So it is true wherever a file has the key.
        ensures holds { All IsSound (files_of self.now) → Any (HasKey key.now) (files_of self.now) → IsTrue result }
    {
        for level in &self.levels {
            if any_may_hold(level.candidates(key), key) {
                return true;
            }
        }
        false
    }

    /// The file of that number, and None where no file has it. The files of a store have distinct numbers; of two of one number it
    /// is the first.
    pub fn file(&self, no: u64) -> Option<&FileView<D>>
        ensures { option_copied result ≡ find (λ file. file.header.no == no) (files_of self.now) }
    {
        for level in &self.levels {
            if let Some(file) = level.file(no) {
                return Some(file);
            }
        }
        None
    }

    /// How many levels it has, level 0 included.
    pub fn levels(&self) -> usize
        ensures { result ≡ length (levels_of self.now) }
    {
        self.levels.len()
    }

    /// The files of a level, in its order.
    pub fn files(&self, level: usize) -> &[Shared<D>]
        requires { level < length (levels_of self.now) }
        ensures { (files : _) → map (λ shared. shared.file.value) result.now ≡ slice_index_or (levels_of self.now) level files }
    {
        &self.levels[level].files
    }
}
