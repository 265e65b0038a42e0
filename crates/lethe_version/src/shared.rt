//! A file that versions share.
ghost use Rattle.std.specs.Prelude.{◌≡◌, ℕ, IfOk};
ghost use Rattle.lethe_header.specs.Facts.{lines_of, max_seq_in, least_key, greatest_key};

use lethe_base::{Key, NoMemory};
use lethe_disk::Disk;
use lethe_file::FileView;
use std::alloc::Global;
use std::sync::Arc;

/// A file of a version, and the greatest place of an entry in it. Nothing of the file is copied where it is shared.
#[derive(Drop)]
pub struct Shared<D: Disk> {
    pub(crate) file: Arc<FileView<D>>,
    pub(crate) max_seq: u64,
    ghost most: { max_seq ≡ max_seq_in (lines_of file.value.header.tiles) },
}

impl<D: Disk> Shared<D> {
    /// The file, to be shared.
    pub(crate) fn new(alloc: Global, file: FileView<D>) -> Result<Shared<D>, NoMemory>
        ensures { IfOk result (λ shared. shared.file.value ≡ file) }
    {
        let max_seq = file.facts(0, 0)?.max_seq;
        let file = Arc::new(alloc, file)?;
        Ok(Shared { file, max_seq })
    }

    /// The same file, for one more owner.
    pub fn share(&self) -> Result<Shared<D>, NoMemory>
        ensures { IfOk result (λ shared. shared.file.value ≡ self.now.file.value) }
    {
        let file = self.file.clone()?;
        let max_seq = self.max_seq;
        Ok(Shared { file, max_seq })
    }

    /// The file.
    pub fn file(&self) -> &FileView<D>
        ensures { result.now ≡ self.now.file.value }
    {
        &self.file
    }

    /// The greatest place of an entry in it.
    pub fn max_seq(&self) -> u64
        ensures { result ≡ max_seq_in (lines_of self.now.file.value.header.tiles) }
    {
        self.max_seq
    }

    /// The number in its name.
    pub fn no(&self) -> u64
        ensures { result ≡ self.now.file.value.header.no }
    {
        self.file.header().no
    }

    /// Its least key.
    pub(crate) fn lo(&self) -> &Key
        ensures { result.now ≡ least_key self.now.file.value.header.tiles }
    {
        &self.file.header().tiles.items()[0].lo
    }

    /// Its greatest key.
    pub(crate) fn hi(&self) -> &Key
        ensures { result.now ≡ greatest_key self.now.file.value.header.tiles }
    {
        let tiles = self.file.header().tiles.items();
        &tiles[tiles.len() - 1].hi
    }
}
