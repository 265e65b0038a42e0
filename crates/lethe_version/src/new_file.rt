//! A file that comes into a level.

use lethe_disk::Disk;
use lethe_file::FileView;

/// A file that a version doesn't have yet, and the level that it comes into.
#[derive(Drop)]
pub struct NewFile<D: Disk> {
    pub level: u64,
    pub file: FileView<D>,
}
