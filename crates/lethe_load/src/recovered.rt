//! What was read of a disk.

use lethe_base::{List, Name};
use lethe_disk::Disk;
use lethe_file::FileView;
use lethe_manifest::Manifest;
use lethe_segment::Record;

/// What the greatest gate of a disk commits.
#[derive(Drop)]
pub struct Recovered<D: Disk> {
    /// None where there is no gate.
    pub manifest: Option<Manifest>,
    /// For each segment that the manifest cites, in its order, the records up to the first gate byte that isn't open.
    pub segments: List<List<Record>>,
    /// The files that the manifest cites, in its order, with their pages opened.
    pub files: Vec<FileView<D>>,
    /// The names of all objects of the disk, in their order.
    pub names: Vec<Name>,
}
