//! An opened store.

use lethe_disk::Disk;
use lethe_manifest::Manifest;
use lethe_version::Version;

/// A store that was opened. Its journal is one segment without records; all else is in files.
#[derive(Drop)]
pub struct Opened<D: Disk> {
    /// The manifest that counts.
    pub manifest: Manifest,
    /// Its files.
    pub version: Version<D>,
}
