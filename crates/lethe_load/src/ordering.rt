//! The order of the files of a level.
ghost use Rattle.std.specs.Prelude.{◌≡◌, ◌↔◌, ◌≤◌, ◌<◌, IsTrue, List, length, map, AllPairs};
ghost use Rattle.lethe_header.specs.Facts.{least_key, greatest_key};
ghost use Rattle.lethe_load.specs.Progress.{MayStand};
ghost use Rattle.lethe_stored.specs.Files.{StoredFile, cited_of};
ghost use Rattle.lethe_stored.specs.Levels.{AreRising};

use lethe_base::Key;
use lethe_disk::Disk;
use lethe_file::FileView;
use lethe_manifest::Cited;
use std::cmp::Ordering;

fn least<D: Disk>(file: &FileView<D>) -> &Key
    ensures { result.now ≡ least_key file.now.header.tiles }
{
    &file.header().tiles.items()[0].lo
}

fn greatest<D: Disk>(file: &FileView<D>) -> &Key
    ensures { result.now ≡ greatest_key file.now.header.tiles }
{
    let tiles = file.header().tiles.items();
    &tiles[tiles.len() - 1].hi
}

// Whether a file may stand before the next one.
fn may_stand<D: Disk>(level: u64, next_level: u64, file: &FileView<D>, next: &FileView<D>) -> bool
    ensures { IsTrue result ↔ MayStand level next_level file.now.header next.now.header }
{
    if next_level == 0 || level != next_level {
        return true;
    }
    greatest(file).cmp(least(next)) == Ordering::Less
}

/// Whether the files of each level behind level 0 ascend by key and are disjoint, as they stand.
pub fn are_rising<D: Disk>(cited: &[Cited], files: &[FileView<D>]) -> bool
    requires count { length files.now ≡ length cited.now }
    requires levels { AllPairs (λ a b. a.level ≤ b.level) cited.now }
    ensures { (stored : List StoredFile) → map cited_of stored ≡ cited.now → map (λ file. file.header) stored ≡ map (λ file. file.header) files.now → IsTrue result ↔ AreRising stored }
{
    for place in 1..files.len() {
        let level = cited[place - 1].level;
        let next_level = cited[place].level;
        if !may_stand(level, next_level, &files[place - 1], &files[place]) {
            return false;
        }
    }
    true
}
