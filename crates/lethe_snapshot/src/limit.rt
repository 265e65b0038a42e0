//! The limit that a pin gets.
ghost use Rattle.std.specs.Prelude.{◌≡◌, Any, Some};
ghost use Rattle.lethe_advance.specs.Shown.{parts_by_level};
ghost use Rattle.lethe_bound.specs.Limits.{IsLimit};
ghost use Rattle.lethe_state.specs.Remembered.{Remembers};
ghost use Rattle.lethe_state.specs.Writable.{IsWritable};
ghost use Rattle.lethe_stored.specs.Stored.{Stored, layout_of};
ghost use Rattle.lethe_version.specs.Versions.{levels_of};
ghost use Rattle.lethe_snapshot.specs.Times.{IsLeast, IsLimitBy, IsOldestIn};

use lethe_base::Pending;
use lethe_disk::Disk;
use lethe_header::{PageLine, TileLine};
use lethe_state::State;
use lethe_version::{Shared, Version};

/// The time from which on a tick is refused while a pin is held that is made now: a threshold later than the clock, or than the oldest
/// obligation where that is earlier. Erases that are done are none, unless a segment records them. It looks at what is in memory, the
/// headers' lines among it, takes no memory and makes no device call.
pub fn limit_of<D: Disk>(state: &State, version: &Version<D>) -> u64
    requires { IsWritable state.now }
    ensures limit { (s : Stored) → Remembers s state.now (parts_by_level version.now) → IsLimit s.manifest.config.threshold (layout_of s) result }

    // On any disk.
    ensures by { IsLimitBy state.now (parts_by_level version.now) result }
{
    let manifest = state.manifest();
    let time = earlier(manifest.clock, state.oldest());
    let time = earlier(time, state.frozen_oldest());
    let time = least_of_erases(time, state.left_erases());
    let time = least_of_version(time, version);
    manifest.config.fields().threshold.saturating_add(time)
}

/// The least of a time and another, where there is one.
fn earlier(time: u64, other: Option<u64>) -> u64
    ensures { IsLeast time (λ t. other ≡ Some t) result }
{
    match other {
        Some(other) => time.min(other),
        None => time,
    }
}

/// The least of a time and those of the erases.
fn least_of_erases(time: u64, erases: &[Pending]) -> u64
    ensures { IsLeast time (λ t. Any (λ erase. erase.time ≡ t) erases.now) result }
{
    let mut least = time;
    for erase in erases {
        least = least.min(erase.time);
    }
    least
}

/// The least of a time and those of the lines.
fn least_of_lines(time: u64, lines: &[PageLine]) -> u64
    ensures { IsLeast time (λ t. Any (λ line. line.oldest ≡ Some t) lines.now) result }
{
    let mut least = time;
    for line in lines {
        least = earlier(least, line.oldest);
    }
    least
}

/// The least of a time and those of the tiles' lines.
fn least_of_tiles(time: u64, tiles: &[TileLine]) -> u64
    ensures { IsLeast time (IsOldestIn tiles.now) result }
{
    let mut least = time;
    for tile in tiles {
        least = least_of_lines(least, tile.pages.items());
    }
    least
}

/// The least of a time and those of the files' lines.
fn least_of_files<D: Disk>(time: u64, files: &[Shared<D>]) -> u64
    ensures { IsLeast time (λ t. Any (λ shared. IsOldestIn shared.file.value.header.tiles t) files.now) result }
{
    let mut least = time;
    for shared in files {
        least = least_of_tiles(least, shared.file().header().tiles.items());
    }
    least
}

/// The least of a time and those of the lines of all files.
fn least_of_version<D: Disk>(time: u64, version: &Version<D>) -> u64
    ensures { IsLeast time (λ t. Any (λ files. Any (λ file. IsOldestIn file.header.tiles t) files) (levels_of version.now)) result }
{
    let mut least = time;
    for level in 0..version.levels() {
        least = least_of_files(least, version.files(level));
    }
    least
}
