//! How much merges and sweeps have still to do, by the headers of files.
ghost use Rattle.std.specs.Prelude.{◌≡◌, ◌*◌, ◌-◌, ◌<◌, ◌≤◌, ◌^◌, ◌↔◌, All, AllPairs, IsTrue, min, map};
ghost use Rattle.lethe_header.specs.Headers.{entries_in};
ghost use Rattle.lethe_stored.specs.Files.{lines_in};
ghost use Rattle.lethe_core.specs.Descent.{steps_down, unswept_pairs};
ghost use Rattle.lethe_job.specs.Tasks.{plain_file};

use lethe_base::{Pending, erases_above};
use lethe_disk::Disk;
use lethe_job::Filed;

/// Of each entry of the files, how many levels it is above the deepest, all together. A sum past 2^64 - 1 stays there.
pub(crate) fn steps_down<D: Disk>(files: &[Filed<D>], deepest: u64) -> u64
    ensures { result ≡ min (steps_down deepest (map plain_file files.now)) (2 ^ 64 - 1) }
{
    let mut steps: u64 = 0;
    for file in files {
        steps = steps.saturating_add(steps_of(file, deepest));
    }
    steps
}

fn steps_of<D: Disk>(file: &Filed<D>, deepest: u64) -> u64
    ensures { result ≡ min ((deepest - (plain_file file.now).level) * entries_in (lines_in (plain_file file.now))) (2 ^ 64 - 1) }
{
    deepest
        .saturating_sub(file.level)
        .saturating_mul(count_entries(file))
}

/// How many entries the file has, by its header.
fn count_entries<D: Disk>(file: &Filed<D>) -> u64
    ensures { result ≡ min (entries_in (lines_in (plain_file file.now))) (2 ^ 64 - 1) }
{
    let mut count: u64 = 0;
    for tile in file.file.file().header().tiles.items() {
        for line in tile.pages.items() {
            count = count.saturating_add(line.entries as u64);
        }
    }
    count
}

/// Of each file, how many of the erases it isn't swept of, all together. The erases are in the order of their places. A sum past 2^64 - 1 stays there.
pub(crate) fn unswept_pairs<D: Disk>(files: &[Filed<D>], erases: &[Pending]) -> u64
    requires { AllPairs (λ erase later. erase.seq < later.seq) erases.now }
    ensures { result ≡ min (unswept_pairs (map plain_file files.now) erases.now) (2 ^ 64 - 1) }
{
    let mut pairs: u64 = 0;
    for file in files {
        let unswept = erases_above(erases, Some(file.swept));
        pairs = pairs.saturating_add(unswept.len() as u64);
    }
    pairs
}

/// Whether the places of all erases are counted.
pub(crate) fn are_counted(erases: &[Pending], count: u64) -> bool
    ensures { IsTrue result ↔ All (λ erase. erase.seq ≤ count) erases.now }
{
    erases.iter().all(|erase| erase.seq <= count)
}
