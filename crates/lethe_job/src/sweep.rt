//! The task of a plan that names a sweep.
ghost use Rattle.std.specs.Prelude.{◌≡◌, ◌≤◌, ◌==◌, map, find, Any, IfOk, IsSomeAnd};
ghost use Rattle.std.specs.Option.{option_map};
ghost use Rattle.lethe_job.specs.SweepTasks.{any_overlaps, behind, is_alone, is_filed, is_first_over, sweep_in};
ghost use Rattle.lethe_job.specs.Tasks.{plain_file};
ghost use Rattle.lethe_sweep_task.specs.Outcome.{plain_sweep};

use crate::filed::Filed;
use crate::inputs::lies_below;
use crate::reach::Reach;
use lethe_base::{NoMemory, Pending};
use lethe_disk::Disk;
use lethe_fade::Plan;
use lethe_sweep_task::SweepTask;

/// The sweep of the file that a plan names, by the erase of that place. A file that has an entry behind the erase is of no store, and counts as one for which there is no memory.
pub fn sweep_of<D: Disk>(
    files: &[Filed<D>],
    levels: u64,
    plan: Plan,
    place: u64,
    erases: &[Pending],
) -> Result<SweepTask<D>, NoMemory>
    requires file { Any (λ file. (file.header.no ≡ plan.file) × (file.level ≤ levels)) (map plain_file files.now) }
    requires erase { Any (λ erase. erase.seq ≡ place) erases.now }
    ensures { IfOk result (λ task. IsSomeAnd (find (is_filed levels plan.file) (map plain_file files.now))
        (λ file. IsSomeAnd (find (λ erase. erase.seq == place) erases.now) (λ erase. plain_sweep task ≡ sweep_in plan (map plain_file files.now) file erase))) }
{
    let Some(found) = file_named(files, levels, plan.file) else {
        unreachable!()
    };
    let Some(erase) = erase_at(erases, place) else {
        unreachable!()
    };
    let alone = is_alone(files, found);
    let Filed { level, swept, file } = found.share()?;
    SweepTask::new(plan, level, swept, file, erase, alone).ok_or(NoMemory)
}

/// The first file of that number in one of the levels up to the last.
fn file_named<D: Disk>(files: &[Filed<D>], levels: u64, number: u64) -> Option<&Filed<D>>
    ensures { option_map (λ file. plain_file file.now) result ≡ find (is_filed levels number) (map plain_file files.now) }
{
    for file in files {
        if is_filed(file, levels, number) {
            return Some(file);
        }
    }
    None
}

fn is_filed<D: Disk>(file: &Filed<D>, levels: u64, number: u64) -> bool
    ensures { result ≡ is_filed levels number (plain_file file.now) }
{
    file.level <= levels && file.no() == number
}

/// The first erase of that place.
fn erase_at(erases: &[Pending], place: u64) -> Option<Pending>
    ensures { result ≡ find (λ erase. erase.seq == place) erases.now }
{
    erases.iter().copied().find(|erase| erase.seq == place)
}

/// Whether no deeper file, and of level 0 no older one, overlaps the file's keys.
fn is_alone<D: Disk>(files: &[Filed<D>], file: &Filed<D>) -> bool
    ensures { result ≡ is_alone (map plain_file files.now) (plain_file file.now) }
{
    let reach = Reach::of(file);
    !(lies_below(files, file.level, &reach)
        || (file.level == 0 && any_overlaps(behind(files, file.no()), &reach)))
}

/// The files that stand behind the first one of that number.
fn behind<D: Disk>(files: &[Filed<D>], number: u64) -> &[Filed<D>]
    ensures { map plain_file result.now ≡ behind number (map plain_file files.now) }
{
    for place in 0..files.len() {
        if files[place].no() == number {
            return &files[place + 1..];
        }
    }
    &files[files.len()..]
}

/// Whether one of the files is of level 0, and overlaps some keys.
fn any_overlaps<D: Disk>(files: &[Filed<D>], reach: &Reach) -> bool
    ensures { result ≡ any_overlaps reach.now (map plain_file files.now) }
{
    for file in files {
        if is_first_over(file, reach) {
            return true;
        }
    }
    false
}

fn is_first_over<D: Disk>(file: &Filed<D>, reach: &Reach) -> bool
    ensures { result ≡ is_first_over reach.now (plain_file file.now) }
{
    file.level == 0 && reach.overlaps(&Reach::of(file))
}
