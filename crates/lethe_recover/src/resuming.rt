//! Opening a store that has a gate.
ghost use Rattle.std.specs.Prelude.{◌≡◌, ◌≤◌, ◌<◌, ◌+◌, ℕ, map, length, IsErrOf, IfErr, IfOk};
ghost use Rattle.std.specs.FinMap.{keys};
ghost use Rattle.lethe_base.specs.Limits.{max_place};
ghost use Rattle.lethe_base.specs.History.{History};
ghost use Rattle.lethe_disk.specs.Disk.{HasCause};
ghost use Rattle.lethe_disk.specs.Goes.{Goes};
ghost use Rattle.lethe_segment.specs.Segments.{Ascends};
ghost use Rattle.lethe_manifest.specs.Manifests.{HasSpelling};
ghost use Rattle.lethe_stored.specs.Stored.{Stored};
ghost use Rattle.lethe_stored.specs.Kept.{IsFor, IsKept};
ghost use Rattle.lethe_stored.specs.Numbers.{KeepsPace};
ghost use Rattle.lethe_advance.specs.Settled.{IsSettled};
ghost use Rattle.lethe_advance.specs.Shown.{parts_in};
ghost use Rattle.lethe_recover.specs.Flushing.{IsShort, numbers_of};
ghost use Rattle.lethe_recover.specs.Journals.{erases_of};
ghost use Rattle.lethe_recover.specs.Opening.{IsSpellable, IsCut};
ghost use Rattle.lethe_recover.specs.Prepared.{IsReady, IsReadyFor};
ghost use Rattle.lethe_recover.specs.Resuming.{IsLoadedAs, IsReopened};
ghost use Rattle.lethe_recover.specs.declared.opening.OpenWhy.TheVariants.{Exhausted};

use crate::failing::failure;
use crate::journal::Journal;
use crate::prepared::{Prepared, prepare};
use crate::reopening::{Reopening, reopening_of};
use crate::{OpenWhy, Opened, tidy};
use lethe_advance::{Step, advance, number_behind};
use lethe_base::{MAX_PLACE, Name};
use lethe_disk::{Disk, DiskRefused};
use lethe_file::FileView;
use lethe_manifest::{Manifest, write_manifest};
use std::alloc::Global;

/// Reopens a store, where the numbers suffice: what it takes is made in memory before the disk is touched. `before` is the count of faults that a fault
/// is told with, `names` are all that the disk has.
pub fn resume<D: Disk>(
    alloc: Global,
    disk: &mut D,
    before: u64,
    names: &[Name],
    manifest: &Manifest,
    journal: Journal,
    files: Vec<FileView<D>>,
) -> Result<Opened<D>, OpenWhy>
    requires before { before ≤ D.faults disk.old }
    requires listed { D.tells → names.now ≡ keys (D.seen disk.old).directory }
    requires spelled { HasSpelling manifest.now }
    requires older { Ascends 0 journal.older }
    requires newer { Ascends 0 journal.newer }
    requires cited { length manifest.now.files ≡ length files.items }
    requires settled { D.tells → (s : Stored) × IsSettled (D.seen disk.old) s × IsLoadedAs s manifest.now journal (map parts_in files.items) }
    ensures there { D.tells → (s : Stored) → IsSettled (D.seen disk.old) s → IsLoadedAs s manifest.now journal (map parts_in files.items)
        → IfOk result (λ opened. IsReopened s (D.seen disk.new) opened) }
    ensures spelled { IfOk result (λ opened. IsSpellable manifest.now.config opened) }
    ensures any_moment { D.tells → (s : Stored) → IsSettled (D.seen disk.old) s → IsLoadedAs s manifest.now journal (map parts_in files.items)
        → Goes (λ c. (h : History) → IsFor h s → IsKept s.manifest.config c h) (D.seen disk.old) (D.seen disk.new) }
    ensures pace { D.tells → (s : Stored) → IsSettled (D.seen disk.old) s → IsLoadedAs s manifest.now journal (map parts_in files.items)
        → KeepsPace manifest.now.next (D.seen disk.old).moment (D.seen disk.old).moment (D.seen disk.new) }
    ensures refused { IfErr result (IsCut (IsShort manifest.now journal.older journal.newer (erases_of manifest.now journal)) before (D.faults disk.new)) }
    ensures exhausted { (last : ℕ) → IsErrOf result (Exhausted last) → disk.new ≡ disk.old }
    ensures numbers { D.tells → IfOk result (λ opened. opened.manifest.next + (D.seen disk.old).moment ≤ manifest.now.next + (D.seen disk.new).moment) }
    ensures faults { D.faults disk.old ≤ D.faults disk.new }
{
    let Ok(made) = prepare(alloc, manifest, journal, files) else {
        return Err(OpenWhy::NoMemory);
    };
    // The numbers of the files and that of a segment are drawn, and the manifest has the one behind them.
    let drawn = made.drafts.count_numbers() + 1;
    let Some(number) = number_behind(manifest.next, drawn) else {
        return Err(OpenWhy::Exhausted { last: MAX_PLACE });
    };
    match reopen(alloc, disk, names, manifest, made, number) {
        Ok(opened) => Ok(opened),
        Err(why) => Err(failure(disk, before, why)),
    }
}

// Removes what isn't committed, and writes the records of the journal into files, to the manifest of this number.
fn reopen<D: Disk>(
    alloc: Global,
    disk: &mut D,
    names: &[Name],
    manifest: &Manifest,
    made: Prepared<D>,
    number: u64,
) -> Result<Opened<D>, DiskRefused>
    requires listed { D.tells → names.now ≡ keys (D.seen disk.old).directory }
    requires spelled { HasSpelling manifest.now }
    requires ready { IsReady manifest.now made }
    requires number { number ≡ manifest.now.next + numbers_of made.drafts + 1 }
    requires free { number < max_place }
    requires settled { D.tells → (s : Stored) × IsSettled (D.seen disk.old) s × IsReadyFor s manifest.now made }
    ensures there { D.tells → (s : Stored) → IsSettled (D.seen disk.old) s → IsReadyFor s manifest.now made → IfOk result (λ opened. IsReopened s (D.seen disk.new) opened) }
    ensures spelled { IfOk result (λ opened. IsSpellable manifest.now.config opened) }
    ensures any_moment { D.tells → (s : Stored) → IsSettled (D.seen disk.old) s → IsReadyFor s manifest.now made
        → Goes (λ c. (h : History) → IsFor h s → IsKept s.manifest.config c h) (D.seen disk.old) (D.seen disk.new) }
    ensures pace { D.tells → (s : Stored) → IsSettled (D.seen disk.old) s → IsReadyFor s manifest.now made
        → KeepsPace manifest.now.next (D.seen disk.old).moment (D.seen disk.old).moment (D.seen disk.new) }
    ensures numbers { D.tells → IfOk result (λ opened. opened.manifest.next + (D.seen disk.old).moment ≤ manifest.now.next + (D.seen disk.new).moment) }
    ensures cause { HasCause (D.faults disk.old) (D.faults disk.new) result }
{
    let Prepared {
        cited,
        version,
        count,
        erases,
        drafts,
    } = made;
    tidy(alloc, disk, names, &cited)?;
    let made = reopening_of(alloc, manifest, count, erases, drafts, number)?;
    let Reopening { headers, step } = made;
    let spelled = write_manifest(alloc, &step.manifest)?;
    let reopened = advance(alloc, disk, &version, headers, &step, &spelled)?;
    let Step { manifest, .. } = step;
    Ok(Opened {
        manifest,
        version: reopened,
    })
}
