//! Opening a store.
ghost use Rattle.std.specs.Prelude.{◌≡◌, ◌≤◌, ◌<◌, ◌+◌, ◌⊎◌, [], ℕ, None, Option, IsErrOf, IfErr, IfOk, MatchResult};
ghost use Rattle.lethe_base.specs.History.{History, Change};
ghost use Rattle.lethe_base.specs.declared.config.Fields.{Fields};
ghost use Rattle.lethe_disk.specs.Disk.{IsSynced, HasCause};
ghost use Rattle.lethe_disk.specs.Goes.{Goes};
ghost use Rattle.lethe_disk.specs.Quiet.{IsQuiet};
ghost use Rattle.lethe_commit.specs.Switch.{HasGreatest};
ghost use Rattle.lethe_stored.specs.Kept.{IsKept};
ghost use Rattle.lethe_stored.specs.Left.{IsLeft};
ghost use Rattle.lethe_stored.specs.Numbers.{IsNextNumber, KeepsPace};
ghost use Rattle.lethe_load.specs.Refused.{HasReason};
ghost use Rattle.lethe_load.specs.declared.refused.RecoverRefused.{RecoverRefused};
ghost use Rattle.lethe_recover.specs.New.{new_stored};
ghost use Rattle.lethe_recover.specs.Resuming.{IsThere};
ghost use Rattle.lethe_recover.specs.Opening.{IsOpened, IsSpellable, IsResumed, IsKeptInOpening, MayNotOpen, IsCut, since_start};
ghost use Rattle.lethe_recover.specs.declared.opening.OpenWhy.TheVariants.{Exhausted};

use crate::failing::{failure, since_start};
use crate::journal::Journal;
use crate::leveled::version_of;
use crate::resuming::resume;
use crate::{Opened, begin};
use lethe_base::{Config, Name};
use lethe_disk::{Disk, DiskRefused};
use lethe_load::{Recovered, load};
use std::alloc::Global;

/// Why a store wasn't opened.
#[derive(Clone, Copy, Debug, PartialEq, Eq)]
pub enum OpenWhy {
    /// As in `RecoverRefused`. The directory is as it was.
    Damaged { name: Name },
    /// As in `RecoverRefused`. The directory is as it was.
    OtherConfig { kept: Config },
    /// The disk failed, and its count of faults went from `before` to `after`.
    Fault { before: u64, after: u64 },
    /// Behind the numbers that opening needs, the next one would pass the greatest, which is `last`. The directory is as it was.
    Exhausted { last: u64 },
    /// There was no memory.
    NoMemory,
}

/// Opens the store of a disk, or makes an empty one where there is no gate.
///
/// The disk is synced, so that what a read gives is all that a crash leaves; what the greatest gate commits is loaded; what it doesn't commit is
/// removed; what is left of the journal's records is written into files of level 0, those of a frozen segment first; and a switch takes the
/// place of the old manifest, whose successor cites these files, the old ones and one empty segment.
pub fn open<D: Disk>(alloc: Global, disk: &mut D, config: &Config) -> Result<Opened<D>, OpenWhy>
    // Opened: the disk has what was stored, with the journal in files, and nothing else.
    ensures opened { D.tells → IfOk result (λ opened. IsOpened config.now (D.seen disk.old).directory (D.seen disk.new) opened) }

    // What is told can be written, whatever the disk is.
    ensures spelled { IfOk result (λ opened. IsSpellable config.now opened) }

    // Where the disk was left for a history, in whatever configuration, the store stands for it, or for it with the change carried out: for the one that the
    // directory is kept for.
    ensures resumed { D.tells → (kept : Fields) (h : History) (change : Option Change) → IsLeft kept (D.seen disk.old) h change
        → IfOk result (λ opened. IsResumed config.now h change (D.seen disk.old).directory (D.seen disk.new) opened) }

    // A crash at any moment of the call, whatever it answers, leaves a disk that is kept for one of the two, or a new store where there was no gate.
    ensures any_moment { D.tells → (kept : Fields) (h : History) (change : Option Change) → IsLeft kept (D.seen disk.old) h change
        → Goes (IsKeptInOpening kept config.now h change (D.seen disk.old).directory) (D.seen disk.old) (D.seen disk.new) }

    // A refusal has its reason.
    ensures refused { IfErr result (MayNotOpen D.tells config.now (D.seen disk.old).directory (D.faults disk.old) (D.faults disk.new)) }

    // Where the directory has damage or another configuration, that is told, unless the disk fails or memory runs out, and nothing is touched.
    ensures exact { D.tells → (why : RecoverRefused) → HasReason config.now (D.seen disk.old).directory why
        → MatchResult result (λ opened. ⊥) (λ told. (told ≡ since_start (D.faults disk.old) why) ⊎ IsCut ⊥ (D.faults disk.old) (D.faults disk.new) told) }
    ensures untouched { D.tells → (why : RecoverRefused) → HasReason config.now (D.seen disk.old).directory why
        → IsQuiet (D.seen disk.old) (D.seen disk.new) }

    // Nor where numbers ran out, which is told behind the first device call.
    ensures exhausted { D.tells → (last : ℕ) → IsErrOf result (Exhausted last)
        → IsQuiet (D.seen disk.old) (D.seen disk.new) × ((D.seen disk.old).moment < (D.seen disk.new).moment) }

    // Numbers are drawn no faster than device calls are made.
    ensures numbers { D.tells → IfOk result (λ opened. (next : ℕ) → IsNextNumber (D.seen disk.old).directory next
        → opened.manifest.next + (D.seen disk.old).moment ≤ next + (D.seen disk.new).moment) }
    ensures pace { D.tells → (first : ℕ) → KeepsPace first (D.seen disk.old).moment (D.seen disk.old).moment (D.seen disk.old)
        → KeepsPace first (D.seen disk.old).moment (D.seen disk.old).moment (D.seen disk.new) }
    ensures faults { D.faults disk.old ≤ D.faults disk.new }
{
    let before = disk.faults();
    match disk.sync() {
        Ok(()) => open_synced(alloc, disk, before, config),
        Err(why) => Err(failure(disk, before, why)),
    }
}

// Opens the store of a disk that is synced. `before` is the count of faults that a fault is told with.
fn open_synced<D: Disk>(
    alloc: Global,
    disk: &mut D,
    before: u64,
    config: &Config,
) -> Result<Opened<D>, OpenWhy>
    requires before { before ≤ D.faults disk.old }
    requires synced { D.tells → IsSynced (D.seen disk.old) }
    ensures opened { D.tells → IfOk result (λ opened. IsOpened config.now (D.seen disk.old).directory (D.seen disk.new) opened) }
    ensures spelled { IfOk result (λ opened. IsSpellable config.now opened) }
    ensures resumed { D.tells → (kept : Fields) (h : History) → IsKept kept (D.seen disk.old).directory h
        → IfOk result (λ opened. IsResumed config.now h None (D.seen disk.old).directory (D.seen disk.new) opened) }
    ensures any_moment { D.tells → Goes (λ c. (kept : Fields) (h : History) → IsKept kept (D.seen disk.old).directory h
        → IsKeptInOpening kept config.now h None (D.seen disk.old).directory c) (D.seen disk.old) (D.seen disk.new) }
    ensures refused { IfErr result (MayNotOpen D.tells config.now (D.seen disk.old).directory before (D.faults disk.new)) }
    ensures exact { D.tells → (why : RecoverRefused) → HasReason config.now (D.seen disk.old).directory why
        → MatchResult result (λ opened. ⊥) (λ told. (told ≡ since_start before why) ⊎ IsCut ⊥ before (D.faults disk.new) told) }
    ensures untouched { D.tells → (why : RecoverRefused) → HasReason config.now (D.seen disk.old).directory why
        → IsQuiet (D.seen disk.old) (D.seen disk.new) }
    ensures exhausted { D.tells → (last : ℕ) → IsErrOf result (Exhausted last) → IsQuiet (D.seen disk.old) (D.seen disk.new) }
    ensures numbers { D.tells → IfOk result (λ opened. (next : ℕ) → IsNextNumber (D.seen disk.old).directory next
        → opened.manifest.next + (D.seen disk.old).moment ≤ next + (D.seen disk.new).moment) }
    ensures pace { D.tells → (first : ℕ) → KeepsPace first (D.seen disk.old).moment (D.seen disk.old).moment (D.seen disk.old)
        → KeepsPace first (D.seen disk.old).moment (D.seen disk.old).moment (D.seen disk.new) }
    ensures faults { D.faults disk.old ≤ D.faults disk.new }
{
    let read = match load(alloc, disk, config) {
        Ok(read) => read,
        Err(why) => return Err(since_start(before, why)),
    };
    let Recovered {
        manifest,
        segments,
        files,
        names,
    } = read;
    match manifest {
        None => start(alloc, disk, before, config),
        Some(manifest) => {
            let journal = Journal::of(alloc, segments);
            resume(alloc, disk, before, &names, &manifest, journal, files)
        }
    }
}

// Makes an empty store.
fn start<D: Disk>(
    alloc: Global,
    disk: &mut D,
    before: u64,
    config: &Config,
) -> Result<Opened<D>, OpenWhy>
    requires before { before ≤ D.faults disk.old }
    requires none { D.tells → IsSynced (D.seen disk.old) × HasGreatest None (D.seen disk.old).directory }
    ensures there { D.tells → IfOk result (λ opened. IsThere (D.seen disk.new) (new_stored config.now) opened) }
    ensures spelled { IfOk result (λ opened. IsSpellable config.now opened) }
    ensures next { IfOk result (λ opened. opened.manifest.next ≡ 3) }
    ensures any_moment { D.tells → Goes (λ c. IsKept config.now c []) (D.seen disk.old) (D.seen disk.new) }
    ensures pace { D.tells → KeepsPace 3 (D.seen disk.old).moment (D.seen disk.old).moment (D.seen disk.new) }
    ensures refused { IfErr result (IsCut ⊥ before (D.faults disk.new)) }
    ensures faults { D.faults disk.old ≤ D.faults disk.new }
{
    match begin_with_version(alloc, disk, config) {
        Ok(opened) => Ok(opened),
        Err(why) => Err(failure(disk, before, why)),
    }
}

// Makes an empty store, and the version without files.
fn begin_with_version<D: Disk>(
    alloc: Global,
    disk: &mut D,
    config: &Config,
) -> Result<Opened<D>, DiskRefused>
    requires none { D.tells → IsSynced (D.seen disk.old) × HasGreatest None (D.seen disk.old).directory }
    ensures there { D.tells → IfOk result (λ opened. IsThere (D.seen disk.new) (new_stored config.now) opened) }
    ensures spelled { IfOk result (λ opened. IsSpellable config.now opened) }
    ensures next { IfOk result (λ opened. opened.manifest.next ≡ 3) }
    ensures any_moment { D.tells → Goes (λ c. IsKept config.now c []) (D.seen disk.old) (D.seen disk.new) }
    ensures pace { D.tells → KeepsPace 3 (D.seen disk.old).moment (D.seen disk.old).moment (D.seen disk.new) }
    ensures cause { HasCause (D.faults disk.old) (D.faults disk.new) result }
{
    let manifest = begin(alloc, disk, config)?;
    let version = version_of(alloc, &manifest, Vec::new(alloc))?;
    Ok(Opened { manifest, version })
}
