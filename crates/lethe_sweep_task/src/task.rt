//! The task of a sweep.
ghost use Rattle.std.specs.Prelude.{◌≡◌, ◌≤◌, ◌<◌, ◌+◌, ◌^◌, None, map, IfOk, IfSome, OnOk, IsErrOf};
ghost use Rattle.lethe_base.specs.Limits.{max_time};
ghost use Rattle.lethe_base.specs.declared.name.Name.{Name};
ghost use Rattle.lethe_swept.specs.Built.{most_numbers};
ghost use Rattle.lethe_disk.specs.Reads.{HasReadCause, IsFault};
ghost use Rattle.lethe_disk.specs.declared.cursor.ReadRefused.TheVariants.{Damaged};
ghost use Rattle.lethe_file.specs.Agreement.{FileAgrees, entries_in};
ghost use Rattle.lethe_header.specs.Facts.{lines_of};
ghost use Rattle.lethe_header.specs.Headers as headers;
ghost use Rattle.lethe_sweep.specs.Damage.{IsDamagedFor};
ghost use Rattle.lethe_sweep.specs.Fences.{fetches_of};
ghost use Rattle.lethe_sweep.specs.Sweeping.{IsBehind};
ghost use Rattle.lethe_swept.specs.Drafts.{IsDraft, numbers_for};
ghost use Rattle.lethe_version.specs.Versions.{bytes_of};

use lethe_base::Pending;
use lethe_disk::{Disk, ReadRefused};
use lethe_fade::Plan;
use lethe_sweep::sweep_tiles;
use lethe_swept::{SweptDraft, draft_of};
use lethe_version::Shared;
use std::alloc::Global;

/// A sweep of a file by one erase. It never changes.
#[derive(Drop)]
pub struct SweepTask<D: Disk> {
    /// What names it.
    pub plan: Plan,
    /// The level of the file, from 0 to the last.
    pub level: u64,
    /// The place up to which erases were applied to the file before.
    pub swept: u64,
    pub file: Shared<D>,
    /// The oldest pending erase that the file isn't swept of.
    pub erase: Pending,
    /// No older entry of the file's keys stands below it, so that what the erase matches leaves no tombstone.
    pub alone: bool,
    ghost behind: { IsBehind erase file.file.value.header.tiles },
}

impl<D: Disk> SweepTask<D> {
    ghost use Rattle.lethe_sweep_task.specs.Outcome.{IsDraftLeft};

    /// The sweep of a file that was swept up to a place. None where the file has an entry that doesn't stand in front of the erase: no store has such a file.
    pub fn new(
        plan: Plan,
        level: u64,
        swept: u64,
        file: Shared<D>,
        erase: Pending,
        alone: bool,
    ) -> Option<SweepTask<D>>
        ensures is { IfSome result (λ task. (behind : IsBehind erase file.file.value.header.tiles)
            × (task ≡ record { plan = plan; level = level; swept = swept; file = file; erase = erase; alone = alone; behind = behind })) }
        ensures none { result ≡ None → IsBehind erase file.file.value.header.tiles → ⊥ }
    {
        if file.max_seq() >= erase.seq {
            return None;
        }
        Some(SweepTask {
            plan,
            level,
            swept,
            file,
            erase,
            alone,
        })
    }

    /// The draft of what the erase leaves of the file, and none where it leaves nothing. Pages are fetched as the header tells, each at most once, and
    /// the others stay unread.
    ///
    /// # Errors
    ///
    /// What a fetch is refused for, and `NoMemory`.
    pub fn outcome(
        &self,
        alloc: Global,
        port: &mut D::Port,
    ) -> Result<Option<SweptDraft>, ReadRefused>
        requires { self.now.erase.time ≤ max_time }
        ensures left { D.tells → FileAgrees self.now.file.file.value.header.tiles (bytes_of self.now.file.file.value)
            → IfOk result (IsDraftLeft self.now.alone self.now.erase self.now.file.file.value.header.tiles (map entries_in (bytes_of self.now.file.file.value))) }

        // On any disk:
        ensures each { IfOk result (λ made. IfSome made IsDraft) }
        // A new page has an entry of the file, and no two of them share one.
        ensures bounded { IfOk result (λ made. IfSome made (λ draft. numbers_for draft ≤ most_numbers (headers.entries_in (lines_of self.now.file.file.value.header.tiles)))) }
        ensures few { IfOk result (λ made. IfSome made (λ draft. numbers_for draft < 2 ^ 63)) }
        ensures fetches { OnOk result (D.fetches port.new ≡ D.fetches port.old + fetches_of self.now.alone self.now.erase.range self.now.file.file.value.header.tiles) }
        ensures at_most { D.fetches port.new ≤ D.fetches port.old + fetches_of self.now.alone self.now.erase.range self.now.file.file.value.header.tiles }
        ensures later { D.fetches port.old ≤ D.fetches port.new }
        ensures damaged { (name : Name) → IsErrOf result (Damaged name)
            → IsDamagedFor D.tells self.now.alone self.now.erase.range self.now.file.file.value.header.tiles (bytes_of self.now.file.file.value) name × (D.fetches port.old < D.fetches port.new) }
        ensures undamaged { D.tells → FileAgrees self.now.file.file.value.header.tiles (bytes_of self.now.file.file.value) → (name : Name) → IsErrOf result (Damaged name) → ⊥ }
        ensures cause { HasReadCause (D.port_faults port.old) (D.port_faults port.new) result }
        ensures can_fail { IsFault result → D.ports_fail }
    {
        let file = self.file.file();
        let swept = sweep_tiles(alloc, file, &self.erase, self.alone, port)?;
        Ok(draft_of(alloc, file.header().tiles.items(), swept)?)
    }
}
