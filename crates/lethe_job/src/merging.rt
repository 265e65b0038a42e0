//! What a job makes of its inputs.
ghost use Rattle.std.specs.Prelude.{◌≡◌, ◌+◌, ◌≤◌, ◌<◌, ◌^◌, ◌++◌, length, map, sum_by, All, Any, IfOk, OnOk, IsErrOf};
ghost use Rattle.lethe_base.specs.Limits.{max_time};
ghost use Rattle.lethe_base.specs.Spelling.{HasSpelling};
ghost use Rattle.lethe_base.specs.declared.name.Name.{Name};
ghost use Rattle.lethe_build.specs.Built.{most_numbers};
ghost use Rattle.lethe_build.specs.Drafts.{AreDraftsOf, IsDraft, numbers_for};
ghost use Rattle.lethe_disk.specs.Reads.{HasReadCause, IsFault};
ghost use Rattle.lethe_disk.specs.declared.cursor.ReadRefused.TheVariants.{Damaged};
ghost use Rattle.lethe_merge.specs.Merge.{merged};
ghost use Rattle.lethe_follows.specs.Merged.{entries_in};
ghost use Rattle.lethe_job.specs.Tasks.{AreSound, HasDamaged, counted_in, merge_inputs, pages_in, plain_merge};

use crate::merge::MergeTask;
use crate::reading::add_files;
use lethe_base::Entry;
use lethe_build::{Draft, drafts_of};
use lethe_disk::{Disk, ReadRefused};
use lethe_merge::merge_entries;
use std::alloc::Global;

/// More entries than memory holds.
const MANY: usize = 1 << 61;

impl<D: Disk> MergeTask<D> {
    /// The entries of its inputs, one file after another.
    fn entries(&self, alloc: Global, port: &mut D::Port) -> Result<Vec<Entry>, ReadRefused>
        ensures given { D.tells → IfOk result (λ entries. entries.items ≡ entries_in (merge_inputs (plain_merge self.now))) }
        ensures spelled { IfOk result (λ entries. All HasSpelling entries.items) }
        ensures counted { IfOk result (λ entries. length entries.items ≡ counted_in (merge_inputs (plain_merge self.now))) }
        ensures fetches { OnOk result (D.fetches port.new ≡ D.fetches port.old + pages_in (merge_inputs (plain_merge self.now))) }
        ensures at_most { D.fetches port.new ≤ D.fetches port.old + pages_in (merge_inputs (plain_merge self.now)) }
        ensures damaged { (name : Name) → IsErrOf result (Damaged name) → Any (HasDamaged D.tells name) (merge_inputs (plain_merge self.now)) × (D.fetches port.old < D.fetches port.new) }
        ensures later { D.fetches port.old ≤ D.fetches port.new }
        ensures undamaged { D.tells → AreSound (merge_inputs (plain_merge self.now)) → (name : Name) → IsErrOf result (Damaged name) → ⊥ }
        ensures cause { HasReadCause (D.port_faults port.old) (D.port_faults port.new) result }
        ensures can_fail { IsFault result → D.ports_fail }
    {
        let before = D::port_faults(port);
        let mut entries = Vec::new(alloc);
        match add_files(alloc, port, &self.sources, &mut entries) {
            Ok(()) => {}
            Err(why) => return Err(why),
        }
        match add_files(alloc, port, &self.met, &mut entries) {
            Ok(()) => Ok(entries),
            Err(why) => Err(why.since(before)),
        }
    }

    /// The drafts of its outputs: what is left of the inputs' entries where its erases are applied. Each page of the inputs is fetched once. All
    /// entries of the inputs are held in memory.
    pub fn outcome(&self, alloc: Global, port: &mut D::Port) -> Result<Vec<Draft>, ReadRefused>
        requires { All (λ erase. erase.time ≤ max_time) self.now.erases }
        ensures drafts { D.tells → AreSound (merge_inputs (plain_merge self.now))
            → IfOk result (λ drafts. AreDraftsOf self.now.config (merged (entries_in (merge_inputs (plain_merge self.now))) self.now.erases self.now.alone) drafts.items) }
        ensures each { IfOk result (λ drafts. All IsDraft drafts.items) }
        ensures few { IfOk result (λ drafts. sum_by numbers_for drafts.items < 2 ^ 63) }

        // On any disk they have no more numbers than as many entries take as the headers of the inputs count.
        ensures bounded { IfOk result (λ drafts. sum_by numbers_for drafts.items ≤ most_numbers (counted_in (merge_inputs (plain_merge self.now)))) }
        ensures fetches { OnOk result (D.fetches port.new ≡ D.fetches port.old + pages_in (merge_inputs (plain_merge self.now))) }
        ensures at_most { D.fetches port.new ≤ D.fetches port.old + pages_in (merge_inputs (plain_merge self.now)) }
        ensures damaged { (name : Name) → IsErrOf result (Damaged name) → Any (HasDamaged D.tells name) (merge_inputs (plain_merge self.now)) × (D.fetches port.old < D.fetches port.new) }
        ensures later { D.fetches port.old ≤ D.fetches port.new }
        ensures undamaged { D.tells → AreSound (merge_inputs (plain_merge self.now)) → (name : Name) → IsErrOf result (Damaged name) → ⊥ }
        ensures cause { HasReadCause (D.port_faults port.old) (D.port_faults port.new) result }
        ensures can_fail { IsFault result → D.ports_fail }
    {
        let entries = self.entries(alloc, port)?;
        if entries.len() >= MANY {
            return Err(ReadRefused::NoMemory);
        }
        let left = merge_entries(alloc, entries, self.erases.items(), self.alone)?;
        Ok(drafts_of(alloc, left, &self.config)?)
    }
}
