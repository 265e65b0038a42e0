//! Flushing the frozen segment.
ghost use Rattle.std.specs.Prelude as prelude;
ghost use Rattle.std.specs.Prelude.{◌≡◌, ◌⊎◌, ◌↔◌, ℕ, Bool, ◌+◌, ◌*◌, ◌<◌, ◌≤◌, ◌^◌, All, IfErr, IfOk, IsErrOf, IsSome, IsTrue, length, sum_by};
ghost use Rattle.lethe_base.specs.Limits.{max_place};
ghost use Rattle.lethe_base.specs.Spelling as entries;
ghost use Rattle.lethe_base.specs.declared.refused.Refused.TheVariants as refused;
ghost use Rattle.lethe_base.specs.declared.entry.Entry as entry;
ghost use Rattle.lethe_build.specs.Built.{most_numbers};
ghost use Rattle.lethe_build.specs.Drafts.{AreDraftsOf, IsDraft, numbers_for};
ghost use Rattle.lethe_build.specs.declared.draft.Draft as draft;
ghost use Rattle.lethe_header.specs.Headers as headers;
ghost use Rattle.lethe_manifest.specs.Manifests.{HasSpelling};
ghost use Rattle.lethe_stored.specs.Files.{StoredFile};
ghost use Rattle.lethe_stored.specs.Stored.{Stored};
ghost use Rattle.lethe_advance.specs.Calls.{most_calls};
ghost use Rattle.lethe_advance.specs.Shown.{parts_by_level};
ghost use Rattle.lethe_base.specs.declared.name.Name as name;
ghost use Rattle.lethe_advance.specs.Settled.{AreDrawn, AreUncited, names_in};
ghost use Rattle.lethe_advance.specs.Steps.{IsStep};
ghost use Rattle.lethe_flush.specs.Flushed.{IsFlushOf};
ghost use Rattle.lethe_flush.specs.declared.made.MadeFiles.{MadeFiles};
ghost use Rattle.lethe_merge.specs.Merge.{merged};
ghost use Rattle.lethe_state.specs.Clock.{clock_of};
ghost use Rattle.lethe_state.specs.Made.{IsFlushStep};
ghost use Rattle.lethe_state.specs.Remembered.{Remembers, IsCurrent};
ghost use Rattle.lethe_state.specs.Room.{AreDrafted, IsFlushed, IsShortToFlush, IsStepFrom, unfrozen};
ghost use Rattle.lethe_state.specs.Writable.{IsWritable};

use crate::{Firsts, State};
use lethe_advance::{NewHeader, Step, number_behind};
use lethe_base::{Kind, List, MAX_PLACE, Name, NoMemory, Refused};
use lethe_build::{Draft, numbers_for};
use lethe_disk::Disk;
use lethe_flush::{MadeFiles, flush_drafts, flush_files, is_clear};
use lethe_manifest::Change;
use lethe_mem::{Buffer, VecBuffer};
use lethe_version::Version;
use std::alloc::Global;

impl State {
    /// The headers of the files that the frozen buffer becomes, and the step that flushes it.
    ///
    /// # Errors
    ///
    /// `Exhausted` where the numbers of the files' objects and of a manifest have run out. `NoMemory` also where a manifest would have 2^32 files.
    pub fn flushing<D: Disk>(
        &self,
        alloc: Global,
        version: &Version<D>,
    ) -> Result<(Vec<NewHeader>, Step), Refused>
        requires writable { IsWritable self.now }
        requires frozen { IsSome self.now.frozen }
        ensures exhausted { IsErrOf result (refused.Exhausted max_place) → IsShortToFlush self.now }
        ensures refused { IfErr result (λ why. (why ≡ refused.Exhausted max_place) ⊎ (why ≡ refused.NoMemory)) }
        ensures headers { IfOk result (λ made. All (λ new. headers.HasSpelling new.header) made.0.items) }

        // The numbers of all objects and of the manifest were drawn.
        ensures step { IfOk result (λ made. IsStepFrom 1 (clock_of self.now.manifest) self.now made.0.items made.1) }
        ensures drafted { IfOk result (λ made. (drafts : prelude.List draft.Draft) × AreDrafted self.now drafts × (length made.1.objects.items ≡ sum_by numbers_for drafts)) }

        // Of the objects that it makes each is created, and each page is opened, too. One segment goes.
        ensures calls { IfOk result (λ made. most_calls made.0.items made.1 ≤ 2 * length made.1.objects.items + 9) }
        ensures flushes { (s : Stored) → Remembers s self.now (parts_by_level version.now) → IsCurrent s self.now
            → (loose : prelude.List (name.Name × prelude.List ℕ)) → AreDrawn self.now.next (names_in loose) → AreUncited s loose
            → IfOk result (λ made. (t : Stored) × IsFlushed s t × IsStep s loose t loose made.0.items made.1) }
    {
        let frozen = self.frozen.as_ref().unwrap();
        let alone = is_clear(frozen, version, &[]);
        let drafts = self.draft_frozen(alloc, frozen, alone)?;
        let Some(number) = number_behind(self.next, numbers_for(&drafts)) else {
            return Err(Refused::Exhausted { last: MAX_PLACE });
        };
        match self.flush_frozen(alloc, drafts, number) {
            Ok(made) => Ok(made),
            Err(NoMemory) => Err(Refused::NoMemory),
        }
    }

    /// The drafts of the files that the frozen buffer becomes.
    fn draft_frozen(
        &self,
        alloc: Global,
        frozen: &VecBuffer,
        alone: bool,
    ) -> Result<Vec<Draft>, Refused>
        requires writable { IsWritable self.now }
        requires spelled { All entries.HasSpelling frozen.now.entries }
        ensures refused { IfErr result (λ why. why ≡ refused.NoMemory) }
        ensures are { IfOk result (λ drafts. AreDraftsOf self.now.manifest.config (merged frozen.now.entries self.now.pending alone) drafts.items) }
        ensures each { IfOk result (λ drafts. All IsDraft drafts.items) }
        ensures few { IfOk result (λ drafts. sum_by numbers_for drafts.items ≤ most_numbers (length frozen.now.entries)) }
    {
        let erases = self.pending.items();
        match flush_drafts(alloc, frozen, erases, alone, &self.manifest.config) {
            Ok(drafts) => Ok(drafts),
            Err(NoMemory) => Err(Refused::NoMemory),
        }
    }

    /// The headers of the drafts' files, and the step that writes them and removes the frozen segment, to the manifest of this number.
    fn flush_frozen(
        &self,
        alloc: Global,
        drafts: Vec<Draft>,
        number: u64,
    ) -> Result<(Vec<NewHeader>, Step), NoMemory>
        requires writable { IsWritable self.now }
        requires segments { length self.now.manifest.segments ≡ 2 }
        requires drafts { All IsDraft drafts.items }
        requires number { number ≡ self.now.next + sum_by numbers_for drafts.items }
        requires free { number < max_place }
        ensures made { (entries : prelude.List entry.Entry) (alone : Bool) → AreDraftsOf self.now.manifest.config (merged entries self.now.pending alone) drafts.items
            → IfOk result (λ made. (parts : MadeFiles) × (files : prelude.List StoredFile)
            × IsFlushOf self.now.manifest.config entries self.now.pending alone self.now.count self.now.next parts files
            × (self.now.next ≤ parts.next) × IsFlushStep self.now parts made.0.items made.1) }
        ensures headers { IfOk result (λ made. All (λ new. headers.HasSpelling new.header) made.0.items) }
        ensures step { IfOk result (λ made. IsStepFrom 1 (clock_of self.now.manifest) self.now made.0.items made.1) }
        ensures few { IfOk result (λ made. length made.1.objects.items ≡ sum_by numbers_for drafts.items) }
    {
        let made = flush_files(alloc, drafts, self.count, self.next)?;
        self.flush_step(alloc, made, number)
    }

    /// The step that writes what a flush made, to the manifest of this number, which cites the files and no frozen segment.
    fn flush_step(
        &self,
        alloc: Global,
        made: MadeFiles,
        number: u64,
    ) -> Result<(Vec<NewHeader>, Step), NoMemory>
        requires segments { length self.now.manifest.segments ≡ 2 }
        requires number { number ≡ made.next }
        requires free { number < max_place }
        ensures is { IfOk result (λ step. IsFlushStep self.now made step.0.items step.1) }
        ensures few { IfOk result (λ step. length step.1.manifest.files < 2 ^ 32) }
    {
        let MadeFiles {
            headers,
            objects,
            cited,
            ..
        } = made;
        let segments = self.manifest.segments.items();
        let mut files = cited;
        files.extend_from_slice(self.manifest.files.items())?;
        let change = Change {
            no: number,
            count: self.count,
            erases: List::of(self.pending.items().to_vec(alloc)?),
            segments: List::of(segments[1..].to_vec(alloc)?),
            files: List::of(files),
        };
        let mut gone = Vec::new(alloc);
        gone.push(Name {
            kind: Kind::Segment,
            no: segments[0],
        })?;
        let step = Step::to(&self.manifest, change, objects, Vec::new(alloc), gone)?;
        Ok((headers, step))
    }

    /// Forgets the frozen buffer, under the step's manifest.
    pub fn flush(&mut self, step: Step)
        requires writable { IsWritable self.old }
        requires spelled { HasSpelling step.manifest }
        requires segments { length step.manifest.segments ≡ 1 }
        ensures is { self.new ≡ unfrozen step.manifest self.old }
        ensures writable { IsWritable self.new }
    {
        self.next = step.manifest.next;
        self.manifest = step.manifest;
        self.frozen = None;
        self.frozen_oldest = None;
        self.frozen_firsts = Firsts::default();
    }
}
