//! Freezing the active segment.
ghost use Rattle.std.specs.Prelude as prelude;
ghost use Rattle.std.specs.Prelude.{◌≡◌, ◌↔◌, ◌⊎◌, ℕ, ◌+◌, ◌<◌, [], ◌∷◌, None, IfErr, IfOk, IsErrOf, length};
ghost use Rattle.lethe_base.specs.Limits.{max_place};
ghost use Rattle.lethe_base.specs.declared.refused.Refused.TheVariants as refused;
ghost use Rattle.lethe_manifest.specs.Manifests.{HasSpelling};
ghost use Rattle.lethe_stored.specs.Files.{Parts};
ghost use Rattle.lethe_stored.specs.Stored.{Stored, froze};
ghost use Rattle.lethe_base.specs.declared.name.Name as name;
ghost use Rattle.lethe_advance.specs.Calls.{most_calls};
ghost use Rattle.lethe_advance.specs.Settled.{AreDrawn, AreUncited, names_in};
ghost use Rattle.lethe_advance.specs.Steps.{IsStep};
ghost use Rattle.lethe_advance.specs.Segment.{empty_segment};
ghost use Rattle.lethe_state.specs.Clock.{clock_of};
ghost use Rattle.lethe_state.specs.Made.{freezing_manifest};
ghost use Rattle.lethe_state.specs.Remembered.{Remembers, IsCurrent};
ghost use Rattle.lethe_state.specs.Room.{IsFrozenWith, IsShortToFreeze, IsStepFrom};
ghost use Rattle.lethe_state.specs.Writable.{IsWritable};

use crate::State;
use crate::state::FIRST_GATE;
use lethe_advance::{Step, empty_segment, number_behind};
use lethe_base::{List, MAX_PLACE, NoMemory, Refused};
use lethe_manifest::Change;
use lethe_mem::VecBuffer;
use std::alloc::Global;

impl State {
    /// The step that freezes the active segment. An empty one has the next number, and the manifest the one behind it.
    ///
    /// # Errors
    ///
    /// `Exhausted` where these numbers have run out, or `NoMemory`.
    pub fn freezing(&self, alloc: Global) -> Result<Step, Refused>
        requires writable { IsWritable self.now }
        requires unfrozen { self.now.frozen ≡ None }
        ensures exhausted { IsErrOf result (refused.Exhausted max_place) ↔ IsShortToFreeze self.now }
        ensures refused { IfErr result (λ why. (why ≡ refused.Exhausted max_place) ⊎ (why ≡ refused.NoMemory)) }
        ensures step { IfOk result (IsStepFrom 2 (clock_of self.now.manifest) self.now []) }
        ensures calls { IfOk result (λ step. (most_calls [] step ≡ 9) × (length step.objects.items ≡ 1)) }
        ensures freezes { (s : Stored) (levels : prelude.List (prelude.List Parts)) → Remembers s self.now levels → IsCurrent s self.now
            → (loose : prelude.List (name.Name × prelude.List ℕ)) → AreDrawn self.now.next (names_in loose) → AreUncited s loose
            → IfOk result (λ step. IsStep s loose (froze s self.now.next (self.now.next + 1)) loose [] step) }
    {
        let Some(number) = number_behind(self.next, 1) else {
            return Err(Refused::Exhausted { last: MAX_PLACE });
        };
        match self.freeze_step(alloc, number) {
            Ok(step) => Ok(step),
            Err(NoMemory) => Err(Refused::NoMemory),
        }
    }

    /// The step to the manifest of this number, which cites an empty segment behind the active one.
    fn freeze_step(&self, alloc: Global, number: u64) -> Result<Step, NoMemory>
        requires number { number ≡ self.now.next + 1 }
        requires free { number < max_place }
        ensures objects { IfOk result (λ step. step.objects.items ≡ empty_segment self.now.next ∷ []) }
        ensures merged { IfOk result (λ step. step.merged.items ≡ []) }
        ensures older { IfOk result (λ step. step.older ≡ self.now.manifest.no) }
        ensures manifest { IfOk result (λ step. step.manifest ≡ freezing_manifest self.now) }
        ensures gone { IfOk result (λ step. step.gone.items ≡ []) }
    {
        let mut objects = Vec::new(alloc);
        objects.push(empty_segment(alloc, self.next)?)?;
        let mut segments = self.manifest.segments.items().to_vec(alloc)?;
        segments.push(self.next)?;
        let change = Change {
            no: number,
            count: self.count,
            erases: List::of(self.manifest.erases.items().to_vec(alloc)?),
            segments: List::of(segments),
            files: List::of(self.manifest.files.items().to_vec(alloc)?),
        };
        let merged = Vec::new(alloc);
        Step::to(&self.manifest, change, objects, merged, Vec::new(alloc))
    }

    /// Freezes the active buffer, under the step's manifest. It takes no memory.
    pub fn freeze(&mut self, alloc: Global, step: Step)
        requires writable { IsWritable self.old }
        requires unfrozen { self.old.frozen ≡ None }
        requires spelled { HasSpelling step.manifest }
        requires segments { length step.manifest.segments ≡ 2 }
        ensures is { IsFrozenWith step.manifest self.old self.new }
        ensures writable { IsWritable self.new }
    {
        let active = std::mem::replace(&mut self.active, VecBuffer::new(alloc));
        self.frozen = Some(active);
        self.frozen_oldest = self.oldest.take();
        self.frozen_firsts = std::mem::take(&mut self.firsts);
        self.next = step.manifest.next;
        self.manifest = step.manifest;
        self.records = 0;
        self.end = FIRST_GATE;
    }
}
