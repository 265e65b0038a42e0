//! Moving the clock.
ghost use Rattle.std.specs.Prelude as prelude;
ghost use Rattle.std.specs.Prelude.{◌≡◌, ◌⊎◌, ◌↔◌, ℕ, ◌<◌, ◌≤◌, [], IfErr, IfOk, IsErrOf, IsTrue, length};
ghost use Rattle.lethe_base.specs.Limits.{max_place, max_time};
ghost use Rattle.lethe_base.specs.declared.name.Name as name;
ghost use Rattle.lethe_base.specs.declared.refused.Refused.TheVariants as refused;
ghost use Rattle.lethe_manifest.specs.Manifests.{HasSpelling};
ghost use Rattle.lethe_stored.specs.Files.{Parts};
ghost use Rattle.lethe_stored.specs.Stored.{Stored};
ghost use Rattle.lethe_follows.specs.Ticked.{certificate_at, ticked};
ghost use Rattle.lethe_follows.specs.Young.{AreYoung};
ghost use Rattle.lethe_advance.specs.Settled.{AreDrawn, AreUncited, names_in};
ghost use Rattle.lethe_advance.specs.Steps.{IsStep};
ghost use Rattle.lethe_state.specs.Clock.{clock_at, clock_of};
ghost use Rattle.lethe_state.specs.Remembered.{Remembers, IsCurrent};
ghost use Rattle.lethe_state.specs.Room.{IsStepFrom};
ghost use Rattle.lethe_state.specs.Ticking.{moved, ticking_manifest};
ghost use Rattle.lethe_state.specs.Writable.{IsWritable, segments_for};

use crate::State;
use lethe_advance::{Step, number_behind};
use lethe_base::{List, MAX_PLACE, NoMemory, Refused};
use lethe_fade::{cum, is_passed};
use lethe_manifest::{Change, LastCert, Manifest};
use std::alloc::Global;

impl State {
    /// The step that moves the clock to a time and counts one more change. It writes a manifest alone, under the next number, from which the erases that are done leave.
    ///
    /// # Errors
    ///
    /// `Exhausted` where the numbers have run out, or `NoMemory`.
    pub fn ticking(&self, alloc: Global, to: u64) -> Result<Step, Refused>
        requires writable { IsWritable self.now }
        requires fits { self.now.count < max_place }
        requires within { to ≤ max_time }
        ensures exhausted { IsErrOf result (refused.Exhausted max_place) ↔ (max_place ≤ self.now.next) }
        ensures refused { IfErr result (λ why. (why ≡ refused.Exhausted max_place) ⊎ (why ≡ refused.NoMemory)) }
        ensures objects { IfOk result (λ step. step.objects.items ≡ []) }
        ensures manifest { IfOk result (λ step. step.manifest ≡ ticking_manifest self.now to) }
        ensures step { IfOk result (IsStepFrom (segments_for self.now.frozen) (clock_at (clock_of self.now.manifest) to) self.now []) }
        ensures ticks { (s : Stored) (levels : prelude.List (prelude.List Parts)) → Remembers s self.now levels → IsCurrent s self.now
            → (loose : prelude.List (name.Name × prelude.List ℕ)) → AreDrawn self.now.next (names_in loose) → AreUncited s loose
            → IfOk result (λ step. IsStep s loose (ticked s to self.now.next) loose [] step) }
    {
        let Some(number) = number_behind(self.next, 0) else {
            return Err(Refused::Exhausted { last: MAX_PLACE });
        };
        match self.tick_step(alloc, number, to) {
            Ok(step) => Ok(step),
            Err(NoMemory) => Err(Refused::NoMemory),
        }
    }

    /// The step to the manifest of this number, with the clock at a time.
    fn tick_step(&self, alloc: Global, number: u64, to: u64) -> Result<Step, NoMemory>
        requires fits { self.now.count < max_place }
        requires number { number ≡ self.now.next }
        requires free { number < max_place }
        ensures objects { IfOk result (λ step. step.objects.items ≡ []) }
        ensures merged { IfOk result (λ step. step.merged.items ≡ []) }
        ensures older { IfOk result (λ step. step.older ≡ self.now.manifest.no) }
        ensures manifest { IfOk result (λ step. step.manifest ≡ ticking_manifest self.now to) }
        ensures gone { IfOk result (λ step. step.gone.items ≡ []) }
    {
        let manifest = &self.manifest;
        let change = Change {
            no: number,
            count: self.count + 1,
            erases: self.kept_erases(alloc, manifest.files.items())?,
            segments: List::of(manifest.segments.items().to_vec(alloc)?),
            files: List::of(manifest.files.items().to_vec(alloc)?),
        };
        let merged = Vec::new(alloc);
        let mut step = Step::to(manifest, change, Vec::new(alloc), merged, Vec::new(alloc))?;
        step.manifest.clock = to;
        step.manifest.certificate = certificate_at(manifest, to);
        Ok(step)
    }

    /// Takes the manifest of a tick's step, counts the tick, and forgets the erases that the manifest doesn't keep. The buffers stay. It takes no memory.
    pub fn tick(&mut self, alloc: Global, step: Step)
        requires writable { IsWritable self.old }
        requires spelled { HasSpelling step.manifest }
        requires segments { length step.manifest.segments ≡ segments_for self.old.frozen }
        requires fits { self.old.count < max_place }
        ensures is { self.new ≡ moved step.manifest self.old }
        ensures writable { IsWritable self.new }
    {
        self.next = step.manifest.next;
        self.manifest = step.manifest;
        self.let_go(alloc);
        self.count += 1;
    }

    /// Whether no record of either segment is as old at a time as level 0 may have it.
    pub fn has_young_records(&self, to: u64) -> bool
        requires { IsWritable self.now }
        ensures { (s : Stored) (levels : prelude.List (prelude.List Parts)) → Remembers s self.now levels → IsTrue result ↔ AreYoung s to }
    {
        let deadline = cum(&self.manifest.config, 0);
        !is_passed(deadline, to, self.oldest) && !is_passed(deadline, to, self.frozen_oldest)
    }
}

/// The certificate that a manifest has once its clock is at a time.
fn certificate_at(manifest: &Manifest, to: u64) -> Option<LastCert>
    ensures { result ≡ certificate_at manifest.now to }
{
    let threshold = manifest.config.fields().threshold;
    if to < threshold {
        return manifest.certificate;
    }
    let number = match manifest.certificate {
        Some(last) => last.number,
        None => 0,
    };
    Some(LastCert {
        number: number.saturating_add(1).min(MAX_PLACE),
        clock: to,
        before: to - threshold,
    })
}
