//! Work on a store, which changes nothing that reads see.
ghost use Rattle.std.specs.Prelude.{◌≡◌, ◌≤◌, ◌↔◌, ◌+◌, ℕ, true, false, Ok, Some, None, IfErr, IsErrOf};
ghost use Rattle.std.specs.Result.{result_err};
ghost use Rattle.lethe_base.specs.Limits.{max_place};
ghost use Rattle.lethe_base.specs.declared.call.Call.TheVariants.{Work};
ghost use Rattle.lethe_base.specs.declared.refused.Refused.TheVariants.{Exhausted, Stopped};
ghost use Rattle.lethe_stored.specs.Stored.{Stored};
ghost use Rattle.lethe_state.specs.Room.{IsFlushed, IsFrozen, IsShortToFlush, IsShortToFreeze};
ghost use Rattle.lethe_core.specs.Running.{Holds, IsSound};
ghost use Rattle.lethe_core.specs.Asked.{Serves};
ghost use Rattle.lethe_core.specs.View.{face_of, view_of};
ghost use Rattle.lethe_engine.specs.Answers.{Answers};
ghost use Rattle.lethe_engine.specs.Refusals.{HasReasonOfWork};
ghost use Rattle.lethe_engine.specs.Work.{HasNoFlush, HasNoFreeze};

use crate::Engine;
use lethe_base::Refused;
use lethe_disk::Disk;
use std::alloc::Global;

impl<D: Disk> Engine<D> {
    /// Freezes the active segment: an empty one takes its place, and its buffer waits to be flushed. It answers whether there was anything to do: there is
    /// nothing where a buffer is frozen already, or the active segment has no record. Freezing has a place in the store's history only where the disk fails in it.
    ///
    /// # Errors
    ///
    /// `Stopped`, `Exhausted` where the last place is taken or numbers ran out, `NoMemory`, `Fault`, which stops the store.
    pub fn freeze(&mut self, alloc: Global) -> Result<bool, Refused>
        // Opening gives this, and each call leaves it so.
        requires { IsSound D.tells (view_of self.old.core) }
        ensures answers { Answers D.tells (Serves Work) (result_err result) (face_of (view_of self.old.core)) (view_of self.old.core) (view_of self.new.core) }
        ensures retired { self.new.core.retired ≡ self.old.core.retired }

        // It is false exactly where there is nothing to do, and then nothing is done.
        ensures idle { (result ≡ Ok false) ↔ HasNoFreeze self.old.core.state }
        ensures same { result ≡ Ok false → self.new ≡ self.old }
        ensures done { D.tells → (s : Stored) → Holds (view_of self.old.core) s → result ≡ Ok true
            → (t : Stored) × IsFrozen s t × Holds (view_of self.new.core) t }

        // A refusal has its reason, and a store that is stopped, or has something to do and no place for it, is as it was.
        ensures why { IfErr result (HasReasonOfWork (IsShortToFreeze self.old.core.state) (view_of self.old.core) (view_of self.new.core)) }
        ensures stopped { (at : ℕ) → self.old.core.state.stopped ≡ Some at → IsErrOf result (Stopped at) × (self.new ≡ self.old) }
        ensures exhausted { self.old.core.state.stopped ≡ None → (HasNoFreeze self.old.core.state → ⊥) → self.old.core.state.count ≡ max_place → IsErrOf result (Exhausted max_place) × (self.new ≡ self.old) }
        ensures certificates { self.new.certificates ≡ self.old.certificates }
        ensures pins { self.new.core.pins ≡ self.old.core.pins }
    {
        if let Some(at) = self.core.state.stopped() {
            return Err(Refused::Stopped { at });
        }
        if self.core.state.frozen().is_some() || self.core.state.records() == 0 {
            return Ok(false);
        }
        self.core.state.may_change()?;
        let before = self.core.disk.faults();
        match self.core.freeze_now(alloc, before) {
            Ok(()) => Ok(true),
            Err(why) => Err(why),
        }
    }

    /// Flushes the frozen buffer: files of level 0 take the place of its segment. It answers whether there was anything to do. Flushing has a place in
    /// the store's history only where the disk fails in it.
    ///
    /// # Errors
    ///
    /// As for `freeze`.
    pub fn flush(&mut self, alloc: Global) -> Result<bool, Refused>
        // Opening gives this, and each call leaves it so.
        requires { IsSound D.tells (view_of self.old.core) }
        ensures answers { Answers D.tells (Serves Work) (result_err result) (face_of (view_of self.old.core)) (view_of self.old.core) (view_of self.new.core) }
        ensures retired { self.new.core.retired ≡ self.old.core.retired }

        // It is false exactly where there is nothing to do, and then nothing is done.
        ensures idle { (result ≡ Ok false) ↔ HasNoFlush self.old.core.state }
        ensures same { result ≡ Ok false → self.new ≡ self.old }
        ensures done { D.tells → (s : Stored) → Holds (view_of self.old.core) s → result ≡ Ok true
            → (t : Stored) × IsFlushed s t × Holds (view_of self.new.core) t }

        // A refusal has its reason, and a store that is stopped, or has something to do and no place for it, is as it was.
        ensures why { IfErr result (HasReasonOfWork (IsShortToFlush self.old.core.state) (view_of self.old.core) (view_of self.new.core)) }
        ensures stopped { (at : ℕ) → self.old.core.state.stopped ≡ Some at → IsErrOf result (Stopped at) × (self.new ≡ self.old) }
        ensures exhausted { self.old.core.state.stopped ≡ None → (HasNoFlush self.old.core.state → ⊥) → self.old.core.state.count ≡ max_place → IsErrOf result (Exhausted max_place) × (self.new ≡ self.old) }
        ensures certificates { self.new.certificates ≡ self.old.certificates }
        ensures pins { self.new.core.pins ≡ self.old.core.pins }
    {
        if let Some(at) = self.core.state.stopped() {
            return Err(Refused::Stopped { at });
        }
        if self.core.state.frozen().is_none() {
            return Ok(false);
        }
        self.core.state.may_change()?;
        let before = self.core.disk.faults();
        match self.core.flush_now(alloc, before) {
            Ok(()) => Ok(true),
            Err(why) => Err(why),
        }
    }
}
