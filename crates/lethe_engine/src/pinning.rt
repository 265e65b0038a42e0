//! Pins of a store, and the snapshots that they stand for.
ghost use Rattle.std.specs.Prelude.{◌≡◌, ◌≤◌, ◌<◌, ◌+◌, ◌↔◌, ◌⊎◌, None, IfErr, IfOk, IsErrOf, OnErr};
ghost use Rattle.std.specs.Result.{result_err};
ghost use Rattle.lethe_base.specs.History.{History};
ghost use Rattle.lethe_base.specs.Limits.{max_place};
ghost use Rattle.lethe_base.specs.declared.call.Call.TheVariants.{Work};
ghost use Rattle.lethe_base.specs.declared.config.Fields.{Fields};
ghost use Rattle.lethe_base.specs.declared.refused.Refused.TheVariants as refused;
ghost use Rattle.lethe_bound.specs.Limits.{IsLimit};
ghost use Rattle.lethe_pins.specs.Held.{without};
ghost use Rattle.lethe_core.specs.Points.{IsOf, IsTaken};
ghost use Rattle.lethe_core.specs.Times.{IsLimitBy};
ghost use Rattle.lethe_state.specs.Remembered.{Remembers};
ghost use Rattle.lethe_stored.specs.Left.{without_failed};
ghost use Rattle.lethe_stored.specs.Stored.{Stored, layout_of};
ghost use Rattle.lethe_core.specs.Asked.{Serves};
ghost use Rattle.lethe_core.specs.Pins.{IsPinOf, without_pin};
ghost use Rattle.lethe_core.specs.Running.{Holds, IsSound};
ghost use Rattle.lethe_core.specs.View.{face_of, view_of};
ghost use Rattle.lethe_engine.specs.Answers.{Answers};
ghost use Rattle.lethe_engine.specs.Pins.{pinned_face};
ghost use Rattle.lethe_engine.specs.StandsFor.{Opened, StandsSince};

use crate::Engine;
use lethe_base::Refused;
use lethe_core::Snapshot;
use lethe_disk::Disk;
use std::alloc::Global;

impl<D: Disk> Engine<D> {
    /// What the store holds now, for a reader who goes on reading it whatever is called later. Its pin is held until `release`: the pages that it names stay, and a tick to its
    /// limit or a later time is refused. It makes no device call, and a store that is stopped gives it too.
    ///
    /// # Errors
    ///
    /// `Exhausted` where as many pins were made as there are numbers, else `NoMemory`. Then all is as it was.
    pub fn pin(&mut self, alloc: Global) -> Result<Snapshot<D>, Refused>
        requires { IsSound D.tells (view_of self.old.core) }
        ensures answers { Answers D.tells (Serves Work) (result_err result) (pinned_face (face_of (view_of self.old.core)) result) (view_of self.old.core) (view_of self.new.core) }
        ensures held { D.tells → (s : Stored) → Holds (view_of self.old.core) s → Holds (view_of self.new.core) s }

        // It has the next number and shows the history without what failed; its pin names the pages of the store's files.
        ensures number { IfOk result (λ snapshot. snapshot.pin.number ≡ self.old.core.pins.made + 1) }
        ensures point { IfOk result (λ snapshot. snapshot.point ≡ self.old.core.state.count) }
        ensures of { D.tells → (config : Fields) (opened : Opened) (h : History) → StandsSince config opened h (view_of self.old.core) → IfOk result (IsOf (without_failed h)) }
        ensures limit { (s : Stored) → Remembers s self.old.core.state (view_of self.old.core).levels → IfOk result (λ snapshot. IsLimit s.manifest.config.threshold (layout_of s) snapshot.pin.limit) }
        ensures near { D.tells → (config : Fields) (opened : Opened) (h : History) → StandsSince config opened h (view_of self.old.core)
            → IfOk result (λ snapshot. (self.old.core.state.manifest.clock < snapshot.pin.limit) × (snapshot.pin.limit ≤ config.threshold + self.old.core.state.manifest.clock)) }

        // On any disk: it has what the store has in memory, and its files; its limit is taken from what is remembered and from the files' lines.
        ensures taken { IfOk result (IsTaken self.old.core.state (view_of self.old.core).levels) }
        ensures by { IfOk result (λ snapshot. IsLimitBy self.old.core.state (view_of self.old.core).levels snapshot.pin.limit) }
        ensures pinned { IfOk result (λ snapshot. IsPinOf (view_of self.old.core) (view_of self.new.core) snapshot.pin.number snapshot.pin.limit) }

        // Nothing else changes.
        ensures same { self.new ≡ record self.old { core = record self.old.core { pins = self.new.core.pins } } }
        ensures unchanged { OnErr result (self.new ≡ self.old) }
        ensures exhausted { IsErrOf result (refused.Exhausted max_place) ↔ self.old.core.pins.made ≡ max_place }
        ensures why { IfErr result (λ why. (why ≡ refused.Exhausted max_place) ⊎ (why ≡ refused.NoMemory)) }
        ensures certificates { self.new.certificates ≡ self.old.certificates }
    {
        self.core.pin_now(alloc)
    }

    /// Lets a snapshot and its pin go. The pages that this pin alone named go with the next merge, sweep or tick, or with the next opening. It takes no memory and makes no
    /// device call. A snapshot goes back to the store that gave it: that of another store, or of an earlier opening, would let this store's pin of the same number go.
    pub fn release(&mut self, snapshot: Snapshot<D>)
        requires { IsSound D.tells (view_of self.old.core) }
        ensures answers { Answers D.tells (Serves Work) None (without_pin (face_of (view_of self.old.core)) snapshot.pin.number) (view_of self.old.core) (view_of self.new.core) }
        ensures held { D.tells → (s : Stored) → Holds (view_of self.old.core) s → Holds (view_of self.new.core) s }
        ensures same { self.new ≡ record self.old { core = record self.old.core { pins = record self.old.core.pins { pins = without snapshot.pin.number self.old.core.pins.pins } } } }
    {
        self.core.release_now(snapshot);
    }
}
