//! The slots in which the callers of a run hold snapshots.
ghost use Rattle.std.specs.Prelude.{◌≡◌, ◌<◌, true, false, [], replicate, length, slice_index_or, slice_set, Some, None, is_some, IfOk, OnOk};
ghost use Rattle.lethe_run.specs.Holding.{held_by};
ghost use Rattle.lethe_core.specs.Running.{IsSound};
ghost use Rattle.lethe_core.specs.View.{view_of};

use lethe_base::NoMemory;
use lethe_disk::Disk;
use lethe_engine::Engine;
use lethe_script::{CALLERS, SLOTS, Slot};
use lethe_snapshot::Snapshot;
use std::alloc::Global;

/// The ten slots of a caller. What one holds is a snapshot, which has to be released.
pub(crate) struct Slots<D: Disk> {
    pub held: Vec<Option<Snapshot<D>>>,
}

impl<D: Disk> Slots<D> {
    /// None holds one. The room for all is taken here.
    pub(crate) fn new(alloc: Global) -> Result<Slots<D>, NoMemory>
        ensures { IfOk result (λ slots. slots.held.items ≡ replicate 10 None) }
    {
        let mut held = Vec::with_capacity(alloc, SLOTS)?;
        'slots: while held.len() < SLOTS {
            held.push(None).unwrap();
        }
        Ok(Slots { held })
    }

    /// Holds a snapshot in a slot that is free.
    pub(crate) fn hold(&mut self, slot: &Slot, snapshot: Snapshot<D>)
        requires ten { length self.old.held.items ≡ 10 }
        requires free { slice_index_or self.old.held.items slot.now None ≡ None }
        ensures held { self.new.held.items ≡ slice_set self.old.held.items slot.now (Some snapshot) }
        ensures within { slot.now < 10 }
    {
        match self.held[slot.get()].replace(snapshot) {
            None => {}
            Some(_) => unreachable!(),
        }
    }

    /// What a slot holds that isn't free.
    pub(crate) fn snapshot(&self, slot: &Slot) -> &Snapshot<D>
        requires ten { length self.now.held.items ≡ 10 }
        requires held { is_some (slice_index_or self.now.held.items slot.now None) ≡ true }
        ensures held { slice_index_or self.now.held.items slot.now None ≡ Some result.now }
        ensures within { slot.now < 10 }
    {
        let Some(snapshot) = &self.held[slot.get()] else {
            unreachable!()
        };
        snapshot
    }

    /// Takes out what a slot holds that isn't free.
    pub(crate) fn take(&mut self, slot: &Slot) -> Snapshot<D>
        requires ten { length self.old.held.items ≡ 10 }
        requires held { is_some (slice_index_or self.old.held.items slot.now None) ≡ true }
        ensures was { slice_index_or self.old.held.items slot.now None ≡ Some result }
        ensures free { self.new.held.items ≡ slice_set self.old.held.items slot.now None }
        ensures within { slot.now < 10 }
    {
        let Some(snapshot) = self.held[slot.get()].take() else {
            unreachable!()
        };
        snapshot
    }

    /// Releases all that is held.
    fn release_all(self, engine: &mut Engine<D>)
        requires sound { IsSound D.tells (view_of engine.old.core) }
        ensures sound { IsSound D.tells (view_of engine.new.core) }
        ensures disk { engine.new.core.disk ≡ engine.old.core.disk }
    {
        let Slots { mut held } = self;
        while let Some(slot) = held.pop() {
            release(engine, slot);
        }
        held.destroy_empty();
    }
}

/// The slots of each caller of a run, the first caller's first.
pub(crate) struct CallerSlots<D: Disk> {
    pub of: Vec<Slots<D>>,
}

impl<D: Disk> CallerSlots<D> {
    /// No caller has any yet.
    pub(crate) fn none(alloc: Global) -> CallerSlots<D>
        ensures { result.of.items ≡ [] }
    {
        CallerSlots {
            of: Vec::new(alloc),
        }
    }

    /// Gives each caller its slots, of which none holds anything. The room for all is taken here.
    pub(crate) fn fill(&mut self, alloc: Global) -> Result<(), NoMemory>
        requires { self.old.of.items ≡ [] }
        ensures { OnOk result (held_by self.new.of.items ≡ replicate 8 (replicate 10 None)) }
    {
        self.of.reserve(CALLERS)?;
        'callers: while self.of.len() < CALLERS {
            let slots = Slots::new(alloc)?;
            self.of.push(slots).unwrap();
        }
        Ok(())
    }

    /// Releases all that is held, and gives the disk of the store back.
    pub(crate) fn hand_back(self, mut engine: Engine<D>) -> D
        requires { IsSound D.tells (view_of engine.core) }
        ensures { result ≡ engine.core.disk }
    {
        let CallerSlots { mut of } = self;
        while let Some(slots) = of.pop() {
            slots.release_all(&mut engine);
        }
        of.destroy_empty();
        engine.into_disk()
    }
}

/// Releases what a slot holds, if it isn't free.
fn release<D: Disk>(engine: &mut Engine<D>, slot: Option<Snapshot<D>>)
    requires sound { IsSound D.tells (view_of engine.old.core) }
    ensures sound { IsSound D.tells (view_of engine.new.core) }
    ensures disk { engine.new.core.disk ≡ engine.old.core.disk }
{
    if let Some(snapshot) = slot {
        engine.release(snapshot);
    }
}
