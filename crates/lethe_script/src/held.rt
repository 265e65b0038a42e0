//! Which slots are held.
ghost use Rattle.std.specs.Prelude.{◌≡◌, true, false, not, slice_set, Some, None, if◌then◌else◌};
ghost use Rattle.lethe_script.specs.Slots.{none_held, is_held, held_behind, none_held_by_all, all_held_behind};

use crate::caller::CALLERS;
use crate::order::{Act, Order};
use crate::slot::{SLOTS, Slot};
use std::marker::Model;

/// Which slots a caller holds.
#[derive(Clone, Copy)]
struct HeldSlots {
    slots: [bool; SLOTS],
}

impl HeldSlots {
    /// No slot is held.
    fn none() -> HeldSlots
        ensures { result.slots ≡ none_held }
    {
        HeldSlots {
            slots: [false; SLOTS],
        }
    }

    /// Whether an act finds its slot as it needs it. If so, what is held from then on is what is held behind the act.
    fn take(&mut self, act: &Act) -> bool
        ensures { held_behind act.now self.old.slots ≡ (if result then Some self.new.slots else None) }
    {
        match act {
            Act::Put { .. } | Act::Get { .. } | Act::Scan { .. } => true,
            Act::Delete { .. } | Act::Erase { .. } | Act::Stat | Act::Tick { .. } => true,
            Act::Pin { slot } => self.hold(slot),
            Act::PinGet { slot, .. } => self.is_held(slot),
            Act::PinScan { slot, .. } => self.is_held(slot),
            Act::Unpin { slot } => self.let_go(slot),
        }
    }

    fn is_held(&self, slot: &Slot) -> bool
        ensures { result ≡ is_held self.now.slots slot.now }
    {
        self.slots[slot.get()]
    }

    /// Holds a slot, and tells whether it was free.
    fn hold(&mut self, slot: &Slot) -> bool
        ensures free { result ≡ not (is_held self.old.slots slot.now) }
        ensures held { self.new.slots ≡ slice_set self.old.slots slot.now true }
    {
        let was_free = !self.is_held(slot);
        self.slots[slot.get()] = true;
        was_free
    }

    /// Frees a slot, and tells whether it was held.
    fn let_go(&mut self, slot: &Slot) -> bool
        ensures held { result ≡ is_held self.old.slots slot.now }
        ensures free { self.new.slots ≡ slice_set self.old.slots slot.now false }
    {
        let was_held = self.is_held(slot);
        self.slots[slot.get()] = false;
        was_held
    }
}

/// Which slots each caller holds, from line to line. Contracts see what they hold, caller by caller.
#[derive(Drop)]
pub(crate) struct HeldByAll {
    callers: [HeldSlots; CALLERS],
}

impl Model for HeldByAll {
    ghost use Rattle.std.specs.Prelude.{◌≡◌, length, map};
    ghost use Rattle.lethe_script.specs.Slots.{HeldByAll};

    ghost Value = { HeldByAll };

    ghost view = { λ h. map (λ held. held.slots) h.callers };

    ghost invariant = { λ h. length h.callers ≡ 8 };
}

impl HeldByAll {
    /// Nobody holds a slot.
    pub(crate) fn none() -> HeldByAll
        ensures { result ≡ none_held_by_all }
    {
        HeldByAll {
            callers: [HeldSlots::none(); CALLERS],
        }
    }

    /// Whether an order finds its caller's slot as it needs it. If so, what all hold from then on is what they hold behind it.
    pub(crate) fn take(&mut self, order: &Order) -> bool
        ensures { all_held_behind order.now self.old ≡ (if result then Some self.new else None) }
    {
        self.callers[order.caller.index()].take(&order.act)
    }
}
