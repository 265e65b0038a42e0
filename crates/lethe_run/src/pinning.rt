//! Answering an order that pins, reads what a slot holds, or lets it go.
ghost use Rattle.std.specs.Prelude.{◌≡◌, ◌≤◌, ◌<◌, ◌+◌, ℕ, Ok, Some, None, true, is_some, length, slice_index_or, IfOk, MatchResult, OnOk};
ghost use Rattle.lethe_base.specs.History.{History};
ghost use Rattle.lethe_base.specs.Limits.{max_place};
ghost use Rattle.lethe_core.specs.Running.{IsSound};
ghost use Rattle.lethe_core.specs.View.{view_of};
ghost use Rattle.lethe_script.specs.Slots.{held_behind};
ghost use Rattle.lethe_script.specs.declared.order.Act.TheVariants as acts;
ghost use Rattle.lethe_run.specs.Anywhere.{IsTold, Standing, standing_of};
ghost use Rattle.lethe_run.specs.Holding.{AreShown, IsShown, held_in, pin_of, slots_of};
ghost use Rattle.lethe_run.specs.declared.reply.Reply.TheVariants as reply;
ghost use Rattle.lethe_run.specs.Serving.{Advances, IsAnswered, IsLookedUp, IsOn, Point};
ghost use Rattle.lethe_run.specs.Slots as own;
ghost use Rattle.lethe_run.specs.Slots.{InSlots, pin_in};
ghost use Rattle.lethe_run.specs.Transcript.{Start};

use crate::answer::unread;
use crate::reply::Reply;
use crate::slots::Slots;
use lethe_base::{Key, List, NoMemory, Refused};
use lethe_disk::Disk;
use lethe_engine::Engine;
use lethe_script::Slot;
use lethe_snapshot::Snapshot;
use std::alloc::Global;

/// Pins what the store holds now, in a slot that is free. For want of memory there is no reply, and all is as it was.
pub(crate) fn pin<D: Disk>(
    engine: &mut Engine<D>,
    alloc: Global,
    slots: &mut Slots<D>,
    slot: &Slot,
) -> Result<Reply, NoMemory>
    requires sound { IsSound D.tells (view_of engine.old.core) }
    // Numbers of pins don't run out.
    requires few { engine.old.core.pins.made < max_place }
    requires ten { length slots.old.held.items ≡ 10 }
    requires free { slice_index_or slots.old.held.items slot.now None ≡ None }
    ensures sound { IsSound D.tells (view_of engine.new.core) }
    ensures told { MatchResult result
        (λ reply. IsTold D.ports_fail (D.faults engine.old.core.disk) (D.faults engine.new.core.disk) (acts.Pin slot.now) (standing_of (view_of engine.old.core))
        reply (standing_of (view_of engine.new.core)))
        (λ why. standing_of (view_of engine.new.core) ≡ standing_of (view_of engine.old.core)) }
    ensures slots { MatchResult result (λ reply. InSlots (acts.Pin slot.now) reply (slots_of slots.old.held.items) (slots_of slots.new.held.items)) (λ why. slots_of slots.new.held.items ≡ slots_of slots.old.held.items) }
    ensures served { D.tells → (begin : Start) (from : Point) (h : History) (caller : ℕ)
        → IsOn begin from h (view_of engine.old.core)
        → MatchResult result
        (λ reply. (g : History) × IsAnswered D.ports_fail begin h g caller (acts.Pin slot.now) reply (view_of engine.old.core) (view_of engine.new.core))
        (λ why. Advances begin h h (view_of engine.old.core) (view_of engine.new.core)) }
    ensures shown { D.tells → (begin : Start) (from : Point) (h : History)
        → IsOn begin from h (view_of engine.old.core) → AreShown h slots.old.held.items → AreShown h slots.new.held.items }
    ensures ten { length slots.new.held.items ≡ 10 }
    ensures made { engine.new.core.pins.made ≤ engine.old.core.pins.made + 1 }
    ensures slotted { OnOk result (held_behind (acts.Pin slot.now) (held_in slots.old.held.items) ≡ Some (held_in slots.new.held.items)) }
    // But for the pins the store is as it was.
    ensures same { engine.new ≡ record engine.old { core = record engine.old.core { pins = engine.new.core.pins } } }
{
    match engine.pin(alloc) {
        Ok(snapshot) => {
            let point = snapshot.point();
            let number = snapshot.number();
            let limit = snapshot.limit();
            slots.hold(slot, snapshot);
            Ok(Reply::Pinned {
                point,
                number,
                limit,
            })
        }
        Err(Refused::NoMemory) => Err(NoMemory),
        Err(_) => unreachable!(),
    }
}

/// Looks a key up in what a slot holds.
pub(crate) fn pin_get<D: Disk>(
    snapshot: &Snapshot<D>,
    alloc: Global,
    port: &mut D::Port,
    key: &Key,
) -> Result<Reply, NoMemory>
    ensures told { (from upto : ℕ) (s : Standing) (slot : ℕ) → IfOk result (λ reply. IsTold D.ports_fail from upto (acts.PinGet slot key.now) s reply s) }
    ensures slots { (held : own.Slots) (slot : ℕ) → pin_in held slot ≡ Some (pin_of snapshot.now) → IfOk result (λ reply. InSlots (acts.PinGet slot key.now) reply held held) }
    ensures served { D.tells → (begin : Start) (h : History) (caller slot faults moment : ℕ) → IsShown h snapshot.now
        → IfOk result (IsLookedUp D.ports_fail begin faults moment h caller (acts.PinGet slot key.now)) }
    ensures fetched { (no : ℕ) → result ≡ Ok (reply.Damaged no) → D.fetches port.old < D.fetches port.new }
{
    match snapshot.get(alloc, port, key) {
        Ok(held) => Ok(Reply::PinGot {
            number: snapshot.number(),
            point: snapshot.point(),
            held,
        }),
        Err(why) => unread(why),
    }
}

/// Lists the keys of a range of what a slot holds.
pub(crate) fn pin_scan<D: Disk>(
    snapshot: &Snapshot<D>,
    alloc: Global,
    port: &mut D::Port,
    lo: &Key,
    hi: &Key,
) -> Result<Reply, NoMemory>
    ensures told { (from upto : ℕ) (s : Standing) (slot : ℕ) → IfOk result (λ reply. IsTold D.ports_fail from upto (acts.PinScan slot lo.now hi.now) s reply s) }
    ensures slots { (held : own.Slots) (slot : ℕ) → pin_in held slot ≡ Some (pin_of snapshot.now) → IfOk result (λ reply. InSlots (acts.PinScan slot lo.now hi.now) reply held held) }
    ensures served { D.tells → (begin : Start) (h : History) (caller slot faults moment : ℕ) → IsShown h snapshot.now
        → IfOk result (IsLookedUp D.ports_fail begin faults moment h caller (acts.PinScan slot lo.now hi.now)) }
    ensures fetched { (no : ℕ) → result ≡ Ok (reply.Damaged no) → D.fetches port.old < D.fetches port.new }
{
    match snapshot.scan(alloc, port, lo, hi) {
        Ok(pairs) => Ok(Reply::PinScanned {
            number: snapshot.number(),
            point: snapshot.point(),
            pairs: List::of(pairs),
        }),
        Err(why) => unread(why),
    }
}

/// Lets go what a slot holds that isn't free.
pub(crate) fn unpin<D: Disk>(engine: &mut Engine<D>, slots: &mut Slots<D>, slot: &Slot) -> Reply
    requires sound { IsSound D.tells (view_of engine.old.core) }
    requires ten { length slots.old.held.items ≡ 10 }
    requires held { is_some (slice_index_or slots.old.held.items slot.now None) ≡ true }
    ensures sound { IsSound D.tells (view_of engine.new.core) }
    ensures told { IsTold D.ports_fail (D.faults engine.old.core.disk) (D.faults engine.new.core.disk) (acts.Unpin slot.now) (standing_of (view_of engine.old.core))
        result (standing_of (view_of engine.new.core)) }
    ensures slots { InSlots (acts.Unpin slot.now) result (slots_of slots.old.held.items) (slots_of slots.new.held.items) }
    ensures served { D.tells → (begin : Start) (from : Point) (h : History) (caller : ℕ)
        → IsOn begin from h (view_of engine.old.core)
        → (g : History) × IsAnswered D.ports_fail begin h g caller (acts.Unpin slot.now) result (view_of engine.old.core) (view_of engine.new.core) }
    ensures shown { D.tells → (h : History) → AreShown h slots.old.held.items → AreShown h slots.new.held.items }
    ensures ten { length slots.new.held.items ≡ 10 }
    ensures slotted { held_behind (acts.Unpin slot.now) (held_in slots.old.held.items) ≡ Some (held_in slots.new.held.items) }
    // But for the pins the store is as it was, and it made none.
    ensures same { engine.new ≡ record engine.old { core = record engine.old.core { pins = record engine.old.core.pins { pins = engine.new.core.pins.pins } } } }
{
    let snapshot = slots.take(slot);
    let number = snapshot.number();
    engine.release(snapshot);
    Reply::Unpinned {
        point: engine.count(),
        number,
    }
}
