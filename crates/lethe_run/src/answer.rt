//! Answering one order.
ghost use Rattle.std.specs.Prelude.{◌≡◌, ◌<◌, ◌≤◌, ◌+◌, ℕ, IfErr, IsSome, MatchResult, Ok, OnOk, Some, length};
ghost use Rattle.lethe_base.specs.History.{History};
ghost use Rattle.lethe_base.specs.Limits.{max_place};
ghost use Rattle.lethe_read.specs.Refusals.{IsReadRefusal};
ghost use Rattle.lethe_core.specs.Running.{IsSound};
ghost use Rattle.lethe_core.specs.View.{view_of};
ghost use Rattle.lethe_script.specs.Slots.{held_behind};
ghost use Rattle.lethe_run.specs.Anywhere.{IsLater, IsTold, standing_of};
ghost use Rattle.lethe_run.specs.Holding.{AreShown, held_in, slots_of};
ghost use Rattle.lethe_run.specs.Slots.{InSlots};
ghost use Rattle.lethe_run.specs.declared.reply.Reply.TheVariants as reply;
ghost use Rattle.lethe_run.specs.Replies.{IsOfChange, IsOfTick, refusal_of, reply_of, tick_reply_of, unread_of};
ghost use Rattle.lethe_run.specs.Serving.{IsOn, IsAnswered, Advances, Point};
ghost use Rattle.lethe_run.specs.Transcript.{Start};

use crate::pinning::{pin, pin_get, pin_scan, unpin};
use crate::reply::Reply;
use crate::slots::Slots;
use lethe_base::{List, NoMemory, Refused};
use lethe_disk::Disk;
use lethe_engine::{Engine, Ticked};
use lethe_script::Act;
use std::alloc::Global;

/// Carries out one act, and reads through the port. For want of memory there is no reply, the store stands for the history for which it stood, and the slots hold what they
/// held.
pub(crate) fn answer<D: Disk>(
    engine: &mut Engine<D>,
    alloc: Global,
    port: &mut D::Port,
    slots: &mut Slots<D>,
    act: Act,
) -> Result<Reply, NoMemory>
    requires sound { IsSound D.tells (view_of engine.old.core) }
    requires rounds { engine.old.core.begun.rounds < max_place }
    requires made { engine.old.core.pins.made < max_place }
    requires ten { length slots.old.held.items ≡ 10 }
    // The act finds its slot as it needs it.
    requires slotted { IsSome (held_behind act (held_in slots.old.held.items)) }
    ensures sound { IsSound D.tells (view_of engine.new.core) }
    // On any disk:
    ensures told { MatchResult result
        (λ reply. IsTold D.ports_fail (D.faults engine.old.core.disk) (D.faults engine.new.core.disk) act (standing_of (view_of engine.old.core))
        reply (standing_of (view_of engine.new.core)))
        (λ why. IsLater (standing_of (view_of engine.old.core)) (standing_of (view_of engine.new.core))) }
    ensures slots { MatchResult result (λ reply. InSlots act reply (slots_of slots.old.held.items) (slots_of slots.new.held.items)) (λ why. slots_of slots.new.held.items ≡ slots_of slots.old.held.items) }
    ensures served { D.tells → (begin : Start) (from : Point) (h : History) (caller : ℕ)
        → IsOn begin from h (view_of engine.old.core) → AreShown h slots.old.held.items
        → MatchResult result
        (λ reply. (g : History) × IsAnswered D.ports_fail begin h g caller act reply (view_of engine.old.core) (view_of engine.new.core))
        (λ why. Advances begin h h (view_of engine.old.core) (view_of engine.new.core)) }
    // What the slots hold shows the history, and so any that goes on from it.
    ensures shown { D.tells → (begin : Start) (from : Point) (h : History)
        → IsOn begin from h (view_of engine.old.core) → AreShown h slots.old.held.items → AreShown h slots.new.held.items }
    ensures faults { D.faults engine.old.core.disk ≤ D.faults engine.new.core.disk }
    // At most one round has ended in it.
    ensures rounds { engine.new.core.begun.rounds ≤ engine.old.core.begun.rounds + 1 }
    // At most one pin was made.
    ensures made { engine.new.core.pins.made ≤ engine.old.core.pins.made + 1 }
    ensures ten { length slots.new.held.items ≡ 10 }
    ensures slotted { OnOk result (held_behind act (held_in slots.old.held.items) ≡ Some (held_in slots.new.held.items)) }
    // On any disk a page is told as damaged only where a fetch was made.
    ensures fetched { (no : ℕ) → result ≡ Ok (reply.Damaged no) → D.fetches port.old < D.fetches port.new }
{
    match act {
        Act::Put { key, dkey, value } => changed(engine.put(alloc, port, key, dkey, value)),
        Act::Delete { key } => changed(engine.delete(alloc, port, key)),
        Act::Erase { range } => changed(engine.erase(alloc, port, range)),
        Act::Get { key } => match engine.get(alloc, port, &key) {
            Ok(held) => Ok(Reply::Got {
                point: engine.count(),
                held,
            }),
            Err(why) => unread(why),
        },
        Act::Scan { lo, hi } => match engine.scan(alloc, port, &lo, &hi) {
            Ok(pairs) => Ok(Reply::Scanned {
                point: engine.count(),
                pairs: List::of(pairs),
            }),
            Err(why) => unread(why),
        },
        Act::Stat => Ok(Reply::Counted {
            point: engine.count(),
            stat: engine.stat(),
        }),
        Act::Tick { to } => {
            let point = engine.count();
            ticked(engine.tick(alloc, port, to.get()), point)
        }
        Act::Pin { slot } => pin(engine, alloc, slots, &slot),
        Act::PinGet { slot, key } => pin_get(slots.snapshot(&slot), alloc, port, &key),
        Act::PinScan { slot, lo, hi } => pin_scan(slots.snapshot(&slot), alloc, port, &lo, &hi),
        Act::Unpin { slot } => Ok(unpin(engine, slots, &slot)),
    }
}

/// The reply to a change.
fn changed(answer: Result<u64, Refused>) -> Result<Reply, NoMemory>
    requires { IfErr answer IsOfChange }
    ensures { result ≡ reply_of answer }
{
    match answer {
        Ok(place) => Ok(Reply::Done { place }),
        Err(why) => unmade(why),
    }
}

/// The reply to a tick, which was asked for behind `point` places.
fn ticked(answer: Result<Ticked, Refused>, point: u64) -> Result<Reply, NoMemory>
    requires { IfErr answer IsOfTick }
    ensures { result ≡ tick_reply_of point answer }
{
    match answer {
        Ok(ticked) => Ok(Reply::Ticked(ticked)),
        Err(Refused::Backwards { clock }) => Ok(Reply::Backwards { point, clock }),
        Err(Refused::Pinned { pin, limit }) => Ok(Reply::Barred { number: pin, limit }),
        Err(why) => unmade(why),
    }
}

/// The reply to a change that was refused.
fn unmade(why: Refused) -> Result<Reply, NoMemory>
    requires { IsOfChange why }
    ensures { result ≡ refusal_of why }
{
    match why {
        Refused::Fault {
            place,
            before,
            after,
        } => Ok(Reply::Fault {
            place,
            before,
            after,
        }),
        Refused::Stopped { at } => Ok(Reply::Stopped { at }),
        Refused::Exhausted { last } => Ok(Reply::Exhausted { last }),
        Refused::ReadFault { .. } => Ok(Reply::ReadFault),
        Refused::Damaged { name } => Ok(Reply::Damaged { no: name.no }),
        Refused::NoMemory => Err(NoMemory),
        _ => unreachable!(),
    }
}

/// The reply to a read that was refused.
pub(crate) fn unread(why: Refused) -> Result<Reply, NoMemory>
    requires { IsReadRefusal why }
    ensures { result ≡ unread_of why }
{
    match why {
        Refused::ReadFault { .. } => Ok(Reply::ReadFault),
        Refused::Damaged { name } => Ok(Reply::Damaged { no: name.no }),
        Refused::NoMemory => Err(NoMemory),
        _ => unreachable!(),
    }
}
