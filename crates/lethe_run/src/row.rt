//! A row of changes: consecutive ones of one caller, which are made one behind another.
ghost use Rattle.std.specs.Prelude.{◌≡◌, ◌≤◌, ◌<◌, ◌+◌, ◌++◌, ◌∷◌, [], List, length, Some, None, IsSome, IsTrue, MatchResult, vec_len, vec_capacity, if◌then◌else◌};
ghost use Rattle.lethe_base.specs.Limits.{max_place};
ghost use Rattle.lethe_core.specs.Running.{IsSound};
ghost use Rattle.lethe_core.specs.View.{view_of};
ghost use Rattle.lethe_script.specs.Slots.{held_behind};
ghost use Rattle.lethe_script.specs.declared.order.Order.{Order};
ghost use Rattle.lethe_engine.specs.Asked.{Asked};
ghost use Rattle.lethe_run.specs.Holding.{held_in};
ghost use Rattle.lethe_run.specs.Rows.{HasMade, HasServed, IsStretch, act_of, done_lines, orders_of, stopped_lines, unlined};
ghost use Rattle.lethe_run.specs.Transcript.{change_of};

use crate::answer::answer;
use crate::reply::{Line, Reply};
use crate::slots::Slots;
use lethe_base::{NoMemory, Refused};
use lethe_disk::Disk;
use lethe_engine::{Asked, Engine, Row};
use lethe_script::{Act, Order};
use std::alloc::Global;
use std::collections::VecDeque;

/// The last changes that were asked for, while they wait to be made in a row. They are all of one caller.
#[derive(Debug, Drop)]
pub(crate) struct Queue {
    pub caller: u64,
    pub changes: VecDeque<Asked>,
}

/// Answers an order, behind the changes that wait; or has it wait behind them, where it asks for one more change of their caller. `false` where there was no memory: the lines
/// are those of the orders that were answered.
pub(crate) fn serve_order<D: Disk>(
    engine: &mut Engine<D>,
    alloc: Global,
    port: &mut D::Port,
    slots: &mut Slots<D>,
    queue: &mut Queue,
    lines: &mut Vec<Line>,
    order: Order,
) -> bool
    requires sound { IsSound D.tells (view_of engine.old.core) }
    requires rounds { engine.old.core.begun.rounds + length queue.old.changes.items < max_place }
    requires made { engine.old.core.pins.made + length queue.old.changes.items < max_place }
    requires ten { length slots.old.held.items ≡ 10 }
    // The order finds its slot as it needs it.
    requires slotted { IsSome (held_behind order.act (held_in slots.old.held.items)) }
    requires room { vec_len lines.old + length queue.old.changes.items < vec_capacity lines.old }
    ensures sound { IsSound D.tells (view_of engine.new.core) }
    ensures served { (part : List Order) × (left : List Order) × (more : List Line)
        × (orders_of queue.old.caller queue.old.changes.items ++ unlined order ∷ [] ≡ part ++ left) × (IsTrue result → left ≡ orders_of queue.new.caller queue.new.changes.items)
        × (lines.new.items ≡ lines.old.items ++ more) × IsStretch D.tells D.ports_fail part more (view_of engine.old.core) slots.old.held.items (view_of engine.new.core) slots.new.held.items }
    ensures rounds { engine.new.core.begun.rounds + length queue.new.changes.items ≤ engine.old.core.begun.rounds + length queue.old.changes.items + 1 }
    ensures made { engine.new.core.pins.made + length queue.new.changes.items ≤ engine.old.core.pins.made + length queue.old.changes.items + 1 }
    ensures ten { length slots.new.held.items ≡ 10 }
    ensures slotted { IsTrue result → held_behind order.act (held_in slots.old.held.items) ≡ Some (held_in slots.new.held.items) }
    ensures room { vec_len lines.new + length queue.new.changes.items ≤ vec_len lines.old + length queue.old.changes.items + 1 }
    ensures capacity { vec_capacity lines.old ≤ vec_capacity lines.new }
{
    let Order { caller, act, .. } = order;
    let caller = caller.get();
    match change_in(act) {
        Ok(change) => {
            if caller == queue.caller {
                return queue.changes.push_back(change).is_ok();
            }
            if !serve_row(engine, alloc, port, slots, queue, lines) {
                return false;
            }
            queue.caller = caller;
            queue.changes.push_back(change).is_ok()
        }
        Err(act) => {
            if !serve_row(engine, alloc, port, slots, queue, lines) {
                return false;
            }
            serve_act(engine, alloc, port, slots, lines, caller, act)
        }
    }
}

/// Answers an act, on whichever line it stands. `false` where there was no memory.
fn serve_act<D: Disk>(
    engine: &mut Engine<D>,
    alloc: Global,
    port: &mut D::Port,
    slots: &mut Slots<D>,
    lines: &mut Vec<Line>,
    caller: u64,
    act: Act,
) -> bool
    requires sound { IsSound D.tells (view_of engine.old.core) }
    requires rounds { engine.old.core.begun.rounds < max_place }
    requires made { engine.old.core.pins.made < max_place }
    requires ten { length slots.old.held.items ≡ 10 }
    requires slotted { IsSome (held_behind act (held_in slots.old.held.items)) }
    requires room { vec_len lines.old < vec_capacity lines.old }
    ensures sound { IsSound D.tells (view_of engine.new.core) }
    ensures served { (more : List Line) × (lines.new.items ≡ lines.old.items ++ more)
        × IsStretch D.tells D.ports_fail (if result then record { line = 0; caller = caller; act = act } ∷ [] else []) more (view_of engine.old.core) slots.old.held.items (view_of engine.new.core) slots.new.held.items }
    ensures rounds { engine.new.core.begun.rounds ≤ engine.old.core.begun.rounds + 1 }
    ensures made { engine.new.core.pins.made ≤ engine.old.core.pins.made + 1 }
    ensures ten { length slots.new.held.items ≡ 10 }
    ensures slotted { IsTrue result → held_behind act (held_in slots.old.held.items) ≡ Some (held_in slots.new.held.items) }
    ensures room { vec_len lines.new ≤ vec_len lines.old + 1 }
    ensures capacity { vec_capacity lines.old ≤ vec_capacity lines.new }
{
    match answer(engine, alloc, port, slots, act) {
        Ok(reply) => {
            lines.push(Line::Answer { caller, reply }).unwrap();
            true
        }
        Err(NoMemory) => false,
    }
}

/// Answers the changes that wait. `false` where there was no memory for one: those before it have their lines.
pub(crate) fn serve_row<D: Disk>(
    engine: &mut Engine<D>,
    alloc: Global,
    port: &mut D::Port,
    slots: &mut Slots<D>,
    queue: &mut Queue,
    lines: &mut Vec<Line>,
) -> bool
    requires sound { IsSound D.tells (view_of engine.old.core) }
    requires rounds { engine.old.core.begun.rounds + length queue.old.changes.items ≤ max_place }
    requires made { engine.old.core.pins.made + length queue.old.changes.items ≤ max_place }
    requires ten { length slots.old.held.items ≡ 10 }
    requires room { vec_len lines.old + length queue.old.changes.items ≤ vec_capacity lines.old }
    ensures sound { IsSound D.tells (view_of engine.new.core) }
    ensures served { (left : List Asked) × (IsTrue result → left ≡ [])
        × HasServed D.tells D.ports_fail queue.old.caller queue.old.changes.items left lines.old.items lines.new.items (view_of engine.old.core) slots.old.held.items (view_of engine.new.core) slots.new.held.items }
    ensures empty { IsTrue result → queue.new.changes.items ≡ [] }
    ensures rounds { engine.new.core.begun.rounds + length queue.new.changes.items ≤ engine.old.core.begun.rounds + length queue.old.changes.items }
    ensures made { engine.new.core.pins.made + length queue.new.changes.items ≤ engine.old.core.pins.made + length queue.old.changes.items }
    ensures ten { length slots.new.held.items ≡ 10 }
    ensures slotted { IsTrue result → held_in slots.new.held.items ≡ held_in slots.old.held.items }
    ensures room { vec_len lines.new + length queue.new.changes.items ≤ vec_len lines.old + length queue.old.changes.items }
    ensures capacity { vec_capacity lines.old ≤ vec_capacity lines.new }
{
    if queue.changes.is_empty() {
        return true;
    }
    let caller = queue.caller;
    let row = &mut queue.changes;
    'rows: loop {
        if !make_row(engine, alloc, caller, row, lines) {
            return false;
        }
        // The segment is full, or the store takes no change: the next one makes room, or is told why not.
        let Some(change) = row.pop_front() else {
            return true;
        };
        if !serve_act(engine, alloc, port, slots, lines, caller, act_of(change)) {
            return false;
        }
    }
}

/// Makes the first ones of the changes, as many as the active segment has room for, and answers them. Where the disk fails in one, the others are told so. `false` where there was
/// no memory for the next.
fn make_row<D: Disk>(
    engine: &mut Engine<D>,
    alloc: Global,
    caller: u64,
    row: &mut VecDeque<Asked>,
    lines: &mut Vec<Line>,
) -> bool
    requires sound { IsSound D.tells (view_of engine.old.core) }
    requires room { vec_len lines.old + length row.old.items ≤ vec_capacity lines.old }
    ensures sound { IsSound D.tells (view_of engine.new.core) }
    ensures made { (left : List Asked) × (IsTrue result → left ≡ row.new.items)
        × HasMade D.tells D.ports_fail caller row.old.items left lines.old.items lines.new.items (view_of engine.old.core) (view_of engine.new.core) }
    ensures fewer { length row.new.items ≤ length row.old.items }
    ensures room { vec_len lines.new + length row.new.items ≤ vec_len lines.old + length row.old.items }
    ensures capacity { vec_capacity lines.old ≤ vec_capacity lines.new }
{
    if engine.stopped().is_some() {
        return true;
    }
    let asked = row.len() as u64;
    let count = engine.count();
    let Row { done, refused } = engine.change_row(alloc, row);
    push_done(lines, caller, count, done);
    let Some(why) = refused else {
        return true;
    };
    let Refused::Fault {
        place,
        before,
        after,
    } = why
    else {
        return false;
    };
    let reply = Reply::Fault {
        place,
        before,
        after,
    };
    lines.push(Line::Answer { caller, reply }).unwrap();
    push_stopped(lines, caller, place, asked - done - 1);
    row.clear();
    true
}

/// Answers so many changes: they are done, the first of them behind `count` places.
fn push_done(lines: &mut Vec<Line>, caller: u64, count: u64, done: u64)
    requires fits { count + done ≤ max_place }
    requires room { vec_len lines.old + done ≤ vec_capacity lines.old }
    ensures lines { lines.new.items ≡ lines.old.items ++ done_lines caller count done }
    ensures len { vec_len lines.new ≡ vec_len lines.old + done }
    ensures capacity { vec_capacity lines.old ≤ vec_capacity lines.new }
{
    for n in 0..done {
        let reply = Reply::Done {
            place: count + n + 1,
        };
        lines.push(Line::Answer { caller, reply }).unwrap();
    }
}

/// Answers so many changes: they aren't made, since the one at this place failed.
fn push_stopped(lines: &mut Vec<Line>, caller: u64, at: u64, many: u64)
    requires room { vec_len lines.old + many ≤ vec_capacity lines.old }
    ensures lines { lines.new.items ≡ lines.old.items ++ stopped_lines caller at many }
    ensures len { vec_len lines.new ≡ vec_len lines.old + many }
    ensures capacity { vec_capacity lines.old ≤ vec_capacity lines.new }
{
    for _ in 0..many {
        let reply = Reply::Stopped { at };
        lines.push(Line::Answer { caller, reply }).unwrap();
    }
}

/// The change that an act asks for, or the act itself where it asks for none; a tick is none.
fn change_in(act: Act) -> Result<Asked, Act>
    ensures { MatchResult result (λ asked. act ≡ act_of asked) (λ other. (other ≡ act) × (change_of act ≡ None)) }
{
    match act {
        Act::Put { key, dkey, value } => Ok(Asked::Put { key, dkey, value }),
        Act::Delete { key } => Ok(Asked::Delete { key }),
        Act::Erase { range } => Ok(Asked::Erase { range }),
        other => Err(other),
    }
}

/// The act that asks for a change.
fn act_of(asked: Asked) -> Act
    ensures { result ≡ act_of asked }
{
    match asked {
        Asked::Put { key, dkey, value } => Act::Put { key, dkey, value },
        Asked::Delete { key } => Act::Delete { key },
        Asked::Erase { range } => Act::Erase { range },
    }
}
