//! Carrying out the orders of a phase.
ghost use Rattle.std.specs.Prelude.{◌≡◌, ◌≤◌, ◌<◌, ◌+◌, ◌↔◌, ℕ, List, [], ◌++◌, length, map, All, IfOk, IfSome, OnOk, Some, IsSome, IsTrue, vec_len, vec_capacity};
ghost use Rattle.lethe_base.specs.Limits.{max_place};
ghost use Rattle.lethe_core.specs.Running.{IsSound};
ghost use Rattle.lethe_core.specs.View.{view_of};
ghost use Rattle.lethe_script.specs.declared.order.Order.{Order};
ghost use Rattle.lethe_script.specs.Slots.{held_through, orders_by};
ghost use Rattle.lethe_run.specs.Holding.{AreTen, held_by, held_for, held_in};
ghost use Rattle.lethe_run.specs.Rows.{IsStretch};
ghost use Rattle.lethe_run.specs.Callers.{AreAll, AreFronts, IsCaller, IsPhaseOfAll, each_own};

use crate::reply::Line;
use crate::row::{Queue, serve_order, serve_row};
use crate::slots::{CallerSlots, Slots};
use lethe_base::NoMemory;
use lethe_disk::Disk;
use lethe_engine::Engine;
use lethe_script::{CALLERS, Order};
use std::alloc::Global;
use std::collections::VecDeque;

/// What became of a phase.
#[derive(Debug, Drop)]
pub(crate) struct Served {
    /// The lines of the orders that were answered, caller by caller.
    pub lines: Vec<Line>,
    /// There was memory for all of them.
    pub whole: bool,
}

/// Carries out the orders of a phase, caller by caller. One for whom there is no memory answers no further line; the others are carried out. The room for all lines is taken first, so
/// that each change that is made has its line.
pub(crate) fn serve_phase<D: Disk>(
    engine: &mut Engine<D>,
    alloc: Global,
    port: &mut D::Port,
    slots: &mut CallerSlots<D>,
    orders: Vec<Order>,
) -> Served
    requires sound { IsSound D.tells (view_of engine.old.core) }
    requires rounds { engine.old.core.begun.rounds + length orders.items ≤ max_place }
    requires made { engine.old.core.pins.made + length orders.items ≤ max_place }
    requires tens { AreTen (held_by slots.old.of.items) }
    // Each order finds its slot as it needs it.
    requires slotted { (caller : ℕ) → IsSome (held_through (orders_by caller orders.items) (held_for caller (held_by slots.old.of.items))) }
    ensures sound { IsSound D.tells (view_of engine.new.core) }
    ensures served { (part : List Order) × AreFronts orders.items part × (IsTrue result.whole → AreAll orders.items part)
        × IsPhaseOfAll D.tells D.ports_fail part result.lines.items (view_of engine.old.core) (held_by slots.old.of.items) (view_of engine.new.core) (held_by slots.new.of.items) }
    ensures few { length result.lines.items ≤ length orders.items }
    ensures rounds { engine.new.core.begun.rounds ≤ engine.old.core.begun.rounds + length orders.items }
    ensures made { engine.new.core.pins.made ≤ engine.old.core.pins.made + length orders.items }
    ensures tens { AreTen (held_by slots.new.of.items) }
    ensures slotted { IsTrue result.whole
        → (caller : ℕ) → held_through (orders_by caller orders.items) (held_for caller (held_by slots.old.of.items)) ≡ Some (held_for caller (held_by slots.new.of.items)) }
{
    match only_caller(&orders) {
        Some(index) => serve_alone(engine, alloc, port, slots, index, orders),
        None => serve_callers(engine, alloc, port, slots, orders),
    }
}

/// The place among all eight of the caller whose orders all of these are; nothing where there is none, or several have some.
fn only_caller(orders: &[Order]) -> Option<usize>
    ensures within { IfSome result (λ index. index < 8) }
    ensures alone { IfSome result (λ index. All (λ order. order.caller ≡ index + 1) orders.now) }
{
    let index = orders.first()?.caller.index();
    if are_of(orders, index) {
        Some(index)
    } else {
        None
    }
}

/// Whether all orders are of the caller at this place.
fn are_of(orders: &[Order], index: usize) -> bool
    ensures { IsTrue result ↔ All (λ order. order.caller ≡ index + 1) orders.now }
{
    orders.iter().all(|order| is_of(order, index))
}

fn is_of(order: &Order, index: usize) -> bool
    ensures { IsTrue result ↔ (order.now.caller ≡ index + 1) }
{
    order.caller.index() == index
}

/// The same where all orders are of the caller at this place.
fn serve_alone<D: Disk>(
    engine: &mut Engine<D>,
    alloc: Global,
    port: &mut D::Port,
    slots: &mut CallerSlots<D>,
    index: usize,
    orders: Vec<Order>,
) -> Served
    requires within { index < 8 }
    requires alone { All (λ order. order.caller ≡ index + 1) orders.items }
    requires sound { IsSound D.tells (view_of engine.old.core) }
    requires rounds { engine.old.core.begun.rounds + length orders.items ≤ max_place }
    requires made { engine.old.core.pins.made + length orders.items ≤ max_place }
    requires tens { AreTen (held_by slots.old.of.items) }
    // Each order finds its slot as it needs it.
    requires slotted { (caller : ℕ) → IsSome (held_through (orders_by caller orders.items) (held_for caller (held_by slots.old.of.items))) }
    ensures sound { IsSound D.tells (view_of engine.new.core) }
    ensures served { (part : List Order) × AreFronts orders.items part × (IsTrue result.whole → AreAll orders.items part)
        × IsPhaseOfAll D.tells D.ports_fail part result.lines.items (view_of engine.old.core) (held_by slots.old.of.items) (view_of engine.new.core) (held_by slots.new.of.items) }
    ensures few { length result.lines.items ≤ length orders.items }
    ensures rounds { engine.new.core.begun.rounds ≤ engine.old.core.begun.rounds + length orders.items }
    ensures made { engine.new.core.pins.made ≤ engine.old.core.pins.made + length orders.items }
    ensures tens { AreTen (held_by slots.new.of.items) }
    ensures slotted { IsTrue result.whole
        → (caller : ℕ) → held_through (orders_by caller orders.items) (held_for caller (held_by slots.old.of.items)) ≡ Some (held_for caller (held_by slots.new.of.items)) }
{
    let Ok(mut lines) = Vec::with_capacity(alloc, orders.len()) else {
        return Served {
            lines: Vec::new(alloc),
            whole: false,
        };
    };
    let whole = serve_caller(
        engine,
        alloc,
        port,
        &mut slots.of[index],
        orders,
        &mut lines,
    );
    Served { lines, whole }
}

/// The same whosever they are.
fn serve_callers<D: Disk>(
    engine: &mut Engine<D>,
    alloc: Global,
    port: &mut D::Port,
    slots: &mut CallerSlots<D>,
    orders: Vec<Order>,
) -> Served
    requires sound { IsSound D.tells (view_of engine.old.core) }
    requires rounds { engine.old.core.begun.rounds + length orders.items ≤ max_place }
    requires made { engine.old.core.pins.made + length orders.items ≤ max_place }
    requires tens { AreTen (held_by slots.old.of.items) }
    // Each order finds its slot as it needs it.
    requires slotted { (caller : ℕ) → IsSome (held_through (orders_by caller orders.items) (held_for caller (held_by slots.old.of.items))) }
    ensures sound { IsSound D.tells (view_of engine.new.core) }
    ensures served { (part : List Order) × AreFronts orders.items part × (IsTrue result.whole → AreAll orders.items part)
        × IsPhaseOfAll D.tells D.ports_fail part result.lines.items (view_of engine.old.core) (held_by slots.old.of.items) (view_of engine.new.core) (held_by slots.new.of.items) }
    ensures few { length result.lines.items ≤ length orders.items }
    ensures rounds { engine.new.core.begun.rounds ≤ engine.old.core.begun.rounds + length orders.items }
    ensures made { engine.new.core.pins.made ≤ engine.old.core.pins.made + length orders.items }
    ensures tens { AreTen (held_by slots.new.of.items) }
    ensures slotted { IsTrue result.whole
        → (caller : ℕ) → held_through (orders_by caller orders.items) (held_for caller (held_by slots.old.of.items)) ≡ Some (held_for caller (held_by slots.new.of.items)) }
{
    let Ok(mut lines) = Vec::with_capacity(alloc, orders.len()) else {
        return Served {
            lines: Vec::new(alloc),
            whole: false,
        };
    };
    let Ok(own) = by_caller(alloc, orders) else {
        return Served {
            lines,
            whole: false,
        };
    };
    let mut whole = true;
    let mut index = 0usize;
    for orders in own {
        if !serve_caller(
            engine,
            alloc,
            port,
            &mut slots.of[index],
            orders,
            &mut lines,
        ) {
            whole = false;
        }
        index += 1;
    }
    Served { lines, whole }
}

/// The orders of each caller, as they stand in the script.
fn by_caller(alloc: Global, orders: Vec<Order>) -> Result<Vec<Vec<Order>>, NoMemory>
    ensures own { IfOk result (λ own. map (λ list. list.items) own.items ≡ each_own orders.items) }
    ensures callers { OnOk result (All (λ order. IsCaller order.caller) orders.items) }
{
    let mut own = Vec::with_capacity(alloc, CALLERS)?;
    'callers: while own.len() < CALLERS {
        own.push(Vec::new(alloc)).unwrap();
    }
    for order in orders {
        own[order.caller.index()].push(order)?;
    }
    Ok(own)
}

/// Carries out the orders of a caller one after another, up to one for which there is no memory, and adds their lines. Consecutive changes are made in rows, and the lines are the same.
/// `false` where there was no memory for one.
fn serve_caller<D: Disk>(
    engine: &mut Engine<D>,
    alloc: Global,
    port: &mut D::Port,
    slots: &mut Slots<D>,
    orders: Vec<Order>,
    lines: &mut Vec<Line>,
) -> bool
    requires sound { IsSound D.tells (view_of engine.old.core) }
    requires rounds { engine.old.core.begun.rounds + length orders.items ≤ max_place }
    requires made { engine.old.core.pins.made + length orders.items ≤ max_place }
    requires ten { length slots.old.held.items ≡ 10 }
    requires slotted { IsSome (held_through orders.items (held_in slots.old.held.items)) }
    requires room { vec_len lines.old + length orders.items ≤ vec_capacity lines.old }
    ensures sound { IsSound D.tells (view_of engine.new.core) }
    ensures served { (part : List Order) × (rest : List Order) × (more : List Line)
        × (orders.items ≡ part ++ rest) × (IsTrue result → rest ≡ []) × (lines.new.items ≡ lines.old.items ++ more)
        × IsStretch D.tells D.ports_fail part more (view_of engine.old.core) slots.old.held.items (view_of engine.new.core) slots.new.held.items }
    ensures rounds { engine.new.core.begun.rounds ≤ engine.old.core.begun.rounds + length orders.items }
    ensures made { engine.new.core.pins.made ≤ engine.old.core.pins.made + length orders.items }
    ensures ten { length slots.new.held.items ≡ 10 }
    ensures slotted { IsTrue result → held_through orders.items (held_in slots.old.held.items) ≡ Some (held_in slots.new.held.items) }
    ensures room { vec_len lines.new ≤ vec_len lines.old + length orders.items }
    ensures capacity { vec_capacity lines.old ≤ vec_capacity lines.new }
{
    if orders.is_empty() {
        return true;
    }
    let mut queue = Queue {
        caller: 0,
        changes: VecDeque::new(alloc),
    };
    for order in orders {
        if !serve_order(engine, alloc, port, slots, &mut queue, lines, order) {
            return false;
        }
    }
    serve_row(engine, alloc, port, slots, &mut queue, lines)
}
