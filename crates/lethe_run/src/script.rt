//! Carrying out a script over a store.
ghost use Rattle.std.specs.Prelude.{◌≡◌, ◌≤◌, ◌<◌, ◌+◌, ◌++◌, None, length, position, replicate, flat_map, sum_by, IsTrue, IfErr, IfSome, OnOk};
ghost use Rattle.std.specs.Io.KnownBytes.{Appends};
ghost use Rattle.lethe_wire.specs.Causes.{AppendsFront};
ghost use Rattle.lethe_base.specs.Counts.{Rose};
ghost use Rattle.lethe_base.specs.Limits.{max_place};
ghost use Rattle.lethe_core.specs.Running.{IsSound};
ghost use Rattle.lethe_core.specs.View.{view_of};
ghost use Rattle.lethe_script.specs.Slots.{AreSlotted};
ghost use Rattle.lethe_run.specs.Holding.{held_by};
ghost use Rattle.lethe_run.specs.Refusals.{IsFirstOr};
ghost use Rattle.lethe_run.specs.Scripts.{ScriptEnds, IsCutBy, reason_for};
ghost use Rattle.lethe_run.specs.Printed.{lines_text};
ghost use Rattle.lethe_run.specs.Transcript.{Lines, is_refusal};

use crate::print::spell;
use crate::reason::Reason;
use crate::reply::{Line, Reply};
use crate::serve::{Served, serve_phase};
use crate::slots::CallerSlots;
use lethe_base::{List, NoMemory};
use lethe_disk::Disk;
use lethe_engine::Engine;
use lethe_script::Order;
use lethe_wire::{Sink, write_all};
use std::alloc::Global;

/// Carries out the phases over a store, with a port for its reads and room for what slots hold, and prints the lines of each phase when it has ended. It gives the disk back.
pub(crate) fn serve_script<K: Sink, D: Disk>(
    alloc: Global,
    sink: &mut K,
    phases: List<List<Order>>,
    mut engine: Engine<D>,
) -> (Reason, D)
    requires sound { IsSound D.tells (view_of engine.core) }
    requires rounds { engine.core.begun.rounds + sum_by length phases ≤ max_place }
    requires made { engine.core.pins.made + sum_by length phases ≤ max_place }
    // Each order finds its slot as it needs it, where none holds a pin at first.
    requires slotted { AreSlotted (flat_map (λ orders. orders) phases) }
    ensures ends { ScriptEnds D.tells D.ports_fail (view_of engine.core) (D.seen result.1) (D.faults result.1)
        (K.taken sink.old) (K.taken sink.new) (Rose (K.faults sink.old) (K.faults sink.new)) phases result.0 }
    ensures faults { D.faults engine.core.disk ≤ D.faults result.1 }
{
    match engine.new_port(alloc) {
        Ok(port) => {
            let mut slots = CallerSlots::none(alloc);
            match slots.fill(alloc) {
                Ok(()) => serve_phases(alloc, sink, phases, engine, port, slots),
                Err(NoMemory) => (Reason::NoMemory, slots.hand_back(engine)),
            }
        }
        Err(NoMemory) => (Reason::NoMemory, engine.into_disk()),
    }
}

/// Carries out the phases, and reads through the port. What the slots hold at the end is released.
fn serve_phases<K: Sink, D: Disk>(
    alloc: Global,
    sink: &mut K,
    phases: List<List<Order>>,
    mut engine: Engine<D>,
    mut port: D::Port,
    mut slots: CallerSlots<D>,
) -> (Reason, D)
    requires sound { IsSound D.tells (view_of engine.core) }
    requires rounds { engine.core.begun.rounds + sum_by length phases ≤ max_place }
    requires made { engine.core.pins.made + sum_by length phases ≤ max_place }
    // Each order finds its slot as it needs it, where none holds a pin at first.
    requires slotted { AreSlotted (flat_map (λ orders. orders) phases) }
    requires none { held_by slots.of.items ≡ replicate 8 (replicate 10 None) }
    ensures ends { ScriptEnds D.tells D.ports_fail (view_of engine.core) (D.seen result.1) (D.faults result.1)
        (K.taken sink.old) (K.taken sink.new) (Rose (K.faults sink.old) (K.faults sink.new)) phases result.0 }
    ensures faults { D.faults engine.core.disk ≤ D.faults result.1 }
{
    let mut refused = None;
    let mut printed: u64 = 0;
    let mut text = Vec::new(alloc);
    for orders in phases.into_vec() {
        let served = serve_phase(&mut engine, alloc, &mut port, &mut slots, orders.into_vec());
        if let Err(why) = print_phase(alloc, sink, &mut text, &served) {
            return (why, slots.hand_back(engine));
        }
        refused = first_refusal(refused, printed, &served.lines);
        printed += served.lines.len() as u64;
    }
    (reason_for(refused), slots.hand_back(engine))
}

/// Prints the lines of a phase, over the room that the text of an earlier one had. What was written is a front of them, whatever it answers.
fn print_phase<K: Sink>(
    alloc: Global,
    sink: &mut K,
    text: &mut Vec<u8>,
    served: &Served,
) -> Result<(), Reason>
    ensures front { AppendsFront (K.taken sink.old) (K.taken sink.new) (lines_text served.now.lines.items) }
    ensures ok { OnOk result (IsTrue served.now.whole × Appends (K.taken sink.old) (K.taken sink.new) (lines_text served.now.lines.items)) }
    ensures err { IfErr result (IsCutBy (IsTrue served.now.whole) (Rose (K.faults sink.old) (K.faults sink.new))) }
    ensures faults { K.faults sink.old ≤ K.faults sink.new }
{
    let whole = spell(text, alloc, &served.lines);
    let written = write_all(sink, text);
    if !served.whole {
        return Err(Reason::NoMemory);
    }
    if !whole {
        return Err(Reason::NoMemory);
    }
    match written {
        Ok(()) => Ok(()),
        Err(_) => Err(Reason::Sink),
    }
}

/// Why a script ends all of whose lines were answered.
fn reason_for(refused: Option<u64>) -> Reason
    ensures { result ≡ reason_for refused }
{
    match refused {
        Some(line) => Reason::Answer { line },
        None => Reason::Nothing,
    }
}

/// The number of the first line that tells of a change that failed or wasn't made, or of a read that wasn't answered: of those before, of which so many were printed, or of these.
fn first_refusal(before: Option<u64>, printed: u64, lines: &[Line]) -> Option<u64>
    requires { printed + length lines.now ≤ max_place }
    ensures { (so_far : Lines) → length so_far ≡ printed → IsFirstOr so_far before → IsFirstOr (so_far ++ lines.now) result }
{
    if before.is_some() {
        return before;
    }
    let index = refusal_in(lines)?;
    Some(printed + index as u64 + 1)
}

/// Where the first of the lines stands that tells so.
fn refusal_in(lines: &[Line]) -> Option<usize>
    ensures within { IfSome result (λ index. index < length lines.now) }
    ensures first { result ≡ position is_refusal lines.now }
{
    lines.iter().position(|line| is_refusal(line))
}

/// Whether a line tells so.
fn is_refusal(line: &Line) -> bool
    ensures { result ≡ is_refusal line.now }
{
    let Line::Answer { reply, .. } = line;
    match reply {
        Reply::Done { .. }
        | Reply::Ticked(_)
        | Reply::Backwards { .. }
        | Reply::Barred { .. }
        | Reply::Got { .. }
        | Reply::Scanned { .. }
        | Reply::Counted { .. }
        | Reply::Pinned { .. }
        | Reply::PinGot { .. }
        | Reply::PinScanned { .. }
        | Reply::Unpinned { .. } => false,
        Reply::Fault { .. }
        | Reply::Stopped { .. }
        | Reply::Exhausted { .. }
        | Reply::ReadFault
        | Reply::Damaged { .. } => true,
    }
}
