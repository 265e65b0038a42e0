//! Reading a script.
ghost use Rattle.std.specs.Prelude.{◌≡◌, ◌==◌, ◌<◌, ◌≤◌, ◌∷◌, ◌++◌, [], length, take, sum_by, IfOk, IfSome, MatchOption};
ghost use Rattle.std.specs.List.{flat_map, position};
ghost use Rattle.std.specs.Str.Lines.{strip_carriage_return};
ghost use Rattle.lethe_script.specs.Grammar.{item_of, items_from, phases_of, script_of, lines};
ghost use Rattle.lethe_script.specs.Slots.{none_held_by_all, AreSlotted};
ghost use Rattle.lethe_script.specs.Reading.{GivesScript, IsCut, phases_read, with_item};

use crate::held::HeldByAll;
use crate::line::read_line;
use crate::order::{Item, Order, Script};
use crate::refused::{BadLine, LineRefused, ScriptRefused, Why};
use lethe_base::List;
use std::alloc::{AllocError, Global};

/// The greatest number of bytes of a script.
pub const MAX_SCRIPT: usize = 16_777_216;

/// Accepts exactly the scripts, and else answers the first bad line. Bytes behind the greatest script aren't looked at.
#[tactic(auto, unfolding(crate::specs::Grammar::script_of))]
pub fn read_script(alloc: Global, bytes: &[u8]) -> Result<Script, ScriptRefused>
    ensures script { GivesScript (λ script. script.phases) result (script_of bytes.now) }
    // There are no more orders than lines.
    ensures few { IfOk result (λ script. sum_by length script.phases ≤ 16777217) }
    // Each caller's acts find its slots free or held, as they need them.
    ensures slots { IfOk result (λ script. AreSlotted (flat_map (λ orders. orders) script.phases)) }
{
    let is_long = bytes.len() > MAX_SCRIPT;
    let phases = read_phases(alloc, within_limit(bytes), is_long)?;
    Ok(Script {
        phases: List::of(phases),
    })
}

/// The bytes that a script may have.
fn within_limit(bytes: &[u8]) -> &[u8]
    ensures bytes { result.now ≡ take 16777216 bytes.now }
    ensures short { length result.now ≤ 16777216 }
{
    if bytes.len() > MAX_SCRIPT {
        &bytes[..MAX_SCRIPT]
    } else {
        bytes
    }
}

/// The phases of the lines. Where the script is too long, its first byte that is too much stands in the last of them.
fn read_phases(
    alloc: Global,
    bytes: &[u8],
    is_long: bool,
) -> Result<Vec<List<Order>>, ScriptRefused>
    requires { length bytes.now ≤ 16777216 }
    ensures { GivesScript (λ phases. phases.items) result (phases_read (items_from is_long 1 none_held_by_all (lines bytes.now))) }
{
    let mut reading = Reading::new(alloc);
    let mut rest = bytes;
    let mut line = 1u64;
    while let Some((text, after)) = cut_line(rest) {
        reading.push_line(alloc, line, without_cr(text))?;
        rest = after;
        line += 1;
    }
    if is_long {
        return Err(ScriptRefused::Bad(BadLine {
            line,
            why: Why::Size,
        }));
    }
    reading.push_line(alloc, line, rest)?;
    Ok(reading.into_phases()?)
}

/// The first line that an LF ends, and what stands behind the LF.
fn cut_line(bytes: &[u8]) -> Option<(&[u8], &[u8])>
    ensures { MatchOption result (lines bytes.now ≡ bytes.now ∷ []) (λ cut. IsCut bytes.now cut.0.now cut.1.now) }
{
    match line_end(bytes) {
        Some(end) => Some((&bytes[..end], &bytes[end + 1..])),
        None => None,
    }
}

/// Where the first line ends.
fn line_end(bytes: &[u8]) -> Option<usize>
    ensures within { IfSome result (λ end. end < length bytes.now) }
    ensures first { result ≡ position (λ byte. byte == 10) bytes.now }
{
    bytes.iter().position(|byte| *byte == b'\n')
}

/// The line without one CR at its end.
fn without_cr(line: &[u8]) -> &[u8]
    ensures { result.now ≡ strip_carriage_return line.now }
{
    match line {
        [text @ .., b'\r'] => text,
        _ => line,
    }
}

/// What was read so far.
#[derive(Drop)]
struct Reading {
    /// The phases that have ended.
    ended: Vec<List<Order>>,
    /// The orders of the one that hasn't.
    current: Vec<Order>,
    held: HeldByAll,
}

impl Reading {
    /// Nothing was read: the first phase has no orders yet.
    fn new(alloc: Global) -> Reading
        ensures ended { result.ended.items ≡ [] }
        ensures current { result.current.items ≡ [] }
        ensures held { result.held ≡ none_held_by_all }
    {
        Reading {
            ended: Vec::new(alloc),
            current: Vec::new(alloc),
            held: HeldByAll::none(),
        }
    }

    /// Reads a line, and keeps what it says. It is bad where the act of its order doesn't find its slot as it needs it.
    fn push_line(&mut self, alloc: Global, line: u64, text: &[u8]) -> Result<(), ScriptRefused>
        ensures { GivesScript (λ _. ((self.new.ended.items, self.new.current.items), self.new.held)) result
            (with_item self.old.ended.items self.old.current.items self.old.held (item_of line text.now)) }
    {
        match read_item(alloc, line, text)? {
            None => {}
            Some(Item::PhaseEnd) => {
                // A list of their own takes no more room than they do.
                let mut orders = Vec::with_capacity(alloc, self.current.len())?;
                orders.append(&mut self.current)?;
                self.ended.push(List::of(orders))?;
            }
            Some(Item::Order(order)) => {
                if !self.held.take(&order) {
                    return Err(ScriptRefused::Bad(BadLine {
                        line: order.line,
                        why: Why::Slot,
                    }));
                }
                self.current.push(order)?;
            }
        }
        Ok(())
    }

    /// All phases, the last of which ends here.
    fn into_phases(self) -> Result<Vec<List<Order>>, AllocError>
        ensures { IfOk result (λ phases. phases.items ≡ self.ended.items ++ self.current.items ∷ []) }
    {
        let Reading {
            mut ended,
            current,
            ..
        } = self;
        ended.push(List::of(current))?;
        Ok(ended)
    }
}

/// What one line says, or nothing where it is skipped.
#[tactic(auto, unfolding(crate::specs::Grammar::item_of))]
fn read_item(alloc: Global, line: u64, text: &[u8]) -> Result<Option<Item>, ScriptRefused>
    ensures { GivesScript (λ item. item) result (item_of line text.now) }
{
    match read_line(alloc, line, text) {
        Ok(item) => Ok(item),
        Err(LineRefused::Bad(why)) => Err(ScriptRefused::Bad(BadLine { line, why })),
        Err(LineRefused::NoMemory) => Err(ScriptRefused::NoMemory),
    }
}
