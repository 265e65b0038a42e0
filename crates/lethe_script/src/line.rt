//! What one line says.
ghost use Rattle.std.specs.Prelude.{◌≡◌, map, codes, IsTrue};
ghost use Rattle.std.specs.List.{list_all};
ghost use Rattle.lethe_script.specs.Fields.{is_allowed};
ghost use Rattle.lethe_script.specs.Grammar.{line_of, fields_say, item_fields, phase_end_of, order_fields, act_of, put_of, put_fields, get_of, scan_of, scan_fields, del_of, erase_fields, erase_of, stat_of, tick_of, pin_of, pget_fields, pget_of, pscan_fields, pscan_of, unpin_of};
ghost use Rattle.lethe_script.specs.Reading.{GivesLine};

use crate::field::{caller, fields_of, is_comment, key, read_number, slot, time, value};
use crate::order::{Act, Item, Order};
use crate::refused::{LineRefused, Why};
use lethe_base::Range;
use std::alloc::Global;

/// What the line of this number says, or nothing where it is skipped.
#[tactic(auto, using(crate::proofs::FieldLemmas::fields_say_kept, crate::proofs::PhaseLines::phase_line), unfolding(crate::specs::Grammar::line_of))]
pub(crate) fn read_line(
    alloc: Global,
    number: u64,
    line: &[u8],
) -> Result<Option<Item>, LineRefused>
    ensures { GivesLine (λ item. item) result (line_of number line.now) }
{
    if is_phase_word(line) {
        return Ok(Some(Item::PhaseEnd));
    }
    if !is_printable(line) {
        return Err(LineRefused::Bad(Why::Byte));
    }
    let fields = fields_of(alloc, line)?;
    said(alloc, number, &fields)
}

/// The line is the word that ends a phase, alone. It is told without memory for its fields, since a script may have more such lines than orders.
fn is_phase_word(line: &[u8]) -> bool
    ensures { IsTrue result → line.now ≡ codes "phase" }
{
    line == b"phase".as_slice()
}

/// Every byte is a space or prints.
fn is_printable(line: &[u8]) -> bool
    ensures { result ≡ list_all is_allowed line.now }
{
    line.iter().all(|byte| *byte >= b' ' && *byte <= b'~')
}

/// What all fields of a line say.
#[tactic(auto, unfolding(crate::specs::Grammar::fields_say))]
fn said(alloc: Global, number: u64, fields: &[&[u8]]) -> Result<Option<Item>, LineRefused>
    ensures { GivesLine (λ item. item) result (fields_say number (map (λ field. field.now) fields.now)) }
{
    match fields {
        [first, rest @ ..] if !is_comment(first) => {
            let item = item(alloc, number, first, rest)?;
            Ok(Some(item))
        }
        _ => Ok(None),
    }
}

/// What the first field, `phase` or a caller, and those behind it say.
#[tactic(auto, unfolding(crate::specs::Grammar::item_fields))]
fn item(alloc: Global, number: u64, first: &[u8], rest: &[&[u8]]) -> Result<Item, LineRefused>
    ensures { GivesLine (λ item. item) result (item_fields number first.now (map (λ field. field.now) rest.now)) }
{
    if first == b"phase".as_slice() {
        return phase_end(rest);
    }
    let order = order(alloc, number, first, rest)?;
    Ok(Item::Order(order))
}

/// What stands behind `phase`.
#[tactic(auto, unfolding(crate::specs::Grammar::phase_end_of))]
fn phase_end(fields: &[&[u8]]) -> Result<Item, LineRefused>
    ensures { GivesLine (λ item. item) result (phase_end_of (map (λ field. field.now) fields.now)) }
{
    match fields {
        [] => Ok(Item::PhaseEnd),
        _ => Err(LineRefused::Bad(Why::Count)),
    }
}

/// What a caller and the fields behind it ask for.
#[tactic(auto, unfolding(crate::specs::Grammar::order_fields))]
fn order(alloc: Global, number: u64, first: &[u8], rest: &[&[u8]]) -> Result<Order, LineRefused>
    ensures { GivesLine (λ order. order) result (order_fields number first.now (map (λ field. field.now) rest.now)) }
{
    let caller = caller(first)?;
    let act = act(alloc, rest)?;
    Ok(Order {
        line: number,
        caller,
        act,
    })
}

/// What the fields behind the caller ask for.
#[tactic(auto, unfolding(crate::specs::Grammar::act_of))]
fn act(alloc: Global, fields: &[&[u8]]) -> Result<Act, LineRefused>
    ensures { GivesLine (λ act. act) result (act_of (map (λ field. field.now) fields.now)) }
{
    match fields {
        [command, rest @ ..] if *command == b"put".as_slice() => put(alloc, rest),
        [command, rest @ ..] if *command == b"get".as_slice() => get(alloc, rest),
        [command, rest @ ..] if *command == b"scan".as_slice() => scan(alloc, rest),
        [command, rest @ ..] if *command == b"del".as_slice() => delete(alloc, rest),
        [command, rest @ ..] if *command == b"erase".as_slice() => erase(rest),
        [command, rest @ ..] if *command == b"stat".as_slice() => stat(rest),
        [command, rest @ ..] if *command == b"tick".as_slice() => tick(rest),
        [command, rest @ ..] if *command == b"pin".as_slice() => pin(rest),
        [command, rest @ ..] if *command == b"pget".as_slice() => pin_get(alloc, rest),
        [command, rest @ ..] if *command == b"pscan".as_slice() => pin_scan(alloc, rest),
        [command, rest @ ..] if *command == b"unpin".as_slice() => unpin(rest),
        _ => Err(LineRefused::Bad(Why::Command)),
    }
}

/// What the fields behind `put` ask for.
#[tactic(auto, unfolding(crate::specs::Grammar::put_of))]
fn put(alloc: Global, fields: &[&[u8]]) -> Result<Act, LineRefused>
    ensures { GivesLine (λ act. act) result (put_of (map (λ field. field.now) fields.now)) }
{
    match fields {
        [key, dkey, value] => put_fields(alloc, key, dkey, value),
        _ => Err(LineRefused::Bad(Why::Count)),
    }
}

#[tactic(auto, unfolding(crate::specs::Grammar::put_fields))]
fn put_fields(
    alloc: Global,
    key_field: &[u8],
    dkey_field: &[u8],
    value_field: &[u8],
) -> Result<Act, LineRefused>
    ensures { GivesLine (λ act. act) result (put_fields key_field.now dkey_field.now value_field.now) }
{
    let key = key(alloc, key_field)?;
    let dkey = read_number(dkey_field)?;
    let value = value(alloc, value_field)?;
    Ok(Act::Put { key, dkey, value })
}

/// What the fields behind `get` ask for.
#[tactic(auto, unfolding(crate::specs::Grammar::get_of))]
fn get(alloc: Global, fields: &[&[u8]]) -> Result<Act, LineRefused>
    ensures { GivesLine (λ act. act) result (get_of (map (λ field. field.now) fields.now)) }
{
    match fields {
        [key_field] => Ok(Act::Get {
            key: key(alloc, key_field)?,
        }),
        _ => Err(LineRefused::Bad(Why::Count)),
    }
}

/// What the fields behind `scan` ask for.
#[tactic(auto, unfolding(crate::specs::Grammar::scan_of))]
fn scan(alloc: Global, fields: &[&[u8]]) -> Result<Act, LineRefused>
    ensures { GivesLine (λ act. act) result (scan_of (map (λ field. field.now) fields.now)) }
{
    match fields {
        [lo, hi] => scan_fields(alloc, lo, hi),
        _ => Err(LineRefused::Bad(Why::Count)),
    }
}

#[tactic(auto, unfolding(crate::specs::Grammar::scan_fields))]
fn scan_fields(alloc: Global, lo_field: &[u8], hi_field: &[u8]) -> Result<Act, LineRefused>
    ensures { GivesLine (λ act. act) result (scan_fields lo_field.now hi_field.now) }
{
    let lo = key(alloc, lo_field)?;
    let hi = key(alloc, hi_field)?;
    Ok(Act::Scan { lo, hi })
}

/// What the fields behind `del` ask for.
#[tactic(auto, unfolding(crate::specs::Grammar::del_of))]
fn delete(alloc: Global, fields: &[&[u8]]) -> Result<Act, LineRefused>
    ensures { GivesLine (λ act. act) result (del_of (map (λ field. field.now) fields.now)) }
{
    match fields {
        [key_field] => Ok(Act::Delete {
            key: key(alloc, key_field)?,
        }),
        _ => Err(LineRefused::Bad(Why::Count)),
    }
}

/// What the fields behind `erase` ask for.
#[tactic(auto, unfolding(crate::specs::Grammar::erase_of))]
fn erase(fields: &[&[u8]]) -> Result<Act, LineRefused>
    ensures { GivesLine (λ act. act) result (erase_of (map (λ field. field.now) fields.now)) }
{
    match fields {
        [lo, hi] => erase_fields(lo, hi),
        _ => Err(LineRefused::Bad(Why::Count)),
    }
}

#[tactic(auto, unfolding(crate::specs::Grammar::erase_fields))]
fn erase_fields(lo_field: &[u8], hi_field: &[u8]) -> Result<Act, LineRefused>
    ensures { GivesLine (λ act. act) result (erase_fields lo_field.now hi_field.now) }
{
    let lo = read_number(lo_field)?;
    let hi = read_number(hi_field)?;
    match Range::new(lo, hi) {
        Some(range) => Ok(Act::Erase { range }),
        None => Err(LineRefused::Bad(Why::Range)),
    }
}

/// What stands behind `stat`.
#[tactic(auto, unfolding(crate::specs::Grammar::stat_of))]
fn stat(fields: &[&[u8]]) -> Result<Act, LineRefused>
    ensures { GivesLine (λ act. act) result (stat_of (map (λ field. field.now) fields.now)) }
{
    match fields {
        [] => Ok(Act::Stat),
        _ => Err(LineRefused::Bad(Why::Count)),
    }
}

/// What the fields behind `tick` ask for.
#[tactic(auto, unfolding(crate::specs::Grammar::tick_of))]
fn tick(fields: &[&[u8]]) -> Result<Act, LineRefused>
    ensures { GivesLine (λ act. act) result (tick_of (map (λ field. field.now) fields.now)) }
{
    match fields {
        [to] => Ok(Act::Tick { to: time(to)? }),
        _ => Err(LineRefused::Bad(Why::Count)),
    }
}

/// What the field behind `pin` asks for.
#[tactic(auto, unfolding(crate::specs::Grammar::pin_of))]
fn pin(fields: &[&[u8]]) -> Result<Act, LineRefused>
    ensures { GivesLine (λ act. act) result (pin_of (map (λ field. field.now) fields.now)) }
{
    match fields {
        [slot_field] => Ok(Act::Pin {
            slot: slot(slot_field)?,
        }),
        _ => Err(LineRefused::Bad(Why::Count)),
    }
}

/// What the fields behind `pget` ask for.
#[tactic(auto, unfolding(crate::specs::Grammar::pget_of))]
fn pin_get(alloc: Global, fields: &[&[u8]]) -> Result<Act, LineRefused>
    ensures { GivesLine (λ act. act) result (pget_of (map (λ field. field.now) fields.now)) }
{
    match fields {
        [slot, key] => pin_get_fields(alloc, slot, key),
        _ => Err(LineRefused::Bad(Why::Count)),
    }
}

#[tactic(auto, unfolding(crate::specs::Grammar::pget_fields))]
fn pin_get_fields(alloc: Global, slot_field: &[u8], key_field: &[u8]) -> Result<Act, LineRefused>
    ensures { GivesLine (λ act. act) result (pget_fields slot_field.now key_field.now) }
{
    let slot = slot(slot_field)?;
    let key = key(alloc, key_field)?;
    Ok(Act::PinGet { slot, key })
}

/// What the fields behind `pscan` ask for.
#[tactic(auto, unfolding(crate::specs::Grammar::pscan_of))]
fn pin_scan(alloc: Global, fields: &[&[u8]]) -> Result<Act, LineRefused>
    ensures { GivesLine (λ act. act) result (pscan_of (map (λ field. field.now) fields.now)) }
{
    match fields {
        [slot, lo, hi] => pin_scan_fields(alloc, slot, lo, hi),
        _ => Err(LineRefused::Bad(Why::Count)),
    }
}

#[tactic(auto, unfolding(crate::specs::Grammar::pscan_fields))]
fn pin_scan_fields(
    alloc: Global,
    slot_field: &[u8],
    lo_field: &[u8],
    hi_field: &[u8],
) -> Result<Act, LineRefused>
    ensures { GivesLine (λ act. act) result (pscan_fields slot_field.now lo_field.now hi_field.now) }
{
    let slot = slot(slot_field)?;
    let lo = key(alloc, lo_field)?;
    let hi = key(alloc, hi_field)?;
    Ok(Act::PinScan { slot, lo, hi })
}

/// What the field behind `unpin` asks for.
#[tactic(auto, unfolding(crate::specs::Grammar::unpin_of))]
fn unpin(fields: &[&[u8]]) -> Result<Act, LineRefused>
    ensures { GivesLine (λ act. act) result (unpin_of (map (λ field. field.now) fields.now)) }
{
    match fields {
        [slot_field] => Ok(Act::Unpin {
            slot: slot(slot_field)?,
        }),
        _ => Err(LineRefused::Bad(Why::Count)),
    }
}
