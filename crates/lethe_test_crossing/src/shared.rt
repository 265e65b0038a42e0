//! A store behind a turn that two threads hold.
ghost use Rattle.std.specs.Prelude.{◌≡◌, Some, IfOk, IfErr};
ghost use Rattle.lethe_core.specs.Running.{IsSound};
ghost use Rattle.lethe_core.specs.View.{view_of};
ghost use Rattle.lethe_turn.specs.Seats.{IsFree};

use crate::common::put;
use lethe_disk::Disk;
use lethe_engine::Engine;
use lethe_turn::{Behind, NoMemory, Seat, Turn};
use std::alloc::Global;
use std::sync::Wait;
use std::thread::{Threads, join};

/// What a history lists, and a diary. No value of it is made.
pub struct Nothing;

/// A store behind a turn.
#[derive(Drop)]
pub struct Lent<D: Disk> {
    engine: Engine<D>,
}

impl<D: Disk> Behind for Lent<D> {
    type Entry = Nothing;

    type Mark = Nothing;

    ghost use Rattle.std.specs.Prelude.{⊤};
    ghost use Rattle.lethe_core.specs.Running.{IsSound};
    ghost use Rattle.lethe_core.specs.View.{view_of};

    ghost since = { λ opened entries marks lent. IsSound D.tells (view_of lent.engine.core) };

    ghost fits = { λ marks. ⊤ };

    ghost fits_none = { tt };

    ghost fits_both = { λ a b first second. tt };
}

/// Puts in one turn.
fn put_in_turn<D: Disk, R: Wait>(
    rt: &R,
    alloc: Global,
    turn: &Turn<Lent<D>>,
    mut seat: Seat<Lent<D>>,
) -> Seat<Lent<D>>
    requires of { seat.table_id ≡ turn.now.table.shared.table_id }
    requires ready { IsFree seat.me × ((opened : _) × (seat.me.0.opened ≡ Some opened)) }
    ensures of { result.table_id ≡ seat.table_id }
    ensures ready { IsFree result.me × ((opened : _) × (result.me.0.opened ≡ Some opened)) }
{
    let mut held = turn.take(rt, &mut seat);
    let _ = put(alloc, &mut held.value.engine, "b", "shared");
    turn.pass(&mut seat, held);
    seat
}

/// A turn over a store, with two seats.
struct Opened<D: Disk> {
    turn: Turn<Lent<D>>,
    one: Seat<Lent<D>>,
    other: Seat<Lent<D>>,
}

fn open_turn<D: Disk>(alloc: Global, engine: Engine<D>) -> Result<Opened<D>, (Engine<D>, NoMemory)>
    requires { IsSound D.tells (view_of engine.core) }
    ensures of { IfOk result (λ o. (o.one.table_id ≡ o.turn.table.shared.table_id) × (o.other.table_id ≡ o.turn.table.shared.table_id)) }
    ensures one { IfOk result (λ o. IsFree o.one.me × ((opened : _) × (o.one.me.0.opened ≡ Some opened))) }
    ensures other { IfOk result (λ o. IsFree o.other.me × ((opened : _) × (o.other.me.0.opened ≡ Some opened))) }
    ensures back { IfErr result (λ refused. IsSound D.tells (view_of refused.0.core)) }
{
    match Turn::new(alloc, Lent { engine }, 0) {
        Ok((turn, seat)) => {
            let mut one = seat;
            let other = turn.split(&mut one);
            Ok(Opened { turn, one, other })
        }
        Err((lent, why)) => {
            let Lent { engine } = lent;
            Err((engine, why))
        }
    }
}

fn close_turn<D: Disk, R: Wait>(
    rt: &R,
    turn: Turn<Lent<D>>,
    mut one: Seat<Lent<D>>,
    other: Seat<Lent<D>>,
) -> Engine<D>
    requires of { (one.table_id ≡ turn.table.shared.table_id) × (other.table_id ≡ turn.table.shared.table_id) }
    requires ready { (IsFree one.me × ((opened : _) × (one.me.0.opened ≡ Some opened))) × (IsFree other.me × ((opened : _) × (other.me.0.opened ≡ Some opened))) }
    ensures { IsSound D.tells (view_of result.core) }
{
    turn.join(&mut one, other);
    let Lent { engine } = turn.finish(rt, one);
    engine
}

/// The store, into which two threads have put in a turn each.
pub fn put_both<D: Disk, R: Threads + Wait + Sync>(
    rt: &R,
    alloc: Global,
    engine: Engine<D>,
) -> Result<Engine<D>, (Engine<D>, NoMemory)>
    requires { IsSound D.tells (view_of engine.core) }
    ensures done { IfOk result (λ engine. IsSound D.tells (view_of engine.core)) }
    ensures back { IfErr result (λ refused. IsSound D.tells (view_of refused.0.core)) }
{
    let opened = open_turn(alloc, engine)?;
    let Opened { turn, one, other } = opened;
    let shared = &turn;
    let (one, other) = join(
        rt,
        move || -> Seat<Lent<D>>
            requires { (one.table_id ≡ shared.now.table.shared.table_id) × (IsFree one.me × ((opened : _) × (one.me.0.opened ≡ Some opened))) }
            ensures { (result.table_id ≡ one.table_id) × (IsFree result.me × ((opened : _) × (result.me.0.opened ≡ Some opened))) }
        { put_in_turn(rt, alloc, shared, one) },
        move || -> Seat<Lent<D>>
            requires { (other.table_id ≡ shared.now.table.shared.table_id) × (IsFree other.me × ((opened : _) × (other.me.0.opened ≡ Some opened))) }
            ensures { (result.table_id ≡ other.table_id) × (IsFree result.me × ((opened : _) × (result.me.0.opened ≡ Some opened))) }
        { put_in_turn(rt, alloc, shared, other) },
    );
    Ok(close_turn(rt, turn, one, other))
}
