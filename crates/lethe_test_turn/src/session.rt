//! What one thread does with the sum in a turn.
ghost use Rattle.std.specs.Prelude.{◌≡◌, ◌<◌, IfOk, IfErr};
ghost use Rattle.lethe_turn.specs.Seats.{HasSeenMore};
ghost use Rattle.lethe_test_turn.specs.Sums.{addition, ceiling_mark};
ghost use Rattle.lethe_test_turn.specs.Sessions.{IsReady, HasAdded, HasNoted, IsKnown};

use crate::sum::{Refused, Sum, told_mark};
use lethe_turn::{Seat, Turn};
use std::sync::Wait;

pub type Store = Turn<Sum>;

/// Adds in one turn, and answers the place of the addition. Where a ceiling refuses it, the seat has noted that ceiling,
/// whoever set it.
pub fn add<R: Wait>(
    rt: &R,
    store: &Store,
    seat: &mut Seat<Sum>,
    by: u64,
    amount: u64,
) -> Result<u64, Refused>
    requires of { seat.old.table_id ≡ store.now.table.shared.table_id }
    requires ready { IsReady seat.old.me }
    ensures of { seat.new.table_id ≡ seat.old.table_id }
    ensures ready { IsReady seat.new.me }
    ensures added { IfOk result (λ place. HasAdded (addition by amount) place seat.old.me.0 seat.new.me.0) }
    ensures refused { IfErr result (λ why. HasSeenMore seat.old.me.0 seat.new.me.0 × IsKnown why seat.new.me.0) }
{
    let mut held = store.take(rt, seat);
    match held.value.add(by, amount) {
        Ok(said) => {
            let place = store.enter(seat, &held, &said, 1);
            store.pass(seat, held);
            Ok(place)
        }
        Err(why) => {
            store.pass(seat, held);
            Err(why)
        }
    }
}

/// Sets the ceiling in one turn, and notes that.
pub fn limit<R: Wait>(rt: &R, store: &Store, seat: &mut Seat<Sum>, ceiling: u64)
    requires of { seat.old.table_id ≡ store.now.table.shared.table_id }
    requires ready { IsReady seat.old.me }
    requires positive { 0 < ceiling }
    ensures of { seat.new.table_id ≡ seat.old.table_id }
    ensures ready { IsReady seat.new.me }
    ensures noted { HasNoted (ceiling_mark ceiling) seat.old.me.0 seat.new.me.0 }
{
    let mut held = store.take(rt, seat);
    held.value.ceiling = Some(ceiling);
    store.pass_noting(seat, held, &told_mark(ceiling));
}
