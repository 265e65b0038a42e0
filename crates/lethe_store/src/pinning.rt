//! Pins of sessions, and the snapshots that they stand for.
ghost use Rattle.std.specs.Prelude.{◌≡◌, [], ◌∷◌, IfOk, IfErr};
ghost use Rattle.lethe_turn.specs.Seats.{count_of};
ghost use Rattle.lethe_store.specs.Pins.{HasMade, HasReasonOfPin, IsPointOf, pinned_by};
ghost use Rattle.lethe_store.specs.Sessions.{HasDone, IsReady};
ghost use Rattle.lethe_store.specs.Since.{all_counted};
ghost use Rattle.lethe_store.specs.StoreViews.{store_view};
ghost use Rattle.lethe_store.specs.declared.entry.Mark.TheVariants.{Released};

use crate::changes::Changes;
use crate::session::Session;
use crate::store::Store;
use crate::telling::{told_made, told_refusal, told_released};
use lethe_base::Refused;
use lethe_core::Snapshot;
use lethe_disk::Disk;
use std::alloc::Global;
use std::sync::Wait;

impl<D: Disk> Store<D, Changes> {
    /// What the store holds now, as `Engine::pin` gives it, in one turn. The snapshot is read outside the turn, in whatever thread, through whatever port of the disk, until any session
    /// releases it.
    ///
    /// # Errors
    ///
    /// Those of `Engine::pin`.
    pub fn pin<R: Wait>(
        &self,
        rt: &R,
        alloc: Global,
        session: &mut Session<D, Changes>,
    ) -> Result<Snapshot<D>, Refused>
        requires of { session.old.seat.table_id ≡ self.now.turn.table.shared.table_id }
        requires ready { IsReady all_counted (λ o. store_view o.engine) session.old.seat.me }
        ensures of { (session.new.seat.table_id ≡ session.old.seat.table_id) × (session.new.caller ≡ session.old.caller) × (session.new.port ≡ session.old.port) }
        ensures ready { IsReady all_counted (λ o. store_view o.engine) session.new.seat.me }
        ensures done { HasDone [] (pinned_by result) session.old.seat.me.0 session.new.seat.me.0 }
        ensures number { IfOk result (λ snapshot. HasMade (λ o. store_view o.engine) session.new.seat.me.0 snapshot.pin.number) }
        ensures point { IfOk result (λ snapshot. snapshot.point ≡ count_of session.new.seat.me.0) }
        ensures shows { IfOk result (IsPointOf D.tells (λ o. store_view o.engine) session.new.seat.me.0) }
        ensures why { IfErr result (HasReasonOfPin (λ o. store_view o.engine) session.new.seat.me.0) }
    {
        let mut held = self.take(rt, session);
        match held.value.engine.pin(alloc) {
            Ok(snapshot) => {
                let noted = told_made(snapshot.number(), snapshot.limit());
                self.note(session, held, &noted);
                Ok(snapshot)
            }
            Err(why) => {
                let noted = told_refusal(&why);
                self.note(session, held, &noted);
                Err(why)
            }
        }
    }

    /// Lets a snapshot and its pin go, whichever session made it, as `Engine::release` does, in one turn. It takes no memory, and answers how many changes the session has seen then.
    pub fn release<R: Wait>(
        &self,
        rt: &R,
        session: &mut Session<D, Changes>,
        snapshot: Snapshot<D>,
    ) -> u64
        requires of { session.old.seat.table_id ≡ self.now.turn.table.shared.table_id }
        requires ready { IsReady all_counted (λ o. store_view o.engine) session.old.seat.me }
        ensures of { (session.new.seat.table_id ≡ session.old.seat.table_id) × (session.new.caller ≡ session.old.caller) × (session.new.port ≡ session.old.port) }
        ensures ready { IsReady all_counted (λ o. store_view o.engine) session.new.seat.me }
        ensures done { HasDone [] (Released snapshot.pin.number ∷ []) session.old.seat.me.0 session.new.seat.me.0 }
        ensures at { result ≡ count_of session.new.seat.me.0 }
    {
        let noted = told_released(snapshot.number());
        let mut held = self.take(rt, session);
        let at = self.learn(session, &held);
        held.value.engine.release(snapshot);
        self.note(session, held, &noted);
        at
    }
}
