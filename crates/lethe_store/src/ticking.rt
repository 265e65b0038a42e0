//! Ticks by sessions.
ghost use Rattle.std.specs.Prelude.{◌≡◌, ◌≤◌, ℕ, Bool, IfOk, IfErr, IsErrOf};
ghost use Rattle.std.specs.Result.{result_err};
ghost use Rattle.lethe_base.specs.Limits.{max_time};
ghost use Rattle.lethe_base.specs.declared.call.Call.TheVariants as call;
ghost use Rattle.lethe_base.specs.declared.refused.Refused.TheVariants.{Stopped};
ghost use Rattle.lethe_core.specs.Asked.{Makes};
ghost use Rattle.lethe_turn.specs.Seats.{count_of};
ghost use Rattle.lethe_store.specs.Entries.{entries_by};
ghost use Rattle.lethe_store.specs.Reasons.{AreLater, IsStoppedAt, counts_of};
ghost use Rattle.lethe_store.specs.Sessions.{HasDone, IsReady};
ghost use Rattle.lethe_store.specs.Since.{all_counted};
ghost use Rattle.lethe_store.specs.StoreViews.{store_view};
ghost use Rattle.lethe_store.specs.Ticks.{HasReasonOfTick, IsBegunBy, IsCertifiedFrom, IsTrueOf, ticked_by};

use crate::changes::Changes;
use crate::session::Session;
use crate::store::Store;
use crate::telling::{did_of, number_of, told_entries, told_tick, told_ticked};
use lethe_base::Refused;
use lethe_disk::Disk;
use lethe_engine::Ticked;
use std::alloc::Global;
use std::sync::Wait;

impl<D: Disk> Store<D, Changes> {
    /// Moves the clock to a time, as `Engine::tick` does, in one turn.
    ///
    /// # Errors
    ///
    /// Those of `Engine::tick`. A pin bars it whichever session made it: the session has noted that it is held then.
    pub fn tick<R: Wait>(
        &self,
        rt: &R,
        alloc: Global,
        session: &mut Session<D, Changes>,
        to: u64,
    ) -> Result<Ticked, Refused>
        requires of { session.old.seat.table_id ≡ self.now.turn.table.shared.table_id }
        requires ready { IsReady all_counted (λ o. store_view o.engine) session.old.seat.me }
        requires within { to ≤ max_time }
        ensures of { (session.new.seat.table_id ≡ session.old.seat.table_id) × (session.new.caller ≡ session.old.caller) }
        ensures ready { IsReady all_counted (λ o. store_view o.engine) session.new.seat.me }
        ensures done { (begun : Bool) × IsBegunBy begun result × HasDone (entries_by session.old.caller (Makes (call.Tick to)) (result_err result)) (ticked_by begun result) session.old.seat.me.0 session.new.seat.me.0 }
        ensures place { IfOk result (λ told. (told.place ≡ count_of session.new.seat.me.0) × (told.clock ≡ to)) }
        ensures due { IfOk result (λ told. IsCertifiedFrom (λ o. store_view o.engine) session.new.seat.me.0 to told.certificate) }
        ensures is_true { IfOk result (λ told. IsTrueOf D.tells (λ o. store_view o.engine) session.new.seat.me.0 told.certificate) }
        ensures stopped { (at : ℕ) → IsStoppedAt (λ o. store_view o.engine) session.old.seat.me.0 at → IsErrOf result (Stopped at) }
        ensures why { IfErr result (HasReasonOfTick D.tells D.ports_fail to (λ o. store_view o.engine) session.new.seat.me.0 (counts_of (D.fetches session.old.port) (D.port_faults session.old.port))
            (counts_of (D.fetches session.new.port) (D.port_faults session.new.port))) }
        ensures counts { AreLater (counts_of (D.fetches session.old.port) (D.port_faults session.old.port)) (counts_of (D.fetches session.new.port) (D.port_faults session.new.port)) }
    {
        let call = told_tick(to);
        let mut held = self.take(rt, session);
        let before = held.value.engine.rounds();
        let answer = held.value.engine.tick(alloc, &mut session.port, to);
        let begun = held.value.engine.rounds() != before;
        let did = did_of(&answer);
        let said = told_entries(session.caller, &call, did);
        let noted = told_ticked(begun, &answer);
        self.give(session, held, &said, number_of(did), &noted);
        answer
    }
}
