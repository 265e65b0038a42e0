//! Changes by sessions.
ghost use Rattle.std.specs.Prelude.{◌≡◌, ℕ, IfOk, IfErr, IsErrOf};
ghost use Rattle.std.specs.Result.{result_err};
ghost use Rattle.lethe_base.specs.declared.call.Call.TheVariants as call;
ghost use Rattle.lethe_base.specs.declared.refused.Refused.TheVariants.{Stopped};
ghost use Rattle.lethe_core.specs.Asked.{Makes};
ghost use Rattle.lethe_engine.specs.ChangeRows.{call_of};
ghost use Rattle.lethe_turn.specs.Seats.{count_of};
ghost use Rattle.lethe_store.specs.StoreViews.{store_view};
ghost use Rattle.lethe_store.specs.Diary.{spent_by};
ghost use Rattle.lethe_store.specs.Entries.{entries_by};
ghost use Rattle.lethe_store.specs.Since.{all_counted};
ghost use Rattle.lethe_store.specs.Reasons.{AreLater, HasReasonOfChange, IsStoppedAt, counts_of};
ghost use Rattle.lethe_store.specs.Sessions.{HasDone, IsReady};

use crate::asking::make;
use crate::changes::Changes;
use crate::session::Session;
use crate::store::Store;
use crate::telling::{did_of, number_of, told_answer, told_call, told_entries};
use lethe_base::{Key, Range, Refused, Value};
use lethe_disk::Disk;
use lethe_engine::Asked;
use std::alloc::Global;
use std::sync::Wait;

impl<D: Disk> Store<D, Changes> {
    /// Puts a value, and its delete key, under a key, as `Engine::put` does, in one turn. It answers the place of the change in the one history of all sessions.
    ///
    /// # Errors
    ///
    /// Those of `Engine::put`. `Stopped` names a change that failed, whoever made it: the session has seen it then.
    pub fn put<R: Wait>(
        &self,
        rt: &R,
        alloc: Global,
        session: &mut Session<D, Changes>,
        key: Key,
        dkey: u64,
        value: Value,
    ) -> Result<u64, Refused>
        requires of { session.old.seat.table_id ≡ self.now.turn.table.shared.table_id }
        requires ready { IsReady all_counted (λ o. store_view o.engine) session.old.seat.me }
        ensures of { (session.new.seat.table_id ≡ session.old.seat.table_id) × (session.new.caller ≡ session.old.caller) }
        ensures ready { IsReady all_counted (λ o. store_view o.engine) session.new.seat.me }
        ensures done { HasDone (entries_by session.old.caller (Makes (call.Put key dkey value)) (result_err result)) (spent_by (result_err result)) session.old.seat.me.0 session.new.seat.me.0 }
        ensures place { IfOk result (λ place. place ≡ count_of session.new.seat.me.0) }
        ensures stopped { (at : ℕ) → IsStoppedAt (λ o. store_view o.engine) session.old.seat.me.0 at → IsErrOf result (Stopped at) }
        ensures why { IfErr result (HasReasonOfChange D.tells D.ports_fail (λ o. store_view o.engine) session.new.seat.me.0 (counts_of (D.fetches session.old.port) (D.port_faults session.old.port))
            (counts_of (D.fetches session.new.port) (D.port_faults session.new.port))) }
        ensures counts { AreLater (counts_of (D.fetches session.old.port) (D.port_faults session.old.port)) (counts_of (D.fetches session.new.port) (D.port_faults session.new.port)) }
    {
        self.change(rt, alloc, session, Asked::Put { key, dkey, value })
    }

    /// Removes a key, as `Engine::delete` does, in one turn. It answers the place of the change in the one history of all sessions.
    ///
    /// # Errors
    ///
    /// As for `put`.
    pub fn delete<R: Wait>(
        &self,
        rt: &R,
        alloc: Global,
        session: &mut Session<D, Changes>,
        key: Key,
    ) -> Result<u64, Refused>
        requires of { session.old.seat.table_id ≡ self.now.turn.table.shared.table_id }
        requires ready { IsReady all_counted (λ o. store_view o.engine) session.old.seat.me }
        ensures of { (session.new.seat.table_id ≡ session.old.seat.table_id) × (session.new.caller ≡ session.old.caller) }
        ensures ready { IsReady all_counted (λ o. store_view o.engine) session.new.seat.me }
        ensures done { HasDone (entries_by session.old.caller (Makes (call.Delete key)) (result_err result)) (spent_by (result_err result)) session.old.seat.me.0 session.new.seat.me.0 }
        ensures place { IfOk result (λ place. place ≡ count_of session.new.seat.me.0) }
        ensures stopped { (at : ℕ) → IsStoppedAt (λ o. store_view o.engine) session.old.seat.me.0 at → IsErrOf result (Stopped at) }
        ensures why { IfErr result (HasReasonOfChange D.tells D.ports_fail (λ o. store_view o.engine) session.new.seat.me.0 (counts_of (D.fetches session.old.port) (D.port_faults session.old.port))
            (counts_of (D.fetches session.new.port) (D.port_faults session.new.port))) }
        ensures counts { AreLater (counts_of (D.fetches session.old.port) (D.port_faults session.old.port)) (counts_of (D.fetches session.new.port) (D.port_faults session.new.port)) }
    {
        self.change(rt, alloc, session, Asked::Delete { key })
    }

    /// Erases the values whose delete keys lie in a range, as `Engine::erase` does, in one turn. It answers the place of the change in the one history of all sessions.
    ///
    /// # Errors
    ///
    /// As for `put`.
    pub fn erase<R: Wait>(
        &self,
        rt: &R,
        alloc: Global,
        session: &mut Session<D, Changes>,
        range: Range,
    ) -> Result<u64, Refused>
        requires of { session.old.seat.table_id ≡ self.now.turn.table.shared.table_id }
        requires ready { IsReady all_counted (λ o. store_view o.engine) session.old.seat.me }
        ensures of { (session.new.seat.table_id ≡ session.old.seat.table_id) × (session.new.caller ≡ session.old.caller) }
        ensures ready { IsReady all_counted (λ o. store_view o.engine) session.new.seat.me }
        ensures done { HasDone (entries_by session.old.caller (Makes (call.Erase range)) (result_err result)) (spent_by (result_err result)) session.old.seat.me.0 session.new.seat.me.0 }
        ensures place { IfOk result (λ place. place ≡ count_of session.new.seat.me.0) }
        ensures stopped { (at : ℕ) → IsStoppedAt (λ o. store_view o.engine) session.old.seat.me.0 at → IsErrOf result (Stopped at) }
        ensures why { IfErr result (HasReasonOfChange D.tells D.ports_fail (λ o. store_view o.engine) session.new.seat.me.0 (counts_of (D.fetches session.old.port) (D.port_faults session.old.port))
            (counts_of (D.fetches session.new.port) (D.port_faults session.new.port))) }
        ensures counts { AreLater (counts_of (D.fetches session.old.port) (D.port_faults session.old.port)) (counts_of (D.fetches session.new.port) (D.port_faults session.new.port)) }
    {
        self.change(rt, alloc, session, Asked::Erase { range })
    }

    /// Makes a change in one turn.
    pub(crate) fn change<R: Wait>(
        &self,
        rt: &R,
        alloc: Global,
        session: &mut Session<D, Changes>,
        asked: Asked,
    ) -> Result<u64, Refused>
        requires of { session.old.seat.table_id ≡ self.now.turn.table.shared.table_id }
        requires ready { IsReady all_counted (λ o. store_view o.engine) session.old.seat.me }
        ensures of { (session.new.seat.table_id ≡ session.old.seat.table_id) × (session.new.caller ≡ session.old.caller) }
        ensures ready { IsReady all_counted (λ o. store_view o.engine) session.new.seat.me }
        ensures done { HasDone (entries_by session.old.caller (Makes (call_of asked)) (result_err result)) (spent_by (result_err result)) session.old.seat.me.0 session.new.seat.me.0 }
        ensures place { IfOk result (λ place. place ≡ count_of session.new.seat.me.0) }
        ensures stopped { (at : ℕ) → IsStoppedAt (λ o. store_view o.engine) session.old.seat.me.0 at → IsErrOf result (Stopped at) }
        ensures why { IfErr result (HasReasonOfChange D.tells D.ports_fail (λ o. store_view o.engine) session.new.seat.me.0 (counts_of (D.fetches session.old.port) (D.port_faults session.old.port))
            (counts_of (D.fetches session.new.port) (D.port_faults session.new.port))) }
        ensures counts { AreLater (counts_of (D.fetches session.old.port) (D.port_faults session.old.port)) (counts_of (D.fetches session.new.port) (D.port_faults session.new.port)) }
    {
        let call = told_call(&asked);
        let mut held = self.take(rt, session);
        let answer = make(&mut held.value.engine, alloc, &mut session.port, asked);
        let did = did_of(&answer);
        let said = told_entries(session.caller, &call, did);
        let noted = told_answer(&answer);
        self.give(session, held, &said, number_of(did), &noted);
        answer
    }
}
