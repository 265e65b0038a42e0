//! Reads by sessions.
ghost use Rattle.std.specs.Prelude.{◌≡◌, [], IfOk, IfErr};
ghost use Rattle.lethe_base.specs.Read.{Get, Scan, Found};
ghost use Rattle.lethe_engine.specs.Reads.{listed};
ghost use Rattle.lethe_turn.specs.Seats.{count_of};
ghost use Rattle.lethe_store.specs.StoreViews.{store_view};
ghost use Rattle.lethe_store.specs.Since.{all_counted};
ghost use Rattle.lethe_store.specs.Reads.{HasRead, HasReadClock, IsClockSeen};
ghost use Rattle.lethe_store.specs.Reasons.{AreLater, HasReasonOfRead, counts_of};
ghost use Rattle.lethe_store.specs.Sessions.{HasDone, IsReady};

use crate::changes::Changes;
use crate::session::Session;
use crate::store::Store;
use lethe_base::{Key, Refused, Value};
use lethe_disk::Disk;
use lethe_engine::Stat;
use std::alloc::Global;
use std::sync::Wait;

/// What a read answered, and how many changes the session had seen then.
#[derive(Debug, Drop)]
pub struct Read<A> {
    pub at: u64,
    pub answer: A,
}

impl<D: Disk> Store<D, Changes> {
    /// What a key has, as `Engine::get` answers it, in one turn.
    ///
    /// # Errors
    ///
    /// Those of `Engine::get`, by the counts of the session's own port.
    pub fn get<R: Wait>(
        &self,
        rt: &R,
        alloc: Global,
        session: &mut Session<D, Changes>,
        key: &Key,
    ) -> Result<Read<Option<(u64, Value)>>, Refused>
        requires of { session.old.seat.table_id ≡ self.now.turn.table.shared.table_id }
        requires ready { IsReady all_counted (λ o. store_view o.engine) session.old.seat.me }
        ensures of { (session.new.seat.table_id ≡ session.old.seat.table_id) × (session.new.caller ≡ session.old.caller) }
        ensures ready { IsReady all_counted (λ o. store_view o.engine) session.new.seat.me }
        ensures done { HasDone [] [] session.old.seat.me.0 session.new.seat.me.0 }
        ensures at { IfOk result (λ read. read.at ≡ count_of session.new.seat.me.0) }
        ensures answer { IfOk result (λ read. HasRead D.tells (λ o. store_view o.engine) session.new.seat.me.0 (Get key.now) (Found read.answer)) }
        ensures why { IfErr result (HasReasonOfRead D.tells D.ports_fail (counts_of (D.fetches session.old.port) (D.port_faults session.old.port))
            (counts_of (D.fetches session.new.port) (D.port_faults session.new.port))) }
        ensures counts { AreLater (counts_of (D.fetches session.old.port) (D.port_faults session.old.port)) (counts_of (D.fetches session.new.port) (D.port_faults session.new.port)) }
    {
        let held = self.take(rt, session);
        let at = self.learn(session, &held);
        let answer = held.value.engine.get(alloc, &mut session.port, key);
        self.put_back(session, held);
        match answer {
            Ok(found) => Ok(Read { at, answer: found }),
            Err(why) => Err(why),
        }
    }

    /// The keys from `lo` up to `hi` excluded, as `Engine::scan` answers them, in one turn.
    ///
    /// # Errors
    ///
    /// As for `get`.
    pub fn scan<R: Wait>(
        &self,
        rt: &R,
        alloc: Global,
        session: &mut Session<D, Changes>,
        lo: &Key,
        hi: &Key,
    ) -> Result<Read<Vec<(Key, u64, Value)>>, Refused>
        requires of { session.old.seat.table_id ≡ self.now.turn.table.shared.table_id }
        requires ready { IsReady all_counted (λ o. store_view o.engine) session.old.seat.me }
        ensures of { (session.new.seat.table_id ≡ session.old.seat.table_id) × (session.new.caller ≡ session.old.caller) }
        ensures ready { IsReady all_counted (λ o. store_view o.engine) session.new.seat.me }
        ensures done { HasDone [] [] session.old.seat.me.0 session.new.seat.me.0 }
        ensures at { IfOk result (λ read. read.at ≡ count_of session.new.seat.me.0) }
        ensures answer { IfOk result (λ read. HasRead D.tells (λ o. store_view o.engine) session.new.seat.me.0 (Scan lo.now hi.now) (listed read.answer.items)) }
        ensures why { IfErr result (HasReasonOfRead D.tells D.ports_fail (counts_of (D.fetches session.old.port) (D.port_faults session.old.port))
            (counts_of (D.fetches session.new.port) (D.port_faults session.new.port))) }
        ensures counts { AreLater (counts_of (D.fetches session.old.port) (D.port_faults session.old.port)) (counts_of (D.fetches session.new.port) (D.port_faults session.new.port)) }
    {
        let held = self.take(rt, session);
        let at = self.learn(session, &held);
        let answer = held.value.engine.scan(alloc, &mut session.port, lo, hi);
        self.put_back(session, held);
        match answer {
            Ok(pairs) => Ok(Read { at, answer: pairs }),
            Err(why) => Err(why),
        }
    }

    /// What there is of the store as a whole, as `Engine::stat` tells it, in one turn. It takes no memory.
    pub fn stat<R: Wait>(&self, rt: &R, session: &mut Session<D, Changes>) -> Read<Stat>
        requires of { session.old.seat.table_id ≡ self.now.turn.table.shared.table_id }
        requires ready { IsReady all_counted (λ o. store_view o.engine) session.old.seat.me }
        ensures of { (session.new.seat.table_id ≡ session.old.seat.table_id) × (session.new.caller ≡ session.old.caller) × (session.new.port ≡ session.old.port) }
        ensures ready { IsReady all_counted (λ o. store_view o.engine) session.new.seat.me }
        ensures done { HasDone [] [] session.old.seat.me.0 session.new.seat.me.0 }
        ensures at { result.at ≡ count_of session.new.seat.me.0 }
        ensures clock { HasReadClock D.tells (λ o. store_view o.engine) session.new.seat.me.0 result.answer.clock }
        ensures seen { IsClockSeen (λ o. store_view o.engine) session.new.seat.me.0 result.answer.clock }
    {
        let held = self.take(rt, session);
        let at = self.learn(session, &held);
        let answer = held.value.engine.stat();
        self.put_back(session, held);
        Read { at, answer }
    }
}
