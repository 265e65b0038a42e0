//! The store and its turns, whatever its log.
ghost use Rattle.std.specs.Prelude.{◌≡◌, ◌+◌, ◌<◌, ◌^◌, [], ◌++◌, length, IfOk, IfErr};
ghost use Rattle.lethe_core.specs.Running.{IsSound};
ghost use Rattle.lethe_core.specs.View.{view_of};
ghost use Rattle.lethe_turn.specs.Seats.{Holds, HasSeenMore, IsFree, Joined, KnowsTheWhole, count_of, entered, passed, passed_noting};
ghost use Rattle.lethe_store.specs.StoreViews.{IsSameStore, store_view};
ghost use Rattle.lethe_store.specs.Sessions.{HasFinished, HasSplit, IsFirst, IsLedTo, IsReady};

use crate::lent::Lent;
use crate::log::Log;
use crate::session::Session;
use lethe_base::NoMemory;
use lethe_disk::Disk;
use lethe_engine::Engine;
use lethe_turn::{Held, Told, Turn};
use std::alloc::Global;
use std::marker::PhantomData;
use std::sync::Wait;

/// A store that sessions share. It is used by reference, from any number of threads.
pub struct Store<D: Disk, L: Log> {
    turn: Turn<Lent<D, L>>,
}

impl<D: Disk, L: Log> Store<D, L> {
    /// Shares a store, for a log before whose first entry so many lie. Its first session is caller 0's.
    ///
    /// # Errors
    ///
    /// `NoMemory`, with the store as it was.
    pub fn open_with(
        alloc: Global,
        mut engine: Engine<D>,
        count: u64,
    ) -> Result<(Store<D, L>, Session<D, L>), (Engine<D>, NoMemory)>
        requires sound { IsSound D.tells (view_of engine.core) }
        requires count { count ≡ L.start engine.core.state.count }
        requires few { count < 2 ^ 62 }
        ensures of { IfOk result (λ r. (r.1.seat.table_id ≡ r.0.turn.table.shared.table_id) × (r.1.caller ≡ 0) × (D.fetches r.1.port ≡ 0) × (D.port_faults r.1.port ≡ 0)) }
        ensures ready { IfOk result (λ r. IsReady L.start (λ o. store_view o.engine) r.1.seat.me) }
        ensures first { IfOk result (λ r. IsFirst D.tells (λ o. store_view o.engine) (store_view engine) count r.1.seat.me) }
        ensures back { IfErr result (λ r. IsSameStore D.tells (store_view engine) (store_view r.0)) }
    {
        let Ok(port) = engine.new_port(alloc) else {
            return Err((engine, NoMemory));
        };
        let lent = Lent {
            engine,
            log: PhantomData,
        };
        match Turn::new(alloc, lent, count) {
            Ok((turn, seat)) => Ok((
                Store { turn },
                Session {
                    caller: 0,
                    seat,
                    port,
                },
            )),
            Err((lent, _)) => {
                let Lent { engine, log: _ } = lent;
                Err((engine, NoMemory))
            }
        }
    }

    /// Takes the turn, and the store with it. It waits until the sessions that asked before have had theirs.
    pub fn take<R: Wait>(&self, rt: &R, session: &mut Session<D, L>) -> Held<Lent<D, L>>
        requires of { session.old.seat.table_id ≡ self.now.turn.table.shared.table_id }
        requires ready { IsReady L.start (λ o. store_view o.engine) session.old.seat.me }
        ensures of { (session.new.seat.table_id ≡ session.old.seat.table_id) × (session.new.caller ≡ session.old.caller) × (session.new.port ≡ session.old.port) }
        ensures turn { Holds session.new.seat.me result.ticket }
        ensures more { HasSeenMore session.old.seat.me.0 session.new.seat.me.0 }
        ensures since { IsLedTo (λ o. store_view o.engine) (L.since D.tells D.ports_fail) session.new.seat.me.0 (store_view result.value.engine) }
        ensures sound { IsSound D.tells (view_of result.value.engine.core) }
        ensures knows { KnowsTheWhole L.fits session.new.seat.me.0 }
    {
        self.turn.take(rt, &mut session.seat)
    }

    /// How many entries there are, those before the first one included.
    pub fn learn(&self, session: &mut Session<D, L>, held: &Held<Lent<D, L>>) -> u64
        requires of { session.old.seat.table_id ≡ self.now.turn.table.shared.table_id }
        requires held { Holds session.old.seat.me held.now.ticket }
        ensures of { (session.new.seat.table_id ≡ session.old.seat.table_id) × (session.new.caller ≡ session.old.caller) × (session.new.port ≡ session.old.port) }
        ensures same { session.new.seat.me ≡ session.old.seat.me }
        ensures count { result ≡ count_of session.old.seat.me.0 }
    {
        self.turn.learn(&mut session.seat, held)
    }

    /// Enters what was made in the turn, notes what is to be noted, and passes the turn on with the store. `number` is how many entries `said` has, since that has no bytes.
    pub fn give(
        &self,
        session: &mut Session<D, L>,
        held: Held<Lent<D, L>>,
        said: &Told<L::Entry>,
        number: u64,
        noted: &Told<L::Mark>,
    )
        requires of { session.old.seat.table_id ≡ self.now.turn.table.shared.table_id }
        requires held { Holds session.old.seat.me held.ticket }
        requires number { length said.now.items ≡ number }
        requires room { count_of session.old.seat.me.0 + length said.now.items < 2 ^ 62 }
        requires since { IsLedTo (λ o. store_view o.engine) (L.since D.tells D.ports_fail) (passed_noting noted.now.items (entered said.now.items session.old.seat.me.0)) (store_view held.value.engine) }
        requires fits { L.fits session.old.seat.me.0.marks → L.fits (session.old.seat.me.0.marks ++ noted.now.items) }
        ensures of { (session.new.seat.table_id ≡ session.old.seat.table_id) × (session.new.caller ≡ session.old.caller) × (session.new.port ≡ session.old.port) }
        ensures given { session.new.seat.me ≡ (passed_noting noted.now.items (entered said.now.items session.old.seat.me.0), []) }
    {
        self.turn.enter(&mut session.seat, &held, said, number);
        self.turn.pass_noting(&mut session.seat, held, noted);
    }

    /// Passes the turn on with the store, where marks alone are to be noted.
    pub fn note(&self, session: &mut Session<D, L>, held: Held<Lent<D, L>>, noted: &Told<L::Mark>)
        requires of { session.old.seat.table_id ≡ self.now.turn.table.shared.table_id }
        requires held { Holds session.old.seat.me held.ticket }
        requires since { IsLedTo (λ o. store_view o.engine) (L.since D.tells D.ports_fail) (passed_noting noted.now.items session.old.seat.me.0) (store_view held.value.engine) }
        requires fits { L.fits session.old.seat.me.0.marks → L.fits (session.old.seat.me.0.marks ++ noted.now.items) }
        ensures of { (session.new.seat.table_id ≡ session.old.seat.table_id) × (session.new.caller ≡ session.old.caller) × (session.new.port ≡ session.old.port) }
        ensures noted { session.new.seat.me ≡ (passed_noting noted.now.items session.old.seat.me.0, []) }
    {
        self.turn.pass_noting(&mut session.seat, held, noted);
    }

    /// Passes the turn on with the store, where nothing is to be entered.
    pub fn put_back(&self, session: &mut Session<D, L>, held: Held<Lent<D, L>>)
        requires of { session.old.seat.table_id ≡ self.now.turn.table.shared.table_id }
        requires held { Holds session.old.seat.me held.ticket }
        requires since { IsLedTo (λ o. store_view o.engine) (L.since D.tells D.ports_fail) session.old.seat.me.0 (store_view held.value.engine) }
        ensures of { (session.new.seat.table_id ≡ session.old.seat.table_id) × (session.new.caller ≡ session.old.caller) × (session.new.port ≡ session.old.port) }
        ensures passed { session.new.seat.me ≡ (passed session.old.seat.me.0, []) }
    {
        self.turn.pass(&mut session.seat, held);
    }

    /// Makes another session, of this caller number, with a port of its own. It has seen what this one has, and half of its parts, rounded down: from one session 62 can be split before
    /// one is joined again. Two sessions may have one number. Memory is taken for the port alone.
    ///
    /// # Errors
    ///
    /// `NoMemory`: then the session has its parts still.
    pub fn split<R: Wait>(
        &self,
        rt: &R,
        alloc: Global,
        session: &mut Session<D, L>,
        caller: u64,
    ) -> Result<Session<D, L>, NoMemory>
        requires of { session.old.seat.table_id ≡ self.now.turn.table.shared.table_id }
        requires ready { IsReady L.start (λ o. store_view o.engine) session.old.seat.me }
        requires parts { 1 < session.old.seat.me.0.parts }
        ensures of { (session.new.seat.table_id ≡ session.old.seat.table_id) × (session.new.caller ≡ session.old.caller) × (session.new.port ≡ session.old.port) }
        ensures ready { IsReady L.start (λ o. store_view o.engine) session.new.seat.me }
        ensures other_of { IfOk result (λ other. (other.seat.table_id ≡ session.old.seat.table_id) × (other.caller ≡ caller) × (D.fetches other.port ≡ 0) × (D.port_faults other.port ≡ 0)) }
        ensures other_ready { IfOk result (λ other. IsReady L.start (λ o. store_view o.engine) other.seat.me) }
        ensures split { IfOk result (λ other. HasSplit session.old.seat.me.0 session.new.seat.me.0 other.seat.me.0) }
        ensures refused { IfErr result (λ none. HasSeenMore session.old.seat.me.0 session.new.seat.me.0) }
    {
        let mut held = self.take(rt, session);
        let port = held.value.engine.new_port(alloc);
        self.put_back(session, held);
        match port {
            Ok(port) => {
                let seat = self.turn.split(&mut session.seat);
                Ok(Session { caller, seat, port })
            }
            Err(NoMemory) => Err(NoMemory),
        }
    }

    /// Takes the other session in: what it had seen, its entries and its parts. It takes no memory.
    pub fn join(&self, session: &mut Session<D, L>, other: Session<D, L>)
        requires of { (session.old.seat.table_id ≡ self.now.turn.table.shared.table_id) × (other.seat.table_id ≡ self.now.turn.table.shared.table_id) }
        requires ready { IsReady L.start (λ o. store_view o.engine) session.old.seat.me × IsFree other.seat.me }
        ensures of { (session.new.seat.table_id ≡ session.old.seat.table_id) × (session.new.caller ≡ session.old.caller) × (session.new.port ≡ session.old.port) }
        ensures ready { IsReady L.start (λ o. store_view o.engine) session.new.seat.me }
        ensures joined { Joined session.old.seat.me.0 other.seat.me.0 session.new.seat.me.0 }
    {
        let Session {
            caller: _,
            seat,
            port: _,
        } = other;
        self.turn.join(&mut session.seat, seat);
    }

    /// Ends the sharing, and gives the store back. It waits for its turn as a call does, and takes no memory.
    pub fn finish<R: Wait>(self, rt: &R, session: Session<D, L>) -> Engine<D>
        requires of { session.seat.table_id ≡ self.turn.table.shared.table_id }
        requires ready { IsReady L.start (λ o. store_view o.engine) session.seat.me }
        ensures sound { IsSound D.tells (view_of result.core) }
        ensures finished { HasFinished (λ o. store_view o.engine) (L.since D.tells D.ports_fail) L.fits session.seat.me.0 (store_view result) }
    {
        let Store { turn } = self;
        let Session {
            caller: _,
            seat,
            port: _,
        } = session;
        let Lent { engine, log: _ } = turn.finish(rt, seat);
        engine
    }
}
