//! Lists of changes by sessions, in rows of a turn each.
ghost use Rattle.std.specs.Prelude.{◌≡◌, ◌⊎◌, ◌≤◌, ◌<◌, ◌+◌, ◌++◌, ◌^◌, ℕ, [], None, ◌∷◌, List, IfSome, IsFalse, IsTrue, length, vec_capacity, vec_len};
ghost use Rattle.std.specs.List.{range_with_len};
ghost use Rattle.lethe_base.specs.declared.refused.Refused.TheVariants.{NoMemory, Stopped};
ghost use Rattle.lethe_engine.specs.Asked as asking;
ghost use Rattle.lethe_store.specs.StoreViews.{store_view};
ghost use Rattle.lethe_store.specs.Since.{all_counted};
ghost use Rattle.lethe_store.specs.Reasons.{AreLater, HasReasonOfChange, IsStoppedAt, counts_of};
ghost use Rattle.lethe_store.specs.Rows.{HasMadeAll, HasMadeRow, HasReasonOfList, most_in_row};
ghost use Rattle.lethe_store.specs.Sessions.{IsReady};

use crate::changes::Changes;
use crate::session::Session;
use crate::store::Store;
use crate::telling::{did_in_row, number_of, told_changes, told_nothing, told_row};
use lethe_base::Refused;
use lethe_disk::Disk;
use lethe_engine::{Asked, Row};
use std::alloc::Global;
use std::collections::VecDeque;
use std::sync::Wait;

/// The most changes of a row, so that another session waits for a row and not for a list.
const MOST_IN_ROW: usize = 256;

/// What became of a list of changes.
#[derive(Debug, Drop)]
pub struct Changed {
    /// The places of the changes that were made, in their order: the first ones of those that were asked.
    pub places: Vec<u64>,
    /// Why the next one wasn't, where one wasn't.
    pub refused: Option<Refused>,
}

/// What became of a row, and how many changes there were before it.
#[derive(Drop)]
struct MadeRow {
    count: u64,
    row: Row,
}

impl<D: Disk> Store<D, Changes> {
    /// Makes the changes one behind another, in rows of at most 256, each row in one turn: where the active segment is full the row ends, the next change makes room in a turn of its own, as
    /// `put` does, and those behind it are a row again. It answers the places of those that were made, in the one history of all sessions, and why the one behind them wasn't, where it
    /// wasn't; those behind that one aren't made either. Changes of other sessions may lie between two turns, and none within a row. None is answered before all that were made are durable.
    /// A row of `k` changes takes `3 k + 1` device calls, of which `k + 1` are syncs.
    ///
    /// # Errors
    ///
    /// Those of a change by itself. Room for the places is taken before any change is made.
    pub fn change_all<R: Wait>(
        &self,
        rt: &R,
        alloc: Global,
        session: &mut Session<D, Changes>,
        asked: Vec<Asked>,
    ) -> Changed
        requires of { session.old.seat.table_id ≡ self.now.turn.table.shared.table_id }
        requires ready { IsReady all_counted (λ o. store_view o.engine) session.old.seat.me }
        ensures of { (session.new.seat.table_id ≡ session.old.seat.table_id) × (session.new.caller ≡ session.old.caller) }
        ensures ready { IsReady all_counted (λ o. store_view o.engine) session.new.seat.me }
        ensures made { HasMadeAll session.old.caller asked.items result.places.items result.refused session.old.seat.me.0 session.new.seat.me.0 }
        ensures stopped { (at : ℕ) → IsStoppedAt (λ o. store_view o.engine) session.old.seat.me.0 at → (result.places.items ≡ []) × IfSome result.refused (λ why. (why ≡ NoMemory) ⊎ (why ≡ Stopped at)) }
        ensures why { IfSome result.refused (HasReasonOfList D.tells D.ports_fail (λ o. store_view o.engine) session.new.seat.me.0
            (counts_of (D.fetches session.old.port) (D.port_faults session.old.port)) (counts_of (D.fetches session.new.port) (D.port_faults session.new.port))) }
        ensures counts { AreLater (counts_of (D.fetches session.old.port) (D.port_faults session.old.port)) (counts_of (D.fetches session.new.port) (D.port_faults session.new.port)) }
    {
        let many = asked.len();
        let (Ok(places), Ok(row)) = (
            Vec::with_capacity(alloc, many),
            VecDeque::with_capacity(alloc, many.min(MOST_IN_ROW)),
        ) else {
            return Changed {
                places: Vec::new(alloc),
                refused: Some(Refused::NoMemory),
            };
        };
        self.change_each(rt, alloc, session, places, row, VecDeque::from(asked))
    }

    // Makes the changes that are left, with memory that was taken for the places and a row.
    fn change_each<R: Wait>(
        &self,
        rt: &R,
        alloc: Global,
        session: &mut Session<D, Changes>,
        mut places: Vec<u64>,
        mut row: VecDeque<Asked>,
        mut left: VecDeque<Asked>,
    ) -> Changed
        requires of { session.old.seat.table_id ≡ self.now.turn.table.shared.table_id }
        requires ready { IsReady all_counted (λ o. store_view o.engine) session.old.seat.me }
        requires empty { (places.items ≡ []) × (row.items ≡ []) }
        requires room { (vec_len places ≡ 0) × (length left.items ≤ vec_capacity places) }
        ensures of { (session.new.seat.table_id ≡ session.old.seat.table_id) × (session.new.caller ≡ session.old.caller) }
        ensures ready { IsReady all_counted (λ o. store_view o.engine) session.new.seat.me }
        ensures made { HasMadeAll session.old.caller left.items result.places.items result.refused session.old.seat.me.0 session.new.seat.me.0 }
        ensures stopped { (at : ℕ) → IsStoppedAt (λ o. store_view o.engine) session.old.seat.me.0 at → (result.places.items ≡ []) × IfSome result.refused (λ why. (why ≡ NoMemory) ⊎ (why ≡ Stopped at)) }
        ensures why { IfSome result.refused (HasReasonOfList D.tells D.ports_fail (λ o. store_view o.engine) session.new.seat.me.0
            (counts_of (D.fetches session.old.port) (D.port_faults session.old.port)) (counts_of (D.fetches session.new.port) (D.port_faults session.new.port))) }
        ensures counts { AreLater (counts_of (D.fetches session.old.port) (D.port_faults session.old.port)) (counts_of (D.fetches session.new.port) (D.port_faults session.new.port)) }
    {
        loop {
            if !fill(&mut row, &mut left) {
                return Changed {
                    places,
                    refused: Some(Refused::NoMemory),
                };
            }
            let made = self.change_row(rt, alloc, session, &mut row);
            append_places(&mut places, made.count, made.row.done);
            if made.row.refused.is_some() {
                return Changed {
                    places,
                    refused: made.row.refused,
                };
            }
            let Some(change) = row.pop_front() else {
                if left.is_empty() {
                    return Changed {
                        places,
                        refused: None,
                    };
                }
                continue;
            };
            match self.change(rt, alloc, session, change) {
                Ok(place) => places.push_reserved(place),
                Err(why) => {
                    return Changed {
                        places,
                        refused: Some(why),
                    };
                }
            }
        }
    }

    // Makes a row in one turn, as far as it goes.
    fn change_row<R: Wait>(
        &self,
        rt: &R,
        alloc: Global,
        session: &mut Session<D, Changes>,
        asked: &mut VecDeque<Asked>,
    ) -> MadeRow
        requires of { session.old.seat.table_id ≡ self.now.turn.table.shared.table_id }
        requires ready { IsReady all_counted (λ o. store_view o.engine) session.old.seat.me }
        ensures of { (session.new.seat.table_id ≡ session.old.seat.table_id) × (session.new.caller ≡ session.old.caller) × (session.new.port ≡ session.old.port) }
        ensures ready { IsReady all_counted (λ o. store_view o.engine) session.new.seat.me }
        ensures made { HasMadeRow session.old.caller asked.old.items asked.new.items result.count result.row.done result.row.refused session.old.seat.me.0 session.new.seat.me.0 }
        ensures fits { result.count + result.row.done < 2 ^ 62 }
        ensures stopped { (at : ℕ) → IsStoppedAt (λ o. store_view o.engine) session.old.seat.me.0 at → (result.row.done ≡ 0) × (result.row.refused ≡ None) }
        ensures why { IfSome result.row.refused (HasReasonOfChange D.tells D.ports_fail (λ o. store_view o.engine) session.new.seat.me.0
            (counts_of (D.fetches session.new.port) (D.port_faults session.new.port)) (counts_of (D.fetches session.new.port) (D.port_faults session.new.port))) }
    {
        let told = told_changes(asked);
        let mut held = self.take(rt, session);
        let count = self.learn(session, &held);
        let row = held.value.engine.change_row(alloc, asked);
        let said = told_row(session.caller, &told, row.done, &row.refused);
        let number = row.done + number_of(did_in_row(&row.refused));
        self.give(session, held, &said, number, &told_nothing());
        MadeRow { count, row }
    }
}

/// Fills the row with the next changes. False where there is no memory.
fn fill(row: &mut VecDeque<Asked>, left: &mut VecDeque<Asked>) -> bool
    ensures same { IsTrue result → row.new.items ++ left.new.items ≡ row.old.items ++ left.old.items }
    ensures some { IsFalse result → (next : asking.Asked) × (more : List asking.Asked) × (row.old.items ++ left.old.items ≡ next ∷ more) }
    ensures full { IsTrue result → row.new.items ≡ [] → left.new.items ≡ [] }
    ensures short { length row.old.items ≤ most_in_row → length row.new.items ≤ most_in_row }
{
    while row.len() < MOST_IN_ROW {
        let Some(change) = left.pop_front() else {
            return true;
        };
        if row.push_back(change).is_err() {
            return false;
        }
    }
    true
}

/// So many places behind `count` of them, in memory that was taken.
fn append_places(places: &mut Vec<u64>, count: u64, done: u64)
    requires room { vec_len places.old + done ≤ vec_capacity places.old }
    requires fits { count + done < 2 ^ 62 }
    ensures items { places.new.items ≡ places.old.items ++ range_with_len (count + 1) done }
    ensures len { vec_len places.new ≡ vec_len places.old + done }
    ensures capacity { vec_capacity places.new ≡ vec_capacity places.old }
{
    for n in 0..done {
        places.push_reserved(count + n + 1);
    }
}
