//! Two sessions that put once each, each in a thread of its own.
ghost use Rattle.std.specs.Prelude.{◌≡◌, [], IfErr, IfOk};
ghost use Rattle.std.specs.Result.{result_err};
ghost use Rattle.lethe_base.specs.declared.call.Call.TheVariants as call;
ghost use Rattle.lethe_core.specs.Asked.{Makes};
ghost use Rattle.lethe_core.specs.Running.{IsSound};
ghost use Rattle.lethe_core.specs.View.{view_of};
ghost use Rattle.lethe_turn.specs.Seats.{count_of};
ghost use Rattle.lethe_store.specs.StoreViews.{store_view};
ghost use Rattle.lethe_store.specs.Diary.{spent_by};
ghost use Rattle.lethe_store.specs.Entries.{entries_by};
ghost use Rattle.lethe_store.specs.Sessions.{HasDone, IsReady};
ghost use Rattle.lethe_store.specs.Since.{all_counted};
ghost use Rattle.lethe_test_shared.specs.Both.{AreInOneHistory};

use lethe_base::{Key, NoMemory, Refused, Value};
use lethe_disk::Disk;
use lethe_engine::Engine;
use lethe_store::{Changes, Session, Store};
use std::alloc::Global;
use std::sync::Wait;
use std::thread::{Threads, join};

/// What a session puts.
#[derive(Debug, Drop)]
pub struct Put {
    pub key: Key,
    pub dkey: u64,
    pub value: Value,
}

/// The store behind both puts, and what each was answered.
pub struct Both<D: Disk> {
    pub engine: Engine<D>,
    pub first: Result<u64, Refused>,
    pub second: Result<u64, Refused>,
}

fn put_once<D: Disk, R: Wait>(
    rt: &R,
    alloc: Global,
    store: &Store<D, Changes>,
    mut session: Session<D, Changes>,
    put: Put,
) -> (Session<D, Changes>, Result<u64, Refused>)
    requires of { session.seat.table_id ≡ store.now.turn.table.shared.table_id }
    requires ready { IsReady all_counted (λ o. store_view o.engine) session.seat.me }
    ensures of { result.0.seat.table_id ≡ session.seat.table_id }
    ensures ready { IsReady all_counted (λ o. store_view o.engine) result.0.seat.me }
    ensures done { HasDone (entries_by session.caller (Makes (call.Put put.key put.dkey put.value)) (result_err result.1)) (spent_by (result_err result.1)) session.seat.me.0 result.0.seat.me.0 }
    ensures place { IfOk result.1 (λ place. place ≡ count_of result.0.seat.me.0) }
{
    let Put { key, dkey, value } = put;
    let answer = store.put(rt, alloc, &mut session, key, dkey, value);
    (session, answer)
}

/// Shares the store, and puts by two sessions in two threads. Whatever the schedule, the store that comes out stands for one history: that of the store that was handed in, with both puts in
/// some order, each once and at the place that it answered; with one in which the disk failed as failed; and with nothing else.
///
/// # Errors
///
/// `NoMemory`, before any put.
pub fn put_both<D: Disk, R: Threads + Wait + Sync>(
    rt: &R,
    alloc: Global,
    engine: Engine<D>,
    first: Put,
    second: Put,
) -> Result<Both<D>, (Engine<D>, NoMemory)>
    requires { IsSound D.tells (view_of engine.core) }
    ensures { IfOk result (λ both. AreInOneHistory D.tells (store_view engine) (call.Put first.key first.dkey first.value) both.first
        (call.Put second.key second.dkey second.value) both.second (store_view both.engine)) }
{
    let (store, mut one) = Store::open(alloc, engine)?;
    let Ok(other) = store.split(rt, alloc, &mut one, 1) else {
        return Err((store.finish(rt, one), NoMemory));
    };
    let shared = &store;
    let (one, other) = join(
        rt,
        move || -> (Session<D, Changes>, Result<u64, Refused>)
            requires { (one.seat.table_id ≡ shared.now.turn.table.shared.table_id) × IsReady all_counted (λ o. store_view o.engine) one.seat.me }
            ensures of { result.0.seat.table_id ≡ one.seat.table_id }
            ensures ready { IsReady all_counted (λ o. store_view o.engine) result.0.seat.me }
            ensures done { HasDone (entries_by one.caller (Makes (call.Put first.key first.dkey first.value)) (result_err result.1)) (spent_by (result_err result.1)) one.seat.me.0 result.0.seat.me.0 }
            ensures place { IfOk result.1 (λ place. place ≡ count_of result.0.seat.me.0) }
        { put_once(rt, alloc, shared, one, first) },
        move || -> (Session<D, Changes>, Result<u64, Refused>)
            requires { (other.seat.table_id ≡ shared.now.turn.table.shared.table_id) × IsReady all_counted (λ o. store_view o.engine) other.seat.me }
            ensures of { result.0.seat.table_id ≡ other.seat.table_id }
            ensures ready { IsReady all_counted (λ o. store_view o.engine) result.0.seat.me }
            ensures done { HasDone (entries_by other.caller (Makes (call.Put second.key second.dkey second.value)) (result_err result.1)) (spent_by (result_err result.1)) other.seat.me.0 result.0.seat.me.0 }
            ensures place { IfOk result.1 (λ place. place ≡ count_of result.0.seat.me.0) }
        { put_once(rt, alloc, shared, other, second) },
    );
    let (mut one, first) = one;
    let (other, second) = other;
    store.join(&mut one, other);
    let engine = store.finish(rt, one);
    Ok(Both {
        engine,
        first,
        second,
    })
}
