//! Many sessions of one store, split as a tree.
ghost use Rattle.std.specs.Prelude.{◌≡◌, ◌≤◌, IfOk};
ghost use Rattle.lethe_core.specs.Running.{IsSound};
ghost use Rattle.lethe_core.specs.View.{view_of};
ghost use Rattle.lethe_store.specs.StoreViews.{store_view};
ghost use Rattle.lethe_store.specs.Sessions.{IsReady};
ghost use Rattle.lethe_store.specs.Since.{all_counted};

use lethe_base::{Key, NoMemory, Value};
use lethe_disk::Disk;
use lethe_engine::Engine;
use lethe_store::{Changes, Session, Store};
use std::alloc::Global;
use std::sync::Wait;

/// The number as a key, with itself as its value.
fn pair_of(alloc: Global, number: u64) -> Option<(Key, Value)> {
    let bytes = number.to_be_bytes();
    let key = Key::new(bytes.to_vec(alloc).ok()?).ok()?;
    let value = Value::new(bytes.to_vec(alloc).ok()?).ok()?;
    Some((key, value))
}

/// Puts the number, and answers how many puts were done: 1 or none.
fn put_number<D: Disk, R: Wait>(
    rt: &R,
    alloc: Global,
    store: &Store<D, Changes>,
    session: &mut Session<D, Changes>,
    number: u64,
) -> u64
    requires of { session.old.seat.table_id ≡ store.now.turn.table.shared.table_id }
    requires ready { IsReady all_counted (λ o. store_view o.engine) session.old.seat.me }
    ensures of { session.new.seat.table_id ≡ session.old.seat.table_id }
    ensures ready { IsReady all_counted (λ o. store_view o.engine) session.new.seat.me }
    ensures parts { session.new.seat.me.0.parts ≡ session.old.seat.me.0.parts }
    ensures few { result ≤ 1 }
{
    let Some((key, value)) = pair_of(alloc, number) else {
        return 0;
    };
    match store.put(rt, alloc, session, key, 7, value) {
        Ok(_) => 1,
        Err(_) => 0,
    }
}

/// So many sessions put a number each, from the first one on. They are split from this one as a tree, and joined again: half of them from its half, and so on. It answers how many puts were
/// done; where there is no memory for a port, that half puts nothing.
pub fn put_each<D: Disk, R: Wait>(
    rt: &R,
    alloc: Global,
    store: &Store<D, Changes>,
    session: &mut Session<D, Changes>,
    first: u64,
    count: u64,
) -> u64
    requires of { session.old.seat.table_id ≡ store.now.turn.table.shared.table_id }
    requires ready { IsReady all_counted (λ o. store_view o.engine) session.old.seat.me }
    requires parts { count ≤ session.old.seat.me.0.parts }
    ensures of { session.new.seat.table_id ≡ session.old.seat.table_id }
    ensures ready { IsReady all_counted (λ o. store_view o.engine) session.new.seat.me }
    ensures parts { session.new.seat.me.0.parts ≡ session.old.seat.me.0.parts }
    ensures few { result ≤ count }
{
    if count == 0 {
        return 0;
    }
    if count == 1 {
        return put_number(rt, alloc, store, session, first);
    }
    let half = count / 2;
    let next = first.wrapping_add(count - half);
    let Ok(mut other) = store.split(rt, alloc, session, next) else {
        return 0;
    };
    let here = put_each(rt, alloc, store, session, first, count - half);
    let there = put_each(rt, alloc, store, &mut other, next, half);
    store.join(session, other);
    here + there
}

/// Two hundred sessions of a store put once each. It answers how many puts were done.
///
/// # Errors
///
/// `NoMemory`, before any put.
pub fn put_two_hundred<D: Disk, R: Wait>(
    rt: &R,
    alloc: Global,
    engine: Engine<D>,
) -> Result<(Engine<D>, u64), (Engine<D>, NoMemory)>
    requires { IsSound D.tells (view_of engine.core) }
    ensures { IfOk result (λ done. IsSound D.tells (view_of done.0.core) × (done.1 ≤ 200)) }
{
    let (store, mut session) = Store::open(alloc, engine)?;
    let done = put_each(rt, alloc, &store, &mut session, 0, 200);
    Ok((store.finish(rt, session), done))
}
