//! A snapshot that a session makes in one thread, and another session reads and lets go in another.
ghost use Rattle.std.specs.Prelude.{◌≡◌};
ghost use Rattle.lethe_store.specs.StoreViews.{store_view};
ghost use Rattle.lethe_store.specs.Since.{all_counted};
ghost use Rattle.lethe_store.specs.Sessions.{IsReady};

use crate::asks::{Ask, BARRED, Held, Row, Told, Which, check_rows, let_go};
use crate::common::{Caller, Shared, VALUE, empty_disk, holds_value, shared, snapshot_of, split};
use lethe_disk::Disk;
use lethe_snapshot::Snapshot;
use lethe_test_values::{key_of, value_of};
use std::alloc::Global;
use std::process::Abort;
use std::sync::Wait;
use std::thread::{Threads, join};

/// What the other session is asked, with the snapshot of the put.
const ROWS: [Row; 6] = [
    (Ask::Delete, Told::Place(2)),
    (Ask::Tick(100), BARRED),
    (Ask::Read(Which::One), Told::Read(true)),
    (Ask::Release(Which::One), Told::At(2)),
    (Ask::Tick(100), Told::Ticked(3, Some((1, 0)))),
    (Ask::Tick(100), Told::Ticked(4, Some((2, 0)))),
];

/// Puts the value under the key `a`, and pins that.
fn put_and_pin<D: Disk, R: Wait + Abort>(
    alloc: Global,
    rt: &R,
    store: &Shared<D>,
    mut session: Caller<D>,
) -> (Caller<D>, Snapshot<D>)
    requires of { session.seat.table_id ≡ store.now.turn.table.shared.table_id }
    requires ready { IsReady all_counted (λ o. store_view o.engine) session.seat.me }
    ensures of { result.0.seat.table_id ≡ session.seat.table_id }
    ensures ready { IsReady all_counted (λ o. store_view o.engine) result.0.seat.me }
{
    let key = key_of(alloc, "a").expect(rt, "a key");
    let value = value_of(alloc, VALUE).expect(rt, "a value");
    let put = store.put(rt, alloc, &mut session, key, 7, value);
    assert!(rt; put == Ok(1));
    let snapshot = snapshot_of(alloc, rt, store, &mut session);
    (session, snapshot)
}

/// The same in a thread of its own.
fn put_and_pin_there<D: Disk, R: Threads + Wait + Abort + Sync>(
    alloc: Global,
    rt: &R,
    store: &Shared<D>,
    session: Caller<D>,
) -> (Caller<D>, Snapshot<D>)
    requires of { session.seat.table_id ≡ store.now.turn.table.shared.table_id }
    requires ready { IsReady all_counted (λ o. store_view o.engine) session.seat.me }
    ensures of { result.0.seat.table_id ≡ session.seat.table_id }
    ensures ready { IsReady all_counted (λ o. store_view o.engine) result.0.seat.me }
{
    let (pinned, _) = join(
        rt,
        move || -> (Caller<D>, Snapshot<D>)
            requires { (session.seat.table_id ≡ store.now.turn.table.shared.table_id) × IsReady all_counted (λ o. store_view o.engine) session.seat.me }
            ensures { (result.0.seat.table_id ≡ session.seat.table_id) × IsReady all_counted (λ o. store_view o.engine) result.0.seat.me }
        { put_and_pin(alloc, rt, store, session) },
        || true,
    );
    pinned
}

/// The session has to go on so with the snapshot of another one.
fn goes_on<D: Disk, R: Wait + Abort>(
    alloc: Global,
    rt: &R,
    store: &Shared<D>,
    session: &mut Caller<D>,
    snapshot: Snapshot<D>,
)
    requires of { session.old.seat.table_id ≡ store.now.turn.table.shared.table_id }
    requires ready { IsReady all_counted (λ o. store_view o.engine) session.old.seat.me }
    ensures of { session.new.seat.table_id ≡ session.old.seat.table_id }
    ensures ready { IsReady all_counted (λ o. store_view o.engine) session.new.seat.me }
{
    let mut held = Held::of(snapshot);
    check_rows(alloc, rt, store, session, &mut held, &ROWS);
    let_go(rt, store, session, held);
}

#[test]
fn a_session_lets_go_what_another_one_pinned_in_another_thread(rt: HostRuntime) {
    let alloc = rt.alloc();
    let (store, mut one) = shared(alloc, &rt, empty_disk(alloc, &rt));
    let mut other = split(alloc, &rt, &store, &mut one, 1);
    let (mut one, snapshot) = put_and_pin_there(alloc, &rt, &store, one);
    goes_on(alloc, &rt, &store, &mut other, snapshot);
    store.join(&mut one, other);
    let mut disk = store.finish(&rt, one).into_disk();
    assert!(rt; !holds_value(alloc, &rt, &mut disk));
}
