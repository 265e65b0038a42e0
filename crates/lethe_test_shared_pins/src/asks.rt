//! What is asked of a session, and of the snapshots that are held.
ghost use Rattle.std.specs.Prelude.{◌≡◌};
ghost use Rattle.lethe_store.specs.StoreViews.{store_view};
ghost use Rattle.lethe_store.specs.Since.{all_counted};
ghost use Rattle.lethe_store.specs.Sessions.{IsReady};

use crate::common::{Caller, Shared, VALUE, is_value};
use lethe_base::{MAX_TIME, Refused, Value};
use lethe_disk::Disk;
use lethe_snapshot::Snapshot;
use lethe_test_values::{key_of, value_of};
use std::alloc::Global;
use std::process::Abort;
use std::sync::Wait;

/// Which of two snapshots.
#[derive(Clone, Copy)]
pub enum Which {
    One,
    Other,
}

/// What is asked, of the key `a`.
#[derive(Clone, Copy)]
pub enum Ask {
    Put,
    Delete,
    Tick(u64),
    /// A pin. One that was held there before is released.
    Pin(Which),
    Release(Which),
    Read(Which),
}

/// What is told.
#[derive(Clone, Copy, PartialEq, Eq)]
pub enum Told {
    Place(u64),
    /// The place of a tick, with the number of its certificate and the time before which that says that values are gone.
    Ticked(u64, Option<(u64, u64)>),
    Pin { number: u64, point: u64, limit: u64 },
    /// How many changes a release had seen.
    At(u64),
    /// Whether the snapshot has the value.
    Read(bool),
    Refused(Refused),
}

/// What is asked, and what has to be told.
pub type Row = (Ask, Told);

/// A tick to the limit of the first pin of a store, made before its first tick.
pub const BARRED: Told = Told::Refused(Refused::Pinned { pin: 1, limit: 100 });

/// The snapshots that are held.
pub struct Held<D: Disk> {
    one: Option<Snapshot<D>>,
    other: Option<Snapshot<D>>,
}

impl<D: Disk> Held<D> {
    pub fn none() -> Held<D> {
        Held {
            one: None,
            other: None,
        }
    }

    pub fn of(snapshot: Snapshot<D>) -> Held<D> {
        Held {
            one: Some(snapshot),
            other: None,
        }
    }

    fn at(&mut self, which: Which) -> &mut Option<Snapshot<D>> {
        match which {
            Which::One => &mut self.one,
            Which::Other => &mut self.other,
        }
    }
}

fn told_place(answer: Result<u64, Refused>) -> Told {
    match answer {
        Ok(place) => Told::Place(place),
        Err(why) => Told::Refused(why),
    }
}

fn put<D: Disk, R: Wait + Abort>(
    alloc: Global,
    rt: &R,
    store: &Shared<D>,
    session: &mut Caller<D>,
) -> Told
    requires of { session.old.seat.table_id ≡ store.now.turn.table.shared.table_id }
    requires ready { IsReady all_counted (λ o. store_view o.engine) session.old.seat.me }
    ensures of { session.new.seat.table_id ≡ session.old.seat.table_id }
    ensures ready { IsReady all_counted (λ o. store_view o.engine) session.new.seat.me }
{
    let key = key_of(alloc, "a").expect(rt, "a key");
    let value = value_of(alloc, VALUE).expect(rt, "a value");
    told_place(store.put(rt, alloc, session, key, 7, value))
}

fn delete<D: Disk, R: Wait + Abort>(
    alloc: Global,
    rt: &R,
    store: &Shared<D>,
    session: &mut Caller<D>,
) -> Told
    requires of { session.old.seat.table_id ≡ store.now.turn.table.shared.table_id }
    requires ready { IsReady all_counted (λ o. store_view o.engine) session.old.seat.me }
    ensures of { session.new.seat.table_id ≡ session.old.seat.table_id }
    ensures ready { IsReady all_counted (λ o. store_view o.engine) session.new.seat.me }
{
    let key = key_of(alloc, "a").expect(rt, "a key");
    told_place(store.delete(rt, alloc, session, key))
}

fn tick<D: Disk, R: Wait + Abort>(
    alloc: Global,
    rt: &R,
    store: &Shared<D>,
    session: &mut Caller<D>,
    to: u64,
) -> Told
    requires of { session.old.seat.table_id ≡ store.now.turn.table.shared.table_id }
    requires ready { IsReady all_counted (λ o. store_view o.engine) session.old.seat.me }
    ensures of { session.new.seat.table_id ≡ session.old.seat.table_id }
    ensures ready { IsReady all_counted (λ o. store_view o.engine) session.new.seat.me }
{
    assert!(rt; to <= MAX_TIME);
    match store.tick(rt, alloc, session, to) {
        Ok(told) => Told::Ticked(
            told.place,
            told.certificate.map(|cert| (cert.number, cert.before)),
        ),
        Err(why) => Told::Refused(why),
    }
}

fn told_pin<D: Disk>(snapshot: &Snapshot<D>) -> Told {
    Told::Pin {
        number: snapshot.number(),
        point: snapshot.point(),
        limit: snapshot.limit(),
    }
}

fn pin<D: Disk, R: Wait>(
    alloc: Global,
    rt: &R,
    store: &Shared<D>,
    session: &mut Caller<D>,
    place: &mut Option<Snapshot<D>>,
) -> Told
    requires of { session.old.seat.table_id ≡ store.now.turn.table.shared.table_id }
    requires ready { IsReady all_counted (λ o. store_view o.engine) session.old.seat.me }
    ensures of { session.new.seat.table_id ≡ session.old.seat.table_id }
    ensures ready { IsReady all_counted (λ o. store_view o.engine) session.new.seat.me }
{
    match store.pin(rt, alloc, session) {
        Ok(snapshot) => {
            let told = told_pin(&snapshot);
            let before = place.replace(snapshot);
            let_one_go(rt, store, session, before);
            told
        }
        Err(why) => Told::Refused(why),
    }
}

fn release<D: Disk, R: Wait + Abort>(
    rt: &R,
    store: &Shared<D>,
    session: &mut Caller<D>,
    place: &mut Option<Snapshot<D>>,
) -> Told
    requires of { session.old.seat.table_id ≡ store.now.turn.table.shared.table_id }
    requires ready { IsReady all_counted (λ o. store_view o.engine) session.old.seat.me }
    ensures of { session.new.seat.table_id ≡ session.old.seat.table_id }
    ensures ready { IsReady all_counted (λ o. store_view o.engine) session.new.seat.me }
{
    let snapshot = place.take().expect(rt, "a snapshot");
    Told::At(store.release(rt, session, snapshot))
}

fn is_put(found: &Option<(u64, Value)>) -> bool {
    matches!(found, Some((7, value)) if is_value(value.bytes()))
}

fn read<D: Disk>(
    alloc: Global,
    rt: &impl Abort,
    port: &mut D::Port,
    place: &Option<Snapshot<D>>,
) -> Told {
    let key = key_of(alloc, "a").expect(rt, "a key");
    let snapshot = place.as_ref().expect(rt, "a snapshot");
    match snapshot.get(alloc, port, &key) {
        Ok(found) => Told::Read(is_put(&found)),
        Err(why) => Told::Refused(why),
    }
}

/// What the session tells.
fn answer<D: Disk, R: Wait + Abort>(
    alloc: Global,
    rt: &R,
    store: &Shared<D>,
    session: &mut Caller<D>,
    held: &mut Held<D>,
    ask: Ask,
) -> Told
    requires of { session.old.seat.table_id ≡ store.now.turn.table.shared.table_id }
    requires ready { IsReady all_counted (λ o. store_view o.engine) session.old.seat.me }
    ensures of { session.new.seat.table_id ≡ session.old.seat.table_id }
    ensures ready { IsReady all_counted (λ o. store_view o.engine) session.new.seat.me }
{
    match ask {
        Ask::Put => put(alloc, rt, store, session),
        Ask::Delete => delete(alloc, rt, store, session),
        Ask::Tick(to) => tick(alloc, rt, store, session, to),
        Ask::Pin(which) => pin(alloc, rt, store, session, held.at(which)),
        Ask::Release(which) => release(rt, store, session, held.at(which)),
        Ask::Read(which) => read(alloc, rt, session.port(), held.at(which)),
    }
}

/// The session has to tell that.
pub fn check_row<D: Disk, R: Wait + Abort>(
    alloc: Global,
    rt: &R,
    store: &Shared<D>,
    session: &mut Caller<D>,
    held: &mut Held<D>,
    row: Row,
)
    requires of { session.old.seat.table_id ≡ store.now.turn.table.shared.table_id }
    requires ready { IsReady all_counted (λ o. store_view o.engine) session.old.seat.me }
    ensures of { session.new.seat.table_id ≡ session.old.seat.table_id }
    ensures ready { IsReady all_counted (λ o. store_view o.engine) session.new.seat.me }
{
    let told = answer(alloc, rt, store, session, held, row.0);
    assert!(rt; told == row.1);
}

/// The session has to tell that, row by row.
pub fn check_rows<D: Disk, R: Wait + Abort>(
    alloc: Global,
    rt: &R,
    store: &Shared<D>,
    session: &mut Caller<D>,
    held: &mut Held<D>,
    rows: &[Row],
)
    requires of { session.old.seat.table_id ≡ store.now.turn.table.shared.table_id }
    requires ready { IsReady all_counted (λ o. store_view o.engine) session.old.seat.me }
    ensures of { session.new.seat.table_id ≡ session.old.seat.table_id }
    ensures ready { IsReady all_counted (λ o. store_view o.engine) session.new.seat.me }
{
    for row in rows {
        check_row(alloc, rt, store, session, held, *row);
    }
}

fn let_one_go<D: Disk, R: Wait>(
    rt: &R,
    store: &Shared<D>,
    session: &mut Caller<D>,
    place: Option<Snapshot<D>>,
)
    requires of { session.old.seat.table_id ≡ store.now.turn.table.shared.table_id }
    requires ready { IsReady all_counted (λ o. store_view o.engine) session.old.seat.me }
    ensures of { session.new.seat.table_id ≡ session.old.seat.table_id }
    ensures ready { IsReady all_counted (λ o. store_view o.engine) session.new.seat.me }
{
    if let Some(snapshot) = place {
        let _ = store.release(rt, session, snapshot);
    }
}

/// Lets go what is held still.
pub fn let_go<D: Disk, R: Wait>(rt: &R, store: &Shared<D>, session: &mut Caller<D>, held: Held<D>)
    requires of { session.old.seat.table_id ≡ store.now.turn.table.shared.table_id }
    requires ready { IsReady all_counted (λ o. store_view o.engine) session.old.seat.me }
    ensures of { session.new.seat.table_id ≡ session.old.seat.table_id }
    ensures ready { IsReady all_counted (λ o. store_view o.engine) session.new.seat.me }
{
    let Held { one, other } = held;
    let_one_go(rt, store, session, one);
    let_one_go(rt, store, session, other);
}
