//! What these tests share: states of stores, and their changes.
ghost use Rattle.std.specs.Prelude.{◌<◌, IfOk, IfSome, OnOk};
ghost use Rattle.lethe_base.specs.Limits.{max_place, max_time};
ghost use Rattle.lethe_segment.specs.Records.{RecordHasSpelling};
ghost use Rattle.lethe_state.specs.Writable.{IsWritable};

use lethe_base::Range;
use lethe_disk::Disk;
use lethe_manifest::read_manifest;
use lethe_pins::Pins;
use lethe_segment::Record;
use lethe_snapshot::{Contents, Snapshot};
use lethe_state::{Prepared, State};
use lethe_test_values::{key_of, value_of};
use lethe_version::Version;
use std::alloc::Global;
use std::test::Fail;

/// The manifest of a new store, with a threshold of 100: manifest 2, which cites segment 1, with 3 as the next number.
const MANIFEST: [u8; 71] =
    *b"LM\x01\0\0\0\0\0\0\0\x02\0\0\0\0\0\0\0d\x02\x02\0\x02\x02\0\x02\0\x04\0\0\0\0\0\0\0\0\0\0\0\0\0\0\0\0\0\0\0\0\0\0\0\0\x03\0\0\0\0\0\x01\0\0\0\0\0\0\0\x01\0\0\0\0";

/// The same, with a pending erase of delete key 5 at place 2.
const ERASED: [u8; 103] =
    *b"LM\x01\0\0\0\0\0\0\0\x02\0\0\0\0\0\0\0d\x02\x02\0\x02\x02\0\x02\0\x04\0\0\0\0\0\0\0\0\0\0\0\0\0\0\0\0\0\0\0\0\0\0\0\0\x03\0\0\0\0\x01\0\0\0\0\0\0\0\x02\0\0\0\0\0\0\0\0\0\0\0\0\0\0\0\x05\0\0\0\0\0\0\0\x06\x01\0\0\0\0\0\0\0\x01\0\0\0\0";

/// The last byte of a manifest's clock.
const CLOCK: usize = 36;

/// The last byte of the time of its first erase.
const ERASE: usize = 73;

/// The state of a new store.
pub fn new_state(alloc: Global) -> Result<State, Fail>
    ensures { IfOk result IsWritable }
{
    state_at(alloc, 0, None)
}

/// The state of a store without records whose clock stands there, and which may have an erase of that time to carry out.
pub fn state_at(alloc: Global, clock: u8, erase: Option<u8>) -> Result<State, Fail>
    ensures { IfOk result IsWritable }
{
    match erase {
        Some(time) => {
            let mut manifest = ERASED;
            manifest[CLOCK] = clock;
            manifest[ERASE] = time;
            opened(alloc, &manifest)
        }
        None => {
            let mut manifest = MANIFEST;
            manifest[CLOCK] = clock;
            opened(alloc, &manifest)
        }
    }
}

fn opened(alloc: Global, bytes: &[u8]) -> Result<State, Fail>
    ensures { IfOk result IsWritable }
{
    let manifest = read_manifest(alloc, bytes).ok().ok_or("a manifest")?;
    if manifest.segments.items().len() != 1 {
        return Err(Fail::new("one segment"));
    }
    Ok(State::opened(alloc, manifest)?)
}

fn enter(alloc: Global, state: &mut State, next: Record) -> Result<(), Fail>
    requires writable { IsWritable state.old }
    requires fits { state.old.count < max_place }
    requires spelled { RecordHasSpelling next }
    ensures { OnOk result (IsWritable state.new) }
{
    let Prepared { end, pending, .. } = state.prepare(alloc, &next)?;
    state.enter(next, end, pending);
    Ok(())
}

/// A put of the key, with the delete key 5 and itself as its value.
pub fn put(alloc: Global, state: &mut State, text: &str) -> Result<(), Fail>
    requires { IsWritable state.old }
    ensures { OnOk result (IsWritable state.new) }
{
    put_since(alloc, state, text, None)
}

/// The same, of a key that was deleted at a time, where there is one.
pub fn put_since(
    alloc: Global,
    state: &mut State,
    text: &str,
    since: Option<u8>,
) -> Result<(), Fail>
    requires { IsWritable state.old }
    ensures { OnOk result (IsWritable state.new) }
{
    state.may_change()?;
    let value = value_of(alloc, text.as_bytes())?;
    let next = match (state.put_record(key_of(alloc, text)?, 5, value), since) {
        (Record::Entry(mut entry), Some(time)) => {
            entry.since = Some(u64::from(time));
            Record::Entry(entry)
        }
        (next, _) => next,
    };
    enter(alloc, state, next)
}

/// An erase of the delete key 5, accepted at that time.
pub fn erase_at(alloc: Global, state: &mut State, time: u8) -> Result<(), Fail>
    requires { IsWritable state.old }
    ensures { OnOk result (IsWritable state.new) }
{
    let range = Range::new(5, 6).ok_or("a range")?;
    state.may_change()?;
    let next = match state.erase_record(range) {
        Record::Erase(mut erase) => {
            erase.time = u64::from(time);
            Record::Erase(erase)
        }
        next => next,
    };
    enter(alloc, state, next)
}

pub fn delete<D: Disk>(
    alloc: Global,
    state: &mut State,
    version: &Version<D>,
    text: &str,
) -> Result<(), Fail>
    requires { IsWritable state.old }
    ensures { OnOk result (IsWritable state.new) }
{
    state.may_change()?;
    let next = state.delete_record(version, key_of(alloc, text)?);
    enter(alloc, state, next)
}

pub fn freeze(alloc: Global, state: &mut State) -> Result<(), Fail>
    requires { IsWritable state.old }
    ensures { OnOk result (IsWritable state.new) }
{
    match state.frozen() {
        None => {
            let step = state.freezing(alloc)?;
            state.freeze(alloc, step);
            Ok(())
        }
        Some(_) => Err(Fail::new("no frozen buffer")),
    }
}

/// The put of the first key is in the frozen buffer, that of the second in the active one.
pub fn filled(alloc: Global, new: State, frozen: &str, active: &str) -> Result<State, Fail>
    requires { IsWritable new }
    ensures { IfOk result IsWritable }
{
    let mut state = new;
    put(alloc, &mut state, frozen)?;
    freeze(alloc, &mut state)?;
    put(alloc, &mut state, active)?;
    Ok(state)
}

/// What the store holds now, for a pin of that limit which keeps no names.
pub fn taken<D: Disk>(
    alloc: Global,
    pins: &mut Pins,
    state: &State,
    version: &Version<D>,
    limit: u64,
) -> Result<Snapshot<D>, Fail> {
    let contents = Contents::of(alloc, state, version)?;
    match pins.pin(Vec::new(alloc), limit) {
        Ok(pin) => Ok(Snapshot::of(contents, pin)),
        Err(_) => Err(Fail::new("a pin")),
    }
}

/// Lets a snapshot and its pin go. Answers whether it was held.
pub fn let_go<D: Disk>(pins: &mut Pins, snapshot: Snapshot<D>) -> bool {
    pins.unpin(snapshot.release())
}
