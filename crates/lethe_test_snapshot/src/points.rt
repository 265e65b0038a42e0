//! Snapshots that are read once the state has changed.
ghost use Rattle.lethe_state.specs.Writable.{IsWritable};

use crate::common::{delete, filled, let_go, new_state, put, state_at, taken};
use lethe_memdisk::{MemDisk, MemPort};
use lethe_pins::Pins;
use lethe_snapshot::Snapshot;
use lethe_state::State;
use lethe_test_values::key_of;
use lethe_version::Version;
use std::alloc::Global;
use std::test::Fail;

/// Both are deleted, and `c` is put.
fn change(alloc: Global, state: &mut State, version: &Version<MemDisk>) -> Result<(), Fail>
    requires { IsWritable state.old }
{
    delete(alloc, state, version, "a")?;
    delete(alloc, state, version, "b")?;
    put(alloc, state, "c")
}

/// What the keys `a`, `b` and `c` have, one value behind the other.
fn got(alloc: Global, snapshot: &Snapshot<MemDisk>) -> Result<Vec<u8>, Fail> {
    let mut port = MemPort::new();
    let mut values = Vec::new(alloc);
    for text in ["a", "b", "c"] {
        if let Some((_, value)) = snapshot.get(alloc, &mut port, &key_of(alloc, text)?)? {
            values.extend_from_slice(value.bytes())?;
        }
    }
    Ok(values)
}

/// What a scan of these keys gives.
fn listed(alloc: Global, snapshot: &Snapshot<MemDisk>) -> Result<Vec<u8>, Fail> {
    let mut port = MemPort::new();
    let mut values = Vec::new(alloc);
    let (lo, hi) = (key_of(alloc, "a")?, key_of(alloc, "d")?);
    for (_, _, value) in &snapshot.scan(alloc, &mut port, &lo, &hi)? {
        values.extend_from_slice(value.bytes())?;
    }
    Ok(values)
}

/// Whether its reads show these pairs.
fn shows(alloc: Global, snapshot: &Snapshot<MemDisk>, wanted: &str) -> Result<bool, Fail> {
    let wanted = wanted.as_bytes();
    Ok(got(alloc, snapshot)?.as_slice() == wanted && listed(alloc, snapshot)?.as_slice() == wanted)
}

/// Whether a snapshot that is made now shows these pairs.
fn shows_now(
    alloc: Global,
    state: &State,
    version: &Version<MemDisk>,
    wanted: &str,
) -> Result<bool, Fail> {
    let mut pins = Pins::new(alloc);
    let snapshot = taken(alloc, &mut pins, state, version, 100)?;
    let shown = shows(alloc, &snapshot, wanted);
    let_go(&mut pins, snapshot);
    shown
}

/// Whether a snapshot shows what the state had before it is changed.
fn shows_past(
    alloc: Global,
    state: &mut State,
    version: &Version<MemDisk>,
    snapshot: &Snapshot<MemDisk>,
) -> Result<bool, Fail>
    requires { IsWritable state.old }
{
    change(alloc, state, version)?;
    shows(alloc, snapshot, "ab")
}

#[test]
fn a_snapshot_shows_what_was_there_at_its_point(rt: HostRuntime) -> Result<(), Fail> {
    let alloc = rt.alloc();
    let version = Version::of(alloc, Vec::new(alloc))?;
    let mut state = filled(alloc, new_state(alloc)?, "a", "b")?;
    let mut pins = Pins::new(alloc);
    let snapshot = taken(alloc, &mut pins, &state, &version, 90)?;
    let shown = shows_past(alloc, &mut state, &version, &snapshot);
    let told = (snapshot.point(), snapshot.number(), snapshot.limit());
    let held = let_go(&mut pins, snapshot);
    assert!(rt; shown?);
    assert_eq!(rt; told, (2, 1, 90));
    assert!(rt; held && pins.len() == 0);
    assert!(rt; shows_now(alloc, &state, &version, "c")?);
    Ok(())
}

#[test]
fn a_snapshot_has_the_erases_that_are_pending(rt: HostRuntime) -> Result<(), Fail> {
    let alloc = rt.alloc();
    let version = Version::of(alloc, Vec::new(alloc))?;
    let state = filled(alloc, state_at(alloc, 0, Some(0))?, "a", "b")?;
    assert!(rt; shows_now(alloc, &state, &version, "b")?);
    Ok(())
}
