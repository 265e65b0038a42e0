//! What a store remembers while it is changed, and how its buffers are frozen and flushed.
ghost use Rattle.std.specs.Prelude as prelude;
ghost use Rattle.std.specs.Prelude.{◌≡◌, ◌<◌, [], None, IfOk, OnOk, IsSome};
ghost use Rattle.lethe_advance.specs.declared.new_header.NewHeader.{NewHeader};
ghost use Rattle.lethe_base.specs.Limits.{max_place};
ghost use Rattle.lethe_segment.specs.Records.{RecordHasSpelling};
ghost use Rattle.lethe_state.specs.Clock.{clock_of};
ghost use Rattle.lethe_state.specs.Room.{IsStepFrom};
ghost use Rattle.lethe_state.specs.Writable.{IsWritable};

use lethe_advance::Step;
use lethe_base::{Kind, Name, Refused};
use lethe_manifest::{Manifest, read_manifest};
use lethe_mem::Buffer;
use lethe_memdisk::MemDisk;
use lethe_segment::{Record, new_segment};
use lethe_state::{Prepared, State};
use lethe_test_values::{key_of, value_of};
use lethe_version::Version;
use std::alloc::Global;
use std::process::Abort;
use std::test::Fail;

/// The manifest of a new store: manifest 2, which cites segment 1, with 3 as the next number.
const MANIFEST: [u8; 71] =
    *b"LM\x01\0\0\0\0\0\0\0\x02\0\0\0\0\0\0\0d\x02\x02\0\x02\x02\0\x02\0\x04\0\0\0\0\0\0\0\0\0\0\0\0\0\0\0\0\0\0\0\0\0\0\0\0\x03\0\0\0\0\0\x01\0\0\0\0\0\0\0\x01\0\0\0\0";

fn new_state(alloc: Global) -> Result<State, Fail>
    ensures { IfOk result IsWritable }
{
    let manifest = read_manifest(alloc, &MANIFEST).ok().ok_or("a manifest")?;
    if manifest.segments.items().len() != 1 {
        return Err(Fail::new("one segment"));
    }
    Ok(State::opened(alloc, manifest)?)
}

fn enter(alloc: Global, state: &mut State, next: Record) -> Result<(), Fail>
    requires writable { IsWritable state.old }
    requires fits { state.old.count < max_place }
    requires spelled { RecordHasSpelling next }
    ensures { OnOk result (IsWritable state.new) }
{
    let Prepared { end, pending, .. } = state.prepare(alloc, &next)?;
    state.enter(next, end, pending);
    Ok(())
}

fn put(alloc: Global, state: &mut State, text: &str) -> Result<(), Fail>
    requires { IsWritable state.old }
    ensures { OnOk result (IsWritable state.new) }
{
    state.may_change()?;
    let next = state.put_record(key_of(alloc, text)?, 5, value_of(alloc, b"x")?);
    enter(alloc, state, next)
}

fn delete(
    alloc: Global,
    state: &mut State,
    version: &Version<MemDisk>,
    text: &str,
) -> Result<(), Fail>
    requires { IsWritable state.old }
    ensures { OnOk result (IsWritable state.new) }
{
    state.may_change()?;
    let next = state.delete_record(version, key_of(alloc, text)?);
    enter(alloc, state, next)
}

/// Four records, of two keys.
fn filled(alloc: Global, version: &Version<MemDisk>) -> Result<State, Fail>
    ensures { IfOk result IsWritable }
{
    let mut state = new_state(alloc)?;
    delete(alloc, &mut state, version, "a")?;
    put(alloc, &mut state, "a")?;
    delete(alloc, &mut state, version, "a")?;
    put(alloc, &mut state, "b")?;
    Ok(state)
}

fn filled_state(alloc: Global) -> Result<State, Fail>
    ensures { IfOk result IsWritable }
{
    let version = Version::of(alloc, Vec::new(alloc))?;
    filled(alloc, &version)
}

/// Draws seven numbers, from 3 on.
fn draw(state: &mut State) -> Result<(), Fail>
    requires { IsWritable state.old }
    ensures unfrozen { OnOk result (state.new.frozen ≡ state.old.frozen) }
    ensures writable { OnOk result (IsWritable state.new) }
{
    for _ in 0..7 {
        state.free_number().ok_or("a number")?;
        state.draw();
    }
    Ok(())
}

fn freezing(alloc: Global, state: &State) -> Result<Step, Fail>
    requires { IsWritable state.now }
    ensures unfrozen { OnOk result (state.now.frozen ≡ None) }
    ensures step { IfOk result (IsStepFrom 2 (clock_of state.now.manifest) state.now []) }
{
    match state.frozen() {
        None => Ok(state.freezing(alloc)?),
        Some(_) => Err(Fail::new("no frozen buffer")),
    }
}

// How many headers a flush over no files makes, and its step.
fn flushing(alloc: Global, state: &State) -> Result<(usize, Step), Fail>
    requires writable { IsWritable state.now }
    requires frozen { IsSome state.now.frozen }
    ensures { IfOk result (λ made. (headers : prelude.List NewHeader) × IsStepFrom 1 (clock_of state.now.manifest) state.now headers made.1) }
{
    let version: Version<MemDisk> = Version::of(alloc, Vec::new(alloc))?;
    let (headers, step) = state.flushing(alloc, &version)?;
    Ok((headers.len(), step))
}

// The numbers of the manifest and behind it, and how many changes it counts.
fn numbers_of(manifest: &Manifest) -> (u64, u64, u64) {
    (manifest.no, manifest.next, manifest.count)
}

fn has_room_at_first(alloc: Global) -> Result<bool, Fail> {
    let state = new_state(alloc)?;
    Ok(state.has_room())
}

fn check_filled(rt: &impl Abort, state: &State) {
    assert!(rt; !state.has_room());
    let counts = (state.count(), state.records(), state.active().len());
    assert!(rt; (counts, state.end()) == ((4, 4, 2), 90));
}

fn check_stop(rt: &impl Abort, state: &mut State) -> Result<(), Fail>
    requires { IsWritable state.old }
{
    state.may_change()?;
    assert!(rt; state.stop() == 5);
    assert!(rt; state.may_change() == Err(Refused::Stopped { at: 5 }));
    Ok(())
}

#[test]
fn changes_are_entered_while_there_is_room(rt: HostRuntime) -> Result<(), Fail> {
    assert!(rt; has_room_at_first(rt.alloc())?);
    let mut state = filled_state(rt.alloc())?;
    check_filled(&rt, &state);
    check_stop(&rt, &mut state)
}

fn check_new_segment(rt: &impl Abort, step: &Step) -> Result<(), Fail> {
    assert!(rt; numbers_of(&step.manifest) == (4, 5, 4));
    assert!(rt; step.manifest.segments.items() == [1, 3].as_slice());
    let made = step.objects.first().ok_or("an object")?;
    assert!(rt; (made.name.kind, made.name.no) == (Kind::Segment, 3));
    assert!(rt; made.bytes.items() == new_segment(3).as_slice());
    Ok(())
}

fn check_frozen(rt: &impl Abort, state: &State) {
    assert!(rt; (state.count(), state.records(), state.end(), state.next()) == (4, 0, 11, 5));
    let frozen = state.frozen().map(|frozen| frozen.len());
    assert!(rt; frozen == Some(2));
}

#[test]
fn a_buffer_is_frozen(rt: HostRuntime) -> Result<(), Fail> {
    let mut state = filled_state(rt.alloc())?;
    let step = freezing(rt.alloc(), &state)?;
    check_new_segment(&rt, &step)?;
    state.freeze(rt.alloc(), step);
    check_frozen(&rt, &state);
    Ok(())
}

fn drawn_state(alloc: Global) -> Result<State, Fail>
    ensures writable { IfOk result IsWritable }
{
    let mut state = filled_state(alloc)?;
    draw(&mut state)?;
    Ok(state)
}

fn check_drawn(rt: &impl Abort, manifest: &Manifest) {
    assert!(rt; numbers_of(manifest) == (11, 12, 4));
    assert!(rt; manifest.segments.items() == [1, 10].as_slice());
}

fn check_drawn_flush(rt: &impl Abort, alloc: Global, state: &State) -> Result<(), Fail>
    requires writable { IsWritable state.now }
    requires frozen { IsSome state.now.frozen }
{
    let (_, step) = flushing(alloc, state)?;
    assert!(rt; numbers_of(&step.manifest) == (14, 15, 4));
    Ok(())
}

#[test]
fn drawn_numbers_are_left_out(rt: HostRuntime) -> Result<(), Fail> {
    let mut state = drawn_state(rt.alloc())?;
    let step = freezing(rt.alloc(), &state)?;
    check_drawn(&rt, &step.manifest);
    state.freeze(rt.alloc(), step);
    check_drawn_flush(&rt, rt.alloc(), &state)
}

const SEGMENT: Name = Name {
    kind: Kind::Segment,
    no: 1,
};

// No file is below, so the tombstone is gone: one page with one put.
fn check_flush(rt: &impl Abort, headers: usize, step: &Step) {
    assert!(rt; (headers, step.objects.len()) == (1, 2));
    let manifest = &step.manifest;
    assert!(rt; (numbers_of(manifest), manifest.files.items().len()) == ((7, 8, 4), 1));
    assert!(rt; manifest.segments.items() == [3].as_slice());
    assert!(rt; step.gone.as_slice() == [SEGMENT].as_slice());
}

#[test]
fn a_frozen_buffer_is_flushed(rt: HostRuntime) -> Result<(), Fail> {
    let mut state = filled_state(rt.alloc())?;
    let step = freezing(rt.alloc(), &state)?;
    state.freeze(rt.alloc(), step);
    let (headers, step) = flushing(rt.alloc(), &state)?;
    check_flush(&rt, headers, &step);
    state.flush(step);
    assert!(rt; state.frozen().is_none() && state.manifest().no == 7 && state.next() == 8);
    Ok(())
}
