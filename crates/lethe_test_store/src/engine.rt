//! The calls of a store, and what is read and told of it.
ghost use Rattle.std.specs.Prelude.{IfOk};
ghost use Rattle.lethe_core.specs.Running.{IsSound};
ghost use Rattle.lethe_core.specs.View.{view_of};

use crate::common::{empty_disk, opened};
use lethe_disk::Disk;
use lethe_drive::{Engine, Stat};
use lethe_test_values::{key_of, value_of};
use std::alloc::Global;
use std::test::Fail;

/// A call that may change a store, and what it answers: the place of a change, and whether there was anything to do.
#[derive(Clone, Copy, Debug)]
enum Step {
    Put(&'static str, u64, u64),
    Delete(&'static str, u64),
    Freeze(bool),
    Flush(bool),
}

/// Up to a store of one file, a frozen buffer and one put.
const STEPS: [Step; 13] = [
    Step::Freeze(false),
    Step::Put("a", 11, 1),
    Step::Freeze(true),
    Step::Freeze(false),
    Step::Flush(true),
    Step::Flush(false),
    Step::Freeze(false),
    Step::Put("b", 15, 2),
    Step::Put("c", 12, 3),
    Step::Delete("a", 4),
    Step::Delete("x", 5),
    Step::Freeze(true),
    Step::Put("d", 30, 6),
];

fn put<D: Disk>(alloc: Global, engine: &mut Engine<D>, text: &str, dkey: u64) -> Result<u64, Fail>
    requires { IsSound D.tells (view_of engine.old.core) }
    ensures { IsSound D.tells (view_of engine.new.core) }
{
    let key = key_of(alloc, text)?;
    let value = value_of(alloc, text.as_bytes())?;
    let mut port = engine.new_port(alloc)?;
    Ok(engine.put(alloc, &mut port, key, dkey, value)?)
}

fn delete<D: Disk>(alloc: Global, engine: &mut Engine<D>, text: &str) -> Result<u64, Fail>
    requires { IsSound D.tells (view_of engine.old.core) }
    ensures { IsSound D.tells (view_of engine.new.core) }
{
    let key = key_of(alloc, text)?;
    let mut port = engine.new_port(alloc)?;
    Ok(engine.delete(alloc, &mut port, key)?)
}

/// Makes the call, and tells whether it answered so.
fn answers_so<D: Disk>(alloc: Global, engine: &mut Engine<D>, step: Step) -> Result<bool, Fail>
    requires { IsSound D.tells (view_of engine.old.core) }
    ensures { IsSound D.tells (view_of engine.new.core) }
{
    match step {
        Step::Put(text, dkey, place) => Ok(put(alloc, engine, text, dkey)? == place),
        Step::Delete(text, place) => Ok(delete(alloc, engine, text)? == place),
        Step::Freeze(done) => Ok(engine.freeze(alloc)? == done),
        Step::Flush(done) => Ok(engine.flush(alloc)? == done),
    }
}

fn answer_all<D: Disk>(alloc: Global, engine: &mut Engine<D>, steps: &[Step]) -> Result<(), Fail>
    requires { IsSound D.tells (view_of engine.old.core) }
    ensures { IsSound D.tells (view_of engine.new.core) }
{
    for step in steps {
        if !answers_so(alloc, engine, *step)? {
            return Err(Fail::new("another answer"));
        }
    }
    Ok(())
}

/// The delete key of the key.
fn got<D: Disk>(
    alloc: Global,
    engine: &Engine<D>,
    port: &mut D::Port,
    text: &str,
) -> Result<Option<u64>, Fail> {
    let key = key_of(alloc, text)?;
    match engine.get(alloc, port, &key)? {
        Some((dkey, _)) => Ok(Some(dkey)),
        None => Ok(None),
    }
}

/// Whether the keys in the range have these delete keys.
fn lists<D: Disk>(
    alloc: Global,
    engine: &Engine<D>,
    port: &mut D::Port,
    range: (&str, &str),
    dkeys: &[u64],
) -> Result<bool, Fail> {
    let lo = key_of(alloc, range.0)?;
    let hi = key_of(alloc, range.1)?;
    let pairs = engine.scan(alloc, port, &lo, &hi)?;
    Ok(pairs.len() == dkeys.len() && pairs.iter().zip(dkeys).all(|(pair, dkey)| pair.1 == *dkey))
}

/// Whether reads find what the steps left.
fn is_read<D: Disk>(alloc: Global, engine: &mut Engine<D>) -> Result<bool, Fail>
    requires { IsSound D.tells (view_of engine.old.core) }
    ensures { IsSound D.tells (view_of engine.new.core) }
{
    let mut port = engine.new_port(alloc)?;
    let gone = got(alloc, engine, &mut port, "a")?;
    let there = got(alloc, engine, &mut port, "b")?;
    let listed = lists(alloc, engine, &mut port, ("b", "d"), &[15, 12])?;
    Ok(gone.is_none() && there == Some(15) && listed)
}

/// A store behind the steps.
fn stepped<D: Disk>(alloc: Global, disk: D) -> Result<Engine<D>, Fail>
    ensures { IfOk result (λ engine. IsSound D.tells (view_of engine.core)) }
{
    let mut engine = opened(alloc, disk)?;
    answer_all(alloc, &mut engine, &STEPS)?;
    Ok(engine)
}

/// The disk that the steps leave, where reads find what they left.
fn read_disk<D: Disk>(alloc: Global, disk: D) -> Result<D, Fail> {
    let mut engine = stepped(alloc, disk)?;
    if !is_read(alloc, &mut engine)? {
        return Err(Fail::new("other reads"));
    }
    Ok(engine.into_disk())
}

/// How many changes a store has once it is opened again, where reads find what the steps left.
fn read_again<D: Disk>(alloc: Global, disk: D) -> Result<u64, Fail> {
    let mut engine = opened(alloc, disk)?;
    if !is_read(alloc, &mut engine)? {
        return Err(Fail::new("other reads"));
    }
    Ok(engine.count())
}

#[test]
fn calls_are_answered_also_once_it_is_opened_again(rt: HostRuntime) -> Result<(), Fail> {
    let alloc = rt.alloc();
    let disk = read_disk(alloc, empty_disk(alloc)?)?;
    assert!(rt; read_again(alloc, disk)? == 6);
    Ok(())
}

/// What a store tells of itself behind the steps, and once it is opened again.
fn told_twice<D: Disk>(alloc: Global, disk: D) -> Result<(Stat, Stat), Fail> {
    let engine = stepped(alloc, disk)?;
    let before = engine.stat();
    let again = opened(alloc, engine.into_disk())?;
    Ok((before, again.stat()))
}

#[test]
fn a_store_tells_of_its_files(rt: HostRuntime) -> Result<(), Fail> {
    let alloc = rt.alloc();
    let (before, after) = told_twice(alloc, empty_disk(alloc)?)?;
    assert!(rt; (before.files, before.tombs) == (1, 0));
    assert!(rt; (after.files, after.tombs) == (3, 1));
    assert!(rt; (after.clock, after.pins, after.pending) == (0, 0, 0));
    Ok(())
}
