//! A store of three files, each of two pages of two entries.
ghost use Rattle.std.specs.Prelude.{IfOk};
ghost use Rattle.lethe_core.specs.Running.{IsSound};
ghost use Rattle.lethe_core.specs.View.{view_of};

use lethe_base::{Config, Refused};
use lethe_disk::Disk;
use lethe_engine::Engine;
use lethe_test_values::{SMALL, key_of, value_of};
use std::alloc::Global;
use std::test::Fail;

/// The keys of each file.
const FILES: [[&str; 4]; 3] = [
    ["a", "b", "c", "d"],
    ["e", "f", "g", "h"],
    ["i", "j", "k", "l"],
];

/// All keys.
pub const KEYS: [&str; 12] = ["a", "b", "c", "d", "e", "f", "g", "h", "i", "j", "k", "l"];

fn opened<D: Disk>(alloc: Global, disk: D) -> Result<Engine<D>, Fail>
    ensures { IfOk result (λ engine. IsSound D.tells (view_of engine.core)) }
{
    match Engine::open(alloc, disk, &Config::new(SMALL)?) {
        Ok(engine) => Ok(engine),
        Err(_) => Err(Fail::new("not opened")),
    }
}

fn put<D: Disk>(alloc: Global, engine: &mut Engine<D>, text: &str) -> Result<u64, Fail>
    requires { IsSound D.tells (view_of engine.old.core) }
    ensures { IsSound D.tells (view_of engine.new.core) }
{
    let key = key_of(alloc, text)?;
    let value = value_of(alloc, text.as_bytes())?;
    let mut port = engine.new_port(alloc)?;
    Ok(engine.put(alloc, &mut port, key, 7, value)?)
}

/// Puts the keys into a file of their own.
fn add_file<D: Disk>(alloc: Global, engine: &mut Engine<D>, keys: &[&str]) -> Result<(), Fail>
    requires { IsSound D.tells (view_of engine.old.core) }
    ensures { IsSound D.tells (view_of engine.new.core) }
{
    for text in keys {
        put(alloc, engine, *text)?;
    }
    engine.freeze(alloc)?;
    engine.flush(alloc)?;
    Ok(())
}

fn add_files<D: Disk>(alloc: Global, engine: &mut Engine<D>) -> Result<(), Fail>
    requires { IsSound D.tells (view_of engine.old.core) }
    ensures { IsSound D.tells (view_of engine.new.core) }
{
    for keys in &FILES {
        add_file(alloc, engine, keys)?;
    }
    if engine.stat().files != 3 {
        return Err(Fail::new("three files"));
    }
    Ok(())
}

/// A store of these three files.
pub fn three_files<D: Disk>(alloc: Global, disk: D) -> Result<Engine<D>, Fail>
    ensures { IfOk result (λ engine. IsSound D.tells (view_of engine.core)) }
{
    let mut engine = opened(alloc, disk)?;
    add_files(alloc, &mut engine)?;
    Ok(engine)
}

/// How many pairs a scan answers.
pub fn scan<D: Disk>(
    alloc: Global,
    engine: &mut Engine<D>,
    lo: &str,
    hi: &str,
) -> Result<Result<usize, Refused>, Fail>
    requires { IsSound D.tells (view_of engine.old.core) }
    ensures { IsSound D.tells (view_of engine.new.core) }
{
    let lo = key_of(alloc, lo)?;
    let hi = key_of(alloc, hi)?;
    let mut port = engine.new_port(alloc)?;
    let answer = engine.scan(alloc, &mut port, &lo, &hi);
    Ok(answer.map(|pairs| pairs.len()))
}
