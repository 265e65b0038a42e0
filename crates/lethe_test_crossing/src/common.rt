//! A store, and puts and gets of it.
ghost use Rattle.std.specs.Prelude.{IfOk};
ghost use Rattle.lethe_core.specs.Running.{IsSound};
ghost use Rattle.lethe_core.specs.View.{view_of};

use lethe_base::{Config, Value};
use lethe_disk::Disk;
use lethe_engine::Engine;
use lethe_test_values::{SMALL, key_of, value_of};
use std::alloc::Global;
use std::test::Fail;

pub fn opened<D: Disk>(alloc: Global, disk: D) -> Result<Engine<D>, Fail>
    ensures { IfOk result (λ engine. IsSound D.tells (view_of engine.core)) }
{
    match Engine::open(alloc, disk, &Config::new(SMALL)?) {
        Ok(engine) => Ok(engine),
        Err(_) => Err(Fail::new("not opened")),
    }
}

/// Whether that is the value.
pub fn is_value(found: &Option<(u64, Value)>, text: &str) -> bool {
    matches!(found, Some((_, value)) if value.bytes() == text.as_bytes())
}

/// Puts the value under the key, and answers the place of the put where it was done.
pub fn put<D: Disk>(alloc: Global, engine: &mut Engine<D>, key: &str, value: &str) -> Option<u64>
    requires { IsSound D.tells (view_of engine.old.core) }
    ensures { IsSound D.tells (view_of engine.new.core) }
{
    let key = key_of(alloc, key).ok()?;
    let value = value_of(alloc, value.as_bytes()).ok()?;
    let mut port = engine.new_port(alloc).ok()?;
    engine.put(alloc, &mut port, key, 7, value).ok()
}

/// The store, into which the value was put under the key `a`, where there was memory.
pub fn put_into<D: Disk>(alloc: Global, mut engine: Engine<D>, value: &str) -> Engine<D>
    requires { IsSound D.tells (view_of engine.core) }
    ensures { IsSound D.tells (view_of result.core) }
{
    let _ = put(alloc, &mut engine, "a", value);
    engine
}

/// Whether the store has that value under the key.
pub fn has<D: Disk>(alloc: Global, engine: &mut Engine<D>, key: &str, value: &str) -> bool
    requires { IsSound D.tells (view_of engine.old.core) }
    ensures { IsSound D.tells (view_of engine.new.core) }
{
    let (Ok(key), Ok(mut port)) = (key_of(alloc, key), engine.new_port(alloc)) else {
        return false;
    };
    matches!(engine.get(alloc, &mut port, &key), Ok(found) if is_value(&found, value))
}
