//! What the tests of a store share.
ghost use Rattle.std.specs.Prelude.{IfOk};
ghost use Rattle.lethe_core.specs.Running.{IsSound};
ghost use Rattle.lethe_core.specs.View.{view_of};

use lethe_base::{Config, Fields};
use lethe_disk::Disk;
use lethe_drive::Engine;
use lethe_memdisk::MemDisk;
use lethe_test_values::SMALL;
use std::alloc::Global;
use std::test::Fail;

fn config_of(fields: Fields) -> Result<Config, Fail> {
    Ok(Config::new(fields)?)
}

/// An empty disk, none of whose calls fails.
pub fn empty_disk(alloc: Global) -> Result<MemDisk, Fail> {
    Ok(MemDisk::new(alloc, 1000, Vec::new(alloc))?)
}

/// A store of the small configuration.
pub fn opened<D: Disk>(alloc: Global, disk: D) -> Result<Engine<D>, Fail>
    ensures { IfOk result (λ engine. IsSound D.tells (view_of engine.core)) }
{
    match Engine::open(alloc, disk, &config_of(SMALL)?) {
        Ok(engine) => Ok(engine),
        Err(_) => Err(Fail::new("not opened")),
    }
}
