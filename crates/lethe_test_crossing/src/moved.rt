//! A store that is changed in another thread.
ghost use Rattle.lethe_core.specs.Running.{IsSound};
ghost use Rattle.lethe_core.specs.View.{view_of};

use crate::common::put_into;
use lethe_disk::Disk;
use lethe_engine::Engine;
use std::alloc::Global;
use std::thread::{Threads, join};

/// The store, into which another thread has put the old value.
pub fn put_there<D: Disk, R: Threads + Sync>(rt: &R, alloc: Global, engine: Engine<D>) -> Engine<D>
    requires { IsSound D.tells (view_of engine.core) }
    ensures { IsSound D.tells (view_of result.core) }
{
    let (engine, _) = join(
        rt,
        move || -> Engine<D>
            requires { IsSound D.tells (view_of engine.core) }
            ensures { IsSound D.tells (view_of result.core) }
        { put_into(alloc, engine, "old") },
        || true,
    );
    engine
}
