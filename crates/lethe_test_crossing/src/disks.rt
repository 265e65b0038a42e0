//! All of it over a disk in memory and over a folder.
ghost use Rattle.lethe_core.specs.Running.{IsSound};
ghost use Rattle.lethe_core.specs.View.{view_of};

use crate::common::{has, opened};
use crate::moved::put_there;
use crate::read::read_beside;
use crate::shared::put_both;
use lethe_dirdisk::DirDisk;
use lethe_disk::Disk;
use lethe_engine::Engine;
use lethe_memdisk::MemDisk;
use std::alloc::Global;
use std::fs;
use std::sync::Wait;
use std::test::Fail;
use std::thread::Threads;

const FOLDER: &str = "lethe_crossing_folder";

/// Whether a put is done in another thread, into which the store goes and out of which it comes.
fn is_moved<D: Disk, R: Threads + Sync>(
    rt: &R,
    alloc: Global,
    engine: Engine<D>,
) -> (Engine<D>, bool)
    requires { IsSound D.tells (view_of engine.core) }
    ensures { IsSound D.tells (view_of result.0.core) }
{
    let mut engine = put_there(rt, alloc, engine);
    let is_there = has(alloc, &mut engine, "a", "old");
    let is_first = engine.count() == 1;
    (engine, is_first && is_there)
}

/// Whether a snapshot that another thread made shows the old value while a third puts a new one.
fn is_read<D: Disk, R: Threads + Sync>(
    rt: &R,
    alloc: Global,
    engine: Engine<D>,
) -> (Engine<D>, bool)
    requires { IsSound D.tells (view_of engine.core) }
    ensures { IsSound D.tells (view_of result.0.core) }
{
    let (mut engine, is_read) = read_beside(rt, alloc, engine);
    let is_there = has(alloc, &mut engine, "a", "new");
    let is_second = engine.count() == 2;
    (engine, is_read && is_there && is_second)
}

/// Whether two threads each put in one turn.
fn is_shared<D: Disk, R: Threads + Wait + Sync>(rt: &R, alloc: Global, engine: Engine<D>) -> bool
    requires { IsSound D.tells (view_of engine.core) }
{
    let Ok(mut engine) = put_both(rt, alloc, engine) else {
        return false;
    };
    has(alloc, &mut engine, "b", "shared") && engine.count() == 4
}

fn crosses<D: Disk, R: Threads + Wait + Sync>(rt: &R, alloc: Global, disk: D) -> Result<(), Fail> {
    let engine = opened(alloc, disk)?;
    let (engine, moved) = is_moved(rt, alloc, engine);
    let (engine, read) = is_read(rt, alloc, engine);
    let shared = is_shared(rt, alloc, engine);
    if moved && read && shared {
        Ok(())
    } else {
        Err(Fail::new(format_args!("moved {moved}, read {read}, shared {shared}")))
    }
}

#[test]
fn a_store_in_memory_crosses(rt: HostRuntime) -> Result<(), Fail> {
    let alloc = rt.alloc();
    crosses(&rt, alloc, MemDisk::new(alloc, 20_000, Vec::new(alloc))?)
}

#[test]
fn a_store_in_a_folder_crosses(rt: HostRuntime) -> Result<(), Fail> {
    let alloc = rt.alloc();
    let _ = fs::remove_dir_all(&rt, FOLDER);
    crosses(&rt, alloc, DirDisk::open(&rt, alloc, FOLDER)?)?;
    let _ = fs::remove_dir_all(&rt, FOLDER);
    Ok(())
}
