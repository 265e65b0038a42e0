//! What a store's disk holds while a job is in flight.
ghost use Rattle.std.specs.Prelude.{OnOk};
ghost use Rattle.lethe_core.specs.Jobs.{IsAtWork};
ghost use Rattle.lethe_core.specs.Running.{IsSound};
ghost use Rattle.lethe_core.specs.View.{view_of};

use crate::common::{Store, held_on, must};
use lethe_disk::Disk;
use lethe_engine::Engine;
use lethe_images::Held;
use lethe_job::Job;
use lethe_memdisk::MemDisk;
use std::alloc::Global;
use std::process::Abort;
use std::test::Fail;

// A store of two files of level 0, each of two pages, and of a buffer of one record.
const KEYS: [&str; 9] = ["a", "b", "c", "d", "e", "f", "g", "h", "i"];

/// Fills two files of level 0.
pub fn fill(alloc: Global, rt: &impl Abort, store: &mut Store<MemDisk>) {
    for text in &KEYS {
        store.put(alloc, rt, *text, 7, *text).expect(rt, "a put");
    }
    store.flush(alloc, rt);
}

/// Writes the job's next page.
fn write_one<D: Disk>(alloc: Global, engine: &mut Engine<D>, job: &mut Job<D>) -> Result<(), Fail>
    requires sound { IsSound D.tells (view_of engine.old.core) }
    requires works { IsAtWork D.tells (view_of engine.old.core) job.old }
    ensures sound { IsSound D.tells (view_of engine.new.core) }
    ensures works { OnOk result (IsAtWork D.tells (view_of engine.new.core) job.new) }
{
    match job.next_piece(alloc)? {
        Some(piece) => engine.write_out(job, piece)?,
        None => return Err(Fail::new("no page")),
    }
    Ok(())
}

/// Begins a job and writes so many of its pages.
fn write_pages<D: Disk>(alloc: Global, engine: &mut Engine<D>, pages: usize) -> Result<(), Fail>
    requires { IsSound D.tells (view_of engine.old.core) }
{
    let mut job = engine.begin(alloc)?;
    for _ in 0..pages {
        write_one(alloc, engine, &mut job)?;
    }
    Ok(())
}

/// What is on the disk of a store of two files that has a job in flight, of which so many pages are written.
fn held_in_flight(alloc: Global, rt: &impl Abort, pages: usize) -> Held {
    let disk = MemDisk::new(alloc, 1000, Vec::new(alloc)).expect(rt, "memory");
    let mut store = Store::opened(alloc, rt, disk);
    fill(alloc, rt, &mut store);
    let mut engine = store.into_engine();
    must(rt, write_pages(alloc, &mut engine, pages));
    held_on(alloc, rt, &mut engine.into_disk())
}

/// Whether there are two files of two pages, and those of the job, which have the files' puts again.
fn has_job_beside_files(held: &Held, pages: usize) -> bool {
    (held.gates, held.manifests, held.files) == (1, 1, 2)
        && Some(held.pages) == pages.checked_add(4)
        && Some(held.puts.len())
            == pages
                .checked_add(pages)
                .and_then(|puts| puts.checked_add(9))
        && held.puts.iter().all(|place| 1 <= *place && *place <= 9)
}

#[test]
fn pages_of_a_job_are_spellings_of_stored_puts(rt: HostRuntime) {
    for pages in 0..5 {
        let held = held_in_flight(rt.alloc(), &rt, pages);
        assert!(rt; has_job_beside_files(&held, pages), "{pages} pages");
    }
}
