//! Which erases are still to be done, and which of them a manifest keeps.

use crate::common::{Ask, Store, erases_of};
use lethe_memdisk::MemDisk;
use std::alloc::Global;
use std::test::Fail;

/// What is done to a store. A put has the delete key 15, and an erase the range from 10 up to 20.
#[derive(Clone, Copy)]
enum Step {
    Put(&'static str),
    Erase,
    Freeze,
    Flush,
    Begin,
    Install(usize),
}

/// A step, how many erases are still to be done behind it, and the places of those that the manifest has then.
type Row = (Step, u64, &'static [u64]);

const IN_TURN: [Row; 14] = [
    // Nothing waits for an erase with no put in front of it.
    (Step::Erase, 0, &[]),
    (Step::Put("a"), 0, &[]),
    // A freeze leaves the manifest's erases as they are, and a flush adds those that the segments record.
    (Step::Freeze, 0, &[]),
    (Step::Flush, 0, &[1]),
    // The file is swept of the first erase, and the put in the segment waits for the second.
    (Step::Put("b"), 0, &[1]),
    (Step::Erase, 1, &[1]),
    (Step::Erase, 2, &[1]),
    (Step::Freeze, 2, &[1]),
    // The second put is gone with the flush, and the file still waits for both.
    (Step::Flush, 2, &[1, 4, 5]),
    (Step::Put("c"), 2, &[1, 4, 5]),
    (Step::Freeze, 2, &[1, 4, 5]),
    (Step::Flush, 2, &[1, 4, 5]),
    // None leaves while a job is in flight, and with its outputs all are done.
    (Step::Begin, 2, &[1, 4, 5]),
    (Step::Install(0), 0, &[]),
];

/// A job that sweeps, with a flush and other erases beside it.
const BESIDE_A_SWEEP: [Row; 13] = [
    (Step::Put("a"), 0, &[]),
    (Step::Freeze, 0, &[]),
    (Step::Flush, 0, &[]),
    (Step::Erase, 1, &[]),
    (Step::Begin, 1, &[]),
    (Step::Put("b"), 1, &[]),
    (Step::Erase, 2, &[]),
    (Step::Freeze, 2, &[]),
    (Step::Erase, 3, &[]),
    // The flush applies all three to the second put, of which nothing is left. The first file waits for them.
    (Step::Flush, 3, &[2, 4, 5]),
    // With that file all are done. The last one stays, since the active segment records it.
    (Step::Install(0), 0, &[5]),
    (Step::Freeze, 0, &[5]),
    (Step::Flush, 0, &[5]),
];

/// A job that merges, with a flush and an erase beside it, and then the one that sweeps what it made.
const BESIDE_A_MERGE: [Row; 13] = [
    (Step::Put("a"), 0, &[]),
    (Step::Freeze, 0, &[]),
    (Step::Flush, 0, &[]),
    (Step::Put("b"), 0, &[]),
    (Step::Freeze, 0, &[]),
    (Step::Flush, 0, &[]),
    (Step::Begin, 0, &[]),
    (Step::Erase, 1, &[]),
    (Step::Freeze, 1, &[]),
    (Step::Flush, 1, &[3]),
    // The outputs are swept up to where the job began.
    (Step::Install(0), 1, &[3]),
    (Step::Begin, 1, &[3]),
    (Step::Install(1), 0, &[]),
];

fn ask_of(step: Step) -> Ask {
    match step {
        Step::Put(key) => Ask::Put(key, 15),
        Step::Erase => Ask::Erase(10, 20),
        Step::Freeze => Ask::Freeze,
        Step::Flush => Ask::Flush,
        Step::Begin => Ask::Begin,
        Step::Install(job) => Ask::Install(job),
    }
}

fn asks_of(alloc: Global, rows: &[Row], count: usize) -> Result<Vec<Ask>, Fail> {
    let mut asks = Vec::new(alloc);
    for (step, _, _) in rows.iter().take(count) {
        asks.push(ask_of(*step))?;
    }
    Ok(asks)
}

/// How many erases are still to be done behind the first steps, and the disk then.
fn behind(alloc: Global, rows: &[Row], count: usize) -> Result<(u64, MemDisk), Fail> {
    let asks = asks_of(alloc, rows, count)?;
    let mut store = Store::new(alloc)?;
    let taken = store.take(alloc, &asks);
    let left = store.close();
    taken?;
    Ok(left)
}

/// Carries the rows out from the first on, up to each of them.
fn keep_so(alloc: Global, rows: &[Row]) -> Result<(), Fail> {
    let mut count: usize = 0;
    for (_, pending, kept) in rows {
        count = count.saturating_add(1);
        let (told, mut disk) = behind(alloc, rows, count)?;
        let places = erases_of(alloc, &mut disk)?;
        if told != *pending || places.as_slice() != *kept {
            return Err(Fail::new(format_args!("row {count}: {told} {places:?}")));
        }
    }
    Ok(())
}

#[test]
fn erases_leave_with_an_install_once_nothing_waits_for_them(rt: HostRuntime) -> Result<(), Fail> {
    keep_so(rt.alloc(), &IN_TURN)
}

#[test]
fn a_flush_beside_a_job_keeps_its_erases(rt: HostRuntime) -> Result<(), Fail> {
    keep_so(rt.alloc(), &BESIDE_A_SWEEP)?;
    keep_so(rt.alloc(), &BESIDE_A_MERGE)
}

/// An opening keeps those for which the file waits.
#[test]
fn erases_that_are_done_leave_with_an_opening(rt: HostRuntime) -> Result<(), Fail> {
    let alloc = rt.alloc();
    let (_, disk) = behind(alloc, &IN_TURN, 9)?;
    let store = Store::opened(alloc, disk)?;
    let (pending, mut disk) = store.close();
    let places = erases_of(alloc, &mut disk)?;
    assert!(rt; pending == 2);
    assert!(rt; places.as_slice() == [4, 5].as_slice());
    Ok(())
}
