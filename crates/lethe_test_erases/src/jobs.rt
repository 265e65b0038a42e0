//! A job that was begun before an erase.

use crate::common::{Ask, Store, count_puts};
use lethe_drive::Reply;
use lethe_images::roomy_disk;
use lethe_memdisk::MemDisk;
use std::alloc::Global;
use std::test::Fail;

/// Eight puts in two files of level 0, a job that merges them, an erase of what they put, and the job installed.
const ASKS: [Ask; 16] = [
    Ask::Put("a", 7),
    Ask::Put("b", 7),
    Ask::Put("c", 7),
    Ask::Put("d", 7),
    Ask::Put("e", 7),
    Ask::Put("f", 7),
    Ask::Put("g", 7),
    Ask::Put("h", 7),
    // The fifth put froze the first four.
    Ask::Flush,
    Ask::Freeze,
    Ask::Flush,
    Ask::Begin,
    Ask::Erase(7, 8),
    Ask::WriteOut(0),
    Ask::Install(0),
    Ask::Get("a"),
];

const AGAIN: [Ask; 1] = [Ask::Get("a")];

/// Whether the last read found nothing, how many erases are still to be done, and the disk then.
fn told(alloc: Global, disk: MemDisk, asks: &[Ask]) -> Result<(bool, u64, MemDisk), Fail> {
    let mut store = Store::opened(alloc, disk)?;
    let replies = store.take(alloc, asks);
    let (pending, disk) = store.close();
    let none = matches!(replies?.last(), Some(Reply::Got(None)));
    Ok((none, pending, disk))
}

/// Its outputs still have the puts, which no read finds, also once the store is opened again.
#[test]
fn the_outputs_still_have_what_was_erased_since(rt: HostRuntime) -> Result<(), Fail> {
    let alloc = rt.alloc();
    let mut disk = roomy_disk(alloc)?;
    for asks in [ASKS.as_slice(), AGAIN.as_slice()] {
        let (none, pending, left) = told(alloc, disk, asks)?;
        disk = left;
        assert!(rt; (none, pending, count_puts(alloc, &mut disk)?) == (true, 1, 8));
    }
    Ok(())
}
