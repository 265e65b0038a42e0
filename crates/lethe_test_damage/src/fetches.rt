//! How many pages a scan fetches.

use crate::common::{scan, three_files};
use lethe_base::Refused;
use lethe_memdisk::{FlakyDisk, MemDisk};
use std::alloc::Global;
use std::test::Fail;

/// Whether the scan answers so many pairs where the fetch of that number fails, counted from 1. Else the fault is told.
fn answers(alloc: Global, lo: &str, hi: &str, failing: u64, pairs: usize) -> Result<bool, Fail> {
    match scan_failing(alloc, lo, hi, failing)? {
        Ok(found) if found == pairs => Ok(true),
        Err(
            Refused::ReadFault {
                before: 0,
                after: 1,
            },
        ) => Ok(false),
        _ => Err(Fail::new(format_args!("scan {lo} {hi}"))),
    }
}

/// What the scan answers where the fetch of that number fails.
fn scan_failing(
    alloc: Global,
    lo: &str,
    hi: &str,
    failing: u64,
) -> Result<Result<usize, Refused>, Fail> {
    let disk = MemDisk::new(alloc, 1000, Vec::new(alloc))?;
    let mut engine = three_files(alloc, FlakyDisk::new(disk, vec![in alloc; failing]?))?;
    scan(alloc, &mut engine, lo, hi)
}

/// Scans, with how many pairs they have and how many pages they fetch.
const SCANS: [(&str, &str, usize, u64); 6] = [
    ("a", "z", 12, 6),
    ("a", "e", 4, 2),
    ("b", "c", 1, 2),
    ("d", "f", 2, 4),
    ("c", "k", 8, 6),
    ("m", "z", 0, 0),
];

#[test]
fn a_scan_fetches_each_page_of_the_tiles_that_it_meets_once(rt: HostRuntime) -> Result<(), Fail> {
    let alloc = rt.alloc();
    for scan in &SCANS {
        let (lo, hi, pairs, fetches) = *scan;
        for failing in 1..=fetches {
            assert!(rt; !answers(alloc, lo, hi, failing, pairs)?);
        }
        assert!(rt; answers(alloc, lo, hi, fetches + 1, pairs)?);
    }
    Ok(())
}
