//! Runs of generated scripts.

use lethe_generated::{Generated, Lines};
use lethe_memdisk::MemDisk;
use lethe_rows::{Left, run_over};
use std::alloc::Global;
use std::test::Fail;

/// Runs a script with the configuration of a generated one. Nothing of the source and the sink fails.
pub fn run(alloc: Global, made: &Generated, script: &str, disk: MemDisk) -> Result<Left, Fail> {
    run_over(alloc, &made.words, script.as_bytes(), &[], &[], disk)
}

/// Runs lines of it, which print what the map gives, and hands the disk back.
pub fn answered(
    alloc: Global,
    made: &Generated,
    lines: &Lines,
    disk: MemDisk,
) -> Result<MemDisk, Fail> {
    let left = run(alloc, made, &lines.script, disk)?;
    left.printed.must_be(0, &lines.text)?;
    Ok(left.disk)
}
