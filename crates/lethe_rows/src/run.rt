//! One run of the program over memory.

use lethe_disk::Disk;
use lethe_memdisk::MemDisk;
use lethe_run::run;
use lethe_wire::{MemSink, MemSource};
use std::alloc::Global;
use std::str;
use std::test::Fail;

/// How a run ended, and what it wrote.
#[derive(Drop)]
pub struct Printed {
    pub status: u8,
    pub text: Vec<u8>,
}

impl Printed {
    /// Fails where the run ended or printed otherwise.
    pub fn must_be(&self, status: u8, text: &str) -> Result<(), Fail> {
        if self.status == status && self.text.as_slice() == text.as_bytes() {
            return Ok(());
        }
        let ended = self.status;
        let printed = str::from_utf8(&self.text)?;
        Err(Fail::new(format_args!("status {ended}: {printed}")))
    }
}

/// The same, and the disk that it gave back.
#[derive(Drop)]
pub struct Left {
    pub printed: Printed,
    pub disk: MemDisk,
}

/// Runs the words over a script and an empty disk. The reads and writes with these numbers fail.
pub fn run_of(
    alloc: Global,
    words: &[&str],
    script: &[u8],
    failing_reads: &[u64],
    failing_writes: &[u64],
) -> Result<Printed, Fail> {
    let disk = MemDisk::new(alloc, 1_000, Vec::new(alloc))?;
    let left = run_over(alloc, words, script, failing_reads, failing_writes, disk)?;
    Ok(left.printed)
}

/// Runs the words over a script and this disk. The reads and writes with these numbers fail.
pub fn run_over(
    alloc: Global,
    words: &[&str],
    script: &[u8],
    failing_reads: &[u64],
    failing_writes: &[u64],
    disk: MemDisk,
) -> Result<Left, Fail> {
    let (printed, disk) = run_on(alloc, words, script, failing_reads, failing_writes, disk)?;
    Ok(Left { printed, disk })
}

/// The same over a disk of any kind.
pub fn run_on<D: Disk>(
    alloc: Global,
    words: &[&str],
    script: &[u8],
    failing_reads: &[u64],
    failing_writes: &[u64],
    disk: D,
) -> Result<(Printed, D), Fail> {
    let mut given = Vec::new(alloc);
    for word in words {
        given.push(String::from_str(alloc, word)?)?;
    }
    let mut source = MemSource::new(script.to_vec(alloc)?, failing_reads.to_vec(alloc)?);
    let mut sink = MemSink::new(alloc, failing_writes.to_vec(alloc)?)?;
    let ended = run(alloc, &given, &mut source, &mut sink, disk);
    let printed = Printed {
        status: ended.status,
        text: sink.bytes().to_vec(alloc)?,
    };
    Ok((printed, ended.disk))
}
