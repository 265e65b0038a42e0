//! A generated script whose disk is stopped at each device call, crashed, and run over again.

use crate::runs::run;
use lethe_disk::Disk;
use lethe_generated::{Generated, READ_AND_PUT};
use lethe_images::{IMAGES, image_of, roomy_disk, take_calls};
use lethe_memdisk::MemDisk;
use lethe_rows::{Printed, count_lines, done_lines};
use std::alloc::Global;
use std::str;
use std::test::Fail;

// What a disk is left for: the map behind the changes that were answered, or behind one more where one failed.
#[derive(Clone, Copy)]
struct Owed {
    done: usize,
    failed: bool,
}

impl Owed {
    // Counts the changes that a run has answered. Whether one failed is that of the last run.
    fn add(&mut self, text: &[u8]) {
        self.done = self.done.saturating_add(done_lines(text));
        self.failed = count_lines(text, b"1 fault ") != 0;
    }
}

// Runs the parts one after another, until the disk fails.
fn run_all(alloc: Global, made: &Generated, mut disk: MemDisk) -> Result<(Owed, MemDisk), Fail> {
    let mut owed = Owed {
        done: 0,
        failed: false,
    };
    for lines in &made.parts {
        if disk.faults() == 0 {
            let left = run(alloc, made, &lines.script, disk)?;
            owed.add(&left.printed.text);
            disk = left.disk;
        }
    }
    Ok((owed, disk))
}

// Whether a text is what the map behind so many changes gives for a scan of all keys, and then a put and a get.
fn is_behind(alloc: Global, made: &Generated, kept: usize, text: &[u8]) -> Result<bool, Fail> {
    match made.behind(alloc, kept)? {
        Some(wanted) => Ok(text == wanted.as_bytes()),
        None => Ok(false),
    }
}

// Whether a text is that of a disk that was left for this.
fn is_owed(alloc: Global, made: &Generated, owed: Owed, text: &[u8]) -> Result<bool, Fail> {
    let Owed { done, failed } = owed;
    if is_behind(alloc, made, done, text)? {
        return Ok(true);
    }
    Ok(failed && is_behind(alloc, made, done.saturating_add(1), text)?)
}

// Fails where something else is printed of such a disk.
fn must_be_owed(
    alloc: Global,
    made: &Generated,
    owed: Owed,
    printed: &Printed,
) -> Result<(), Fail> {
    let is_owed = is_owed(alloc, made, owed, &printed.text)?;
    if printed.status != 0 || !is_owed {
        let (done, text) = (owed.done, str::from_utf8(&printed.text)?);
        return Err(Fail::new(format_args!("behind {done} changes: {text}")));
    }
    Ok(())
}

// Opens a disk that was left for this, reads all of it, and makes one more put.
fn goes_on(alloc: Global, made: &Generated, owed: Owed, disk: MemDisk) -> Result<(), Fail> {
    let left = run(alloc, made, READ_AND_PUT, disk)?;
    must_be_owed(alloc, made, owed, &left.printed)
}

// The same of each disk that a crash may leave of one, behind so many of its calls.
fn images_go_on(
    alloc: Global,
    made: &Generated,
    owed: Owed,
    disk: &mut MemDisk,
    calls: u64,
) -> Result<(), Fail> {
    disk.fuse(20_000);
    take_calls(alloc, disk, calls)?;
    for image in IMAGES {
        goes_on(alloc, made, owed, image_of(disk, calls, image)?)?;
    }
    Ok(())
}

// The same of those, and of the disk itself.
fn all_go_on(
    alloc: Global,
    made: &Generated,
    owed: Owed,
    mut disk: MemDisk,
    calls: u64,
) -> Result<(), Fail> {
    images_go_on(alloc, made, owed, &mut disk, calls)?;
    goes_on(alloc, made, owed, disk)
}

// Stops the disk behind so many device calls, and sees that each disk that a crash may leave goes on. Whether a call failed.
fn is_stopped(alloc: Global, made: &Generated, calls: u64) -> Result<bool, Fail> {
    let mut disk = roomy_disk(alloc)?;
    disk.fuse(calls);
    let (owed, disk) = run_all(alloc, made, disk)?;
    let is_stopped = disk.faults() != 0;
    all_go_on(alloc, made, owed, disk, calls)?;
    Ok(is_stopped)
}

// Stops the disk behind each number of device calls that the runs take, and counts these.
fn stop_at_each(alloc: Global, made: &Generated) -> Result<u64, Fail> {
    for calls in 0..5_000 {
        if !is_stopped(alloc, made, calls)? {
            return Ok(calls);
        }
    }
    Err(Fail::new("too many calls"))
}

#[test]
fn a_generated_script_with_pins_that_is_stopped_loses_nothing_that_was_answered(
    rt: HostRuntime,
) -> Result<(), Fail> {
    let made = Generated::pinning(rt.alloc(), 14, 4)?;
    assert!(rt; stop_at_each(rt.alloc(), &made)? > 100);
    Ok(())
}
