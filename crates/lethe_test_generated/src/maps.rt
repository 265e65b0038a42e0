//! Generated scripts, which print what a plain map gives.

use crate::runs::answered;
use lethe_generated::Generated;
use lethe_images::roomy_disk;
use std::alloc::Global;
use std::test::Fail;

// Runs the parts one after another, each over the disk that the one before has left.
fn prints_what_a_map_gives(alloc: Global, made: &Generated) -> Result<(), Fail> {
    let mut disk = roomy_disk(alloc)?;
    for lines in &made.parts {
        disk = answered(alloc, made, lines, disk)?;
    }
    Ok(())
}

#[test]
fn a_generated_script_prints_what_a_map_gives(rt: HostRuntime) -> Result<(), Fail> {
    prints_what_a_map_gives(rt.alloc(), &Generated::of(rt.alloc(), 10, 30)?)
}

#[test]
fn a_generated_script_with_erases_prints_what_a_map_gives(rt: HostRuntime) -> Result<(), Fail> {
    prints_what_a_map_gives(rt.alloc(), &Generated::erasing(rt.alloc(), 10, 30)?)
}

#[test]
fn a_generated_script_with_pins_prints_what_maps_give(rt: HostRuntime) -> Result<(), Fail> {
    prints_what_a_map_gives(rt.alloc(), &Generated::pinning(rt.alloc(), 10, 30)?)
}
