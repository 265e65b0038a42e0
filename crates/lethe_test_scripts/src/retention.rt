//! What objects hold of a day whose retention is over.
ghost use Rattle.std.specs.Prelude.{◌<◌, length};

use crate::common::{empty_disk, must, run};
use crate::ticks::RETENTION;
use lethe_images::objects_of;
use lethe_memdisk::MemDisk;
use std::alloc::Global;
use std::process::Abort;

// Whether an object has these bytes in it.
fn has(alloc: Global, rt: &impl Abort, disk: &mut MemDisk, bytes: &[u8]) -> bool
    requires { 0 < length bytes.now }
{
    for (_, object) in must(rt, objects_of(alloc, disk)) {
        if object.windows(bytes.len()).any(|window| window == bytes) {
            return true;
        }
    }
    false
}

/// What a put of the erased day has behind its key: the delete key 20240, and the value of two bytes.
const ERASED: &[u8] = b"\0\0\0\0\0\0\x4f\x10\0\x02{}";

/// The put of the next day, with the delete key 20241.
const KEPT: &[u8] = b"user:18\0\0\0\0\0\0\x4f\x11\0\x05alice";

// The disk behind a script over the defaults.
fn behind(alloc: Global, rt: &impl Abort, script: &str) -> MemDisk {
    run(alloc, rt, &["run"], script, empty_disk(alloc, rt)).disk
}

#[test]
fn no_object_holds_a_value_of_the_erased_day(rt: HostRuntime) {
    let alloc = rt.alloc();
    let mut disk = behind(alloc, &rt, RETENTION);
    assert!(rt; !has(alloc, &rt, &mut disk, ERASED));
    assert!(rt; !has(alloc, &rt, &mut disk, b"{}"));
    assert!(rt; has(alloc, &rt, &mut disk, KEPT));
}

// The script up to its last tick.
fn without_last_tick(rt: &impl Abort) -> &'static str {
    let (front, _) = RETENTION.split_once("1 tick 1005").expect(rt, "a tick");
    front
}

#[test]
fn before_the_last_tick_an_object_holds_it(rt: HostRuntime) {
    let alloc = rt.alloc();
    let mut disk = behind(alloc, &rt, without_last_tick(&rt));
    assert!(rt; has(alloc, &rt, &mut disk, ERASED));
    assert!(rt; has(alloc, &rt, &mut disk, KEPT));
}
