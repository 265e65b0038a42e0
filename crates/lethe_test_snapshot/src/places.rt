//! Snapshots of a store with values in its active buffer, its frozen one and a file, which are deleted then.
ghost use Rattle.lethe_state.specs.Writable.{IsWritable};

use crate::common::{delete, filled, let_go, new_state, taken};
use crate::files::version_of;
use lethe_base::Refused;
use lethe_disk::Disk;
use lethe_memdisk::{FlakyDisk, FlakyPort, MemDisk, MemPort};
use lethe_pins::Pins;
use lethe_snapshot::Snapshot;
use lethe_state::State;
use lethe_test_values::key_of;
use lethe_version::Version;
use std::alloc::Global;
use std::test::Fail;

/// Keys, with their values, and whether a page is fetched for them: four of the file, one of the frozen buffer, one of the active one, and one that isn't there.
const HELD: [(&str, &str, bool); 7] = [
    ("a", "x", true),
    ("b", "x", true),
    ("c", "x", true),
    ("d", "x", true),
    ("e", "e", false),
    ("f", "f", false),
    ("g", "", false),
];

/// One of each, which are deleted one after the other.
const DELETED: [&str; 3] = ["a", "e", "f"];

/// The values of all, in the order of their keys.
const ALL: &str = "xxxxef";

/// Those that are left.
const LEFT: &str = "xxx";

/// The value of a key, or nothing where there is none.
fn got<D: Disk>(
    alloc: Global,
    port: &mut D::Port,
    snapshot: &Snapshot<D>,
    text: &str,
) -> Result<Result<Vec<u8>, Refused>, Fail> {
    match snapshot.get(alloc, port, &key_of(alloc, text)?) {
        Ok(Some((_, value))) => Ok(Ok(value.bytes().to_vec(alloc)?)),
        Ok(None) => Ok(Ok(Vec::new(alloc))),
        Err(why) => Ok(Err(why)),
    }
}

/// The values that a scan finds, one behind the other.
fn listed<D: Disk>(
    alloc: Global,
    port: &mut D::Port,
    snapshot: &Snapshot<D>,
) -> Result<Result<Vec<u8>, Refused>, Fail> {
    match snapshot.scan(alloc, port, &key_of(alloc, "a")?, &key_of(alloc, "z")?) {
        Ok(pairs) => {
            let mut values = Vec::new(alloc);
            for (_, _, value) in &pairs {
                values.extend_from_slice(value.bytes())?;
            }
            Ok(Ok(values))
        }
        Err(why) => Ok(Err(why)),
    }
}

/// Whether these were read.
fn is(read: &Result<Vec<u8>, Refused>, values: &str) -> bool {
    match read {
        Ok(bytes) => bytes.as_slice() == values.as_bytes(),
        Err(_) => false,
    }
}

const FAULT: Refused = Refused::ReadFault {
    before: 0,
    after: 1,
};

fn is_fault(read: &Result<Vec<u8>, Refused>) -> bool {
    match read {
        Ok(_) => false,
        Err(why) => *why == FAULT,
    }
}

/// Whether its reads show what was there.
fn shows_all(alloc: Global, snapshot: &Snapshot<MemDisk>) -> Result<bool, Fail> {
    let mut port = MemPort::new();
    for (text, value, _) in HELD {
        if !is(&got(alloc, &mut port, snapshot, text)?, value) {
            return Ok(false);
        }
    }
    Ok(is(&listed(alloc, &mut port, snapshot)?, ALL))
}

/// Deletes them in the store. Answers whether the snapshot's reads show what was there, at first and behind each.
fn shows_all_behind_each(
    alloc: Global,
    state: &mut State,
    version: &Version<MemDisk>,
    snapshot: &Snapshot<MemDisk>,
) -> Result<bool, Fail>
    requires { IsWritable state.old }
{
    let mut shown = shows_all(alloc, snapshot)?;
    for text in DELETED {
        delete(alloc, state, version, text)?;
        shown = shown && shows_all(alloc, snapshot)?;
    }
    Ok(shown)
}

/// Whether a snapshot that is made now shows what is left.
fn shows_left(alloc: Global, state: &State, version: &Version<MemDisk>) -> Result<bool, Fail> {
    let mut pins = Pins::new(alloc);
    let snapshot = taken(alloc, &mut pins, state, version, 100)?;
    let left = listed(alloc, &mut MemPort::new(), &snapshot);
    let_go(&mut pins, snapshot);
    Ok(is(&left?, LEFT))
}

#[test]
fn a_snapshot_shows_what_each_place_had(rt: HostRuntime) -> Result<(), Fail> {
    let alloc = rt.alloc();
    let version = version_of(alloc)?;
    let mut state = filled(alloc, new_state(alloc)?, "e", "f")?;
    let mut pins = Pins::new(alloc);
    let snapshot = taken(alloc, &mut pins, &state, &version, 100)?;
    let shown = shows_all_behind_each(alloc, &mut state, &version, &snapshot);
    let_go(&mut pins, snapshot);
    assert!(rt; shown?);
    assert!(rt; shows_left(alloc, &state, &version)?);
    Ok(())
}

/// A port whose fetch of that number fails.
fn port_of(alloc: Global, failing: u64) -> Result<FlakyPort, Fail> {
    let inner = MemDisk::new(alloc, 10, Vec::new(alloc))?;
    let mut disk = FlakyDisk::new(inner, vec![in alloc; failing]?);
    Ok(disk.port(alloc)?)
}

/// Whether each get is refused while its fetch fails, and then answers.
fn gets_again(alloc: Global, snapshot: &Snapshot<FlakyDisk>) -> Result<bool, Fail> {
    for (text, value, fetched) in HELD {
        let mut port = port_of(alloc, 1)?;
        let first = got(alloc, &mut port, snapshot, text)?;
        let second = got(alloc, &mut port, snapshot, text)?;
        let told = if fetched {
            is_fault(&first)
        } else {
            is(&first, value)
        };
        if !told || !is(&second, value) {
            return Ok(false);
        }
    }
    Ok(true)
}

/// Whether a scan is refused while one of its two fetches fails, and then answers.
fn scans_again(alloc: Global, snapshot: &Snapshot<FlakyDisk>) -> Result<bool, Fail> {
    for failing in [1, 2] {
        let mut port = port_of(alloc, failing)?;
        let first = listed(alloc, &mut port, snapshot)?;
        let second = listed(alloc, &mut port, snapshot)?;
        if !is_fault(&first) || !is(&second, ALL) {
            return Ok(false);
        }
    }
    Ok(true)
}

/// Deletes them in the store. Answers whether the snapshot's reads that a fault refuses answer the next time.
fn reads_again(
    alloc: Global,
    state: &mut State,
    version: &Version<FlakyDisk>,
    snapshot: &Snapshot<FlakyDisk>,
) -> Result<bool, Fail>
    requires { IsWritable state.old }
{
    for text in DELETED {
        delete(alloc, state, version, text)?;
    }
    Ok(gets_again(alloc, snapshot)? && scans_again(alloc, snapshot)?)
}

#[test]
fn a_read_that_a_fault_refused_answers_the_next_time(rt: HostRuntime) -> Result<(), Fail> {
    let alloc = rt.alloc();
    let version = version_of(alloc)?;
    let mut state = filled(alloc, new_state(alloc)?, "e", "f")?;
    let mut pins = Pins::new(alloc);
    let snapshot = taken(alloc, &mut pins, &state, &version, 100)?;
    let answered = reads_again(alloc, &mut state, &version, &snapshot);
    assert!(rt; let_go(&mut pins, snapshot));
    assert!(rt; answered?);
    Ok(())
}
