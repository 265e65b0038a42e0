//! The limit of a pin, by what is older than the clock.

ghost use Rattle.std.specs.Prelude.{OnOk};
ghost use Rattle.lethe_state.specs.Writable.{IsWritable};

use crate::common::{erase_at, freeze, put_since, state_at};
use crate::files::version_of;
use lethe_memdisk::MemDisk;
use lethe_snapshot::limit_of;
use lethe_state::State;
use lethe_version::Version;
use std::alloc::Global;
use std::test::Fail;

/// What a store holds at time 50, with a threshold of 100, and the limit of a pin that is made then.
struct Row {
    /// Whether the buffers have puts, for which a pending erase is still to be done.
    puts: bool,
    /// The time of the active buffer's put, where it has one.
    active: Option<u8>,
    /// The time of the frozen buffer's put.
    frozen: Option<u8>,
    /// The time of the pending erase, where there is one.
    erase: Option<u8>,
    /// The time of the erase that the active segment records, where it records one.
    recorded: Option<u8>,
    /// Whether there is the file, one of whose puts has the time 20.
    file: bool,
    limit: u64,
}

const ROWS: [Row; 11] = [
    // Nothing but puts without a time.
    Row {
        puts: true,
        active: None,
        frozen: None,
        erase: None,
        recorded: None,
        file: false,
        limit: 150,
    },
    Row {
        puts: true,
        active: Some(45),
        frozen: None,
        erase: None,
        recorded: None,
        file: false,
        limit: 145,
    },
    Row {
        puts: true,
        active: Some(45),
        frozen: Some(40),
        erase: None,
        recorded: None,
        file: false,
        limit: 140,
    },
    Row {
        puts: true,
        active: None,
        frozen: Some(40),
        erase: Some(30),
        recorded: None,
        file: false,
        limit: 130,
    },
    Row {
        puts: true,
        active: Some(45),
        frozen: Some(40),
        erase: Some(30),
        recorded: None,
        file: true,
        limit: 120,
    },
    // Each alone.
    Row {
        puts: true,
        active: None,
        frozen: Some(0),
        erase: None,
        recorded: None,
        file: false,
        limit: 100,
    },
    Row {
        puts: true,
        active: None,
        frozen: None,
        erase: Some(0),
        recorded: None,
        file: false,
        limit: 100,
    },
    Row {
        puts: true,
        active: None,
        frozen: None,
        erase: None,
        recorded: None,
        file: true,
        limit: 120,
    },
    // No put waits for the erase, so it is done; one that a segment records counts nevertheless.
    Row {
        puts: false,
        active: None,
        frozen: None,
        erase: Some(0),
        recorded: None,
        file: false,
        limit: 150,
    },
    Row {
        puts: false,
        active: None,
        frozen: None,
        erase: None,
        recorded: Some(10),
        file: false,
        limit: 110,
    },
    Row {
        puts: false,
        active: None,
        frozen: None,
        erase: None,
        recorded: Some(40),
        file: true,
        limit: 120,
    },
];

/// Puts of both buffers, where the row has them.
fn put_all(alloc: Global, state: &mut State, row: &Row) -> Result<(), Fail>
    requires { IsWritable state.old }
    ensures { OnOk result (IsWritable state.new) }
{
    if !row.puts {
        return Ok(());
    }
    put_since(alloc, state, "e", row.frozen)?;
    freeze(alloc, state)?;
    put_since(alloc, state, "f", row.active)
}

/// The erase that the active segment records, where the row has one.
fn erase(alloc: Global, state: &mut State, row: &Row) -> Result<(), Fail>
    requires { IsWritable state.old }
    ensures { OnOk result (IsWritable state.new) }
{
    match row.recorded {
        Some(time) => erase_at(alloc, state, time),
        None => Ok(()),
    }
}

fn limit_with(alloc: Global, row: &Row) -> Result<u64, Fail> {
    let mut state = state_at(alloc, 50, row.erase)?;
    put_all(alloc, &mut state, row)?;
    erase(alloc, &mut state, row)?;
    let version = if row.file {
        version_of::<MemDisk>(alloc)?
    } else {
        Version::of(alloc, Vec::new(alloc))?
    };
    Ok(limit_of(&state, &version))
}

#[test]
fn a_limit_is_a_threshold_later_than_the_oldest_obligation(rt: HostRuntime) -> Result<(), Fail> {
    for row in &ROWS {
        assert_eq!(rt; limit_with(rt.alloc(), row)?, row.limit);
    }
    Ok(())
}
