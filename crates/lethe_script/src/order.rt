//! What a script asks for.

use crate::caller::Caller;
use crate::slot::Slot;
use lethe_base::{Key, List, Range, Value};
use lethe_time::Time;

/// What one line asks for.
#[derive(Debug, Drop)]
pub enum Act {
    /// Set the delete key and the value of a key.
    Put { key: Key, dkey: u64, value: Value },
    /// Look a key up.
    Get { key: Key },
    /// List the keys from `lo` up to `hi`, which is excluded.
    Scan { lo: Key, hi: Key },
    /// Remove a key.
    Delete { key: Key },
    /// Remove the keys whose delete keys lie in a range.
    Erase { range: Range },
    /// Tell of the store as a whole.
    Stat,
    /// Move the clock to a time.
    Tick { to: Time },
    /// Hold the store as it is now, in a slot.
    Pin { slot: Slot },
    /// Look a key up in what a slot holds.
    PinGet { slot: Slot, key: Key },
    /// List the keys of what a slot holds, from `lo` up to `hi`, which is excluded.
    PinScan { slot: Slot, lo: Key, hi: Key },
    /// Let go what a slot holds.
    Unpin { slot: Slot },
}

/// What one line asks for, and who asks.
#[derive(Debug, Drop)]
pub struct Order {
    /// The number of the line in its script, from 1 on; skipped lines count.
    pub line: u64,
    pub caller: Caller,
    pub act: Act,
}

/// What a line says that isn't skipped.
#[derive(Debug, Drop)]
pub(crate) enum Item {
    /// The phase ends.
    PhaseEnd,
    /// A caller asks for an act.
    Order(Order),
}

/// What a whole script asks for.
#[derive(Debug, Drop)]
pub struct Script {
    /// The orders of each phase, in the order of their lines. There is one phase more than lines `phase`.
    pub phases: List<List<Order>>,
}
