//! Why a call of the store was refused.

use crate::Name;

/// Why a call was refused. Where several apply, `Stopped` is told first, then `Cancelled`, then the others in this order.
#[derive(Clone, Copy, Debug, PartialEq, Eq)]
pub enum Refused {
    /// The disk failed in this call, and its count of faults went from `before` to `after`. The store is stopped; `place`
    /// is that of the failed change in its history.
    Fault { place: u64, before: u64, after: u64 },
    /// The store was stopped by the failed change at this place.
    Stopped { at: u64 },
    /// A tick's time is below the clock.
    Backwards { clock: u64 },
    /// A held pin's limit is at most the tick's time. This is the pin of the least limit.
    Pinned { pin: u64, limit: u64 },
    /// There is no job to be begun.
    NothingDue,
    /// The job began in the round `begun`, and now it is a later one.
    Cancelled { begun: u64, now: u64 },
    /// A counter stands at its greatest number, `last`.
    Exhausted { last: u64 },
    /// A port failed, and its count of faults went from `before` to `after`.
    ReadFault { before: u64, after: u64 },
    /// There was no memory.
    NoMemory,
    /// A page has other bytes than its file says.
    Damaged { name: Name },
}
