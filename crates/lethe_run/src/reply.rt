//! What the lines of a script are answered.

use lethe_base::{Key, List, Value};
use lethe_engine::{Stat, Ticked};

/// What one line is answered.
#[derive(Debug, Drop)]
pub enum Reply {
    /// A change is done, at this place of the history.
    Done {
        place: u64,
    },
    /// The clock was moved to its time, with a certificate where that is at least the threshold.
    Ticked(Ticked),
    /// What a key had behind `point` places.
    Got {
        point: u64,
        held: Option<(u64, Value)>,
    },
    /// What the keys of a range had behind `point` places, ascending.
    Scanned {
        point: u64,
        pairs: List<(Key, u64, Value)>,
    },
    /// What the store was as a whole behind `point` places.
    Counted {
        point: u64,
        stat: Stat,
    },
    /// A pin was made behind `point` places. It has this number, counted from 1 in the run, and while it is held a tick to its limit or a later time isn't made.
    Pinned {
        point: u64,
        number: u64,
        limit: u64,
    },
    /// What a key had behind `point` places, where the pin of this number was made.
    PinGot {
        number: u64,
        point: u64,
        held: Option<(u64, Value)>,
    },
    /// What the keys of a range had behind `point` places, where the pin of this number was made, ascending.
    PinScanned {
        number: u64,
        point: u64,
        pairs: List<(Key, u64, Value)>,
    },
    /// The pin of this number was let go behind `point` places.
    Unpinned {
        point: u64,
        number: u64,
    },
    /// The disk failed in a change, which has this place; its count of faults went from `before` to `after`.
    Fault {
        place: u64,
        before: u64,
        after: u64,
    },
    /// A change isn't made, since the one at this place failed.
    Stopped {
        at: u64,
    },
    /// A change isn't made, since the places up to the last one are used up, or the numbers of objects are.
    Exhausted {
        last: u64,
    },
    /// A tick isn't made, since behind `point` places the clock, which is this, is ahead of its time.
    Backwards {
        point: u64,
        clock: u64,
    },
    /// A tick isn't made, since a pin is held whose limit is at most its time: of those of the least limit the first has this number.
    Barred {
        number: u64,
        limit: u64,
    },
    /// A read isn't answered, or a change isn't made, since a fetch of a page failed.
    ReadFault,
    /// A read isn't answered, or a change isn't made, since the page of this number is damaged.
    Damaged {
        no: u64,
    },
}

/// A line that is printed.
#[derive(Debug, Drop)]
pub enum Line {
    /// A line of the script is answered, to its caller.
    Answer { caller: u64, reply: Reply },
}
