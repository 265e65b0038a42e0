//! What a run of events asks of a store, and what it answers.
ghost use Rattle.std.specs.Prelude.{◌≡◌};
ghost use Rattle.lethe_drive.specs.Past.{named_by};

use lethe_base::{Key, List, Range, Refused, Value};
use lethe_engine::Ticked;
use lethe_time::Time;

/// One event.
#[derive(Debug, Drop)]
pub enum Event {
    Put { key: Key, dkey: u64, value: Value },
    Delete { key: Key },
    /// Erases the values whose delete keys lie in the range.
    Erase { range: Range },
    /// Moves the clock.
    Tick { to: Time },
    Get { key: Key },
    /// From `lo` up to `hi` excluded.
    Scan { lo: Key, hi: Key },
    Freeze,
    Flush,
    /// Begins a job. Jobs are numbered from 0, in the order in which they were begun.
    Begin,
    /// Takes the job's next page and writes it.
    WriteOut { job: usize },
    /// Takes and writes the pages that are left, and installs the job.
    Install { job: usize },
    /// Gives the job up.
    Cancel { job: usize },
    /// Pins what the store holds now.
    Pin,
    /// Lets a pin go that the run made.
    Release { pin: u64 },
}

impl Event {
    /// The number of the job that the event names, if it names one.
    pub(crate) fn job(&self) -> Option<usize>
        ensures { result ≡ named_by self.now }
    {
        match self {
            Event::WriteOut { job } | Event::Install { job } | Event::Cancel { job } => Some(*job),
            _ => None,
        }
    }
}

/// The reply to an event.
#[derive(Debug, Drop)]
pub enum Reply {
    /// The place of a change in the store's history.
    Place(u64),
    /// The place of a tick, and the clock.
    Ticked(Ticked),
    /// The delete key and the value of a key.
    Got(Option<(u64, Value)>),
    /// Keys with their delete keys and values, ascending.
    Pairs(List<(Key, u64, Value)>),
    /// Whether there was anything to freeze or to flush, or a page to write.
    Flag(bool),
    /// The number of a job that was begun.
    Job(usize),
    /// The number of a pin that was made. Pins are numbered from 1, in the order in which they were made since the store was opened.
    Pinned(u64),
    /// A job was installed or given up, or a pin was let go.
    Unit,
    Refused(Refused),
    /// The event names a job that isn't there: it was never begun, it has ended, or one of its calls was refused and the event doesn't give it up. Or it names a pin that the run
    /// hasn't made, or has let go.
    NoSuch,
}
