//! Why a run ended as it did.
ghost use Rattle.std.specs.Prelude.{◌≡◌};
ghost use Rattle.lethe_run.specs.Reasons.{status_of};

use crate::status::Status;
use lethe_base::{Config, List};
use lethe_recover::OpenWhy;
use lethe_script::BadLine;

/// Why a run ended as it did, with what is known of the cause.
#[derive(Debug, Drop)]
pub enum Reason {
    /// Each line was answered, each change is done or is a tick behind the clock or barred by a pin, and each read was answered.
    Nothing,
    /// The words are no command.
    Words,
    /// The source's bytes are no script. This is their first bad line, and the front of its bytes, if there was memory for it.
    Line {
        bad: BadLine,
        text: Option<List<u8>>,
    },
    /// The source failed.
    Source,
    /// The sink failed.
    Sink,
    /// The store wasn't opened, for this cause, which isn't want of memory, with the configuration that was asked for.
    NotOpened {
        why: OpenWhy,
        asked: Config,
    },
    /// There was no memory.
    NoMemory,
    /// Each line was answered. The line that was printed as this one, counted from 1, is the first that tells of a change that failed or wasn't made, or of a read that
    /// wasn't answered.
    Answer {
        line: u64,
    },
}

impl Reason {
    /// The end that it has.
    pub(crate) fn status(&self) -> Status
        ensures { result ≡ status_of self.now }
    {
        match self {
            Reason::Nothing => Status::Answered,
            Reason::Words => Status::BadWords,
            Reason::Line { .. } => Status::BadScript,
            Reason::Source => Status::ReadFault,
            Reason::Sink => Status::WriteFault,
            Reason::NotOpened { why, .. } => Status::of_opening(why),
            Reason::NoMemory => Status::NoMemory,
            Reason::Answer { .. } => Status::Refused,
        }
    }
}
