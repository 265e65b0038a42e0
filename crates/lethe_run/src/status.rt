//! How a run ended.
ghost use Rattle.std.specs.Prelude.{◌≡◌};
ghost use Rattle.lethe_run.specs.Status.{code_of, status_for};

use lethe_recover::OpenWhy;

/// How a run ended.
#[derive(Clone, Copy, Debug, PartialEq, Eq)]
pub(crate) enum Status {
    /// Each line of the script was answered, each change is done or is a tick behind the clock or barred by a pin, and each read was answered.
    Answered,
    /// The words are no command.
    BadWords,
    /// The source's bytes are no script.
    BadScript,
    /// The source failed.
    ReadFault,
    /// The sink failed.
    WriteFault,
    /// Each line was answered, and a change failed or wasn't made, or a read wasn't answered; or the disk failed, or numbers ran out, when the store was opened.
    Refused,
    /// There was no memory.
    NoMemory,
    /// The disk is damaged.
    Damaged,
    /// The disk's store has another configuration.
    OtherConfig,
}

impl Status {
    /// The status with which the program ends.
    pub(crate) fn code(self) -> u8
        ensures { result ≡ code_of self }
    {
        match self {
            Status::Answered => 0,
            Status::BadWords => 2,
            Status::BadScript => 3,
            Status::ReadFault => 4,
            Status::WriteFault => 5,
            Status::Refused => 6,
            Status::NoMemory => 7,
            Status::Damaged => 8,
            Status::OtherConfig => 9,
        }
    }

    /// The end of a run whose store wasn't opened.
    pub(crate) fn of_opening(why: &OpenWhy) -> Status
        ensures { result ≡ status_for why.now }
    {
        match why {
            OpenWhy::Damaged { .. } => Status::Damaged,
            OpenWhy::OtherConfig { .. } => Status::OtherConfig,
            OpenWhy::Fault { .. } | OpenWhy::Exhausted { .. } => Status::Refused,
            OpenWhy::NoMemory => Status::NoMemory,
        }
    }
}
