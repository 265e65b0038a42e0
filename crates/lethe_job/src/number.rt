//! How many jobs a store has begun, and how many rounds have ended.
ghost use Rattle.std.specs.Prelude.{◌≡◌};

/// How many jobs a store has begun since it was opened, and how many rounds have ended since then. A tick ends a round, and gives up the jobs in flight.
#[derive(Debug, Drop)]
pub struct Begun {
    pub jobs: u64,
    pub rounds: u64,
}

impl Begun {
    /// No job and no round.
    pub fn none() -> Begun
        ensures jobs { result.jobs ≡ 0 }
        ensures rounds { result.rounds ≡ 0 }
    {
        Begun { jobs: 0, rounds: 0 }
    }
}
