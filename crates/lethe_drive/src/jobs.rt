//! The jobs of a run.

ghost use Rattle.std.specs.Prelude.{◌≡◌, option_map};
ghost use Rattle.lethe_drive.specs.Moments.{there_of};
ghost use Rattle.lethe_drive.specs.Past.{left_of};

use crate::past::Past;
use lethe_disk::Disk;
use lethe_job::Job;

/// A job that was begun and hasn't ended.
#[derive(Drop)]
pub struct Numbered<D: Disk> {
    pub number: usize,
    pub job: Job<D>,
}

/// The jobs of a run: how many were begun, and the one that hasn't ended. A store has one in flight at a time.
#[derive(Drop)]
pub struct Jobs<D: Disk> {
    pub begun: usize,
    pub there: Option<Numbered<D>>,
}

impl<D: Disk> Jobs<D> {
    /// What is left of the job that hasn't ended, where its round ends.
    pub fn left(&self) -> Option<Past>
        ensures { result ≡ option_map left_of (there_of self.now) }
    {
        self.there.as_ref().map(|numbered| Past {
            number: numbered.number,
            round: numbered.job.round(),
            refused: numbered.job.is_refused(),
        })
    }

    /// The number of the job that hasn't ended.
    pub fn number(&self) -> Option<usize>
        ensures { result ≡ option_map (λ going. going.number) (there_of self.now) }
    {
        self.there.as_ref().map(|numbered| numbered.number)
    }
}
