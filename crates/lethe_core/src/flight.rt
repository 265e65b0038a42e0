//! A job that a store has in flight.

use lethe_disk::Disk;
use lethe_fade::Claim;
use lethe_job::Task;
use lethe_loose::Written;
use std::sync::Arc;

/// A job in flight, as the store knows it.
#[derive(Drop)]
pub struct Flight<D: Disk> {
    /// Its number, which the job has too: how many jobs the store had begun before it.
    pub number: u64,
    /// Its task, which the job knows too.
    pub task: Arc<Task<D>>,
    /// The levels and the keys that its task claims.
    pub claim: Claim,
    /// The pages that were written for it.
    pub written: Written,
}
