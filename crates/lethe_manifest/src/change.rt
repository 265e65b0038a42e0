//! From one manifest to the next.
ghost use Rattle.std.specs.Prelude.{◌≡◌, ◌⊎◌, ◌↔◌, ◌<◌, ◌≤◌, ◌^◌, length, IfOk, IsErr};
ghost use Rattle.lethe_base.specs.Limits.{max_place};
ghost use Rattle.lethe_manifest.specs.Followers.{follower};

use crate::{Cited, Manifest};
use lethe_base::{List, NoMemory, Pending};

/// The most erases and the most files of a manifest, which counts each in four bytes.
const MAX_LISTED: usize = u32::MAX as usize;

/// What the manifest that follows has of its own.
#[derive(Debug, Drop)]
pub struct Change {
    /// The number in its name.
    pub no: u64,
    /// How many changes the history has by then.
    pub count: u64,
    pub erases: List<Pending>,
    pub segments: List<u64>,
    pub files: List<Cited>,
}

impl Manifest {
    /// The manifest that follows this one by a change. Configuration, clock and certificate stay, and the next number is the one behind its own.
    ///
    /// # Errors
    ///
    /// `NoMemory` where it would have 2^32 erases or files.
    pub fn followed_by(&self, change: Change) -> Result<Manifest, NoMemory>
        requires { change.no < max_place }
        ensures is { IfOk result (λ next. next ≡ follower self.now change) }
        ensures few_erases { IfOk result (λ next. length next.erases < 2 ^ 32) }
        ensures few_files { IfOk result (λ next. length next.files < 2 ^ 32) }
        ensures no_memory { IsErr result ↔ ((2 ^ 32 ≤ length change.erases) ⊎ (2 ^ 32 ≤ length change.files)) }
    {
        if change.erases.items().len() > MAX_LISTED || change.files.items().len() > MAX_LISTED {
            return Err(NoMemory);
        }
        Ok(Manifest {
            no: change.no,
            config: self.config,
            clock: self.clock,
            count: change.count,
            next: change.no + 1,
            certificate: self.certificate,
            erases: change.erases,
            segments: change.segments,
            files: change.files,
        })
    }
}
