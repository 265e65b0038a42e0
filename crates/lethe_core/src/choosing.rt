//! How the next job is chosen.
ghost use Rattle.std.specs.Prelude.{◌≡◌, ◌+◌, length};
ghost use Rattle.lethe_core.specs.Merges.{picked};

use lethe_base::{Config, Shape};
use lethe_fade::{Plan, pick, pick_due};

/// How the next job is chosen.
#[derive(Clone, Copy)]
pub(crate) enum Choice {
    /// To make room: what a job begins with.
    Room,
    /// The first merge or sweep that is due at that time.
    DueAt(u64),
}

impl Choice {
    /// The plan of the next job at a clock, and None where none is chosen. It takes no memory.
    pub(crate) fn pick(self, shape: &Shape, config: &Config, clock: u64) -> Option<Plan>
        requires { length shape.now.levels ≡ config.now.levels + 1 }
        ensures { result ≡ picked self config.now shape.now clock }
    {
        match self {
            Choice::Room => pick(shape, config, clock, &[]),
            Choice::DueAt(to) => pick_due(shape, config, to),
        }
    }
}
