//! What is true of all weaves.
ghost use Rattle.lethe_tile.specs.Woven.{OneWeave};

/// Entries in the order of their keys are woven into one list of tiles only.
pub fn one_weave()
    ensures { OneWeave }
{}
