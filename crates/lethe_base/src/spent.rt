//! Erases that are still to be done.
ghost use Rattle.std.specs.Prelude.{◌≡◌, ◌<◌, AllPairs, filter};
ghost use Rattle.lethe_base.specs.Spent.{is_above};

use crate::Pending;

/// The erases above a place, of some in the order of their places: those that are left where all up to it are done. Without a
/// place none is left.
pub fn erases_above(erases: &[Pending], done: Option<u64>) -> &[Pending]
    requires { AllPairs (λ erase later. erase.seq < later.seq) erases.now }
    ensures { result.now ≡ filter (λ erase. is_above done erase.seq) erases.now }
{
    let Some(done) = done else {
        return &[];
    };
    let first = erases.partition_point(|erase| erase.seq <= done);
    &erases[first..]
}
