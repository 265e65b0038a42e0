//! The least among the entries at hand.
ghost use Rattle.std.specs.Prelude.{◌≡◌, ◌<◌, length, IfNone, IfSome};
ghost use Rattle.std.specs.List.{IsFirstBest};
ghost use Rattle.lethe_merge.specs.Sources.{comes_before, IsTaken, HasNone};

use crate::joining::{newer, strike};
use crate::source::Source;
use lethe_base::{Entry, Pending};

/// The place of the first source whose entry at hand has the least key. Where none has an entry at hand it is any place.
fn first_least<C>(sources: &[Source<C>]) -> usize
    requires { 0 < length sources.now }
    ensures { IsFirstBest (λ source other. comes_before source.head other.head) sources.now (length sources.now) result }
{
    let mut least = 0;
    for place in 1..sources.len() {
        if sources[place].head.is_before(&sources[least].head) {
            least = place;
        }
    }
    least
}

/// Takes the entries at hand of the least key, and gives what is left of the key where the erases are applied. None where no
/// entry is at hand.
pub fn take_least<C>(sources: &mut [Source<C>], erases: &[Pending]) -> Option<Entry>
    ensures none { IfNone result (HasNone sources.old sources.new) }
    ensures some { IfSome result (IsTaken erases.now sources.old sources.new) }
{
    if sources.is_empty() {
        return None;
    }
    let least = first_least(sources);
    let mut left = match sources[least].take() {
        Some(entry) => strike(entry, erases),
        None => return None,
    };
    for place in least + 1..sources.len() {
        if let Some(entry) = sources[place].take_of(&left.key) {
            left = newer(left, strike(entry, erases));
        }
    }
    Some(left)
}
