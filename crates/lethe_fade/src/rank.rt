//! The orders in which the files of a level are looked at.
ghost use Rattle.std.specs.Prelude.{◌≡◌};
ghost use Rattle.lethe_fade.specs.Ranks.{age_cmp, lesser_of, oldest_cmp, rank_cmp};

use lethe_base::Pick;
use std::cmp::Ordering;

/// What a file of a saturated level is ranked by.
#[derive(Clone, Copy)]
pub struct Rank {
    /// How many entries the files of the next level have that it overlaps.
    pub below: u128,
    /// How many of its entries are tombstones.
    pub tombs: u64,
    /// The least `since` of its entries, if one has any.
    pub oldest: Option<u64>,
    /// Its number.
    pub no: u64,
}

/// How two files stand in the order of a `Pick`. The lesser is taken first.
pub fn compare_ranks(order: Pick, a: &Rank, b: &Rank) -> Ordering
    ensures { result ≡ rank_cmp order a.now b.now }
{
    let tombs = b.tombs.cmp(&a.tombs);
    let number = a.no.cmp(&b.no);
    match order {
        Pick::So => a.below.cmp(&b.below).then(tombs).then(number),
        Pick::Sd => tombs.then(compare_oldest(a.oldest, b.oldest)).then(number),
    }
}

/// What a file that is expired or still to be swept is ranked by.
#[derive(Clone, Copy)]
pub struct Age {
    /// The least `since` of its entries, if one has any.
    pub oldest: Option<u64>,
    /// How many of its entries are tombstones.
    pub tombs: u64,
    /// Its number.
    pub no: u64,
}

/// How two files stand in the order of expired files. The lesser is taken first.
pub fn compare_ages(a: &Age, b: &Age) -> Ordering
    ensures { result ≡ age_cmp a.now b.now }
{
    let tombs = b.tombs.cmp(&a.tombs);
    let number = a.no.cmp(&b.no);
    compare_oldest(a.oldest, b.oldest).then(tombs).then(number)
}

/// The lesser of two ages, the one before where they are tied.
pub fn older(oldest: Option<Age>, age: Age) -> Age
    ensures { result ≡ lesser_of age_cmp oldest age }
{
    match oldest {
        Some(before) if compare_ages(&before, &age) != Ordering::Greater => before,
        _ => age,
    }
}

fn compare_oldest(a: Option<u64>, b: Option<u64>) -> Ordering
    ensures { result ≡ oldest_cmp a b }
{
    match (a, b) {
        (Some(a), Some(b)) => a.cmp(&b),
        (Some(_), None) => Ordering::Less,
        (None, Some(_)) => Ordering::Greater,
        (None, None) => Ordering::Equal,
    }
}
