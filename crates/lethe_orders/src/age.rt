//! What expired files are ranked by.
ghost use Rattle.std.specs.Prelude.{◌≡◌};
ghost use Rattle.lethe_fade.specs.Ranks.{age_cmp, oldest_cmp};
ghost use Rattle.lethe_orders.specs.Firsts.{older_of, ranked};

use std::cmp::Ordering;

/// What an expired file is ranked by.
#[derive(Clone, Copy)]
pub struct Age {
    /// The least `since` of its entries.
    pub oldest: Option<u64>,
    /// How many of its entries are tombstones.
    pub tombs: u64,
    /// Its number.
    pub no: u64,
}

/// How two expired files stand in the order in which they are merged. The lesser comes first.
pub fn compare_ages(a: &Age, b: &Age) -> Ordering
    ensures { result ≡ age_cmp (ranked a.now) (ranked b.now) }
{
    let tombs = b.tombs.cmp(&a.tombs);
    let number = a.no.cmp(&b.no);
    compare_oldest(a.oldest, b.oldest).then(tombs).then(number)
}

/// The lesser of two ages, the one before where they are tied.
pub fn older(oldest: Option<Age>, age: Age) -> Age
    ensures { result ≡ older_of oldest age }
{
    match oldest {
        Some(before) if compare_ages(&before, &age) != Ordering::Greater => before,
        _ => age,
    }
}

fn compare_oldest(a: Option<u64>, b: Option<u64>) -> Ordering
    ensures { result ≡ oldest_cmp a b }
{
    match (a, b) {
        (Some(a), Some(b)) => a.cmp(&b),
        (Some(_), None) => Ordering::Less,
        (None, Some(_)) => Ordering::Greater,
        (None, None) => Ordering::Equal,
    }
}
