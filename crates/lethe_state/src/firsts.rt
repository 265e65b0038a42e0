//! The first places that a segment has.
ghost use Rattle.std.specs.Prelude.{◌≡◌};
ghost use Rattle.lethe_base.specs.Shapes.{earlier};
ghost use Rattle.lethe_base.specs.Spent.{put_place};
ghost use Rattle.lethe_stored.specs.Stored.{plain};
ghost use Rattle.lethe_state.specs.Firsts.{erase_place, firsts_with};

use lethe_base::Body;
use lethe_segment::Record;

/// Of a segment's records, those that later ones replaced too: the places of the first put and of the first erase, where there is one.
#[derive(Clone, Copy, Debug, Default, PartialEq, Eq)]
pub struct Firsts {
    pub put: Option<u64>,
    pub erase: Option<u64>,
}

impl Firsts {
    /// With one record more.
    pub(crate) fn with(self, next: &Record) -> Firsts
        ensures { result ≡ firsts_with self next.now }
    {
        Firsts {
            put: earlier(self.put, put_place(next)),
            erase: earlier(self.erase, erase_place(next)),
        }
    }
}

/// The place of a put.
fn put_place(next: &Record) -> Option<u64>
    ensures { result ≡ put_place (plain next.now) }
{
    match next {
        Record::Entry(entry) => match entry.body {
            Body::Put { .. } => Some(entry.seq),
            Body::Tomb => None,
        },
        Record::Blind { .. } | Record::Erase(_) => None,
    }
}

/// The place of an erase.
fn erase_place(next: &Record) -> Option<u64>
    ensures { result ≡ erase_place next.now }
{
    match next {
        Record::Erase(erase) => Some(erase.seq),
        Record::Entry(_) | Record::Blind { .. } => None,
    }
}

/// The smaller of two numbers, where there are any.
pub(crate) fn earlier(number: Option<u64>, other: Option<u64>) -> Option<u64>
    ensures { result ≡ earlier number other }
{
    match (number, other) {
        (Some(number), Some(other)) => Some(number.min(other)),
        (number, other) => number.or(other),
    }
}
