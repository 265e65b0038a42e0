//! The sum of a history that nobody keeps, below a ceiling.
ghost use Rattle.std.specs.Prelude.{◌≡◌, ◌+◌, ◌^◌, ◌<◌, [], ◌∷◌, IfOk, IfErr};
ghost use Rattle.lethe_test_turn.specs.Sums.{addition, ceiling_mark, added_to, IsReason};

use lethe_turn::{Behind, Names, Told};
use std::marker::Brand;

/// One addition. No value of it is made.
pub struct Entry {
    pub by: u64,
    pub amount: u64,
}

/// A ceiling was set. No value of it is made.
pub struct Mark {
    pub ceiling: u64,
}

#[derive(Debug, Drop)]
pub struct Sum {
    pub value: u64,
    pub count: u64,
    pub ceiling: Option<u64>,
}

/// Why nothing was added.
#[derive(Debug, PartialEq, Drop)]
pub enum Refused {
    /// The sum would pass this ceiling.
    Ceiling(u64),
    /// The sum or the count would not fit.
    Full,
}

impl Behind for Sum {
    type Entry = Entry;

    type Mark = Mark;

    ghost use Rattle.lethe_test_turn.specs.Sums.{Since, NoneIsZero};
    ghost use Rattle.lethe_test_turn.specs.Fits.{none_is_zero_none, none_is_zero_both};

    ghost since = { Since };

    ghost fits = { NoneIsZero };

    ghost fits_none = { none_is_zero_none };

    ghost fits_both = { none_is_zero_both };
}

fn named_entry<N: Names<Entry>>(by: u64, amount: u64) -> Told<Entry>
    requires { N.named ≡ addition by amount ∷ [] }
    ensures { result.items ≡ addition by amount ∷ [] }
{
    Told::list::<N>()
}

/// Tells of one addition.
pub fn told_entry(by: u64, amount: u64) -> Told<Entry>
    ensures { result.items ≡ addition by amount ∷ [] }
{
    named_entry::<Brand>(by, amount)
}

fn named_mark<N: Names<Mark>>(ceiling: u64) -> Told<Mark>
    requires { N.named ≡ ceiling_mark ceiling ∷ [] }
    ensures { result.items ≡ ceiling_mark ceiling ∷ [] }
{
    Told::list::<N>()
}

/// Tells of one ceiling.
pub fn told_mark(ceiling: u64) -> Told<Mark>
    ensures { result.items ≡ ceiling_mark ceiling ∷ [] }
{
    named_mark::<Brand>(ceiling)
}

impl Sum {
    /// Adds where the ceiling allows it and there is room, and tells the entry.
    pub fn add(&mut self, by: u64, amount: u64) -> Result<Told<Entry>, Refused>
        ensures added { IfOk result (λ told. (told.items ≡ addition by amount ∷ []) × (self.old.count + 1 < 2 ^ 62) × (self.new ≡ added_to amount self.old)) }
        ensures refused { IfErr result (λ why. (self.new ≡ self.old) × IsReason why self.old) }
    {
        let Some(value) = self.value.checked_add(amount) else {
            return Err(Refused::Full);
        };
        if self.count >= (1 << 62) - 2 {
            return Err(Refused::Full);
        }
        if let Some(ceiling) = self.ceiling {
            if value > ceiling {
                return Err(Refused::Ceiling(ceiling));
            }
        }
        self.value = value;
        self.count += 1;
        Ok(told_entry(by, amount))
    }
}
