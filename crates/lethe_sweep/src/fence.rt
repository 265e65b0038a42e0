//! What becomes of a page, as far as its line tells.
ghost use Rattle.std.specs.Prelude.{◌≡◌, Bool, List};
ghost use Rattle.lethe_header.specs.declared.header.PageLine as header;
ghost use Rattle.lethe_sweep.specs.Fences.{is_across, is_fetched, is_inside, is_kept, is_met, is_within, meets};
ghost use Rattle.lethe_sweep.specs.Modes.{mode_of, is_fetched_in, is_alone};

use lethe_base::Range;
use lethe_header::PageLine;
use lethe_page::Class;

/// How a tile is swept.
#[derive(Clone, Copy, Debug, PartialEq, Eq)]
pub enum Mode {
    /// The file is alone.
    Alone,
    /// It isn't, and a page of the tile meets the range.
    Met,
    /// It isn't, and no page does.
    Whole,
}

impl Mode {
    /// How the tile of these lines is swept.
    pub fn of(alone: bool, range: &Range, lines: &[PageLine]) -> Mode
        ensures { result ≡ mode_of alone range.now lines.now }
    {
        if alone {
            Mode::Alone
        } else if is_met(range, lines) {
            Mode::Met
        } else {
            Mode::Whole
        }
    }

    /// Whether the file is alone.
    pub fn is_alone(self) -> bool
        ensures { result ≡ is_alone self }
    {
        match self {
            Mode::Alone => true,
            Mode::Met => false,
            Mode::Whole => false,
        }
    }

    /// Whether the page of the line is fetched.
    pub fn is_fetched(self, range: &Range, line: &PageLine) -> bool
        ensures { result ≡ is_fetched_in self range.now line.now }
    {
        match self {
            Mode::Alone => meets(range, line) && !is_inside(range, line),
            Mode::Met => meets(range, line) || line.class == Class::Tombs,
            Mode::Whole => false,
        }
    }

    /// Whether the page of the line stays.
    pub fn is_kept(self, range: &Range, line: &PageLine) -> bool
        ensures { (alone : Bool) (lines : List header.PageLine) → self ≡ mode_of alone range.now lines → result ≡ is_kept alone range.now lines line.now }
    {
        !meets(range, line) && !self.is_fetched(range, line)
    }
}

/// Whether the page's fence meets the range.
pub fn meets(range: &Range, line: &PageLine) -> bool
    ensures { result ≡ meets range.now line.now }
{
    is_across(range, line.fence)
}

/// Whether the page's fence lies inside the range.
fn is_inside(range: &Range, line: &PageLine) -> bool
    ensures { result ≡ is_inside range.now line.now }
{
    is_within(range, line.fence)
}

fn is_across(range: &Range, fence: Option<(u64, u64)>) -> bool
    ensures { result ≡ is_across range.now fence }
{
    match fence {
        Some((lo, hi)) => lo < range.hi() && range.lo() <= hi,
        None => false,
    }
}

fn is_within(range: &Range, fence: Option<(u64, u64)>) -> bool
    ensures { result ≡ is_within range.now fence }
{
    match fence {
        Some((lo, hi)) => range.lo() <= lo && hi < range.hi(),
        None => false,
    }
}

/// Whether a page of the tile meets the range.
fn is_met(range: &Range, lines: &[PageLine]) -> bool
    ensures { result ≡ is_met range.now lines.now }
{
    lines.iter().any(|line| meets(range, line))
}
