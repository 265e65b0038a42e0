//! Why bytes are no script.
ghost use Rattle.std.specs.Prelude.{◌≡◌};
ghost use Rattle.lethe_script.specs.declared.refused.ScriptRefused.TheVariants.{NoMemory};

use std::alloc::{AllocError, AllocFailed};

/// What is wrong with a line. A line is tested for these in this order, and then its fields from left to right.
#[derive(Clone, Copy, Debug, PartialEq, Eq)]
pub enum Why {
    /// The script is longer than 16,777,216 bytes, and the first byte that is too much stands in this line.
    Size,
    /// A byte is neither a space nor from 33 to 126.
    Byte,
    /// The first field is neither `phase` nor a caller.
    Caller,
    /// The second field is missing, or no command.
    Command,
    /// There are too many fields or too few for the command, or one behind `phase`.
    Count,
    /// A field should be a number: decimal digits without a leading zero, below 2^64.
    Number,
    /// A field should be a slot: one digit. Or the slot is held where `pin` needs it free, or free where `pget`, `pscan` or
    /// `unpin` needs it held, by the caller's lines before: this is tested behind all else of the line.
    Slot,
    /// A field should be a key: from 1 to 255 bytes, or `=` and two lower-case hexadecimal digits for each.
    Key,
    /// A field should be a value: at most 4,096 bytes, or `=` and two lower-case hexadecimal digits for each.
    Value,
    /// The first number of an erase isn't below its second. This is tested behind all fields.
    Range,
}

impl Why {
    ghost use Rattle.lethe_script.specs.Words.{why_text};

    /// Its word in lower case, as it is printed.
    pub fn word(self) -> &'static str
        ensures { result.now ≡ why_text self }
    {
        match self {
            Why::Size => "size",
            Why::Byte => "byte",
            Why::Caller => "caller",
            Why::Command => "command",
            Why::Count => "count",
            Why::Number => "number",
            Why::Slot => "slot",
            Why::Key => "key",
            Why::Value => "value",
            Why::Range => "range",
        }
    }
}

/// The first bad line of a script.
#[derive(Clone, Copy, Debug, PartialEq, Eq)]
pub struct BadLine {
    /// The number of the line, from 1 on; skipped lines count.
    pub line: u64,
    pub why: Why,
}

/// Why no script was read.
#[derive(Clone, Copy, Debug, PartialEq, Eq)]
pub enum ScriptRefused {
    /// The bytes are no script.
    Bad(BadLine),
    /// There was no memory for it.
    NoMemory,
}

impl From<AllocError> for ScriptRefused {
    ghost from_gives = { λ _ e. e ≡ NoMemory };

    fn from(_: AllocError) -> Self {
        ScriptRefused::NoMemory
    }
}

impl<T: Drop> From<AllocFailed<T>> for ScriptRefused {
    ghost from_gives = { λ _ e. e ≡ NoMemory };

    fn from(_: AllocFailed<T>) -> Self {
        ScriptRefused::NoMemory
    }
}

/// A line was refused, or there was no memory to keep it.
#[derive(Clone, Copy, Debug, PartialEq, Eq)]
pub(crate) enum LineRefused {
    Bad(Why),
    NoMemory,
}

impl From<AllocError> for LineRefused {
    ghost use Rattle.std.specs.Prelude.{◌≡◌};
    ghost use Rattle.lethe_script.specs.declared.refused.LineRefused.TheVariants.{NoMemory};

    ghost from_gives = { λ _ e. e ≡ NoMemory };

    fn from(_: AllocError) -> Self {
        LineRefused::NoMemory
    }
}

impl From<Why> for LineRefused {
    ghost use Rattle.std.specs.Prelude.{◌≡◌};
    ghost use Rattle.lethe_script.specs.declared.refused.LineRefused.TheVariants.{Bad};

    ghost from_gives = { λ why e. e ≡ Bad why };

    fn from(why: Why) -> Self {
        LineRefused::Bad(why)
    }
}
