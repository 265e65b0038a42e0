//! The front of a line of a script.
ghost use Rattle.std.specs.Prelude.{◌≡◌, Some, IfSome, slice_get, take};
ghost use Rattle.lethe_script.specs.Grammar.{lines};
ghost use Rattle.lethe_run.specs.Reasons.{IsLineAt, IsShownOf};

use lethe_base::List;
use lethe_script::MAX_SCRIPT;
use std::alloc::Global;

/// How many bytes of a bad line are handed back.
const SHOWN: usize = 160;

/// The front of the line of this number, if there is memory for it.
pub(crate) fn front_of_line(alloc: Global, bytes: &[u8], number: u64) -> Option<List<u8>>
    ensures { IfSome result (IsShownOf bytes.now number) }
{
    let line = line_at(within_limit(bytes), number)?;
    copy_of(alloc, line)
}

fn copy_of(alloc: Global, line: &[u8]) -> Option<List<u8>>
    ensures { IfSome result (λ front. front ≡ take 160 line.now) }
{
    Some(List::of(Vec::from_slice(alloc, front_of(line)).ok()?))
}

/// The line of this number.
fn line_at(bytes: &[u8], number: u64) -> Option<&[u8]>
    ensures { IfSome result (λ line. IsLineAt bytes.now number line.now) }
{
    let index = usize::try_from(number.checked_sub(1)?).ok()?;
    nth_line(bytes, index)
}

fn nth_line(bytes: &[u8], index: usize) -> Option<&[u8]>
    ensures { IfSome result (λ line. slice_get (lines bytes.now) index ≡ Some line.now) }
{
    bytes.split(|byte| *byte == b'\n').nth(index)
}

/// The bytes that a script may have.
fn within_limit(bytes: &[u8]) -> &[u8]
    ensures { result.now ≡ take 16777216 bytes.now }
{
    if bytes.len() > MAX_SCRIPT {
        &bytes[..MAX_SCRIPT]
    } else {
        bytes
    }
}

fn front_of(line: &[u8]) -> &[u8]
    ensures { result.now ≡ take 160 line.now }
{
    if line.len() > SHOWN {
        &line[..SHOWN]
    } else {
        line
    }
}
