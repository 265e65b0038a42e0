//! Whether a page is the one that its file tells of.
ghost use Rattle.std.specs.Prelude.{◌≡◌, ◌↔◌, ◌⊎◌, true, Ok, IfOk, IsTrue, Contains};
ghost use Rattle.lethe_base.specs.Keys.{Bytes};
ghost use Rattle.lethe_header.specs.Headers.{IsLine};
ghost use Rattle.lethe_file.specs.Agreement.{entries_in, keys_of};
ghost use Rattle.lethe_agreement.specs.Soundness.{IsSoundPage, IsTaken};

use crate::page::{entries_of, is_within, keys_if_agrees};
use crate::taken::TakenKeys;
use lethe_base::NoMemory;
use lethe_header::{PageLine, TileLine};
use std::alloc::Global;

/// Whether the page of these bytes agrees with its line, lies between its tile's keys, and has no key that an earlier page of
/// the tile has. Where it does, its keys are taken from then on; where there was no memory, some of them may be.
pub fn is_sound(
    alloc: Global,
    tile: &TileLine,
    line: &PageLine,
    taken: &mut TakenKeys,
    bytes: &[u8],
) -> Result<bool, NoMemory>
    requires { IsLine line.now }
    ensures exact { IfOk result (λ sound. IsTrue sound ↔ IsSoundPage tile.now line.now (IsTaken taken.old) bytes.now) }
    ensures taken { result ≡ Ok true → (key : Bytes) → IsTaken taken.new key ↔ (IsTaken taken.old key ⊎ Contains (keys_of (entries_in bytes.now)) key) }
{
    let Some(entries) = entries_of(alloc, bytes)? else {
        return Ok(false);
    };
    if !is_within(tile, &entries) || !taken.has_none(&entries) {
        return Ok(false);
    }
    let Some(keys) = keys_if_agrees(alloc, line, entries, bytes)? else {
        return Ok(false);
    };
    taken.take(keys)?;
    Ok(true)
}
