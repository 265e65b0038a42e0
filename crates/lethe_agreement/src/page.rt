//! What the bytes of a page spell, and what its line says of that.
ghost use Rattle.std.specs.Prelude.{◌≡◌, ◌↔◌, All, IfOk, IfSome, IsSome, IsTrue, MatchOption};
ghost use Rattle.lethe_header.specs.Headers.{IsLine};
ghost use Rattle.lethe_header.specs.declared.header.PageLine.{PageLine};
ghost use Rattle.lethe_file.specs.Agreement.{Agrees, IsWithin, keys_of};
ghost use Rattle.lethe_agreement.specs.Soundness.{IsSpelled};

use lethe_base::{Entry, Key, NoMemory};
use lethe_build::line_of;
use lethe_header::{PageLine, TileLine};
use lethe_page::{PageRefused, read_page};
use std::alloc::Global;

/// The entries that the bytes spell. None where they spell no page, with which no line agrees.
pub fn entries_of(alloc: Global, bytes: &[u8]) -> Result<Option<Vec<Entry>>, NoMemory>
    ensures { IfOk result (λ page. MatchOption page ((line : PageLine) → Agrees line bytes.now → ⊥) (λ entries. IsSpelled entries.items bytes.now)) }
{
    match read_page(alloc, bytes) {
        Ok((_, entries)) => Ok(Some(entries)),
        Err(PageRefused::NoMemory) => Err(NoMemory),
        Err(_) => Ok(None),
    }
}

/// Whether the key lies between the tile's two keys, both included.
fn is_between(tile: &TileLine, key: &Key) -> bool
    ensures { IsTrue result ↔ IsWithin tile.now key.now }
{
    tile.lo <= *key && *key <= tile.hi
}

/// Whether all keys lie there.
pub fn is_within(tile: &TileLine, entries: &[Entry]) -> bool
    ensures { IsTrue result ↔ All (λ entry. IsWithin tile.now entry.key) entries.now }
{
    for entry in entries {
        if !is_between(tile, &entry.key) {
            return false;
        }
    }
    true
}

/// Whether the lines say the same.
fn is_same(line: &PageLine, other: &PageLine) -> bool
    ensures { IsTrue result ↔ (line.now ≡ other.now) }
{
    line.no == other.no
        && line.class == other.class
        && line.entries == other.entries
        && line.max_seq == other.max_seq
        && line.oldest == other.oldest
        && line.fence == other.fence
        && line.filter.words() == other.filter.words()
        && line.digest == other.digest
}

/// The keys of the page of these entries and bytes, where the page agrees with the line.
pub fn keys_if_agrees(
    alloc: Global,
    line: &PageLine,
    entries: Vec<Entry>,
    bytes: &[u8],
) -> Result<Option<Vec<Key>>, NoMemory>
    requires line { IsLine line.now }
    requires spelled { IsSpelled entries.items bytes.now }
    ensures agrees { IfOk result (λ keys. IsSome keys ↔ Agrees line.now bytes.now) }
    ensures keys { IfOk result (λ keys. IfSome keys (λ keys. keys.items ≡ keys_of entries.items)) }
{
    let (found, keys) = line_of(alloc, line.no, entries, bytes)?;
    if is_same(line, &found) {
        Ok(Some(keys))
    } else {
        Ok(None)
    }
}
