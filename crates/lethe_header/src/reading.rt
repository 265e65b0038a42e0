//! Reading a header. A field is tested as soon as it is read whole, and the first fault from the left is told.
ghost use Rattle.std.specs.Prelude.{◌≡◌, IfOk, MatchResult};
ghost use Rattle.lethe_header.specs.Headers.{header_bytes, HasSpelling};
ghost use Rattle.lethe_header.specs.Reading.{Gives, head_at, header_at};
ghost use Rattle.lethe_header.specs.declared.header.Header.{Header};

use crate::fields::{read_u8, read_u16, read_u64};
use crate::tile::read_tiles;
use crate::{Header, HeaderRefused};
use lethe_base::MAX_PLACE;
use std::alloc::Global;

/// The greatest number of a file's tiles.
const MAX_TILES: u16 = 256;

// The file's number and how many tiles it has.
#[tactic(auto, unfolding(crate::specs::Reading::head_at))]
fn read_head(bytes: &[u8]) -> Result<(u64, u16), HeaderRefused>
    ensures { result ≡ head_at bytes.now }
{
    read_u16(bytes, 0, 0x4c46, 0x4c46)?;
    read_u8(bytes, 2, 1, 1)?;
    let no = read_u64(bytes, 3, 0, MAX_PLACE)?;
    let tiles = read_u16(bytes, 11, 1, MAX_TILES)?;
    Ok((no, tiles))
}

#[tactic(auto, unfolding(crate::specs::Reading::header_at))]
fn read_all(alloc: Global, bytes: &[u8]) -> Result<Header, HeaderRefused>
    ensures { Gives result (header_at bytes.now) }
{
    let (no, count) = read_head(bytes)?;
    let (tiles, end) = read_tiles(alloc, count, bytes)?;
    if end < bytes.len() {
        return Err(HeaderRefused::Trailing { at: end as u64 });
    }
    Ok(Header { no, tiles })
}

/// The header that the bytes spell.
pub fn read_header(alloc: Global, bytes: &[u8]) -> Result<Header, HeaderRefused>
    // What is read is spelled so, each byte of it.
    ensures found { IfOk result (λ header. HasSpelling header × (bytes.now ≡ header_bytes header)) }

    // What is spelled so is read.
    ensures only { (header : Header) → HasSpelling header → bytes.now ≡ header_bytes header
        → MatchResult result (λ read. read ≡ header) (λ why. why ≡ HeaderRefused.NoMemory) }

    // Else it is the first fault from the left.
    ensures exact { Gives result (header_at bytes.now) }
{
    read_all(alloc, bytes)
}
