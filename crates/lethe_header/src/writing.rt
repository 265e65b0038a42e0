//! Writing a header.
ghost use Rattle.std.specs.Prelude.{◌≡◌, ◌≤◌, ◌<◌, ◌++◌, ◌^◌, ℕ, IfOk, OnOk, All, length, flat_map};
ghost use Rattle.std.specs.Int.{to_be_bytes, w64};
ghost use Rattle.lethe_base.specs.Spelling.{since_bytes, key_bytes};
ghost use Rattle.lethe_page.specs.Pages.{class_byte};
ghost use Rattle.lethe_header.specs.Headers.{head_bytes, counts_bytes, fence_bytes, filter_bytes, line_bytes, tile_bytes, header_bytes, HasSpelling, HasFewWords, IsTile};

use crate::{Header, PageLine, TileLine};
use lethe_base::{Key, NoMemory};
use lethe_page::Class;
use lethe_tile::Filter;
use std::alloc::Global;

/// The header's one spelling.
#[tactic(auto, unfolding(crate::specs::Headers::header_bytes))]
pub fn write_header(alloc: Global, header: &Header) -> Result<Vec<u8>, NoMemory>
    requires { HasSpelling header.now }
    ensures { IfOk result (λ bytes. bytes.items ≡ header_bytes header.now) }
{
    let mut out = Vec::new(alloc);
    write_head(&mut out, header.no, header.tiles.items().len() as u16)?;
    write_tiles(&mut out, header.tiles.items())?;
    Ok(out)
}

#[tactic(auto, unfolding(crate::specs::Headers::head_bytes))]
fn write_head(out: &mut Vec<u8>, no: u64, tiles: u16) -> Result<(), NoMemory>
    ensures { OnOk result (out.new.items ≡ out.old.items ++ head_bytes no tiles) }
{
    out.extend_from_slice(b"LF\x01")?;
    out.extend_from_slice(&no.to_be_bytes())?;
    out.extend_from_slice(&tiles.to_be_bytes())?;
    Ok(())
}

fn write_tiles(out: &mut Vec<u8>, tiles: &[TileLine]) -> Result<(), NoMemory>
    requires { All IsTile tiles.now }
    ensures { OnOk result (out.new.items ≡ out.old.items ++ flat_map tile_bytes tiles.now) }
{
    for tile in tiles {
        write_tile(out, tile)?;
    }
    Ok(())
}

#[tactic(auto, unfolding(crate::specs::Headers::tile_bytes))]
fn write_tile(out: &mut Vec<u8>, tile: &TileLine) -> Result<(), NoMemory>
    requires { IsTile tile.now }
    ensures { OnOk result (out.new.items ≡ out.old.items ++ tile_bytes tile.now) }
{
    write_key(out, &tile.lo)?;
    write_key(out, &tile.hi)?;
    out.push(tile.pages.items().len() as u8)?;
    write_lines(out, tile.pages.items())?;
    Ok(())
}

fn write_key(out: &mut Vec<u8>, key: &Key) -> Result<(), NoMemory>
    ensures { OnOk result (out.new.items ≡ out.old.items ++ key_bytes key.now) }
{
    let bytes = key.bytes();
    out.push(bytes.len() as u8)?;
    out.extend_from_slice(bytes)?;
    Ok(())
}

fn write_lines(out: &mut Vec<u8>, lines: &[PageLine]) -> Result<(), NoMemory>
    requires { All HasFewWords lines.now }
    ensures { OnOk result (out.new.items ≡ out.old.items ++ flat_map line_bytes lines.now) }
{
    for line in lines {
        write_line(out, line)?;
    }
    Ok(())
}

#[tactic(auto, unfolding(crate::specs::Headers::line_bytes))]
fn write_line(out: &mut Vec<u8>, line: &PageLine) -> Result<(), NoMemory>
    requires { HasFewWords line.now }
    ensures { OnOk result (out.new.items ≡ out.old.items ++ line_bytes line.now) }
{
    write_counts(out, line)?;
    write_oldest(out, line.oldest)?;
    write_fence(out, line.fence)?;
    write_filter(out, &line.filter)?;
    out.extend_from_slice(&line.digest)?;
    Ok(())
}

#[tactic(auto, unfolding(crate::specs::Headers::counts_bytes))]
fn write_counts(out: &mut Vec<u8>, line: &PageLine) -> Result<(), NoMemory>
    ensures { OnOk result (out.new.items ≡ out.old.items ++ counts_bytes line.now) }
{
    out.extend_from_slice(&line.no.to_be_bytes())?;
    out.push(class_byte(line.class))?;
    out.extend_from_slice(&line.entries.to_be_bytes())?;
    out.extend_from_slice(&line.max_seq.to_be_bytes())?;
    Ok(())
}

// The byte that spells the class.
fn class_byte(class: Class) -> u8
    ensures { result ≡ class_byte class }
{
    match class {
        Class::Puts => 1,
        Class::Tombs => 2,
    }
}

fn write_oldest(out: &mut Vec<u8>, oldest: Option<u64>) -> Result<(), NoMemory>
    ensures { OnOk result (out.new.items ≡ out.old.items ++ since_bytes oldest) }
{
    match oldest {
        None => out.push(0)?,
        Some(time) => {
            out.push(1)?;
            out.extend_from_slice(&time.to_be_bytes())?;
        }
    }
    Ok(())
}

fn write_fence(out: &mut Vec<u8>, fence: Option<(u64, u64)>) -> Result<(), NoMemory>
    ensures { OnOk result (out.new.items ≡ out.old.items ++ fence_bytes fence) }
{
    if let Some((lo, hi)) = fence {
        write_ends(out, lo, hi)?;
    }
    Ok(())
}

fn write_ends(out: &mut Vec<u8>, lo: u64, hi: u64) -> Result<(), NoMemory>
    ensures { OnOk result (out.new.items ≡ out.old.items ++ (to_be_bytes w64 lo ++ to_be_bytes w64 hi)) }
{
    out.extend_from_slice(&lo.to_be_bytes())?;
    out.extend_from_slice(&hi.to_be_bytes())?;
    Ok(())
}

fn write_filter(out: &mut Vec<u8>, filter: &Filter) -> Result<(), NoMemory>
    requires { length filter.now < 2 ^ 32 }
    ensures { OnOk result (out.new.items ≡ out.old.items ++ filter_bytes filter.now) }
{
    let words = filter.words();
    out.extend_from_slice(&(words.len() as u32).to_be_bytes())?;
    write_words(out, words)?;
    Ok(())
}

fn write_words(out: &mut Vec<u8>, words: &[u64]) -> Result<(), NoMemory>
    ensures { OnOk result (out.new.items ≡ out.old.items ++ flat_map (to_be_bytes w64) words.now) }
{
    for word in words {
        out.extend_from_slice(&word.to_be_bytes())?;
    }
    Ok(())
}
