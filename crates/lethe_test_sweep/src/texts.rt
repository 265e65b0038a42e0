//! What a sweep gave, as a text.

use lethe_base::{Body, Entry, Key, List};
use lethe_sweep::Swept;
use lethe_swept::{Part, SweptFile, SweptTile};
use std::alloc::Global;
use std::test::Fail;

fn write_key(text: &mut String, key: &Key) -> Result<(), Fail> {
    for byte in key.bytes() {
        text.push(*byte as char)?;
    }
    Ok(())
}

/// Adds the entry: its key and place, and behind them its delete key and time as in the words of entries.
fn write_entry(text: &mut String, entry: &Entry) -> Result<(), Fail> {
    write_key(text, &entry.key)?;
    match (&entry.body, entry.since) {
        (Body::Put { dkey, .. }, None) => write!(text, "{}={dkey}", entry.seq)?,
        (Body::Put { dkey, .. }, Some(since)) => write!(text, "{}={dkey}@{since}", entry.seq)?,
        (Body::Tomb, Some(since)) => write!(text, "{}-{since}", entry.seq)?,
        (Body::Tomb, None) => write!(text, "{}-", entry.seq)?,
    }
    Ok(())
}

/// Adds a new page.
fn write_page(text: &mut String, entries: &[Entry]) -> Result<(), Fail> {
    write!(text, " [")?;
    for (place, entry) in entries.iter().enumerate() {
        if place > 0 {
            write!(text, " ")?;
        }
        write_entry(text, entry)?;
    }
    write!(text, "]")?;
    Ok(())
}

fn write_numbers(text: &mut String, numbers: &[u64]) -> Result<(), Fail> {
    for number in numbers {
        write!(text, " {number}")?;
    }
    Ok(())
}

/// As `kept 4 dropped 1 2 fresh [a1=11]`.
pub fn text_of(alloc: Global, swept: &Swept) -> Result<String, Fail> {
    let mut text = String::new(alloc);
    write!(text, "kept")?;
    write_numbers(&mut text, swept.kept.items())?;
    write!(text, " dropped")?;
    write_numbers(&mut text, swept.dropped.items())?;
    write!(text, " fresh")?;
    for entries in swept.fresh.items() {
        write_page(&mut text, entries.items())?;
    }
    Ok(text)
}

fn write_parts(text: &mut String, parts: &List<Part>) -> Result<(), Fail> {
    for part in parts.items() {
        match part {
            Part::Kept(place) => write!(text, " {place}")?,
            Part::Fresh(entries) => write_page(text, entries.items())?,
        }
    }
    Ok(())
}

fn write_tile(text: &mut String, tile: &SweptTile) -> Result<(), Fail> {
    write_key(text, &tile.lo)?;
    write!(text, "..")?;
    write_key(text, &tile.hi)?;
    write_parts(text, &tile.parts)?;
    write!(text, "; ")?;
    Ok(())
}

/// As `a..d 0 [d4=30]; ` for each tile.
pub fn text_of_tiles(alloc: Global, swept: &SweptFile) -> Result<String, Fail> {
    let mut text = String::new(alloc);
    for tile in swept.tiles.items() {
        write_tile(&mut text, tile)?;
    }
    Ok(text)
}
