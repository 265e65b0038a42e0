//! Reading a page's line.
ghost use Rattle.std.specs.Prelude.{◌≡◌, ◌≤◌, ◌<◌, ◌^◌, ◌+◌, ◌*◌, ◌-◌, [], IfOk, length};
ghost use Rattle.std.specs.Int.{div_ceil};
ghost use Rattle.lethe_base.specs.Reading.{since_at};
ghost use Rattle.lethe_base.specs.declared.front.BodyKind.TheVariants as kinds;
ghost use Rattle.lethe_header.specs.Headers.{max_tile_entries};
ghost use Rattle.lethe_header.specs.Reading.{Gives, part, class_at, entries_at, counts_at, fence_at, word_at, all_at, filter_at, digest_at, line_at};

use crate::before::Before;
use crate::fields::{read_from, read_u8, read_u32, read_u64, take_long};
use crate::{HeaderRefused, PageLine};
use lethe_base::{EntryRefused, List, MAX_PLACE, MAX_TIME, take_u8, take_u64};
use lethe_page::Class;
use lethe_tile::Filter;
use std::alloc::Global;

/// The greatest number of entries of a tile.
const MAX_TILE_ENTRIES: u64 = 65_536;

/// The greatest number of a tile's pages of puts.
const MAX_PUTS: u64 = 64;

#[tactic(auto, unfolding(crate::specs::Reading::class_at))]
fn read_class(before: Before, bytes: &[u8], at: usize) -> Result<Class, HeaderRefused>
    ensures { result ≡ class_at before bytes.now at }
{
    let byte = read_u8(bytes, at, 1, 2)?;
    if byte == 1 {
        if before.puts < MAX_PUTS {
            Ok(Class::Puts)
        } else {
            Err(HeaderRefused::Order { at: at as u64 })
        }
    } else if before.lines == 0 {
        Ok(Class::Tombs)
    } else {
        Err(HeaderRefused::Order { at: at as u64 })
    }
}

#[tactic(auto, unfolding(crate::specs::Reading::entries_at))]
fn read_entries(before: Before, bytes: &[u8], at: usize) -> Result<u32, HeaderRefused>
    requires { before.entries ≤ max_tile_entries }
    ensures count { result ≡ entries_at before bytes.now at }
    ensures some { IfOk result (λ entries. 0 < entries) }
    ensures entries { IfOk result (λ entries. before.entries + entries ≤ max_tile_entries) }
{
    let entries = read_u32(bytes, at, 1, u32::MAX)?;
    if before.entries + entries as u64 <= MAX_TILE_ENTRIES {
        Ok(entries)
    } else {
        Err(HeaderRefused::Order { at: at as u64 })
    }
}

// What a line begins with.
#[derive(Clone, Copy, Debug, PartialEq, Eq)]
struct Counts {
    no: u64,
    class: Class,
    entries: u32,
    max_seq: u64,
}

#[tactic(auto, unfolding(crate::specs::Reading::counts_at))]
fn read_counts(before: Before, bytes: &[u8], at: usize) -> Result<Counts, HeaderRefused>
    requires { before.entries ≤ max_tile_entries }
    ensures counts { result ≡ counts_at before bytes.now at }
    ensures some { IfOk result (λ counts. 0 < counts.entries) }
    ensures ends { IfOk result (λ _. at + 21 ≤ length bytes.now) }
    ensures entries { IfOk result (λ counts. before.entries + counts.entries ≤ max_tile_entries) }
{
    let no = read_u64(bytes, at, 0, MAX_PLACE)?;
    let class = read_class(before, bytes, at + 8)?;
    let entries = read_entries(before, bytes, at + 9)?;
    let max_seq = read_u64(bytes, at + 13, 1, MAX_PLACE)?;
    Ok(Counts {
        no,
        class,
        entries,
        max_seq,
    })
}

// A mark, and behind a mark of 1 the time.
#[tactic(auto, unfolding(lethe_base::specs::Reading::since_at))]
fn read_oldest(bytes: &[u8], at: usize) -> Result<(Option<u64>, usize), EntryRefused>
    ensures { result ≡ since_at kinds.Put bytes.now at }
{
    match take_u8(bytes, at).ok_or(EntryRefused::Short { at: at as u64 })? {
        1 => {
            let time = take_u64(bytes, at + 1).ok_or(EntryRefused::Short { at: at as u64 + 1 })?;
            if time <= MAX_TIME {
                Ok((Some(time), at + 9))
            } else {
                Err(EntryRefused::Kind { at: at as u64 + 1 })
            }
        }
        0 => Ok((None, at + 1)),
        _ => Err(EntryRefused::Kind { at: at as u64 }),
    }
}

fn oldest_part(bytes: &[u8], at: usize) -> Result<(Option<u64>, usize), HeaderRefused>
    ensures { result ≡ part (since_at kinds.Put bytes.now at) }
{
    Ok(read_oldest(bytes, at)?)
}

#[tactic(auto, unfolding(crate::specs::Reading::fence_at))]
fn read_fence(
    class: Class,
    dkey: u64,
    bytes: &[u8],
    at: usize,
) -> Result<(Option<(u64, u64)>, usize), HeaderRefused>
    ensures { result ≡ fence_at class dkey bytes.now at }
{
    match class {
        Class::Puts => {
            let lo = read_from(bytes, at, dkey)?;
            let hi = read_from(bytes, at + 8, lo)?;
            Ok((Some((lo, hi)), at + 16))
        }
        Class::Tombs => Ok((None, at)),
    }
}

// Memory is taken as the words are read, not on the word of `count`.
fn read_words(
    alloc: Global,
    count: u32,
    bytes: &[u8],
    start: usize,
) -> Result<(List<u64>, usize), HeaderRefused>
    ensures words { Gives result (all_at word_at count [] bytes.now start) }
    ensures len { IfOk result (λ words. length words.0 ≡ count) }
{
    let mut words = Vec::new(alloc);
    let mut at = start;
    'words: while words.len() < count as usize {
        let word = take_long(bytes, at)?;
        words.push(word)?;
        at += 8;
    }
    Ok((List::of(words), at))
}

#[tactic(auto, unfolding(crate::specs::Reading::filter_at))]
fn read_filter(
    alloc: Global,
    entries: u32,
    bytes: &[u8],
    at: usize,
) -> Result<(Filter, usize), HeaderRefused>
    requires { 0 < entries }
    ensures { Gives result (filter_at entries bytes.now at) }
{
    let len = (10 * entries as u64).div_ceil(64) as u32;
    let len = read_u32(bytes, at, len, len)?;
    let (words, end) = read_words(alloc, len, bytes, at + 4)?;
    Ok((Filter::of_words(words.into_vec()).unwrap(), end))
}

#[tactic(auto, unfolding(crate::specs::Reading::digest_at))]
fn read_digest(bytes: &[u8], at: usize) -> Result<([u8; 32], usize), HeaderRefused>
    ensures { result ≡ digest_at bytes.now at }
{
    let Some(field) = bytes.get(at..).and_then(|rest| rest.get(..32)) else {
        return Err(HeaderRefused::Short { at: at as u64 });
    };
    let mut digest = [0; 32];
    digest.copy_from_slice(field);
    Ok((digest, at + 32))
}

/// The line that begins at `at`, behind others of its tile, and where it ends.
#[tactic(auto, unfolding(crate::specs::Reading::line_at))]
pub fn read_line(
    alloc: Global,
    before: Before,
    bytes: &[u8],
    at: usize,
) -> Result<(PageLine, usize), HeaderRefused>
    requires { before.entries ≤ max_tile_entries }
    ensures line { Gives result (line_at before bytes.now at) }
    ensures entries { IfOk result (λ line. before.entries + line.0.entries ≤ max_tile_entries) }
{
    let Counts {
        no,
        class,
        entries,
        max_seq,
    } = read_counts(before, bytes, at)?;
    let (oldest, at) = oldest_part(bytes, at + 21)?;
    let (fence, at) = read_fence(class, before.dkey, bytes, at)?;
    let (filter, at) = read_filter(alloc, entries, bytes, at)?;
    let (digest, end) = read_digest(bytes, at)?;
    Ok((
        PageLine {
            no,
            class,
            entries,
            max_seq,
            oldest,
            fence,
            filter,
            digest,
        },
        end,
    ))
}
