//! Reading what the store consists of.
ghost use Rattle.std.specs.Prelude.{◌≡◌, ◌+◌, ◌≤◌, IfOk, length};
ghost use Rattle.lethe_manifest.specs.Numbers.{Gives};
ghost use Rattle.lethe_manifest.specs.Parts.{certificate_at, marked_at, all_at, erase_at, erases_at, segment_at, segments_at, level_at, digest_at, file_at, files_at, parts_at};

use crate::fields::{read_above, read_byte, read_cited, read_u32, read_u64};
use crate::{Cited, LastCert, ManifestRefused};
use lethe_base::{List, MAX_PLACE, MAX_TIME, Pending, Range};
use std::alloc::Global;

/// The greatest number of a manifest's segments.
const MAX_SEGMENTS: u64 = 2;

/// The greatest number of its erases, and of its files.
const MAX_COUNT: u64 = u32::MAX as u64;

/// What the store consists of.
#[derive(Debug, Drop)]
pub struct Parts {
    pub certificate: Option<LastCert>,
    pub erases: List<Pending>,
    pub segments: List<u64>,
    pub files: List<Cited>,
}

#[tactic(auto, unfolding(crate::specs::Parts::certificate_at))]
fn read_certificate(bytes: &[u8], at: usize) -> Result<LastCert, ManifestRefused>
    ensures { result ≡ certificate_at bytes.now at }
{
    let number = read_u64(bytes, at, 1, MAX_PLACE)?;
    let clock = read_u64(bytes, at + 8, 0, MAX_TIME)?;
    let before = read_u64(bytes, at + 16, 0, MAX_TIME)?;
    Ok(LastCert {
        number,
        clock,
        before,
    })
}

// A mark, and behind a mark of 1 the certificate; and where it ends.
#[tactic(auto, unfolding(crate::specs::Parts::marked_at))]
fn read_marked(bytes: &[u8]) -> Result<(Option<LastCert>, usize), ManifestRefused>
    ensures { result ≡ marked_at bytes.now }
{
    if read_byte(bytes, 53, 0, 1)? == 0 {
        return Ok((None, 54));
    }
    let certificate = read_certificate(bytes, 54)?;
    Ok((Some(certificate), 78))
}

// The erase that begins at `at`, behind one of the place `last`, and where it ends.
#[tactic(auto, unfolding(crate::specs::Parts::erase_at))]
fn read_erase(last: u64, bytes: &[u8], at: usize) -> Result<(Pending, usize), ManifestRefused>
    ensures { result ≡ erase_at last bytes.now at }
{
    let seq = read_above(last, bytes, at, 1, MAX_PLACE)?;
    let time = read_u64(bytes, at + 8, 0, MAX_TIME)?;
    let lo = read_u64(bytes, at + 16, 0, u64::MAX)?;
    let hi = read_above(lo, bytes, at + 24, 0, u64::MAX)?;
    let range = Range::new(lo, hi).unwrap();
    Ok((Pending { seq, time, range }, at + 32))
}

// Memory is taken as the erases are read, not on the word of the count.
#[tactic(auto, unfolding(crate::specs::Parts::erases_at))]
fn read_erases(
    alloc: Global,
    bytes: &[u8],
    start: usize,
) -> Result<(List<Pending>, usize), ManifestRefused>
    ensures { Gives result (erases_at bytes.now start) }
{
    let count = read_u32(bytes, start, 0, MAX_COUNT)?;
    let mut erases = Vec::new(alloc);
    let mut last = 0;
    let mut at = start + 4;
    'erases: while (erases.len() as u64) < count {
        let (erase, end) = read_erase(last, bytes, at)?;
        last = erase.seq;
        erases.push(erase)?;
        at = end;
    }
    Ok((List::of(erases), at))
}

#[tactic(auto, unfolding(crate::specs::Parts::segment_at))]
fn read_segment(next: u64, bytes: &[u8], at: usize) -> Result<(u64, usize), ManifestRefused>
    ensures { result ≡ segment_at next 0 bytes.now at }
{
    let segment = read_cited(next, bytes, at)?;
    Ok((segment, at + 8))
}

#[tactic(auto, unfolding(crate::specs::Parts::segments_at))]
fn read_segments(
    alloc: Global,
    next: u64,
    bytes: &[u8],
    start: usize,
) -> Result<(List<u64>, usize), ManifestRefused>
    ensures { Gives result (segments_at next bytes.now start) }
{
    let count = read_byte(bytes, start, 1, MAX_SEGMENTS)?;
    let mut segments = Vec::new(alloc);
    let mut at = start + 1;
    'segments: while (segments.len() as u64) < count {
        let (segment, end) = read_segment(next, bytes, at)?;
        segments.push(segment)?;
        at = end;
    }
    Ok((List::of(segments), at))
}

#[tactic(auto, unfolding(crate::specs::Parts::level_at))]
fn read_level(levels: u64, last: u64, bytes: &[u8], at: usize) -> Result<u64, ManifestRefused>
    ensures level { result ≡ level_at levels last bytes.now at }
    ensures ends { IfOk result (λ _. at + 1 ≤ length bytes.now) }
{
    let level = read_byte(bytes, at, 0, levels)?;
    if last <= level {
        Ok(level)
    } else {
        Err(ManifestRefused::Order { at: at as u64 })
    }
}

#[tactic(auto, unfolding(crate::specs::Parts::digest_at))]
fn read_digest(bytes: &[u8], at: usize) -> Result<([u8; 32], usize), ManifestRefused>
    ensures { result ≡ digest_at bytes.now at }
{
    let Some(field) = bytes.get(at..).and_then(|rest| rest.get(..32)) else {
        return Err(ManifestRefused::Short { at: at as u64 });
    };
    let mut digest = [0; 32];
    digest.copy_from_slice(field);
    Ok((digest, at + 32))
}

// The file that begins at `at`, behind one of the level `last`, and where it ends.
#[tactic(auto, unfolding(crate::specs::Parts::file_at))]
fn read_file(
    next: u64,
    levels: u64,
    last: u64,
    bytes: &[u8],
    at: usize,
) -> Result<(Cited, usize), ManifestRefused>
    ensures { result ≡ file_at next levels last bytes.now at }
{
    let level = read_level(levels, last, bytes, at)?;
    let no = read_cited(next, bytes, at + 1)?;
    let swept = read_u64(bytes, at + 9, 0, MAX_PLACE)?;
    let (digest, end) = read_digest(bytes, at + 17)?;
    Ok((
        Cited {
            level,
            no,
            swept,
            digest,
        },
        end,
    ))
}

// Memory is taken as the files are read, not on the word of the count.
#[tactic(auto, unfolding(crate::specs::Parts::files_at))]
fn read_files(
    alloc: Global,
    next: u64,
    levels: u64,
    bytes: &[u8],
    start: usize,
) -> Result<(List<Cited>, usize), ManifestRefused>
    ensures { Gives result (files_at next levels bytes.now start) }
{
    let count = read_u32(bytes, start, 0, MAX_COUNT)?;
    let mut files = Vec::new(alloc);
    let mut last = 0;
    let mut at = start + 4;
    'files: while (files.len() as u64) < count {
        let (file, end) = read_file(next, levels, last, bytes, at)?;
        last = file.level;
        files.push(file)?;
        at = end;
    }
    Ok((List::of(files), at))
}

/// What the store consists of, and where the last file ends.
#[tactic(auto, unfolding(crate::specs::Parts::parts_at))]
pub fn read_parts(
    alloc: Global,
    next: u64,
    levels: u64,
    bytes: &[u8],
) -> Result<(Parts, usize), ManifestRefused>
    ensures { Gives result (parts_at next levels bytes.now) }
{
    let (certificate, at) = read_marked(bytes)?;
    let (erases, at) = read_erases(alloc, bytes, at)?;
    let (segments, at) = read_segments(alloc, next, bytes, at)?;
    let (files, end) = read_files(alloc, next, levels, bytes, at)?;
    Ok((
        Parts {
            certificate,
            erases,
            segments,
            files,
        },
        end,
    ))
}
