//! Reading one record.
ghost use Rattle.std.specs.Prelude.{◌≡◌, IfOk, IfErr, MatchOption};
ghost use Rattle.lethe_base.specs.Reading.{StandsAt};
ghost use Rattle.lethe_segment.specs.Records.{record_bytes, RecordHasSpelling};
ghost use Rattle.lethe_segment.specs.Refusals.{refusal_of, IsUnreadAt, IsBlindAt, IsNoBlindAt, IsEraseAt, IsNoEraseAt};

use crate::record::{BLIND, ERASE};
use crate::{Record, SegmentRefused};
use lethe_base::{
    EntryRefused, MAX_TIME, Pending, Range, read_entry, read_place, take_u8, take_u64,
};
use std::alloc::Global;

/// The record that begins at `at`, and where it ends.
pub(crate) fn read_record(
    alloc: Global,
    bytes: &[u8],
    at: usize,
) -> Result<(Record, usize), SegmentRefused>
    ensures found { IfOk result (λ read. RecordHasSpelling read.0
        × StandsAt (record_bytes read.0) bytes.now at read.1) }
    ensures refused { IfErr result (IsUnreadAt bytes.now at) }
{
    if let Some((seq, end)) = read_blind(bytes, at) {
        return Ok((Record::Blind { seq }, end));
    }
    if let Some((erase, end)) = read_erase(bytes, at) {
        return Ok((Record::Erase(erase), end));
    }
    match read_entry(alloc, bytes, at) {
        Ok((entry, end)) => Ok((Record::Entry(entry), end)),
        Err(why) => Err(refusal_at(at, why)),
    }
}

// Why the record that begins at `at` couldn't be read, where the entry couldn't.
fn refusal_at(at: usize, why: EntryRefused) -> SegmentRefused
    ensures { result ≡ refusal_of at why }
{
    match why {
        EntryRefused::Short { .. } => SegmentRefused::Record { at: at as u64 },
        EntryRefused::Kind { .. } => SegmentRefused::Record { at: at as u64 },
        EntryRefused::NoMemory => SegmentRefused::NoMemory,
    }
}

// The place of the blind delete that begins at `at`, and where it ends.
fn read_blind(bytes: &[u8], at: usize) -> Option<(u64, usize)>
    ensures { MatchOption result (IsNoBlindAt bytes.now at) (λ read. IsBlindAt bytes.now at read.0 read.1) }
{
    if take_u8(bytes, at)? != BLIND {
        return None;
    }
    read_place(bytes, at + 1).ok()
}

// The erase whose record begins at `at`, and where it ends.
fn read_erase(bytes: &[u8], at: usize) -> Option<(Pending, usize)>
    ensures { MatchOption result (IsNoEraseAt bytes.now at) (λ read. IsEraseAt bytes.now at read.0 read.1) }
{
    if take_u8(bytes, at)? != ERASE {
        return None;
    }
    let fields = at + 1;
    let (seq, _) = read_place(bytes, fields).ok()?;
    let time = take_u64(bytes, fields + 8)?;
    let lo = take_u64(bytes, fields + 16)?;
    let hi = take_u64(bytes, fields + 24)?;
    let range = Range::new(lo, hi)?;
    if time <= MAX_TIME {
        Some((Pending { seq, time, range }, fields + 32))
    } else {
        None
    }
}
