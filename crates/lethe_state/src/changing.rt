//! The records of changes, and what they make of a state.
ghost use Rattle.std.specs.Prelude.{◌≡◌, ◌↔◌, ◌+◌, ◌<◌, ◌≤◌, ◌^◌, [], ◌∷◌, ◌++◌, length, option_map, IfOk, IfSome, IsSome, IsTrue, OnOk};
ghost use Rattle.std.specs.Option.{option_or};
ghost use Rattle.lethe_base.specs.Entries.{entry_of};
ghost use Rattle.lethe_base.specs.Limits.{IsKey, IsValue, max_place};
ghost use Rattle.lethe_base.specs.Spelling.{IsTimeOrNone};
ghost use Rattle.lethe_segment.specs.Records.{RecordHasSpelling, record_bytes};
ghost use Rattle.lethe_manifest.specs.Manifests.{AreErases};
ghost use Rattle.lethe_stored.specs.Stored.{erase_of};
ghost use Rattle.lethe_advance.specs.Shown.{parts_by_level};
ghost use Rattle.lethe_follows.specs.Young.{time_of};
ghost use Rattle.lethe_state.specs.Records.{IsDeleteRecord, IsLike, IsNext, erase_record, frozen_entry, halted, headers_in, pending_with, put_record, since_of, tomb_record};
ghost use Rattle.lethe_state.specs.Writable.{IsWritable};

use crate::State;
use crate::firsts::earlier;
use lethe_base::{Body, Entry, Key, List, NoMemory, Pending, Range, Value};
use lethe_disk::Disk;
use lethe_mem::Buffer;
use lethe_segment::{Record, write_record};
use lethe_version::Version;
use std::alloc::Global;

/// The greatest number of pending erases: a manifest counts them by 32 bits.
const MAX_ERASES: usize = u32::MAX as usize;

/// What the record of the next change needs.
#[derive(Debug, Drop)]
pub struct Prepared {
    /// The record's spelling.
    pub body: Vec<u8>,
    /// The place of the gate byte that ends the segment behind it.
    pub end: u64,
    /// Where the record is an erase, the pending erases with it.
    pub pending: Option<List<Pending>>,
}

impl State {
    /// The time of the active buffer's entry of a key.
    pub(crate) fn since_of(&self, key: &Key) -> Option<u64>
        requires { IsWritable self.now }
        ensures fits { IsTimeOrNone result }
        ensures is { result ≡ since_of key.now self.now.active.entries }
    {
        self.active.find(key).and_then(|entry| entry.since)
    }

    /// Whether a buffer has an entry of a key.
    pub(crate) fn is_buffered(&self, key: &Key) -> bool
        ensures { IsTrue result ↔ IsSome (option_or (entry_of key.now self.now.active.entries) (frozen_entry key.now self.now.frozen)) }
    {
        self.active.find(key).is_some()
            || self
                .frozen
                .as_ref()
                .is_some_and(|frozen| frozen.find(key).is_some())
    }

    /// The record of a put. It takes the time of the key's entry in the active buffer.
    pub fn put_record(&self, key: Key, dkey: u64, value: Value) -> Record
        requires writable { IsWritable self.now }
        requires fits { self.now.count < max_place }
        requires pair { IsKey key × (dkey < 2 ^ 64) × IsValue value }
        ensures spelled { RecordHasSpelling result }
        ensures is { result ≡ put_record self.now key dkey value }
    {
        let since = self.since_of(&key);
        Record::Entry(Entry {
            seq: self.count + 1,
            key,
            body: Body::Put { dkey, value },
            since,
        })
    }

    /// A tombstone, with the clock or the smaller time of the active buffer's entry of the key.
    fn tomb_record(&self, key: Key) -> Record
        requires writable { IsWritable self.now }
        requires fits { self.now.count < max_place }
        requires key { IsKey key }
        ensures spelled { RecordHasSpelling result }
        ensures is { result ≡ tomb_record self.now key }
    {
        let clock = self.manifest.clock;
        let since = clock.min(self.since_of(&key).unwrap_or(clock));
        Record::Entry(Entry {
            seq: self.count + 1,
            key,
            body: Body::Tomb,
            since: Some(since),
        })
    }

    /// The record of a delete: a tombstone where a buffer has an entry of the key or a page of a file may have one, and else its place alone.
    pub fn delete_record<D: Disk>(&self, version: &Version<D>, key: Key) -> Record
        requires writable { IsWritable self.now }
        requires fits { self.now.count < max_place }
        requires key { IsKey key }
        ensures spelled { RecordHasSpelling result }
        ensures is { IsDeleteRecord self.now (headers_in (parts_by_level version.now)) key result }
    {
        if self.is_buffered(&key) || version.may_hold(&key) {
            self.tomb_record(key)
        } else {
            Record::Blind {
                seq: self.count + 1,
            }
        }
    }

    /// The record of an erase of a range of delete keys. Its time is the clock.
    pub fn erase_record(&self, range: Range) -> Record
        requires writable { IsWritable self.now }
        requires fits { self.now.count < max_place }
        ensures spelled { RecordHasSpelling result }
        ensures is { result ≡ erase_record self.now range }
    {
        Record::Erase(Pending {
            seq: self.count + 1,
            time: self.manifest.clock,
            range,
        })
    }

    /// Takes the memory that the record of the next change needs. A segment that would pass 2^64 bytes, and an erase where 2^32 - 1 are pending already,
    /// count as ones for which there is no memory.
    pub fn prepare(&mut self, alloc: Global, next: &Record) -> Result<Prepared, NoMemory>
        requires writable { IsWritable self.old }
        requires spelled { RecordHasSpelling next.now }
        ensures body { IfOk result (λ made. made.body.items ≡ record_bytes next.now) }
        ensures end { IfOk result (λ made. made.end ≡ self.old.end + length made.body.items + 1) }
        ensures pending { IfOk result (λ made. made.pending ≡ option_map (λ erase. self.old.pending ++ erase ∷ []) (erase_of next.now)) }
        ensures erases { OnOk result (AreErases (pending_with self.old.pending next.now)) }
        ensures room { OnOk result (1 ≤ self.new.active.spare) }
        ensures same { IsLike self.old self.new }
        ensures writable { IsWritable self.new }
    {
        let body = write_record(alloc, next)?;
        let pending = with_erase(alloc, self.pending.items(), next)?;
        self.active.reserve(1)?;
        let end = behind(self.end, &body).ok_or(NoMemory)?;
        Ok(Prepared { body, end, pending })
    }

    /// Enters the record of the next change, behind which the active segment ends there, and these erases are pending where it is one. Its memory was taken.
    pub fn enter(&mut self, next: Record, end: u64, pending: Option<List<Pending>>)
        requires writable { IsWritable self.old }
        requires room { 1 ≤ self.old.active.spare }
        requires fits { self.old.count < max_place }
        requires spelled { RecordHasSpelling next }
        requires pending { pending ≡ option_map (λ erase. self.old.pending ++ erase ∷ []) (erase_of next) }
        requires erases { AreErases (pending_with self.old.pending next) }
        ensures is { IsNext next end self.old self.new }
        ensures writable { IsWritable self.new }
        ensures spare { self.old.active.spare ≤ self.new.active.spare + 1 }
    {
        self.oldest = earlier(self.oldest, time_of(&next));
        self.firsts = self.firsts.with(&next);
        if let Some(pending) = pending {
            self.pending = pending;
        }
        if let Record::Entry(entry) = next {
            self.active.insert(entry);
        }
        self.count += 1;
        self.records += 1;
        self.end = end;
    }

    /// The next change or work failed, at the place that is answered.
    pub fn stop(&mut self) -> u64
        requires writable { IsWritable self.old }
        requires fits { self.old.count < max_place }
        ensures place { result ≡ self.old.count + 1 }
        ensures is { self.new ≡ halted self.old }
        ensures writable { IsWritable self.new }
    {
        let place = self.count + 1;
        self.count = place;
        self.stopped = Some(place);
        place
    }
}

/// The time of a record, if it has one: a blind delete has none.
fn time_of(next: &Record) -> Option<u64>
    ensures { result ≡ time_of next.now }
{
    match next {
        Record::Entry(entry) => entry.since,
        Record::Blind { .. } => None,
        Record::Erase(erase) => Some(erase.time),
    }
}

/// Pending erases with that of the record behind them. None where the record is no erase.
pub(crate) fn with_erase(
    alloc: Global,
    pending: &[Pending],
    next: &Record,
) -> Result<Option<List<Pending>>, NoMemory>
    requires pending { AreErases pending.now }
    requires spelled { RecordHasSpelling next.now }
    ensures is { IfOk result (λ made. made ≡ option_map (λ erase. pending.now ++ erase ∷ []) (erase_of next.now)) }
    ensures erases { OnOk result (AreErases (pending_with pending.now next.now)) }
{
    let Record::Erase(erase) = next else {
        return Ok(None);
    };
    // The places ascend: no manifest of a store has an erase behind all that are counted.
    let is_behind = pending.last().is_none_or(|last| last.seq < erase.seq);
    if !is_behind || pending.len() >= MAX_ERASES {
        return Err(NoMemory);
    }
    let mut all = Vec::with_capacity(alloc, pending.len() + 1)?;
    all.extend_from_slice(pending)?;
    all.push(*erase)?;
    Ok(Some(List::of(all)))
}

/// The place of the gate byte that ends a segment once this body stands behind the one there.
pub(crate) fn behind(end: u64, body: &[u8]) -> Option<u64>
    ensures { IfSome result (λ at. at ≡ end + length body.now + 1) }
{
    end.checked_add(body.len() as u64)?.checked_add(1)
}
