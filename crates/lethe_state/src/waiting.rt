//! The record of a change behind one that waits: that is written, but isn't entered yet.
ghost use Rattle.std.specs.Prelude.{◌≡◌, ◌↔◌, ◌+◌, ◌<◌, ◌≤◌, ◌^◌, ℕ, [], ◌∷◌, ◌++◌, length, option_map, IfOk, IsSome, IsTrue, OnOk};
ghost use Rattle.std.specs.Option.{option_or};
ghost use Rattle.lethe_base.specs.Entries.{entry_of};
ghost use Rattle.lethe_base.specs.Limits.{IsKey, IsValue, max_place};
ghost use Rattle.lethe_base.specs.Spelling.{IsTimeOrNone};
ghost use Rattle.lethe_segment.specs.Records.{RecordHasSpelling, record_bytes, record_seq};
ghost use Rattle.lethe_manifest.specs.Manifests.{AreErases};
ghost use Rattle.lethe_stored.specs.Stored.{erase_of};
ghost use Rattle.lethe_advance.specs.Shown.{parts_by_level};
ghost use Rattle.lethe_state.specs.Records.{IsDeleteRecord, IsLike, IsNext, erase_record, frozen_entry, headers_in, pending_with, put_record, since_of, tomb_record};
ghost use Rattle.lethe_state.specs.Waiting.{IsPrepared};
ghost use Rattle.lethe_state.specs.Writable.{IsWritable};
ghost use Rattle.lethe_state.specs.declared.state.State as state;

use crate::State;
use crate::changing::{Prepared, behind, with_erase};
use lethe_base::{Body, Entry, Key, List, NoMemory, Pending, Range, Value};
use lethe_disk::Disk;
use lethe_mem::Buffer;
use lethe_segment::{Record, write_record};
use lethe_version::Version;
use std::alloc::Global;

/// A record that waits behind its closed gate, and what entering it takes.
#[derive(Debug, Drop)]
pub struct Waiting {
    /// The record.
    pub record: Record,
    /// The place of the gate byte that ends the segment behind it.
    pub end: u64,
    /// Where it is an erase, the pending erases with it.
    pub pending: Option<List<Pending>>,
}

impl State {
    /// The time of the active buffer's entry of a key once the record that waits is entered.
    fn since_behind(&self, front: &Record, key: &Key) -> Option<u64>
        requires writable { IsWritable self.now }
        requires front { RecordHasSpelling front.now }
        ensures fits { IsTimeOrNone result }
        ensures is { (then : state.State) (end : ℕ) → IsNext front.now end self.now then → result ≡ since_of key.now then.active.entries }
    {
        match front {
            Record::Entry(entry) if *key == entry.key => entry.since,
            _ => self.since_of(key),
        }
    }

    /// Whether a buffer has an entry of a key once the record that waits is entered.
    fn is_buffered_behind(&self, front: &Record, key: &Key) -> bool
        ensures { (then : state.State) (end : ℕ) → IsNext front.now end self.now then
            → IsTrue result ↔ IsSome (option_or (entry_of key.now then.active.entries) (frozen_entry key.now then.frozen)) }
    {
        match front {
            Record::Entry(entry) if *key == entry.key => true,
            _ => self.is_buffered(key),
        }
    }

    /// The record of a put behind the one that waits.
    pub fn put_record_behind(&self, front: &Record, key: Key, dkey: u64, value: Value) -> Record
        requires writable { IsWritable self.now }
        requires front { RecordHasSpelling front.now }
        requires fits { self.now.count + 1 < max_place }
        requires pair { IsKey key × (dkey < 2 ^ 64) × IsValue value }
        ensures spelled { RecordHasSpelling result }
        ensures place { record_seq result ≡ self.now.count + 2 }
        ensures is { (then : state.State) (end : ℕ) → IsNext front.now end self.now then → result ≡ put_record then key dkey value }
    {
        let since = self.since_behind(front, &key);
        Record::Entry(Entry {
            seq: self.count + 2,
            key,
            body: Body::Put { dkey, value },
            since,
        })
    }

    /// A tombstone behind the record that waits.
    fn tomb_record_behind(&self, front: &Record, key: Key) -> Record
        requires writable { IsWritable self.now }
        requires front { RecordHasSpelling front.now }
        requires fits { self.now.count + 1 < max_place }
        requires key { IsKey key }
        ensures spelled { RecordHasSpelling result }
        ensures place { record_seq result ≡ self.now.count + 2 }
        ensures is { (then : state.State) (end : ℕ) → IsNext front.now end self.now then → result ≡ tomb_record then key }
    {
        let clock = self.manifest.clock;
        let since = clock.min(self.since_behind(front, &key).unwrap_or(clock));
        Record::Entry(Entry {
            seq: self.count + 2,
            key,
            body: Body::Tomb,
            since: Some(since),
        })
    }

    /// The record of a delete behind the one that waits.
    pub fn delete_record_behind<D: Disk>(
        &self,
        version: &Version<D>,
        front: &Record,
        key: Key,
    ) -> Record
        requires writable { IsWritable self.now }
        requires front { RecordHasSpelling front.now }
        requires fits { self.now.count + 1 < max_place }
        requires key { IsKey key }
        ensures spelled { RecordHasSpelling result }
        ensures place { record_seq result ≡ self.now.count + 2 }
        ensures is { (then : state.State) (end : ℕ) → IsNext front.now end self.now then → IsDeleteRecord then (headers_in (parts_by_level version.now)) key result }
    {
        if self.is_buffered_behind(front, &key) || version.may_hold(&key) {
            self.tomb_record_behind(front, key)
        } else {
            Record::Blind {
                seq: self.count + 2,
            }
        }
    }

    /// The record of an erase of a range of delete keys behind the record that waits.
    pub fn erase_record_behind(&self, front: &Record, range: Range) -> Record
        requires writable { IsWritable self.now }
        requires fits { self.now.count + 1 < max_place }
        ensures spelled { RecordHasSpelling result }
        ensures place { record_seq result ≡ self.now.count + 2 }
        ensures is { (then : state.State) (end : ℕ) → IsNext front.now end self.now then → result ≡ erase_record then range }
    {
        Record::Erase(Pending {
            seq: self.count + 2,
            time: self.manifest.clock,
            range,
        })
    }

    /// Takes the memory that a record behind the one that waits needs, beside that which was taken for the one that waits. It stays taken, whatever it answers.
    pub fn prepare_behind(
        &mut self,
        alloc: Global,
        front: &Waiting,
        next: &Record,
    ) -> Result<Prepared, NoMemory>
        requires writable { IsWritable self.old }
        requires front { IsPrepared self.old front.now }
        requires spelled { RecordHasSpelling next.now }
        ensures body { IfOk result (λ made. made.body.items ≡ record_bytes next.now) }
        ensures end { IfOk result (λ made. made.end ≡ front.now.end + length made.body.items + 1) }
        ensures pending { IfOk result (λ made. made.pending ≡ option_map (λ erase. pending_with self.old.pending front.now.record ++ erase ∷ []) (erase_of next.now)) }
        ensures erases { OnOk result (AreErases (pending_with (pending_with self.old.pending front.now.record) next.now)) }
        ensures room { OnOk result (2 ≤ self.new.active.spare) }
        ensures front { IsPrepared self.new front.now }
        ensures same { IsLike self.old self.new }
        ensures writable { IsWritable self.new }
    {
        let body = write_record(alloc, next)?;
        let pending = with_erase(alloc, self.pending_behind(front), next)?;
        self.active.reserve(2)?;
        let end = behind(front.end, &body).ok_or(NoMemory)?;
        Ok(Prepared { body, end, pending })
    }

    /// The pending erases once the record that waits is entered.
    fn pending_behind<'a>(&'a self, front: &'a Waiting) -> &'a [Pending]
        requires { IsPrepared self.now front.now }
        ensures { result.now ≡ pending_with self.now.pending front.now.record }
    {
        match &front.pending {
            Some(pending) => pending.items(),
            None => self.pending.items(),
        }
    }
}
