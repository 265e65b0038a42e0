//! The records of a row.
ghost use Rattle.std.specs.Prelude.{◌≡◌, ◌<◌, ◌≤◌, IfOk};
ghost use Rattle.lethe_segment.specs.Records.{RecordHasSpelling, record_seq};

use lethe_base::{Body, Entry, Key, Value};
use lethe_segment::{OPEN_GATE, Record, new_segment, write_record};
use std::alloc::Global;
use std::test::Fail;

/// How many records a row has.
pub const RECORDS: u64 = 5;

/// The record of a place: a blind delete at an even one, and else a put.
pub fn record_of(alloc: Global, seq: u64) -> Result<Record, Fail>
    requires above { 0 < seq }
    requires below { seq ≤ RECORDS }
    ensures spelled { IfOk result RecordHasSpelling }
    ensures place { IfOk result (λ item. record_seq item ≡ seq) }
{
    if seq % 2 == 0 {
        return Ok(Record::Blind { seq });
    }
    Ok(Record::Entry(Entry {
        seq,
        key: Key::new(b"a".to_vec(alloc)?)?,
        body: Body::Put {
            dkey: 5,
            value: Value::new(b"xyz".to_vec(alloc)?)?,
        },
        since: None,
    }))
}

/// What a segment begins with that has so many records of the row.
pub fn front_of(alloc: Global, records: u64) -> Result<Vec<u8>, Fail> {
    let mut bytes = new_segment(3)[..11].to_vec(alloc)?;
    for before in 0..records.min(RECORDS) {
        let item = record_of(alloc, before + 1)?;
        bytes.push(OPEN_GATE)?;
        bytes.extend_from_slice(&write_record(alloc, &item)?)?;
    }
    Ok(bytes)
}
