//! Writing one record.
ghost use Rattle.std.specs.Prelude.{◌≡◌, IfOk};
ghost use Rattle.lethe_segment.specs.Records.{record_bytes, RecordHasSpelling};
ghost use Rattle.lethe_segment.specs.Segments.{segment_bytes, Ascends};

use crate::Record;
use crate::head::head;
use crate::record::{BLIND, ERASE};
use lethe_base::{NoMemory, entry_len, write_entry, write_erase};
use std::alloc::Global;

/// The byte of a gate behind which a record counts.
pub const OPEN_GATE: u8 = 1;

/// The byte of the gate that ends a segment.
pub const CLOSED_GATE: u8 = 0;

/// The record's one spelling. It takes memory once, for all of its bytes.
#[tactic(auto, unfolding(crate::specs::Records::record_bytes))]
pub fn write_record(alloc: Global, item: &Record) -> Result<Vec<u8>, NoMemory>
    requires { RecordHasSpelling item.now }
    ensures { IfOk result (λ bytes. bytes.items ≡ record_bytes item.now) }
{
    match item {
        Record::Entry(entry) => {
            let mut out = Vec::with_capacity(alloc, entry_len(entry))?;
            write_entry(&mut out, entry)?;
            Ok(out)
        }
        Record::Blind { seq } => {
            let mut out = Vec::with_capacity(alloc, 9)?;
            out.push(BLIND)?;
            out.extend_from_slice(&seq.to_be_bytes())?;
            Ok(out)
        }
        Record::Erase(erase) => {
            let mut out = Vec::with_capacity(alloc, 33)?;
            out.push(ERASE)?;
            write_erase(&mut out, erase)?;
            Ok(out)
        }
    }
}

/// A segment with these records: its head, each record behind an open gate byte, and a closed gate byte.
#[tactic(auto, unfolding(crate::specs::Segments::segment_bytes))]
pub fn write_segment(alloc: Global, number: u64, records: &[Record]) -> Result<Vec<u8>, NoMemory>
    requires { Ascends 0 records.now }
    ensures { IfOk result (λ bytes. bytes.items ≡ segment_bytes number records.now) }
{
    let mut out = Vec::new(alloc);
    out.extend_from_slice(&head(number))?;
    for record in records {
        let body = write_record(alloc, record)?;
        out.push(OPEN_GATE)?;
        out.extend_from_slice(&body)?;
    }
    out.push(CLOSED_GATE)?;
    Ok(out)
}
