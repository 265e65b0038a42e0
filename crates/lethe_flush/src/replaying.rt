//! The buffer that records leave.
ghost use Rattle.std.specs.Prelude.{◌≤◌, length, All, IfOk};
ghost use Rattle.lethe_base.specs.Spelling.{HasSpelling};
ghost use Rattle.lethe_segment.specs.Segments.{Ascends};
ghost use Rattle.lethe_stored.specs.Replayed.{AreNewestOf};

use lethe_base::{List, NoMemory};
use lethe_mem::{Buffer, VecBuffer};
use lethe_segment::Record;
use std::alloc::Global;

/// The newest entry of each key that the records have.
pub fn newest_of(alloc: Global, records: List<Record>) -> Result<VecBuffer, NoMemory>
    requires { Ascends 0 records }
    ensures newest { IfOk result (λ buffer. AreNewestOf records buffer.entries) }
    ensures spelled { IfOk result (λ buffer. All HasSpelling buffer.entries) }
    ensures few { IfOk result (λ buffer. length buffer.entries ≤ length records) }
{
    entered(alloc, records)
}

fn entered(alloc: Global, records: List<Record>) -> Result<VecBuffer, NoMemory>
    ensures newest { IfOk result (λ buffer. AreNewestOf records buffer.entries) }
    ensures few { IfOk result (λ buffer. length buffer.entries ≤ length records) }
{
    let mut buffer = VecBuffer::new(alloc);
    for record in records.into_vec() {
        if let Record::Entry(entry) = record {
            buffer.reserve(1)?;
            buffer.insert(entry);
        }
    }
    Ok(buffer)
}
