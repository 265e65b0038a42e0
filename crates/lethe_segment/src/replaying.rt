//! Reading a segment back, whatever a crash made of it.
ghost use Rattle.std.specs.Prelude.{◌≡◌, ◌≢◌, ◌<◌, ◌^◌, ◌⊎◌, ℕ, List, IsTrue, ◌↔◌, IfErr, IfOk, MatchResult};
ghost use Rattle.std.specs.Int.{w8};
ghost use Rattle.lethe_base.specs.Numbers.{number_at};
ghost use Rattle.lethe_segment.specs.declared.record.Record.{Record};
ghost use Rattle.lethe_segment.specs.declared.replaying.SegmentRefused.{SegmentRefused};
ghost use Rattle.lethe_segment.specs.declared.replaying.SegmentRefused.TheVariants.{NoMemory};
ghost use Rattle.lethe_segment.specs.Segments.{Ascends};
ghost use Rattle.lethe_segment.specs.Holding.{Holds};
ghost use Rattle.lethe_segment.specs.Refusals.{HasReason};

use crate::Record;
use crate::head::{HEAD, read_head};
use crate::reading::read_record;
use crate::writing::OPEN_GATE;
use lethe_base::take_u8;
use std::alloc::{AllocFailed, Global};

/// Why a segment can't be replayed.
#[derive(Clone, Copy, Debug, PartialEq, Eq)]
pub enum SegmentRefused {
    /// The bytes don't begin with a head. `at` is the first byte that differs from one, or the length.
    Header { at: u64 },
    /// Behind an open gate byte no record can be read that begins at `at`.
    Record { at: u64 },
    /// The place of the record at `at` isn't above that of the record before.
    Order { at: u64 },
    /// There was no memory for the records.
    NoMemory,
}

impl<T: Drop> From<AllocFailed<T>> for SegmentRefused {
    ghost from_gives = { λ _ why. why ≡ NoMemory };

    fn from(_: AllocFailed<T>) -> Self {
        SegmentRefused::NoMemory
    }
}

/// The records before the first gate byte that isn't open, or before the end. What follows that gate byte counts for nothing.
pub fn replay(alloc: Global, bytes: &[u8]) -> Result<Vec<Record>, SegmentRefused>
    // The bytes hold the records.
    ensures found { IfOk result (λ records. (number : ℕ) × (number < 2 ^ 64)
        × Holds number records.items bytes.now × Ascends 0 records.items) }

    // Which they hold, those are given, unless memory runs out.
    ensures only { (number : ℕ) (records : List Record) → Holds number records bytes.now → Ascends 0 records
        → MatchResult result (λ read. read.items ≡ records) (λ why. why ≡ SegmentRefused.NoMemory) }

    // A refusal has its reason in the bytes.
    ensures refused { IfErr result (λ why. why ≢ SegmentRefused.NoMemory → HasReason bytes.now why) }

    // Where they have a reason, the segment is refused for it, unless memory runs out.
    ensures exact { (why : SegmentRefused) → HasReason bytes.now why
        → MatchResult result (λ _. ⊥) (λ told. (told ≡ why) ⊎ (told ≡ SegmentRefused.NoMemory)) }
{
    read_all(alloc, bytes)
}

fn read_all(alloc: Global, bytes: &[u8]) -> Result<Vec<Record>, SegmentRefused>
    ensures found { IfOk result (λ records. (number : ℕ) × (number < 2 ^ 64)
        × Holds number records.items bytes.now × Ascends 0 records.items) }
    ensures refused { IfErr result (λ why. why ≢ SegmentRefused.NoMemory → HasReason bytes.now why) }
{
    if let Err(at) = read_head(bytes) {
        return Err(SegmentRefused::Header { at: at as u64 });
    }
    let mut records = Vec::new(alloc);
    let mut last = 0;
    let mut gate = HEAD;
    'gates: while is_open(bytes, gate) {
        let at = gate + 1;
        let (record, end) = read_record(alloc, bytes, at)?;
        let seq = record.seq();
        if seq <= last {
            return Err(SegmentRefused::Order { at: at as u64 });
        }
        last = seq;
        records.push(record)?;
        gate = end;
    }
    Ok(records)
}

// An open gate byte stands there.
fn is_open(bytes: &[u8], gate: usize) -> bool
    ensures { IsTrue result ↔ (number_at w8 bytes.now gate ≡ Some 1) }
{
    matches!(take_u8(bytes, gate), Some(OPEN_GATE))
}
