//! Appending records to a segment of the journal, one behind another.
//!
//! In a row of records the sync that makes the next one durable makes the gate of the one before durable too. A gate is
//! opened only once its record is durable, so at most one record is in doubt at each moment.
ghost use Rattle.std.specs.Prelude.{◌≡◌, ◌+◌, ◌<◌, ◌≤◌, [], ◌∷◌, ◌++◌, length, IfOk, OnOk, IsErrOf, IsSomeAnd};
ghost use Rattle.std.specs.FinMap.{insert};
ghost use Rattle.lethe_disk.specs.declared.disk.DiskRefused.TheVariants.{NoMemory};
ghost use Rattle.lethe_disk.specs.Directory.{object, content, write_in, IsWritten};
ghost use Rattle.lethe_disk.specs.Disk.{IsSynced, HasCause};
ghost use Rattle.lethe_disk.specs.Runs.{Leads, Throughout};
ghost use Rattle.lethe_segment.specs.Records.{record_bytes};
ghost use Rattle.lethe_segment.specs.Segments.{segment_bytes};
ghost use Rattle.lethe_commit.specs.Append.{Addition, longer, EndsAt, IsReady, HasRecords, IsUntouched};
ghost use Rattle.lethe_chain.specs.Chains.{waiting_bytes, end_of, IsWaiting, IsBehind, IsOpened};

use lethe_base::Name;
use lethe_disk::{Disk, DiskRefused};
use lethe_segment::{CLOSED_GATE, OPEN_GATE};
use std::alloc::Global;

/// Writes a record behind the closed gate that ends the segment, with a closed gate behind it, and syncs. `at` is the
/// place of the gate that ends the segment, and `body` is the spelling of the record. The record doesn't count yet.
///
/// It takes two device calls.
///
/// # Errors
///
/// `NoMemory` where there was no memory, or where the record would lie past 2^64 bytes. `Failed` where the disk failed:
/// then the record may lie there or not, but it doesn't count.
pub fn append_first<D: Disk>(
    alloc: Global,
    disk: &mut D,
    segment: Name,
    at: u64,
    body: &[u8],
) -> Result<(), DiskRefused>
    requires { D.tells → (a : Addition) × IsReady (D.seen disk.old) segment at body.now a }

    // A crash at any moment of the call leaves the old records alone.
    ensures any_moment { D.tells → (a : Addition) → IsReady (D.seen disk.old) segment at body.now a
        → Leads (IsOpened segment at (length body.now + 2) a) (D.seen disk.old) (D.seen disk.new) }
    ensures unopened { D.tells → (a : Addition) → IsReady (D.seen disk.old) segment at body.now a
        → Throughout (HasRecords segment a.number a.records) (D.seen disk.old) (D.seen disk.new) }

    // Once it is done, each crash leaves the record, which waits behind the closed gate.
    ensures done { D.tells → (a : Addition) → IsReady (D.seen disk.old) segment at body.now a
        → OnOk result ((D.seen disk.new).directory ≡ insert (D.seen disk.old).directory segment (waiting_bytes a)) }
    ensures waits { D.tells → (a : Addition) → IsReady (D.seen disk.old) segment at body.now a
        → OnOk result (IsWaiting (D.seen disk.new) segment at a) }
    ensures synced { D.tells → OnOk result (IsSynced (D.seen disk.new)) }

    ensures calls { D.tells → OnOk result ((D.seen disk.new).moment ≡ (D.seen disk.old).moment + 2) }
    ensures soon { D.tells → (D.seen disk.new).moment ≤ (D.seen disk.old).moment + 2 }

    // Want of memory comes before any change.
    ensures no_memory { D.tells → IsErrOf result NoMemory → IsUntouched (D.seen disk.old) (D.seen disk.new) }
    ensures cause { HasCause (D.faults disk.old) (D.faults disk.new) result }
{
    let Some(behind) = at.checked_add(1) else {
        return Err(DiskRefused::NoMemory);
    };
    let bytes = with_closed_gate(alloc, body)?;
    write_and_sync(disk, segment, behind, &bytes)
}

/// Writes the next record behind the one that waits, opens the gate of the one that waits, and syncs. `at` is the place
/// of that gate, `end` the place of the closed gate that ends the segment, and `body` is the spelling of the next
/// record. Then the one that waited counts, and the next one waits.
///
/// It takes three device calls.
///
/// # Errors
///
/// `NoMemory` where there was no memory, or where the next record would lie past 2^64 bytes. `Failed` where the disk
/// failed: then the record that waited may count or not, and the next one doesn't.
pub fn append_next<D: Disk>(
    alloc: Global,
    disk: &mut D,
    segment: Name,
    at: u64,
    end: u64,
    body: &[u8],
) -> Result<(), DiskRefused>
    requires { D.tells → (a : Addition) × (b : Addition) × IsWaiting (D.seen disk.old) segment at a × (end ≡ end_of at a) × IsBehind a body.now b }

    // A crash at any moment of the call leaves the old records, or the one that waited too.
    ensures any_moment { D.tells → (a : Addition) → IsWaiting (D.seen disk.old) segment at a → end ≡ end_of at a
        → Leads (IsOpened segment at (length (record_bytes a.next) + length body.now + 3) a) (D.seen disk.old) (D.seen disk.new) }

    // Acknowledged: each crash leaves the one that waited, and behind it the next one, which waits.
    ensures done { D.tells → (a b : Addition) → IsWaiting (D.seen disk.old) segment at a → end ≡ end_of at a → IsBehind a body.now b
        → OnOk result ((D.seen disk.new).directory ≡ insert (D.seen disk.old).directory segment (waiting_bytes b)) }
    ensures waits { D.tells → (a b : Addition) → IsWaiting (D.seen disk.old) segment at a → end ≡ end_of at a → IsBehind a body.now b
        → OnOk result (IsWaiting (D.seen disk.new) segment end b) }
    ensures synced { D.tells → OnOk result (IsSynced (D.seen disk.new)) }

    ensures calls { D.tells → OnOk result ((D.seen disk.new).moment ≡ (D.seen disk.old).moment + 3) }
    ensures soon { D.tells → (D.seen disk.new).moment ≤ (D.seen disk.old).moment + 3 }

    // Want of memory comes before any change.
    ensures no_memory { D.tells → IsErrOf result NoMemory → IsUntouched (D.seen disk.old) (D.seen disk.new) }
    ensures cause { HasCause (D.faults disk.old) (D.faults disk.new) result }
{
    let Some(behind) = end.checked_add(1) else {
        return Err(DiskRefused::NoMemory);
    };
    let bytes = with_closed_gate(alloc, body)?;
    disk.write_at(segment, behind, &bytes)?;
    disk.write_at(segment, at, &[OPEN_GATE])?;
    disk.sync()
}

/// Opens the gate of the record that waits and syncs. `at` is the place of that gate. Then the record counts, and none
/// waits.
///
/// It takes two device calls, and no memory.
///
/// # Errors
///
/// `Failed` where the disk failed: then the record may count or not.
pub fn append_last<D: Disk>(disk: &mut D, segment: Name, at: u64) -> Result<(), DiskRefused>
    requires { D.tells → (a : Addition) × IsWaiting (D.seen disk.old) segment at a }

    // A crash at any moment of the call leaves the old records, or the one that waited too.
    ensures any_moment { D.tells → (a : Addition) → IsWaiting (D.seen disk.old) segment at a
        → Leads (IsOpened segment at 1 a) (D.seen disk.old) (D.seen disk.new) }

    // Acknowledged: each crash leaves the one that waited.
    ensures done { D.tells → (a : Addition) → IsWaiting (D.seen disk.old) segment at a
        → OnOk result ((D.seen disk.new).directory ≡ insert (D.seen disk.old).directory segment (segment_bytes a.number (longer a))) }
    ensures ready { D.tells → (a : Addition) → IsWaiting (D.seen disk.old) segment at a
        → OnOk result (EndsAt (D.seen disk.new) segment a.number (longer a) (end_of at a)) }
    ensures synced { D.tells → OnOk result (IsSynced (D.seen disk.new)) }

    ensures calls { D.tells → OnOk result ((D.seen disk.new).moment ≡ (D.seen disk.old).moment + 2) }
    ensures soon { D.tells → (D.seen disk.new).moment ≤ (D.seen disk.old).moment + 2 }
    ensures no_memory { IsErrOf result NoMemory → ⊥ }
    ensures cause { HasCause (D.faults disk.old) (D.faults disk.new) result }
{
    write_and_sync(disk, segment, at, &[OPEN_GATE])
}

// The spelling of a record with a closed gate behind it.
fn with_closed_gate(alloc: Global, body: &[u8]) -> Result<Vec<u8>, lethe_base::NoMemory>
    ensures { IfOk result (λ bytes. bytes.items ≡ body.now ++ 0 ∷ []) }
{
    let mut bytes = Vec::with_capacity(alloc, body.len() + 1)?;
    bytes.extend_from_slice(body)?;
    bytes.push(CLOSED_GATE)?;
    Ok(bytes)
}

// Writes these bytes at a place of an object and syncs.
fn write_and_sync<D: Disk>(
    disk: &mut D,
    name: Name,
    at: u64,
    bytes: &[u8],
) -> Result<(), DiskRefused>
    requires { D.tells → IsSomeAnd (object (D.seen disk.old).directory name) (λ old. at ≤ length old) }
    ensures any_moment { D.tells → Leads (IsWritten name at (length bytes.now)) (D.seen disk.old) (D.seen disk.new) }
    ensures done { D.tells → OnOk result ((D.seen disk.new).directory ≡ write_in (D.seen disk.old).directory name at bytes.now) }
    ensures synced { D.tells → OnOk result (IsSynced (D.seen disk.new)) }
    ensures calls { D.tells → OnOk result ((D.seen disk.new).moment ≡ (D.seen disk.old).moment + 2) }
    ensures soon { D.tells → (D.seen disk.new).moment ≤ (D.seen disk.old).moment + 2 }

    // One byte inside the object takes no memory.
    ensures byte { length bytes.now ≡ 1 → (D.tells → at < length (content (D.seen disk.old).directory name)) → IsErrOf result NoMemory → ⊥ }
    ensures no_memory { D.tells → IsErrOf result NoMemory → IsUntouched (D.seen disk.old) (D.seen disk.new) }
    ensures cause { HasCause (D.faults disk.old) (D.faults disk.new) result }
{
    disk.write_at(name, at, bytes)?;
    disk.sync()
}
