//! Appending to a segment of the journal.
ghost use Rattle.std.specs.Prelude.{◌≡◌, ◌+◌, ◌<◌, ◌≤◌, length, OnOk, IsErrOf, IsSomeAnd};
ghost use Rattle.std.specs.FinMap.{insert};
ghost use Rattle.lethe_disk.specs.declared.disk.DiskRefused.TheVariants.{Failed, NoMemory};
ghost use Rattle.lethe_disk.specs.Directory.{object, content, write_in, IsWritten};
ghost use Rattle.lethe_disk.specs.Disk.{IsSynced, HasCause};
ghost use Rattle.lethe_disk.specs.Runs.{Leads};
ghost use Rattle.lethe_segment.specs.Segments.{segment_bytes};
ghost use Rattle.lethe_commit.specs.Append.{Addition, longer, EndsAt, IsReady, IsAppended, KeepsUnopened, IsUntouched};

use lethe_base::Name;
use lethe_disk::{Disk, DiskRefused};
use lethe_segment::{CLOSED_GATE, OPEN_GATE};
use std::alloc::Global;

/// Appends a record to a segment. `at` is the place of the closed gate byte that ends the segment,
/// and `body` is the spelling of the record.
///
/// It takes four device calls: the record and the next closed gate byte are written behind the gate
/// and synced before the gate is opened, and the open gate is synced.
///
/// # Errors
///
/// `NoMemory` where there was no memory, or where the record would lie past 2^64 bytes. `Failed` where
/// the disk failed: then the segment may or may not have the record.
pub fn append<D: Disk>(
    alloc: Global,
    disk: &mut D,
    segment: Name,
    at: u64,
    body: &[u8],
) -> Result<(), DiskRefused>
    requires { D.tells → (a : Addition) × IsReady (D.seen disk.old) segment at body.now a }

    // A crash at any moment of the call leaves the old records, or the new one too.
    ensures any_moment { D.tells → (a : Addition) → IsReady (D.seen disk.old) segment at body.now a
        → Leads (IsAppended segment at a) (D.seen disk.old) (D.seen disk.new) }

    // Before the third device call it leaves the old ones alone.
    ensures unopened { D.tells → (a : Addition) → IsReady (D.seen disk.old) segment at body.now a
        → KeepsUnopened segment a 2 (D.seen disk.old) (D.seen disk.new) }

    // Acknowledged: each crash leaves the new one.
    ensures done { D.tells → (a : Addition) → IsReady (D.seen disk.old) segment at body.now a
        → OnOk result ((D.seen disk.new).directory ≡ insert (D.seen disk.old).directory segment (segment_bytes a.number (longer a))) }
    ensures synced { D.tells → OnOk result (IsSynced (D.seen disk.new)) }
    ensures ready { D.tells → (a : Addition) → IsReady (D.seen disk.old) segment at body.now a
        → OnOk result (EndsAt (D.seen disk.new) segment a.number (longer a) (at + length body.now + 1)) }

    ensures calls { D.tells → OnOk result ((D.seen disk.new).moment ≡ (D.seen disk.old).moment + 4) }
    ensures soon { D.tells → (D.seen disk.new).moment ≤ (D.seen disk.old).moment + 4 }

    // Unless the disk failed, a read gives the old bytes wherever none were to be written.
    ensures directory { D.tells → (IsErrOf result Failed → ⊥)
        → IsWritten segment at (length body.now + 2) (D.seen disk.old).directory (D.seen disk.new).directory }

    // Want of memory comes before any change.
    ensures no_memory { D.tells → IsErrOf result NoMemory → IsUntouched (D.seen disk.old) (D.seen disk.new) }
    ensures cause { HasCause (D.faults disk.old) (D.faults disk.new) result }
{
    let Some(behind) = at.checked_add(1) else {
        return Err(DiskRefused::NoMemory);
    };
    let mut bytes = Vec::with_capacity(alloc, body.len() + 1)?;
    bytes.extend_from_slice(body)?;
    bytes.push(CLOSED_GATE)?;
    write_and_sync(disk, segment, behind, &bytes)?;
    write_and_sync(disk, segment, at, &[OPEN_GATE])
}

/// Writes these bytes at a place of an object and syncs.
///
/// # Errors
///
/// `Failed` where a device call failed, and `NoMemory` where the disk had no memory for the write.
pub fn write_and_sync<D: Disk>(
    disk: &mut D,
    name: Name,
    at: u64,
    bytes: &[u8],
) -> Result<(), DiskRefused>
    requires { D.tells → IsSomeAnd (object (D.seen disk.old).directory name) (λ old. at ≤ length old) }
    ensures any_moment { D.tells → Leads (IsWritten name at (length bytes.now)) (D.seen disk.old) (D.seen disk.new) }
    ensures done { D.tells → OnOk result ((D.seen disk.new).directory ≡ write_in (D.seen disk.old).directory name at bytes.now) }
    ensures synced { D.tells → OnOk result (IsSynced (D.seen disk.new)) }
    ensures calls { D.tells → OnOk result ((D.seen disk.new).moment ≡ (D.seen disk.old).moment + 2) }
    ensures soon { D.tells → (D.seen disk.new).moment ≤ (D.seen disk.old).moment + 2 }

    // One byte inside the object takes no memory.
    ensures byte { length bytes.now ≡ 1 → (D.tells → at < length (content (D.seen disk.old).directory name)) → IsErrOf result NoMemory → ⊥ }
    ensures no_memory { D.tells → IsErrOf result NoMemory → IsUntouched (D.seen disk.old) (D.seen disk.new) }
    ensures cause { HasCause (D.faults disk.old) (D.faults disk.new) result }
{
    disk.write_at(name, at, bytes)?;
    disk.sync()
}
