//! The pair of a key.
ghost use Rattle.std.specs.Prelude.{◌≡◌, ◌<◌, ◌≤◌, ◌+◌, map, option_and_then, sum_by, All, Option, IfOk, IfSome, IsErrOf, if◌then◌else◌};
ghost use Rattle.std.specs.List.{list_any};
ghost use Rattle.std.specs.Option.{option_copied, option_or};
ghost use Rattle.lethe_base.specs.Entries.{entry_of};
ghost use Rattle.lethe_base.specs.Matching.{answer_under, matches};
ghost use Rattle.lethe_base.specs.declared.entry.Entry.{Entry};
ghost use Rattle.lethe_base.specs.declared.name.Name.{Name};
ghost use Rattle.lethe_disk.specs.Reads.{HasReadCause, IsFault};
ghost use Rattle.lethe_disk.specs.declared.cursor.ReadRefused.TheVariants.{Damaged};
ghost use Rattle.lethe_version.specs.Probing.{bound};
ghost use Rattle.lethe_version.specs.Versions.{IsDamagedOf, IsSound, IsVouchedBy, entries_of, files_of};
ghost use Rattle.lethe_read.specs.Found.{IsBacked, IsNewestBelow, buffered_entry, first_found, frozen_entries, is_buffered};

use lethe_base::{Body, Entry, Key, Pending, Value};
use lethe_disk::{Disk, ReadRefused};
use lethe_mem::Buffer;
use lethe_version::Version;
use std::alloc::Global;

/// What a key has: its delete key and value. A file is asked only where neither buffer has an entry of the key.
pub fn get<D: Disk, B: Buffer>(
    alloc: Global,
    active: &B,
    frozen: Option<&B>,
    version: &Version<D>,
    erases: &[Pending],
    port: &mut D::Port,
    key: &Key,
) -> Result<Option<(u64, Value)>, ReadRefused>
    ensures answer { D.tells → All IsSound (files_of version.now) → IfOk result (λ held. (filed : Option Entry)
        × IsNewestBelow key.now (B.entries active.now) (frozen_entries B.entries (option_copied frozen.entry)) (map entries_of (files_of version.now)) filed
        × (held ≡ option_and_then (answer_under erases.now) (first_found key.now (B.entries active.now) (frozen_entries B.entries (option_copied frozen.entry)) filed))) }

    // Nothing is fetched where a buffer has the key.
    ensures fetches { D.fetches port.new ≤ D.fetches port.old
        + (if is_buffered key.now (B.entries active.now) (frozen_entries B.entries (option_copied frozen.entry)) then 0 else sum_by (λ file. bound key.now file.header) (files_of version.now)) }
    ensures later { D.fetches port.old ≤ D.fetches port.new }

    // Where a page is told as damaged, a fetch was made in this call, since the key may be there, and it is another page.
    ensures damaged { (name : Name) → IsErrOf result (Damaged name) → IsDamagedOf key.now version.now name × (D.fetches port.old < D.fetches port.new) }

    // On any disk. Where a buffer has an entry of the key, it is answered from that one, under the erases.
    ensures buffered { IfOk result (λ held. IfSome (buffered_entry key.now (B.entries active.now) (frozen_entries B.entries (option_copied frozen.entry))) (λ entry. held ≡ answer_under erases.now entry)) }
    ensures backed { IfOk result (λ held. IfSome held (IsBacked key.now (B.entries active.now) (frozen_entries B.entries (option_copied frozen.entry)) (IsVouchedBy version.now))) }
    ensures undamaged { D.tells → All IsSound (files_of version.now) → (name : Name) → IsErrOf result (Damaged name) → ⊥ }
    ensures cause { HasReadCause (D.port_faults port.old) (D.port_faults port.new) result }
    ensures can_fail { IsFault result → D.ports_fail }
{
    if let Some(entry) = find_buffered(active, frozen, key) {
        return Ok(held_by(erases, entry.copy()?));
    }
    match version.find(alloc, port, key) {
        Ok(Some(entry)) => Ok(held_by(erases, entry)),
        Ok(None) => Ok(None),
        Err(why) => Err(why),
    }
}

/// The entry of the key in the active buffer, else in the frozen one.
fn find_buffered<'a, B: Buffer>(
    active: &'a B,
    frozen: Option<&'a B>,
    key: &Key,
) -> Option<&'a Entry>
    ensures { option_copied result ≡ option_or (entry_of key.now (B.entries active.now)) (entry_of key.now (frozen_entries B.entries (option_copied frozen.entry))) }
{
    if let Some(entry) = active.find(key) {
        return Some(entry);
    }
    match frozen {
        Some(frozen) => frozen.find(key),
        None => None,
    }
}

/// What the entry's key has, where the erases are applied.
fn held_by(erases: &[Pending], entry: Entry) -> Option<(u64, Value)>
    ensures { result ≡ answer_under erases.now entry }
{
    let Entry { seq, body, .. } = entry;
    match body {
        Body::Put { dkey, value } => {
            if is_erased(erases, seq, dkey) {
                None
            } else {
                Some((dkey, value))
            }
        }
        Body::Tomb => None,
    }
}

/// Whether one of the erases stands behind the put of that place and delete key, and has the delete key in its range.
fn is_erased(erases: &[Pending], seq: u64, dkey: u64) -> bool
    ensures { result ≡ list_any (λ erase. matches erase seq dkey) erases.now }
{
    erases.iter().any(|erase| is_match(erase, seq, dkey))
}

/// Whether the erase stands behind the put of that place and delete key, and has the delete key in its range.
fn is_match(erase: &Pending, seq: u64, dkey: u64) -> bool
    ensures { result ≡ matches erase.now seq dkey }
{
    seq < erase.seq && erase.range.lo() <= dkey && dkey < erase.range.hi()
}
