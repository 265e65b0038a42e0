//! The pairs of the keys between two.
ghost use Rattle.std.specs.Prelude.{◌≡◌, ◌⊎◌, ℕ, ◌+◌, ◌-◌, ◌<◌, ◌≤◌, ◌∷◌, [], ◌++◌, Some, true, false, drop, length, map, flat_map, sum_by, List, All, Any, Contains, IfOk, OnOk, IsErrOf};
ghost use Rattle.std.specs.Option.{option_copied};
ghost use Rattle.std.specs.Ordering.{is_lt};
ghost use Rattle.lethe_base.specs.Keys.{Bytes, key_cmp};
ghost use Rattle.lethe_base.specs.declared.entry.Body.TheVariants.{Put};
ghost use Rattle.lethe_base.specs.declared.entry.Entry.{Entry};
ghost use Rattle.lethe_base.specs.declared.name.Name.{Name};
ghost use Rattle.lethe_disk.specs.Reads.{HasReadCause, IsFault};
ghost use Rattle.lethe_disk.specs.declared.cursor.ReadRefused.TheVariants.{Damaged};
ghost use Rattle.lethe_file.specs.Between.{numbers_between};
ghost use Rattle.lethe_file.specs.Damage.{IsDamagedAmong, IsVouched};
ghost use Rattle.lethe_header.specs.Facts.{greatest_key, least_key, lines_of};
ghost use Rattle.lethe_mem.specs.Pairs.{pairs_of};
ghost use Rattle.lethe_merge.specs.Merge.{merged};
ghost use Rattle.lethe_version.specs.Versions.{IsDamagedInAny, IsSound, IsVouchedBy, bytes_of, entries_of, files_of, pages_between};
ghost use Rattle.lethe_read.specs.Between.{AreListedBetween, AreListedFrom, AreReadBetween, by_keys, comes_next, is_last_below};
ghost use Rattle.lethe_read.specs.Found.{IsBacked, frozen_entries};
ghost use Rattle.lethe_read.specs.Parts.{Adds, Awaits, joins};

use crate::part::{Part, copies_between};
use lethe_base::{Body, Entry, Key, NoMemory, Pending, Value};
use lethe_disk::{Cursor, Disk, ReadRefused};
use lethe_file::{FileCursor, FileView};
use lethe_mem::Buffer;
use lethe_merge::Merger;
use lethe_version::{Shared, Version};
use std::alloc::Global;
use std::cmp::Ordering;
use std::mem;

/// The keys that were put from `lo` up to `hi` excluded, ascending, with their delete keys and values. Where `lo` isn't below
/// `hi` there is none.
pub fn scan<D: Disk, B: Buffer>(
    alloc: Global,
    active: &B,
    frozen: Option<&B>,
    version: &Version<D>,
    erases: &[Pending],
    port: &mut D::Port,
    lo: &Key,
    hi: &Key,
) -> Result<Vec<(Key, u64, Value)>, ReadRefused>
    ensures listed { D.tells → All IsSound (files_of version.now) → IfOk result (λ pairs. (entries : List Entry)
        × AreReadBetween lo.now hi.now (B.entries active.now) (frozen_entries B.entries (option_copied frozen.entry)) (map entries_of (files_of version.now)) entries
        × (by_keys pairs.items ≡ pairs_of (merged entries erases.now true))) }

    // On any disk.
    ensures between { IfOk result (λ pairs. AreListedBetween lo.now hi.now pairs.items) }
    ensures backed { IfOk result (λ pairs. (pair : Bytes × ℕ × Bytes) → Contains pairs.items pair
        → IsBacked pair.0 (B.entries active.now) (frozen_entries B.entries (option_copied frozen.entry)) (IsVouchedBy version.now) (pair.1, pair.2)) }

    // Each page of a tile that meets the range is fetched once, and no other page; nothing is fetched where `lo` isn't below `hi`.
    ensures fetches { is_lt (key_cmp lo.now hi.now) ≡ true → OnOk result (D.fetches port.new ≡ D.fetches port.old + pages_between lo.now hi.now version.now) }
    ensures at_most { is_lt (key_cmp lo.now hi.now) ≡ true → D.fetches port.new ≤ D.fetches port.old + pages_between lo.now hi.now version.now }
    ensures unasked { is_lt (key_cmp lo.now hi.now) ≡ false → D.fetches port.new ≡ D.fetches port.old }

    // Where a page is told as damaged, a fetch was made in this call, and it is another page.
    ensures damaged { (name : Name) → IsErrOf result (Damaged name) → IsDamagedInAny version.now name × (D.fetches port.old < D.fetches port.new) }
    ensures later { D.fetches port.old ≤ D.fetches port.new }
    ensures undamaged { D.tells → All IsSound (files_of version.now) → (name : Name) → IsErrOf result (Damaged name) → ⊥ }
    ensures cause { HasReadCause (D.port_faults port.old) (D.port_faults port.new) result }
    ensures can_fail { IsFault result → D.ports_fail }
{
    if lo >= hi {
        return Ok(Vec::new(alloc));
    }
    let parts = parts_of::<D, B>(alloc, active, frozen, version, lo, hi)?;
    let erases = erases.to_vec(alloc)?;
    let mut merger = Merger::<D, Part<FileCursor<D>>>::new(alloc, parts, erases, true)?;
    pairs_from::<D, Merger<D, Part<FileCursor<D>>>>(alloc, port, &mut merger, lo, hi)
}

/// The parts of the store, each with its entries of the keys from `lo` up to `hi`, which is excluded.
fn parts_of<D: Disk, B: Buffer>(
    alloc: Global,
    active: &B,
    frozen: Option<&B>,
    version: &Version<D>,
    lo: &Key,
    hi: &Key,
) -> Result<Vec<Part<FileCursor<D>>>, NoMemory>
    ensures again { IfOk result (λ parts. All ⟦<Part<FileCursor<D>> as Cursor<D>>⟧.may_ask parts.items) }
    ensures sound { D.tells → All IsSound (files_of version.now) → IfOk result (λ parts. All ⟦<Part<FileCursor<D>> as Cursor<D>>⟧.sound parts.items) }
    ensures left { All IsSound (files_of version.now) → IfOk result (λ parts.
        AreReadBetween lo.now hi.now (B.entries active.now) (frozen_entries B.entries (option_copied frozen.entry)) (map entries_of (files_of version.now)) (flat_map ⟦<Part<FileCursor<D>> as Cursor<D>>⟧.left parts.items)) }
    ensures awaits { IfOk result (λ parts. sum_by ⟦<Part<FileCursor<D>> as Cursor<D>>⟧.awaits parts.items ≡ pages_between lo.now hi.now version.now) }
    ensures gives { IfOk result (λ parts. (entry : Entry) → Any (λ part. ⟦<Part<FileCursor<D>> as Cursor<D>>⟧.gives part entry) parts.items
        → (Contains (B.entries active.now) entry ⊎ Contains (frozen_entries B.entries (option_copied frozen.entry)) entry) ⊎ IsVouchedBy version.now entry) }
    ensures damages { IfOk result (λ parts. (name : Name) → Any (λ part. ⟦<Part<FileCursor<D>> as Cursor<D>>⟧.damages part name) parts.items → IsDamagedInAny version.now name) }
{
    let mut parts = buffered_parts::<D, B>(alloc, active, frozen, lo, hi)?;
    for level in 0..version.levels() {
        push_files::<D>(alloc, &mut parts, version.files(level), lo, hi)?;
    }
    Ok(parts)
}

/// The parts of the buffers.
fn buffered_parts<D: Disk, B: Buffer>(
    alloc: Global,
    active: &B,
    frozen: Option<&B>,
    lo: &Key,
    hi: &Key,
) -> Result<Vec<Part<FileCursor<D>>>, NoMemory>
    ensures sound { IfOk result (λ parts. All ⟦<Part<FileCursor<D>> as Cursor<D>>⟧.sound parts.items) }
    ensures left { IfOk result (λ parts.
        AreReadBetween lo.now hi.now (B.entries active.now) (frozen_entries B.entries (option_copied frozen.entry)) [] (flat_map ⟦<Part<FileCursor<D>> as Cursor<D>>⟧.left parts.items)) }
    ensures awaits { IfOk result (λ parts. sum_by ⟦<Part<FileCursor<D>> as Cursor<D>>⟧.awaits parts.items ≡ 0) }
    ensures gives { IfOk result (λ parts. (entry : Entry) → Any (λ part. ⟦<Part<FileCursor<D>> as Cursor<D>>⟧.gives part entry) parts.items
        → Contains (B.entries active.now) entry ⊎ Contains (frozen_entries B.entries (option_copied frozen.entry)) entry) }
    ensures damages { IfOk result (λ parts. (name : Name) → Any (λ part. ⟦<Part<FileCursor<D>> as Cursor<D>>⟧.damages part name) parts.items → ⊥) }
{
    let mut parts = Vec::new(alloc);
    parts.push(Part::Buffered(copies_between(alloc, active, lo, hi)?))?;
    if let Some(frozen) = frozen {
        parts.push(Part::Buffered(copies_between(alloc, frozen, lo, hi)?))?;
    }
    Ok(parts)
}

/// Adds parts for the files: one for neighbours whose keys follow one another, so that a merger compares one key of them.
fn push_files<D: Disk>(
    alloc: Global,
    parts: &mut Vec<Part<FileCursor<D>>>,
    files: &[Shared<D>],
    lo: &Key,
    hi: &Key,
) -> Result<(), NoMemory>
    ensures awaits { OnOk result (Awaits ⟦<Part<FileCursor<D>> as Cursor<D>>⟧.awaits ⟦<Part<FileCursor<D>> as Cursor<D>>⟧.damages
        (λ file. length (numbers_between lo.now (Some hi.now) file.header.tiles)) (λ file. IsDamagedAmong D.tells (lines_of file.header.tiles) (bytes_of file))
        (map (λ shared. shared.file.value) files.now) parts.old.items parts.new.items) }
    ensures gives { OnOk result (Awaits ⟦<Part<FileCursor<D>> as Cursor<D>>⟧.awaits ⟦<Part<FileCursor<D>> as Cursor<D>>⟧.gives
        (λ file. length (numbers_between lo.now (Some hi.now) file.header.tiles)) (λ file. IsVouched (lines_of file.header.tiles))
        (map (λ shared. shared.file.value) files.now) parts.old.items parts.new.items) }
    ensures adds { OnOk result (Adds D.tells ⟦<Part<FileCursor<D>> as Cursor<D>>⟧.sound ⟦<Part<FileCursor<D>> as Cursor<D>>⟧.left IsSound entries_of lo.now hi.now
        (map (λ shared. shared.file.value) files.now) parts.old.items parts.new.items) }
{
    if files.is_empty() {
        return Ok(());
    }
    // From the last to the first, since of a run the last cursor is read first.
    let mut run = Vec::new(alloc);
    for place in (0..files.len()).rev() {
        if !joins_next(files, place) {
            let ended = mem::replace(&mut run, Vec::new(alloc));
            parts.push(Part::Filed(ended))?;
        }
        run.push(files[place].file().cursor(alloc, lo, Some(hi))?)?;
    }
    parts.push(Part::Filed(run))?;
    Ok(())
}

/// Whether the keys of the file at a place lie below those of the file behind it, if there is one.
fn joins_next<D: Disk>(files: &[Shared<D>], place: usize) -> bool
    requires { place < length files.now }
    ensures { result ≡ joins (λ shared. shared.file.value.header) (drop place files.now) }
{
    match files.get(place + 1) {
        Some(behind) => ends_below(files[place].file(), behind.file()),
        None => true,
    }
}

/// Whether the file's greatest key is below the other one's least.
fn ends_below<D: Disk>(file: &FileView<D>, other: &FileView<D>) -> bool
    ensures { result ≡ is_lt (key_cmp (greatest_key file.now.header.tiles) (least_key other.now.header.tiles)) }
{
    let tiles = file.header().tiles.items();
    let others = other.header().tiles.items();
    tiles[tiles.len() - 1].hi.cmp(&others[0].lo) == Ordering::Less
}

/// The pairs of the puts that a cursor gives, whose keys ascend and lie from `lo` up to `hi`, which is excluded.
fn pairs_from<D: Disk, C: Cursor<D>>(
    alloc: Global,
    port: &mut D::Port,
    cursor: &mut C,
    lo: &Key,
    hi: &Key,
) -> Result<Vec<(Key, u64, Value)>, ReadRefused>
    requires { C.may_ask cursor.old }
    ensures listed { D.tells → C.sound cursor.old → IfOk result (λ pairs. by_keys pairs.items ≡ pairs_of (C.left cursor.old)) }
    ensures between { IfOk result (λ pairs. AreListedBetween lo.now hi.now pairs.items) }
    ensures among { IfOk result (λ pairs. (pair : Bytes × ℕ × Bytes) → Contains pairs.items pair
        → (entry : Entry) × C.gives cursor.old entry × (entry.key ≡ pair.0) × (entry.body ≡ Put pair.1 pair.2)) }
    ensures once { OnOk result (D.fetches port.new ≡ D.fetches port.old + C.awaits cursor.old) }
    ensures at_most { D.fetches port.new ≤ D.fetches port.old + C.awaits cursor.old }
    ensures damaged { (name : Name) → IsErrOf result (Damaged name) → C.damages cursor.old name × (D.fetches port.old < D.fetches port.new) }
    ensures later { D.fetches port.old ≤ D.fetches port.new }
    ensures undamaged { D.tells → C.sound cursor.old → (name : Name) → IsErrOf result (Damaged name) → ⊥ }
    ensures cause { HasReadCause (D.port_faults port.old) (D.port_faults port.new) result }
    ensures can_fail { IsFault result → D.ports_fail }
{
    // A cursor on a disk that tells nothing might give entries for ever, or keys past the range, so after 2^64 - 1 of them, or where the last key is past it, it
    // gives up as one that has no memory.
    let before = D::port_faults(port);
    let mut pairs = Vec::new(alloc);
    for _turn in 0..u64::MAX {
        match cursor.next(alloc, port) {
            Ok(Some(entry)) => push_pair(&mut pairs, entry, lo)?,
            Ok(None) if is_last_below(pairs.last(), hi) => return Ok(pairs),
            Ok(None) => return Err(ReadRefused::NoMemory),
            Err(why) => return Err(why.since(before)),
        }
    }
    Err(ReadRefused::NoMemory)
}

/// Adds the pair of an entry that is a put.
fn push_pair(pairs: &mut Vec<(Key, u64, Value)>, entry: Entry, lo: &Key) -> Result<(), NoMemory>
    requires { AreListedFrom lo.now pairs.old.items }
    ensures pairs { OnOk result (by_keys pairs.new.items ≡ by_keys pairs.old.items ++ pairs_of (entry ∷ [])) }
    ensures listed { AreListedFrom lo.now pairs.new.items }
    ensures among { (pair : Bytes × ℕ × Bytes) → Contains pairs.new.items pair
        → Contains pairs.old.items pair ⊎ ((entry.key ≡ pair.0) × (entry.body ≡ Put pair.1 pair.2)) }
{
    let Entry { key, body, .. } = entry;
    if let Body::Put { dkey, value } = body {
        // The pages of a file on a disk that tells nothing might have any keys, so where one doesn't come next it gives up as one that has no memory.
        if !comes_next(lo, pairs.last(), &key) {
            return Err(NoMemory);
        }
        pairs.push((key, dkey, value))?;
    }
    Ok(())
}

/// Whether the key is greater than the last one's, if there is one, and else not below the least.
fn comes_next(lo: &Key, last: Option<&(Key, u64, Value)>, key: &Key) -> bool
    ensures { result ≡ comes_next lo.now (option_copied last.entry) key.now }
{
    match last {
        Some((last, _, _)) => last < key,
        None => lo <= key,
    }
}

/// Whether the last one's key, if there is one, is below another.
fn is_last_below(last: Option<&(Key, u64, Value)>, hi: &Key) -> bool
    ensures { result ≡ is_last_below (option_copied last.entry) hi.now }
{
    match last {
        Some((last, _, _)) => last < hi,
        None => true,
    }
}
