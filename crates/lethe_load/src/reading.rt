//! Reading a manifest and segments.
ghost use Rattle.std.specs.Prelude.{◌≡◌, ◌≤◌, ℕ, List, Contains, All, Some, IfErr, IfOk, length};
ghost use Rattle.std.specs.FinMap.{keys};
ghost use Rattle.std.specs.List.{AllZip};
ghost use Rattle.lethe_disk.specs.Directory.{object};
ghost use Rattle.lethe_disk.specs.Quiet.{IsQuiet};
ghost use Rattle.lethe_header.specs.Headers.{EachFollows};
ghost use Rattle.lethe_manifest.specs.Manifests.{HasSpelling};
ghost use Rattle.lethe_segment.specs.Segments.{Ascends};
ghost use Rattle.lethe_load.specs.Damaged.{IsSpelled, IsReplayed, IsSoundSegment, IsDamagedSegment};
ghost use Rattle.lethe_load.specs.Refused.{MayFail, IsMissing, IsUnspelled, IsUnreplayed, IsUnsound, refusal_of};

use crate::RecoverRefused;
use crate::listing::Listing;
use lethe_base::{Kind, List, Name};
use lethe_disk::Disk;
use lethe_manifest::{Manifest, ManifestRefused, read_manifest};
use lethe_segment::{Record, SegmentRefused, replay, segment_number};
use std::alloc::Global;

/// The bytes of an object that has to be there.
pub fn read_object<D: Disk>(
    alloc: Global,
    disk: &mut D,
    listing: &Listing,
    name: Name,
) -> Result<Vec<u8>, RecoverRefused>
    requires since { listing.now.faults ≤ D.faults disk.old }
    requires listed { D.tells → listing.now.names.items ≡ keys (D.seen disk.old).directory }
    ensures found { D.tells → IfOk result (λ bytes. object (D.seen disk.old).directory name ≡ Some bytes.items) }
    ensures refused { IfErr result (MayFail D.tells (IsMissing (D.seen disk.old).directory name) listing.now.faults (D.faults disk.new)) }
    ensures quiet { D.tells → IsQuiet (D.seen disk.old) (D.seen disk.new) }
    ensures faults { D.faults disk.old ≤ D.faults disk.new }
{
    if !listing.has(name) {
        return Err(RecoverRefused::Damaged { name });
    }
    match disk.read(alloc, name) {
        Ok(bytes) => Ok(bytes),
        Err(why) => Err(listing.interrupted(disk, why)),
    }
}

/// The manifest of that number.
pub fn load_manifest<D: Disk>(
    alloc: Global,
    disk: &mut D,
    listing: &Listing,
    number: u64,
) -> Result<Manifest, RecoverRefused>
    requires since { listing.now.faults ≤ D.faults disk.old }
    requires listed { D.tells → listing.now.names.items ≡ keys (D.seen disk.old).directory }
    ensures spelled { IfOk result HasSpelling }
    ensures found { D.tells → IfOk result (IsSpelled (D.seen disk.old).directory number) }
    ensures refused { IfErr result (MayFail D.tells (IsUnspelled (D.seen disk.old).directory number) listing.now.faults (D.faults disk.new)) }
    ensures quiet { D.tells → IsQuiet (D.seen disk.old) (D.seen disk.new) }
    ensures faults { D.faults disk.old ≤ D.faults disk.new }
{
    let name = Name {
        kind: Kind::Manifest,
        no: number,
    };
    let bytes = read_object(alloc, disk, listing, name)?;
    match read_manifest(alloc, &bytes) {
        Ok(manifest) if manifest.no == number => Ok(manifest),
        Err(ManifestRefused::NoMemory) => Err(RecoverRefused::NoMemory),
        _ => Err(RecoverRefused::Damaged { name }),
    }
}

// Why a segment of this name isn't read, where it can't be replayed.
fn refusal_of(name: Name, why: SegmentRefused) -> RecoverRefused
    ensures { result ≡ refusal_of name why }
{
    match why {
        SegmentRefused::NoMemory => RecoverRefused::NoMemory,
        _ => RecoverRefused::Damaged { name },
    }
}

fn load_segment<D: Disk>(
    alloc: Global,
    disk: &mut D,
    listing: &Listing,
    number: u64,
) -> Result<Vec<Record>, RecoverRefused>
    requires since { listing.now.faults ≤ D.faults disk.old }
    requires listed { D.tells → listing.now.names.items ≡ keys (D.seen disk.old).directory }
    ensures ascends { IfOk result (λ records. Ascends 0 records.items) }
    ensures found { D.tells → IfOk result (λ records. IsReplayed (D.seen disk.old).directory number records.items) }
    ensures refused { IfErr result (MayFail D.tells (IsUnreplayed (D.seen disk.old).directory number) listing.now.faults (D.faults disk.new)) }
    ensures quiet { D.tells → IsQuiet (D.seen disk.old) (D.seen disk.new) }
    ensures faults { D.faults disk.old ≤ D.faults disk.new }
{
    let name = Name {
        kind: Kind::Segment,
        no: number,
    };
    let bytes = read_object(alloc, disk, listing, name)?;
    let records = match replay(alloc, &bytes) {
        Ok(records) => records,
        Err(why) => return Err(refusal_of(name, why)),
    };
    if segment_number(&bytes) == Some(number) {
        Ok(records)
    } else {
        Err(RecoverRefused::Damaged { name })
    }
}

// The records of a segment that is cited behind these.
fn load_next_segment<D: Disk>(
    alloc: Global,
    disk: &mut D,
    listing: &Listing,
    earlier: &[u64],
    number: u64,
) -> Result<Vec<Record>, RecoverRefused>
    requires since { listing.now.faults ≤ D.faults disk.old }
    requires listed { D.tells → listing.now.names.items ≡ keys (D.seen disk.old).directory }
    ensures ascends { IfOk result (λ records. Ascends 0 records.items) }
    ensures found { D.tells → IfOk result (λ records. IsReplayed (D.seen disk.old).directory number records.items) }
    ensures sound { D.tells → IfOk result (λ _. IsSoundSegment (D.seen disk.old).directory earlier.now number) }
    ensures refused { IfErr result (MayFail D.tells (IsUnsound (D.seen disk.old).directory earlier.now number) listing.now.faults (D.faults disk.new)) }
    ensures quiet { D.tells → IsQuiet (D.seen disk.old) (D.seen disk.new) }
    ensures faults { D.faults disk.old ≤ D.faults disk.new }
{
    if earlier.contains(&number) {
        let name = Name {
            kind: Kind::Segment,
            no: number,
        };
        return Err(RecoverRefused::Damaged { name });
    }
    match load_segment(alloc, disk, listing, number) {
        Ok(records) => Ok(records),
        Err(why) => Err(why),
    }
}

/// The records of the segments of these numbers.
pub fn load_segments<D: Disk>(
    alloc: Global,
    disk: &mut D,
    listing: &Listing,
    numbers: &[u64],
) -> Result<List<List<Record>>, RecoverRefused>
    requires since { listing.now.faults ≤ D.faults disk.old }
    requires listed { D.tells → listing.now.names.items ≡ keys (D.seen disk.old).directory }
    ensures count { IfOk result (λ segments. length segments ≡ length numbers.now) }
    ensures ascends { IfOk result (All (Ascends 0)) }
    ensures found { D.tells → IfOk result (AllZip (IsReplayed (D.seen disk.old).directory) numbers.now) }
    ensures sound { D.tells → IfOk result (λ _. EachFollows (IsSoundSegment (D.seen disk.old).directory) numbers.now) }
    ensures refused { IfErr result (MayFail D.tells (IsDamagedSegment (D.seen disk.old).directory numbers.now) listing.now.faults (D.faults disk.new)) }
    ensures quiet { D.tells → IsQuiet (D.seen disk.old) (D.seen disk.new) }
    ensures faults { D.faults disk.old ≤ D.faults disk.new }
{
    let mut segments = Vec::new(alloc);
    for place in 0..numbers.len() {
        let (earlier, _) = numbers.split_at(place);
        let records = load_next_segment(alloc, disk, listing, earlier, numbers[place])?;
        segments.push(List::of(records))?;
    }
    Ok(List::of(segments))
}
