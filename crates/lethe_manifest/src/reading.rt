//! Reading a manifest. A field is tested as soon as it is read whole, and the first fault from the left is told.
ghost use Rattle.std.specs.Prelude.{◌≡◌, IfOk, MatchResult};
ghost use Rattle.lethe_manifest.specs.Manifests.{manifest_bytes, HasSpelling};
ghost use Rattle.lethe_manifest.specs.Numbers.{Gives};
ghost use Rattle.lethe_manifest.specs.Reading.{head_at, counts_at, manifest_at};
ghost use Rattle.lethe_manifest.specs.declared.manifest.Manifest.{Manifest};

use crate::configuration::read_config;
use crate::fields::{read_above, read_byte, read_u16, read_u64};
use crate::parts::read_parts;
use crate::{Manifest, ManifestRefused};
use lethe_base::{MAX_PLACE, MAX_TIME};
use std::alloc::Global;

// The manifest's own number, behind the letters and the format.
#[tactic(auto, unfolding(crate::specs::Reading::head_at))]
fn read_head(bytes: &[u8]) -> Result<u64, ManifestRefused>
    ensures { result ≡ head_at bytes.now }
{
    read_u16(bytes, 0, 0x4c4d, 0x4c4d)?;
    read_byte(bytes, 2, 1, 1)?;
    read_u64(bytes, 3, 0, MAX_PLACE)
}

#[derive(Clone, Copy, Debug, PartialEq, Eq)]
struct Counts {
    clock: u64,
    count: u64,
    next: u64,
}

// The next number is above the manifest's own.
#[tactic(auto, unfolding(crate::specs::Reading::counts_at))]
fn read_counts(no: u64, bytes: &[u8]) -> Result<Counts, ManifestRefused>
    ensures { result ≡ counts_at no bytes.now }
{
    let clock = read_u64(bytes, 29, 0, MAX_TIME)?;
    let count = read_u64(bytes, 37, 0, MAX_PLACE)?;
    let next = read_above(no, bytes, 45, 0, MAX_PLACE)?;
    Ok(Counts { clock, count, next })
}

#[tactic(auto, unfolding(crate::specs::Reading::manifest_at))]
fn read_all(alloc: Global, bytes: &[u8]) -> Result<Manifest, ManifestRefused>
    ensures { Gives result (manifest_at bytes.now) }
{
    let no = read_head(bytes)?;
    let config = read_config(bytes)?;
    let Counts { clock, count, next } = read_counts(no, bytes)?;
    let (parts, end) = read_parts(alloc, next, config.fields().levels, bytes)?;
    if end < bytes.len() {
        return Err(ManifestRefused::Trailing { at: end as u64 });
    }
    Ok(Manifest {
        no,
        config,
        clock,
        count,
        next,
        certificate: parts.certificate,
        erases: parts.erases,
        segments: parts.segments,
        files: parts.files,
    })
}

/// The manifest that the bytes spell.
pub fn read_manifest(alloc: Global, bytes: &[u8]) -> Result<Manifest, ManifestRefused>
    // What is read is spelled so, each byte of it.
    ensures found { IfOk result (λ manifest. HasSpelling manifest × (bytes.now ≡ manifest_bytes manifest)) }

    // What is spelled so is read.
    ensures only { (manifest : Manifest) → HasSpelling manifest → bytes.now ≡ manifest_bytes manifest
        → MatchResult result (λ read. read ≡ manifest) (λ why. why ≡ ManifestRefused.NoMemory) }

    // Else it is the first fault from the left.
    ensures exact { Gives result (manifest_at bytes.now) }
{
    read_all(alloc, bytes)
}
