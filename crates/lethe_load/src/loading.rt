//! Reading what the greatest gate commits.
ghost use Rattle.std.specs.Prelude.{◌≡◌, ◌⊎◌, ◌↔◌, ◌≤◌, IsTrue, Some, None, IfErr, IfOk, MatchResult};
ghost use Rattle.std.specs.FinMap.{keys};
ghost use Rattle.lethe_disk.specs.Quiet.{IsQuiet};
ghost use Rattle.lethe_commit.specs.Switch.{HasGreatest};
ghost use Rattle.lethe_load.specs.Loaded.{nothing, read_of, shown, IsLoaded, IsRead, IsSpelledOut};
ghost use Rattle.lethe_load.specs.Refused.{HasReason, IsInterrupted, MayRefuse};
ghost use Rattle.lethe_load.specs.declared.refused.RecoverRefused.{RecoverRefused};
ghost use Rattle.lethe_stored.specs.Encodes.{Encodes};
ghost use Rattle.lethe_stored.specs.Levels.{AreRising};
ghost use Rattle.lethe_stored.specs.Stored.{Stored, IsCoherent};

use crate::files::load_files;
use crate::listing::{Listing, interrupted};
use crate::ordering::are_rising;
use crate::reading::{load_manifest, load_segments};
use crate::{RecoverRefused, Recovered};
use lethe_base::{Config, Kind, List, Name};
use lethe_commit::choose;
use lethe_disk::Disk;
use std::alloc::Global;

/// Reads the manifest of the greatest gate, the records of the segments that it cites, and its files, whose pages are opened. It changes
/// nothing. A segment or a header is read once, a page once before it is opened, and none is digested twice.
///
/// # Errors
///
/// See `RecoverRefused`. The manifest is looked at before its configuration, and this before what it cites.
pub fn load<D: Disk>(
    alloc: Global,
    disk: &mut D,
    config: &Config,
) -> Result<Recovered<D>, RecoverRefused>
    // What is read has a spelling, and the directory encodes it.
    ensures spelled { IfOk result (λ read. IsSpelledOut config.now (shown read)) }
    ensures found { D.tells → IfOk result (λ read. IsLoaded config.now (D.seen disk.old).directory (shown read)) }

    // What it encodes is read, unless the disk fails or memory runs out.
    ensures only { D.tells → (s : Stored) → IsCoherent s → Encodes (D.seen disk.old).directory s → AreRising s.files → s.manifest.config ≡ config.now
        → MatchResult result (λ read. shown read ≡ read_of s) (IsInterrupted (D.faults disk.old) (D.faults disk.new)) }
    ensures none { D.tells → HasGreatest None (D.seen disk.old).directory
        → MatchResult result (λ read. shown read ≡ nothing) (IsInterrupted (D.faults disk.old) (D.faults disk.new)) }

    // A refusal has its reason: in the directory, in the count of faults, or want of memory.
    ensures refused { IfErr result (MayRefuse D.tells config.now (D.seen disk.old).directory (D.faults disk.old) (D.faults disk.new)) }

    // Where the directory has a reason, it is told, unless the disk fails or memory runs out.
    ensures exact { D.tells → (why : RecoverRefused) → HasReason config.now (D.seen disk.old).directory why
        → MatchResult result (λ read. ⊥) (λ told. (told ≡ why) ⊎ IsInterrupted (D.faults disk.old) (D.faults disk.new) told) }

    // The disk's names are told.
    ensures listed { D.tells → IfOk result (λ read. read.names.items ≡ keys (D.seen disk.new).directory) }

    ensures quiet { D.tells → IsQuiet (D.seen disk.old) (D.seen disk.new) }
    ensures faults { D.faults disk.old ≤ D.faults disk.new }
{
    load_greatest(alloc, disk, config)
}

fn load_greatest<D: Disk>(
    alloc: Global,
    disk: &mut D,
    config: &Config,
) -> Result<Recovered<D>, RecoverRefused>
    ensures spelled { IfOk result (λ read. IsSpelledOut config.now (shown read)) }
    ensures found { D.tells → IfOk result (λ read. IsLoaded config.now (D.seen disk.old).directory (shown read)) }
    ensures refused { IfErr result (MayRefuse D.tells config.now (D.seen disk.old).directory (D.faults disk.old) (D.faults disk.new)) }
    ensures listed { D.tells → IfOk result (λ read. read.names.items ≡ keys (D.seen disk.new).directory) }
    ensures quiet { D.tells → IsQuiet (D.seen disk.old) (D.seen disk.new) }
    ensures faults { D.faults disk.old ≤ D.faults disk.new }
{
    let faults = disk.faults();
    let names = match disk.names(alloc) {
        Ok(names) => names,
        Err(why) => return Err(interrupted(disk, faults, why)),
    };
    let listing = Listing { faults, names };
    match choose(&listing.names) {
        None => Ok(Recovered {
            manifest: None,
            segments: List::of(Vec::new(alloc)),
            files: Vec::new(alloc),
            names: listing.names,
        }),
        Some(number) => load_gated(alloc, disk, listing, number, config),
    }
}

fn is_same(kept: &Config, config: &Config) -> bool
    ensures { IsTrue result ↔ (kept.now ≡ config.now) }
{
    kept == config
}

// Loads what the gate of this number commits, the greatest.
fn load_gated<D: Disk>(
    alloc: Global,
    disk: &mut D,
    listing: Listing,
    number: u64,
    config: &Config,
) -> Result<Recovered<D>, RecoverRefused>
    requires since { listing.faults ≤ D.faults disk.old }
    requires listed { D.tells → listing.names.items ≡ keys (D.seen disk.old).directory }
    requires greatest { D.tells → HasGreatest (Some number) (D.seen disk.old).directory }
    ensures spelled { IfOk result (λ read. IsSpelledOut config.now (shown read)) }
    ensures found { D.tells → IfOk result (λ read. IsRead config.now (D.seen disk.old).directory (shown read)) }
    ensures refused { IfErr result (MayRefuse D.tells config.now (D.seen disk.old).directory listing.faults (D.faults disk.new)) }
    ensures names { IfOk result (λ read. read.names ≡ listing.names) }
    ensures quiet { D.tells → IsQuiet (D.seen disk.old) (D.seen disk.new) }
    ensures faults { D.faults disk.old ≤ D.faults disk.new }
{
    let manifest = load_manifest(alloc, disk, &listing, number)?;
    if !is_same(&manifest.config, config) {
        return Err(RecoverRefused::OtherConfig {
            kept: manifest.config,
        });
    }
    let segments = load_segments(alloc, disk, &listing, manifest.segments.items())?;
    let files = load_files(alloc, disk, &listing, manifest.next, manifest.files.items())?;
    if !are_rising(manifest.files.items(), &files) {
        let name = Name {
            kind: Kind::Manifest,
            no: number,
        };
        return Err(RecoverRefused::Damaged { name });
    }
    Ok(Recovered {
        manifest: Some(manifest),
        segments,
        files,
        names: listing.names,
    })
}
