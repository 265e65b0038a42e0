//! Moving the clock.
ghost use Rattle.std.specs.Prelude.{◌≡◌, ◌≤◌, ◌<◌, ◌+◌, ◌++◌, ℕ, [], All, IfErr, IfOk, MatchResult, OnOk, option_to_list};
ghost use Rattle.std.specs.Vec.{vec_capacity, vec_len};
ghost use Rattle.std.specs.Result.{result_err};
ghost use Rattle.lethe_base.specs.History.{History, after};
ghost use Rattle.lethe_base.specs.Limits.{max_place, max_time};
ghost use Rattle.lethe_base.specs.declared.call.Call.TheVariants.{Tick};
ghost use Rattle.lethe_base.specs.declared.config.Fields.{Fields};
ghost use Rattle.lethe_follows.specs.Leaving.{let_go};
ghost use Rattle.lethe_follows.specs.Ticked.{ticked};
ghost use Rattle.lethe_manifest.specs.Manifests.{HasSpelling, manifest_bytes};
ghost use Rattle.lethe_moves.specs.Due.{HasNothingDue};
ghost use Rattle.lethe_stored.specs.Left.{IsKeptOr};
ghost use Rattle.lethe_stored.specs.Numbers.{GoesFrom};
ghost use Rattle.lethe_stored.specs.Stored.{Stored, layout_of};
ghost use Rattle.lethe_state.specs.Clock.{clock_of};
ghost use Rattle.lethe_core.specs.Asked.{Makes, behind, clock_behind, counted, stopped_by, written_by};
ghost use Rattle.lethe_core.specs.Keeps.{MayStep};
ghost use Rattle.lethe_core.specs.Pinned.{AreKept, AreNamed};
ghost use Rattle.lethe_core.specs.Reasons.{HasReason};
ghost use Rattle.lethe_core.specs.Running.{Holds, IsSound};
ghost use Rattle.lethe_core.specs.StandsNow.{StandsNow};
ghost use Rattle.lethe_core.specs.Steps.{IsUndone};
ghost use Rattle.lethe_core.specs.View.{view_of};
ghost use Rattle.lethe_tick.specs.Certified.{IsCertificateAt, certificate_of};

use lethe_base::{NoMemory, Refused};
use lethe_cert::Certificate;
use lethe_core::Core;
use lethe_disk::Disk;
use lethe_manifest::{Manifest, write_manifest};
use sha2::{Digest, Sha256};
use std::alloc::Global;

/// Moves the clock to a time at which nothing is due once the erases that are done have left, which they do, and adds the certificate, which it answers, where the time is
/// at least the threshold. It writes a manifest alone, and counts the tick. `before` is the count of faults from which a failure is told.
pub(crate) fn move_clock<D: Disk>(
    core: &mut Core<D>,
    certificates: &mut Vec<Certificate>,
    alloc: Global,
    before: u64,
    to: u64,
) -> Result<Option<Certificate>, Refused>
    requires may { MayStep D.tells (view_of core.old) before }
    requires within { to ≤ max_time }
    requires free { core.old.flights ≡ [] }

    // No held pin bars the tick, and the pages that are retired are those that held pins name.
    requires passes { All (λ pin. to < pin.limit) (view_of core.old).pins.pins }
    requires named { D.tells → AreNamed (view_of core.old).pins.pins (view_of core.old).retired }
    ensures sound { IsSound D.tells (view_of core.new) }
    ensures count { core.new.state.count ≡ counted (Makes (Tick to)) (result_err result) core.old.state.count }
    ensures stopped { core.new.state.stopped ≡ stopped_by (result_err result) core.old.state.stopped }
    ensures clock { clock_of core.new.state.manifest ≡ clock_behind (Makes (Tick to)) (result_err result) (clock_of core.old.state.manifest) }
    ensures undone { IfErr result (IsUndone D.tells (view_of core.old) (view_of core.new)) }
    ensures done { D.tells → (s : Stored) → Holds (view_of core.old) s → OnOk result (Holds (view_of core.new) (ticked s to core.old.state.next)) }
    ensures why { IfErr result (HasReason (max_place ≤ core.old.state.next) core.old.state before (D.faults core.new.disk)) }

    // At a time at which nothing is due then it stands for the history with the tick, done or failed.
    ensures stands { D.tells → (config : Fields) (h : History) → (stands : StandsNow config h (view_of core.old)) → (after h).clock ≤ to
        → HasNothingDue stands.stored.manifest.config to (layout_of (let_go stands.stored)) → (caller : ℕ)
        → StandsNow config (behind h caller (Makes (Tick to)) (result_err result)) (view_of core.new) }

    // And a crash at any moment leaves what is kept for the history, or for it with the tick.
    ensures any_moment { D.tells → (config : Fields) (h : History) → (stands : StandsNow config h (view_of core.old)) → (after h).clock ≤ to
        → HasNothingDue stands.stored.manifest.config to (layout_of (let_go stands.stored)) → (caller : ℕ)
        → GoesFrom core.old.state.next (IsKeptOr config h (written_by caller (Makes (Tick to)) (result_err result))) (D.seen core.old.disk) (D.seen core.new.disk) }
    ensures numbers { D.tells → core.new.state.next + (D.seen core.old.disk).moment ≤ core.old.state.next + (D.seen core.new.disk).moment }
    ensures drawn { core.old.state.next ≤ core.new.state.next }
    ensures faults { D.faults core.old.disk ≤ D.faults core.new.disk }
    ensures retired { core.new.retired ≡ core.old.retired }
    ensures flights { core.new.flights ≡ core.old.flights }
    ensures begun { core.new.begun ≡ core.old.begun }
    ensures pins { core.new.pins ≡ core.old.pins }
    ensures pinned { D.tells → AreKept (view_of core.old).pins.pins (D.seen core.old.disk).directory (D.seen core.new.disk).directory }
    ensures certificate { IfOk result (λ told. told ≡ certificate_of core.new.state.manifest to) }
    ensures manifest { OnOk result ((core.new.state.manifest.clock ≡ to) × (core.new.state.manifest.count ≡ core.new.state.count)) }
    ensures due { IfOk result (IsCertificateAt core.new.state.manifest.config.threshold to) }
    ensures certified { MatchResult result (λ told. certificates.new.items ≡ certificates.old.items ++ option_to_list told) (λ why. certificates.new.items ≡ certificates.old.items) }
{
    let step = core.state.ticking(alloc, to)?;
    // All memory is taken before the first device call: what is answered is kept.
    let Ok(certified) = certify(alloc, &step.manifest, certificates, to) else {
        return Err(Refused::NoMemory);
    };
    let Certified {
        manifest,
        certificate,
    } = certified;
    core.carry_out_spelled(alloc, before, Vec::new(alloc), &step, &manifest)?;
    core.state.tick(alloc, step);
    keep(certificates, certificate);
    Ok(certificate)
}

/// A tick's manifest as it is spelled, and its certificate, where one is due.
#[derive(Drop)]
struct Certified {
    manifest: Vec<u8>,
    certificate: Option<Certificate>,
}

/// Spells a tick's manifest and makes its certificate, for which there is room behind the others then.
fn certify(
    alloc: Global,
    manifest: &Manifest,
    certificates: &mut Vec<Certificate>,
    to: u64,
) -> Result<Certified, NoMemory>
    requires { HasSpelling manifest.now }
    ensures manifest { IfOk result (λ made. made.manifest.items ≡ manifest_bytes manifest.now) }
    ensures certificate { IfOk result (λ made. made.certificate ≡ certificate_of manifest.now to) }
    ensures same { certificates.new.items ≡ certificates.old.items }
    ensures room { OnOk result (vec_len certificates.new < vec_capacity certificates.new) }
{
    let bytes = write_manifest(alloc, manifest)?;
    certificates.reserve(1)?;
    Ok(Certified {
        certificate: certificate_of(manifest, &bytes, to),
        manifest: bytes,
    })
}

/// The certificate of a tick to this time, whose manifest is spelled by these bytes. None where the time is before the threshold.
fn certificate_of(manifest: &Manifest, bytes: &[u8], to: u64) -> Option<Certificate>
    requires { bytes.now ≡ manifest_bytes manifest.now }
    ensures { result ≡ certificate_of manifest.now to }
{
    if to < manifest.config.fields().threshold {
        return None;
    }
    let last = manifest.certificate?;
    let mut hasher = Sha256::new();
    hasher.update(bytes);
    Some(Certificate {
        number: last.number,
        clock: last.clock,
        before: last.before,
        digest: hasher.finalize(),
    })
}

/// Adds the certificate, if there is one, for which there is room.
fn keep(certificates: &mut Vec<Certificate>, certificate: Option<Certificate>)
    requires { vec_len certificates.old < vec_capacity certificates.old }
    ensures { certificates.new.items ≡ certificates.old.items ++ option_to_list certificate }
{
    if let Some(certificate) = certificate {
        certificates.push(certificate).unwrap();
    }
}
