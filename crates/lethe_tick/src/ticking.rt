//! A tick.
ghost use Rattle.std.specs.Prelude.{◌≡◌, ◌≤◌, ◌<◌, ◌+◌, ◌⊎◌, ◌++◌, ℕ, [], List, All, IfErr, IfOk, IsErrOf, MatchResult, OnOk, option_to_list};
ghost use Rattle.std.specs.Result.{result_err};
ghost use Rattle.lethe_base.specs.History.{History};
ghost use Rattle.lethe_base.specs.Limits.{max_time};
ghost use Rattle.lethe_base.specs.declared.call.Call.TheVariants.{Tick};
ghost use Rattle.lethe_base.specs.declared.config.Fields.{Fields};
ghost use Rattle.lethe_base.specs.declared.name.Name.{Name};
ghost use Rattle.lethe_base.specs.declared.refused.Refused.TheVariants as refused;
ghost use Rattle.lethe_follows.specs.Ticked.{ticked};
ghost use Rattle.lethe_stored.specs.Left.{IsKeptOr};
ghost use Rattle.lethe_stored.specs.Numbers.{GoesFrom};
ghost use Rattle.lethe_stored.specs.Stored.{Stored};
ghost use Rattle.lethe_state.specs.Clock.{clock_of};
ghost use Rattle.lethe_core.specs.Asked.{Makes, behind, clock_behind, counted, stopped_by, written_by};
ghost use Rattle.lethe_core.specs.Keeps.{Keeps, MayStep};
ghost use Rattle.lethe_core.specs.Merges.{AreOutcomesBy, Outcome, due_choice, pages_of};
ghost use Rattle.lethe_core.specs.Pinned.{AreKept, AreNamed, AreRetiredFrom};
ghost use Rattle.lethe_core.specs.Reasons.{HasDamagedPage, HasReason, IsUnreadable};
ghost use Rattle.lethe_core.specs.Running.{Holds, IsSound};
ghost use Rattle.lethe_core.specs.StandsNow.{StandsNow};
ghost use Rattle.lethe_core.specs.Steps.{IsDoneInPart};
ghost use Rattle.lethe_core.specs.View.{view_of};
ghost use Rattle.lethe_tick.specs.Certified.{IsCertificateAt, certificate_of};
ghost use Rattle.lethe_tick.specs.Last.{HasLastStep};
ghost use Rattle.lethe_tick.specs.Ripened.{IsRipened, IsShortToTick, IsTickedInPart};

use crate::clock::move_clock;
use crate::ripening::ripen_buffers;
use lethe_base::Refused;
use lethe_cert::Certificate;
use lethe_core::Core;
use lethe_disk::Disk;
use std::alloc::Global;

/// Carries out a tick to a time that isn't behind the clock. The jobs in flight are given up, and retired pages that no held pin names are removed. Where a record of a segment
/// is as old at that time as level 0 may have it, both buffers are flushed. The merges and sweeps that are due then are carried out, one after another until none is: each page
/// of a merge's inputs is fetched once through the port, and of a swept file those that its header tells. Then the clock moves, the erases that are done leave, and where the
/// time is at least the threshold the certificate is added, which is answered. `before` is the count of faults from which a failure is told.
///
/// # Errors
///
/// `Exhausted` where numbers have run out, `NoMemory`, `Fault`, which stops the store, `ReadFault`, and on a disk that tells nothing `Damaged`. What was done before stays.
pub fn tick<D: Disk>(
    core: &mut Core<D>,
    certificates: &mut Vec<Certificate>,
    alloc: Global,
    port: &mut D::Port,
    before: u64,
    to: u64,
) -> Result<Option<Certificate>, Refused>
    requires may { MayStep D.tells (view_of core.old) before }
    requires within { to ≤ max_time }
    requires forward { core.old.state.manifest.clock ≤ to }

    // No held pin bars it.
    requires passes { All (λ pin. to < pin.limit) (view_of core.old).pins.pins }
    ensures sound { IsSound D.tells (view_of core.new) }
    ensures count { core.new.state.count ≡ counted (Makes (Tick to)) (result_err result) core.old.state.count }
    ensures stopped { core.new.state.stopped ≡ stopped_by (result_err result) core.old.state.stopped }
    ensures clock { clock_of core.new.state.manifest ≡ clock_behind (Makes (Tick to)) (result_err result) (clock_of core.old.state.manifest) }
    ensures stands { D.tells → (config : Fields) (h : History) → StandsNow config h (view_of core.old) → (caller : ℕ)
        → StandsNow config (behind h caller (Makes (Tick to)) (result_err result)) (view_of core.new) }
    ensures any_moment { D.tells → (config : Fields) (h : History) → StandsNow config h (view_of core.old) → (caller : ℕ)
        → GoesFrom core.old.state.next (IsKeptOr config h (written_by caller (Makes (Tick to)) (result_err result))) (D.seen core.old.disk) (D.seen core.new.disk) }

    // It is in its last step alone that a crash may leave what is kept for the history with the tick: up to there all that is due was carried out.
    ensures last_step { D.tells → (config : Fields) (h : History) → (stands : StandsNow config h (view_of core.old))
        → OnOk result ((ripe t : Stored) × (outcomes : List Outcome) × IsRipened to stands.stored ripe × AreOutcomesBy (due_choice to) ripe outcomes t × HasLastStep config h t (D.seen core.old.disk) (D.seen core.new.disk)) }

    // Acknowledged: the buffers were flushed where they had to be, then exactly the merges and sweeps that were due were carried out, and the clock moved.
    ensures done { D.tells → (s : Stored) → Holds (view_of core.old) s
        → OnOk result ((ripe t : Stored) × (outcomes : List Outcome) × (number : ℕ) × IsRipened to s ripe × AreOutcomesBy (due_choice to) ripe outcomes t
        × Holds (view_of core.new) (ticked t to number) × (D.fetches port.new ≡ D.fetches port.old + pages_of outcomes)) }
    ensures partly { IfErr result (IsDoneInPart D.tells (IsTickedInPart to) (view_of core.old) (view_of core.new)) }
    ensures why { IfErr result (λ why. HasReason (IsShortToTick D.tells to (view_of core.new)) core.old.state before (D.faults core.new.disk) why
        ⊎ IsUnreadable D.tells D.ports_fail (D.port_faults port.old) (D.port_faults port.new) why) }
    ensures numbers { D.tells → core.new.state.next + (D.seen core.old.disk).moment ≤ core.old.state.next + (D.seen core.new.disk).moment }
    ensures drawn { core.old.state.next ≤ core.new.state.next }
    ensures faults { D.faults core.old.disk ≤ D.faults core.new.disk }
    ensures retired { AreRetiredFrom (view_of core.old).pins.pins (view_of core.old).retired (view_of core.new).retired }
    ensures free { core.new.flights ≡ [] }
    ensures begun { core.new.begun ≡ core.old.begun }
    ensures pins { core.new.pins ≡ core.old.pins }

    // What pins name stays as it is, also where the disk fails; behind a tick nothing else lies beside what is stored.
    ensures pinned { D.tells → AreKept (view_of core.old).pins.pins (D.seen core.old.disk).directory (D.seen core.new.disk).directory }
    ensures named { OnOk result (AreNamed (view_of core.new).pins.pins (view_of core.new).retired) }
    ensures port_faults { D.port_faults port.old ≤ D.port_faults port.new }
    // On any disk: where a page is told as damaged, a fetch was made in this call, and it is one of a file of the version behind it.
    ensures damaged { (name : Name) → IsErrOf result (refused.Damaged name) → HasDamagedPage core.new name × (D.fetches port.old < D.fetches port.new) }
    ensures fetches { D.fetches port.old ≤ D.fetches port.new }
    ensures certificate { IfOk result (λ told. told ≡ certificate_of core.new.state.manifest to) }
    ensures manifest { OnOk result ((core.new.state.manifest.clock ≡ to) × (core.new.state.manifest.count ≡ core.new.state.count)) }
    ensures due { IfOk result (IsCertificateAt core.new.state.manifest.config.threshold to) }
    ensures certified { MatchResult result (λ told. certificates.new.items ≡ certificates.old.items ++ option_to_list told) (λ why. certificates.new.items ≡ certificates.old.items) }
{
    ripen_store(core, alloc, port, before, to)?;
    move_clock(core, certificates, alloc, before, to)
}

/// Does all that a tick to this time does before the clock moves: no job is due behind it.
fn ripen_store<D: Disk>(
    core: &mut Core<D>,
    alloc: Global,
    port: &mut D::Port,
    before: u64,
    to: u64,
) -> Result<(), Refused>
    requires { MayStep D.tells (view_of core.old) before }
    ensures keeps { Keeps D.tells (view_of core.old) (view_of core.new) (result_err result) }
    ensures partly { IfErr result (IsDoneInPart D.tells (IsTickedInPart to) (view_of core.old) (view_of core.new)) }
    ensures done { D.tells → (s : Stored) → Holds (view_of core.old) s
        → OnOk result ((ripe t : Stored) × (outcomes : List Outcome) × IsRipened to s ripe × AreOutcomesBy (due_choice to) ripe outcomes t × Holds (view_of core.new) t
        × (D.fetches port.new ≡ D.fetches port.old + pages_of outcomes)) }
    ensures why { IfErr result (λ why. HasReason (IsShortToTick D.tells to (view_of core.new)) core.old.state before (D.faults core.new.disk) why
        ⊎ IsUnreadable D.tells D.ports_fail (D.port_faults port.old) (D.port_faults port.new) why) }
    ensures free { core.new.flights ≡ [] }
    ensures begun { core.new.begun ≡ core.old.begun }
    ensures named { OnOk result (AreNamed (view_of core.new).pins.pins (view_of core.new).retired) }
    ensures port_faults { D.port_faults port.old ≤ D.port_faults port.new }
    ensures damaged { (name : Name) → IsErrOf result (refused.Damaged name) → HasDamagedPage core.new name × (D.fetches port.old < D.fetches port.new) }
    ensures fetches { D.fetches port.old ≤ D.fetches port.new }
{
    core.clear_now(alloc, before)?;
    ripen_buffers(core, alloc, before, to)?;
    core.ripen(alloc, port, before, to)
}
