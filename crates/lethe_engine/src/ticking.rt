//! Ticks of a store.
ghost use Rattle.std.specs.Prelude.{◌≡◌, ◌<◌, ◌≤◌, ◌+◌, ◌⊎◌, ◌++◌, ℕ, List, All, Some, None, IfOk, IfErr, IfSome, MatchResult, OnOk, IsErrOf, option_to_list};
ghost use Rattle.std.specs.Result.{result_err};
ghost use Rattle.lethe_base.specs.History.{History};
ghost use Rattle.lethe_base.specs.Limits.{max_place, max_time};
ghost use Rattle.lethe_base.specs.declared.call.Call.TheVariants as call;
ghost use Rattle.lethe_base.specs.declared.config.Fields.{Fields};
ghost use Rattle.lethe_base.specs.declared.name.Name.{Name};
ghost use Rattle.lethe_base.specs.declared.refused.Refused.TheVariants as refused;
ghost use Rattle.lethe_cert.specs.declared.certificate.Certificate as cert;
ghost use Rattle.lethe_cover.specs.Steps.{with_done};
ghost use Rattle.lethe_disk.specs.Disk.{IsSynced};
ghost use Rattle.lethe_follows.specs.Ticked.{ticked};
ghost use Rattle.lethe_stored.specs.Stored.{Stored};
ghost use Rattle.lethe_state.specs.Writable.{IsWritable};
ghost use Rattle.lethe_core.specs.Asked.{Makes, behind};
ghost use Rattle.lethe_core.specs.Merges.{AreOutcomesBy, Outcome, due_choice, pages_of};
ghost use Rattle.lethe_pins.specs.Held.{first_limit_of};
ghost use Rattle.lethe_core.specs.Pinned.{AreNamed};
ghost use Rattle.lethe_core.specs.Reasons.{HasDamagedPage};
ghost use Rattle.lethe_core.specs.Running.{Holds, IsSound};
ghost use Rattle.lethe_core.specs.StandsNow.{StandsNow};
ghost use Rattle.lethe_core.specs.View.{view_of};
ghost use Rattle.lethe_tick.specs.Certified.{IsCertificateAt, certificate_of};
ghost use Rattle.lethe_tick.specs.Last.{HasLastStep};
ghost use Rattle.lethe_tick.specs.Ripened.{IsRipened};
ghost use Rattle.lethe_engine.specs.Answers.{Answers};
ghost use Rattle.lethe_engine.specs.Certificates.{IsTrueCertificate};
ghost use Rattle.lethe_engine.specs.Gone.{HoldsNothingErased};
ghost use Rattle.lethe_engine.specs.StandsFor.{Opened, StandsFor, StandsSince};
ghost use Rattle.lethe_engine.specs.Ticks.{HasReasonOfTick, IsTickable, MayRefuseTick, answered_by, ticked_face};

use crate::Engine;
use lethe_base::{MAX_PLACE, Refused};
use lethe_cert::Certificate;
use lethe_disk::Disk;
use lethe_tick::tick;
use std::alloc::Global;

/// What a tick answers.
#[derive(Debug, Clone, Copy, PartialEq, Eq)]
pub struct Ticked {
    /// Its place in the store's history.
    pub place: u64,
    /// The clock, which is its time.
    pub clock: u64,
    /// Where the time is at least the threshold: no object of the disk holds a value that was erased at its `before` or earlier.
    pub certificate: Option<Certificate>,
}

impl<D: Disk> Engine<D> {
    /// Moves the clock to a time. First the jobs in flight are given up, with their round, and retired pages that no held pin names are removed. Where a record of a segment is as
    /// old at that time as level 0 may have it, both buffers are flushed; then the merges and sweeps that are due at that time are carried out, one after another until none is,
    /// and their files are read through the port; then the clock moves. So behind a tick no object of the disk holds a value that was erased a threshold before its time, or
    /// longer ago.
    ///
    /// # Errors
    ///
    /// `Stopped`; `Backwards` where the time is behind the clock; `Exhausted` where the last place or the last round is taken; `Pinned` where a held pin's limit is at most the
    /// time: in this order, before any work. Then the round has ended, and `Exhausted` where numbers ran out, `NoMemory`, `ReadFault`, `Fault`, which stops the store, and on a
    /// disk that tells nothing `Damaged` leave done what was done before them: the same tick may be asked for again.
    pub fn tick(&mut self, alloc: Global, port: &mut D::Port, to: u64) -> Result<Ticked, Refused>
        // Opening gives this, and each call leaves it so.
        requires sound { IsSound D.tells (view_of self.old.core) }
        requires within { to ≤ max_time }
        ensures answers { Answers D.tells (Makes (call.Tick to)) (result_err result) (ticked_face (view_of self.old.core) to) (view_of self.old.core) (view_of self.new.core) }
        ensures place { IfOk result (λ told. (told.place ≡ self.old.core.state.count + 1) × (told.clock ≡ to)) }

        // Acknowledged: no object of the directory spells a value that was erased a threshold before the tick's time, or longer ago. The directory is the one image.
        ensures gone { D.tells → (config : Fields) (opened : Opened) (h : History) → StandsSince config opened h (view_of self.old.core) → (caller : ℕ)
            → OnOk result (HoldsNothingErased config.threshold (D.seen self.new.core.disk).directory (with_done h caller (call.Tick to)) to) }
        ensures one_image { D.tells → OnOk result (IsSynced (D.seen self.new.core.disk)) }

        // A certificate is answered exactly where the time is at least the threshold, and it is kept behind the others. It tells what the manifest prepared, and that manifest's digest.
        ensures due { IfOk result (λ told. IsCertificateAt self.new.core.state.manifest.config.threshold to told.certificate) }
        ensures certificate { IfOk result (λ told. told.certificate ≡ certificate_of self.new.core.state.manifest to) }
        ensures kept { MatchResult result (λ told. self.new.certificates.items ≡ self.old.certificates.items ++ option_to_list told.certificate) (λ why. self.new.certificates.items ≡ self.old.certificates.items) }

        // It is true of the directory and the history, and from then on the store stands for what it says, as it does for the certificates for which it stood before.
        ensures is_true { D.tells → (config : Fields) (opened : Opened) (h : History) → StandsSince config opened h (view_of self.old.core) → (caller : ℕ)
            → IfOk result (λ told. IfSome told.certificate (λ certificate. IsTrueCertificate config.threshold certificate (D.seen self.new.core.disk).directory (with_done h caller (call.Tick to)))) }
        ensures certified { D.tells → (config : Fields) (opened : Opened) (h : History) (answered : List cert.Certificate) → StandsFor config opened h (view_of self.old.core) answered → (caller : ℕ)
            → StandsFor config opened (behind h caller (Makes (call.Tick to)) (result_err result)) (view_of self.new.core) (answered ++ answered_by result) }

        // It is in its last step alone that a crash may leave what is kept for the history with the tick: up to there all that is due was carried out.
        ensures last_step { D.tells → (config : Fields) (h : History) → (stands : StandsNow config h (view_of self.old.core))
            → OnOk result ((ripe t : Stored) × (outcomes : List Outcome) × IsRipened to stands.stored ripe × AreOutcomesBy (due_choice to) ripe outcomes t
            × HasLastStep config h t (D.seen self.old.core.disk) (D.seen self.new.core.disk)) }

        // The buffers were flushed where they had to be, then exactly the merges and sweeps that were due were carried out, each page of the merges' inputs fetched once, and of
        // a swept file those that its header tells, and the clock moved.
        ensures done { D.tells → (s : Stored) → Holds (view_of self.old.core) s
            → OnOk result ((ripe t : Stored) × (outcomes : List Outcome) × (number : ℕ) × IsRipened to s ripe × AreOutcomesBy (due_choice to) ripe outcomes t
            × Holds (view_of self.new.core) (ticked t to number) × (D.fetches port.new ≡ D.fetches port.old + pages_of outcomes)) }

        // Behind it what is stored and pages that held pins name lie in the directory, and nothing else; on any disk no other page is retired.
        ensures named { OnOk result (AreNamed (view_of self.new.core).pins.pins (view_of self.new.core).retired) }
        ensures pins { self.new.core.pins ≡ self.old.core.pins }

        // A refusal has its reason. A store that is stopped, or whose clock is ahead, or whose places or rounds are used up, or that a pin bars, is as it was.
        ensures why { IfErr result (HasReasonOfTick D.tells D.ports_fail to (view_of self.old.core) (view_of self.new.core) (D.port_faults port.old) (D.port_faults port.new)) }
        ensures stopped { (at : ℕ) → self.old.core.state.stopped ≡ Some at → IsErrOf result (refused.Stopped at) × (self.new ≡ self.old) }
        ensures backwards { self.old.core.state.stopped ≡ None → to < self.old.core.state.manifest.clock
            → IsErrOf result (refused.Backwards self.old.core.state.manifest.clock) × (self.new ≡ self.old) }
        ensures exhausted { self.old.core.state.stopped ≡ None → self.old.core.state.manifest.clock ≤ to → (self.old.core.state.count ≡ max_place) ⊎ (max_place ≤ self.old.core.begun.rounds)
            → IsErrOf result (refused.Exhausted max_place) × (self.new ≡ self.old) }
        ensures pinned { IsTickable (view_of self.old.core) to → (pin limit : ℕ) → first_limit_of self.old.core.pins.pins ≡ Some (pin, limit) → limit ≤ to
            → IsErrOf result (refused.Pinned pin limit) × (self.new ≡ self.old) }

        ensures port_faults { D.port_faults port.old ≤ D.port_faults port.new }

        // On any disk: where a page is told as damaged, a fetch was made in this call, and it is one of a file of the version behind it.
        ensures damaged { (name : Name) → IsErrOf result (refused.Damaged name) → HasDamagedPage self.new.core name × (D.fetches port.old < D.fetches port.new) }
        ensures fetches { D.fetches port.old ≤ D.fetches port.new }
    {
        self.may_tick(to)?;
        let before = self.core.disk.faults();
        self.core.begun.rounds += 1;
        let certificate = tick(
            &mut self.core,
            &mut self.certificates,
            alloc,
            port,
            before,
            to,
        )?;
        Ok(Ticked {
            place: self.core.state.count(),
            clock: to,
            certificate,
        })
    }

    /// Whether a tick to this time may begin.
    fn may_tick(&self, to: u64) -> Result<(), Refused>
        requires { IsWritable self.now.core.state }
        ensures refused { IfErr result (MayRefuseTick (view_of self.now.core) to) }
        ensures may { OnOk result (IsTickable (view_of self.now.core) to × All (λ pin. to < pin.limit) self.now.core.pins.pins) }
    {
        if let Some(at) = self.core.state.stopped() {
            return Err(Refused::Stopped { at });
        }
        let clock = self.core.state.manifest().clock;
        if to < clock {
            return Err(Refused::Backwards { clock });
        }
        if self.core.state.count() >= MAX_PLACE || self.core.begun.rounds >= MAX_PLACE {
            return Err(Refused::Exhausted { last: MAX_PLACE });
        }
        if let Some((pin, limit)) = self.core.pins.first_limit() {
            if limit <= to {
                return Err(Refused::Pinned { pin, limit });
            }
        }
        Ok(())
    }
}
