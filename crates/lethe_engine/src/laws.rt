//! What a store's disk holds between calls, and what its certificates say of it. The functions do nothing: their contracts are the laws.
ghost use Rattle.std.specs.Prelude.{◌≡◌, ◌≤◌, ℕ, List, All, Option, None};
ghost use Rattle.lethe_base.specs.History.{History, after};
ghost use Rattle.lethe_base.specs.declared.config.Fields.{Fields};
ghost use Rattle.lethe_base.specs.declared.refused.Refused.{Refused};
ghost use Rattle.lethe_cert.specs.declared.certificate.Certificate.{Certificate};
ghost use Rattle.lethe_disk.specs.Directory.{Directory};
ghost use Rattle.lethe_disk.specs.Disk.{IsSynced};
ghost use Rattle.lethe_stored.specs.Clean.{IsClean};
ghost use Rattle.lethe_stored.specs.Left.{IsLeft};
ghost use Rattle.lethe_core.specs.Asked.{behind};
ghost use Rattle.lethe_core.specs.Asked as core;
ghost use Rattle.lethe_core.specs.View.{Face, view_of};
ghost use Rattle.lethe_row.specs.Along.{row_behind};
ghost use Rattle.lethe_row.specs.declared.asking.Asked.{Asked};
ghost use Rattle.lethe_engine.specs.Answers.{Answers};
ghost use Rattle.lethe_engine.specs.Certificates.{HoldsNoneErasedBy};
ghost use Rattle.lethe_engine.specs.Opening.{IsResumed};
ghost use Rattle.lethe_engine.specs.Rows.{AnswersRow};
ghost use Rattle.lethe_engine.specs.StandsFor.{IsCertifiedBy, Opened, StandsFor, StandsSince};

use crate::Engine;
use lethe_disk::Disk;

/// A store that takes changes leaves no object that is no spelling, and none that spells a value that was never put or was erased a threshold ago. Each call leaves
/// `StandsSince`, so this holds after each, with a job in flight too.
pub fn standing_is_clean<D: Disk>(_engine: &Engine<D>)
    ensures { D.tells → (config : Fields) (opened : Opened) (h : History) → StandsSince config opened h (view_of _engine.now.core) → _engine.now.core.state.stopped ≡ None
        → IsClean config.threshold (D.seen _engine.now.core.disk).directory h (after h).clock }
{}

/// Whatever a call answers, the certificates for which the store stood before it stand behind it.
pub fn certificates_stay<D: Disk>(_before: &Engine<D>, _behind: &Engine<D>)
    ensures { (asked : core.Asked) (why : Option Refused) (face : Face) → Answers D.tells asked why face (view_of _before.now.core) (view_of _behind.now.core) → D.tells
        → (config : Fields) (opened : Opened) (h : History) (answered : List Certificate) → StandsFor config opened h (view_of _before.now.core) answered → (caller : ℕ)
        → StandsFor config opened (behind h caller asked why) (view_of _behind.now.core) answered }
{}

/// So do they behind a row of changes.
pub fn certificates_stay_in_row<D: Disk>(_before: &Engine<D>, _behind: &Engine<D>)
    ensures { (asked left : List Asked) (done : ℕ) (refused : Option Refused) → (answers : AnswersRow D.tells asked left done refused (view_of _before.now.core) (view_of _behind.now.core)) → D.tells
        → (config : Fields) (opened : Opened) (h : History) (answered : List Certificate) → StandsFor config opened h (view_of _before.now.core) answered → (caller : ℕ)
        → StandsFor config opened (row_behind h caller answers.row.made answers.row.failed) (view_of _behind.now.core) answered }
{}

/// So at every later time no object holds a value that was erased at the `before` of a certificate that was answered, or earlier, while the store takes changes.
pub fn certified_is_gone<D: Disk>(_engine: &Engine<D>)
    ensures { D.tells → (config : Fields) (opened : Opened) (h : History) → StandsFor config opened h (view_of _engine.now.core) _engine.now.certificates.items → _engine.now.core.state.stopped ≡ None
        → All (λ certificate. HoldsNoneErasedBy (D.seen _engine.now.core.disk).directory h certificate.before) _engine.now.certificates.items }
{}

/// Nor behind a crash: what a crash leaves since a certificate was answered is kept for a history that has its tick, and a store that is opened from that holds no such value.
pub fn reopened_is_without_certified<D: Disk>(
    _engine: &Engine<D>,
    _start: &D,
    _reopened: &Engine<D>,
)
    ensures { D.tells → (config : Fields) (opened : Opened) (h : History) (before_tick : History) (caller : ℕ) (certificate : Certificate)
        → (is : IsCertifiedBy config opened h (view_of _engine.now.core) before_tick caller certificate)
        → (moment : ℕ) (left : Directory) → is.moment ≤ moment → moment ≤ (D.seen _engine.now.core.disk).moment → (D.seen _engine.now.core.disk).left moment left
        → (D.seen _start.now).directory ≡ left → IsSynced (D.seen _start.now)
        → (kept : History) × IsLeft config (D.seen _start.now) kept None × (_reopened.now.core.state.stopped ≡ None → IsResumed config kept None (D.seen _start.now) (view_of _reopened.now.core)
        → HoldsNoneErasedBy (D.seen _reopened.now.core.disk).directory kept certificate.before) }
{}
