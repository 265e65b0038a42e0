//! A store on a disk.
ghost use Rattle.std.specs.Prelude.{◌≡◌, ◌≤◌, ◌<◌, ◌+◌, ◌⊎◌, ℕ, [], Option, None, IfOk, IfErr, MatchResult, option_map};
ghost use Rattle.std.specs.Result.{result_err};
ghost use Rattle.lethe_base.specs.History.{History, Change};
ghost use Rattle.lethe_base.specs.declared.call.Call.TheVariants.{Work};
ghost use Rattle.lethe_base.specs.declared.config.Fields.{Fields};
ghost use Rattle.lethe_base.specs.declared.refused.Refused.TheVariants as refused;
ghost use Rattle.lethe_disk.specs.Disk.{IsIdle};
ghost use Rattle.lethe_disk.specs.Goes.{Goes};
ghost use Rattle.lethe_disk.specs.Quiet.{IsQuiet};
ghost use Rattle.lethe_stored.specs.Left.{IsLeft};
ghost use Rattle.lethe_stored.specs.Numbers.{IsNextNumber, KeepsPace};
ghost use Rattle.lethe_load.specs.Refused.{HasReason};
ghost use Rattle.lethe_load.specs.declared.refused.RecoverRefused.{RecoverRefused};
ghost use Rattle.lethe_recover.specs.Opening.{IsKeptInOpening, MayNotOpen, IsCut, since_start};
ghost use Rattle.lethe_recover.specs.Reopening.{IsOpenedAs};
ghost use Rattle.lethe_stored.specs.Stored.{Stored};
ghost use Rattle.lethe_engine.specs.Opening.{IsResumed, IsUntold};
ghost use Rattle.lethe_core.specs.Running.{Holds, IsSound};
ghost use Rattle.lethe_core.specs.Asked.{Serves};
ghost use Rattle.lethe_core.specs.View.{face_of, no_jobs, view_of};
ghost use Rattle.lethe_engine.specs.Answers.{Answers};

use lethe_base::{Config, NoMemory};
use lethe_cert::Certificate;
use lethe_core::{Core, Flights};
use lethe_disk::Disk;
use lethe_job::Begun;
use lethe_pins::Pins;
use lethe_recover::{OpenWhy, Opened, open};
use lethe_state::State;
use std::alloc::Global;

/// A disk on which no store was opened, and why.
#[derive(Drop)]
pub struct OpenRefused<D: Disk> {
    pub disk: D,
    pub why: OpenWhy,
}

/// A store on a disk.
#[derive(Drop)]
pub struct Engine<D: Disk> {
    pub(crate) core: Core<D>,
    /// Those that were answered since the store was opened, in order.
    pub(crate) certificates: Vec<Certificate>,
}

impl<D: Disk> Engine<D> {
    /// Opens the store of a disk, or makes an empty one where there is no gate, as `lethe_recover::open` does.
    ///
    /// # Errors
    ///
    /// See `OpenWhy`. The disk comes back.
    pub fn open(alloc: Global, mut disk: D, config: &Config) -> Result<Engine<D>, OpenRefused<D>>
        ensures sound { IfOk result (λ engine. IsSound D.tells (view_of engine.core)) }
        ensures runs { IfOk result (λ engine. engine.core.state.stopped ≡ None) }
        ensures config_is { IfOk result (λ engine. engine.core.state.manifest.config ≡ config.now) }
        ensures face { IfOk result (λ engine. face_of (view_of engine.core) ≡ no_jobs) }
        ensures certificates { IfOk result (λ engine. engine.certificates.items ≡ []) }
        ensures nothing { IfOk result (λ engine. ((view_of engine.core).retired ≡ []) × ((view_of engine.core).pins ≡ record { pins = []; made = 0 })) }

        // What is stored is a new store where there was no gate, and else what the directory encoded, with the journal in files.
        ensures opened { D.tells → IfOk result (λ engine. (t : Stored) × Holds (view_of engine.core) t × IsOpenedAs config.now (D.seen disk).directory t) }

        // Where the disk was left for a history, in whatever configuration, the store stands for it, or for it with the change carried out: for the one that the
        // directory is kept for.
        ensures resumed { D.tells → (kept : Fields) (h : History) (change : Option Change) → IsLeft kept (D.seen disk) h change
            → IfOk result (λ engine. IsResumed config.now h change (D.seen disk) (view_of engine.core)) }

        // A crash at any moment of the call, whatever it answers, leaves a disk that is kept for one of the two, or a new store where there was no gate.
        ensures any_moment { D.tells → (kept : Fields) (h : History) (change : Option Change) → IsLeft kept (D.seen disk) h change
            → MatchResult result (λ engine. Goes (IsKeptInOpening kept config.now h change (D.seen disk).directory) (D.seen disk) (D.seen engine.core.disk))
            (λ refused. Goes (IsKeptInOpening kept config.now h change (D.seen disk).directory) (D.seen disk) (D.seen refused.disk)) }

        // A refusal has its reason. Where the directory has damage or another configuration, that is told, unless the disk fails or memory
        // runs out; then, and where numbers ran out, nothing was touched.
        ensures refused { IfErr result (λ refused. MayNotOpen D.tells config.now (D.seen disk).directory (D.faults disk) (D.faults refused.disk) refused.why) }
        ensures exact { D.tells → (why : RecoverRefused) → HasReason config.now (D.seen disk).directory why
            → MatchResult result (λ engine. ⊥) (λ refused. (refused.why ≡ since_start (D.faults disk) why) ⊎ IsCut ⊥ (D.faults disk) (D.faults refused.disk) refused.why) }
        ensures untouched { D.tells → IfErr result (λ refused. IsUntold refused.why ⊎ IsQuiet (D.seen disk) (D.seen refused.disk)) }
        ensures quiet { D.tells → (why : RecoverRefused) → HasReason config.now (D.seen disk).directory why → IfErr result (λ refused. IsQuiet (D.seen disk) (D.seen refused.disk)) }

        // Numbers run out behind the first device call.
        ensures drawn { D.tells → IfErr result (λ refused. (last : ℕ) → refused.why ≡ OpenWhy.Exhausted last → (D.seen disk).moment < (D.seen refused.disk).moment) }

        // Numbers are drawn no faster than device calls are made, and what each crash leaves keeps pace.
        ensures numbers { D.tells → IfOk result (λ engine. (next : ℕ) → IsNextNumber (D.seen disk).directory next
            → engine.core.state.next + (D.seen disk).moment ≤ next + (D.seen engine.core.disk).moment) }
        ensures pace { D.tells → (first : ℕ) → KeepsPace first (D.seen disk).moment (D.seen disk).moment (D.seen disk)
            → MatchResult result (λ engine. KeepsPace first (D.seen disk).moment (D.seen disk).moment (D.seen engine.core.disk))
            (λ refused. KeepsPace first (D.seen disk).moment (D.seen disk).moment (D.seen refused.disk)) }
        ensures faults { MatchResult result (λ engine. D.faults disk ≤ D.faults engine.core.disk) (λ refused. D.faults disk ≤ D.faults refused.disk) }
    {
        match open(alloc, &mut disk, config) {
            Ok(Opened { manifest, version }) => match State::opened(alloc, manifest) {
                Ok(state) => Ok(Engine {
                    core: Core {
                        disk,
                        state,
                        version,
                        retired: Vec::new(alloc),
                        flights: Flights::new(alloc),
                        pins: Pins::new(alloc),
                        begun: Begun::none(),
                    },
                    certificates: Vec::new(alloc),
                }),
                Err(NoMemory) => Err(OpenRefused {
                    disk,
                    why: OpenWhy::NoMemory,
                }),
            },
            Err(why) => Err(OpenRefused { disk, why }),
        }
    }

    /// A port for one more reader. It is no device call.
    pub fn new_port(&mut self, alloc: Global) -> Result<D::Port, NoMemory>
        requires { IsSound D.tells (view_of self.old.core) }
        ensures answers { Answers D.tells (Serves Work) (option_map (λ none. refused.NoMemory) (result_err result)) (face_of (view_of self.old.core)) (view_of self.old.core) (view_of self.new.core) }
        ensures fresh { IfOk result (λ port. (D.fetches port ≡ 0) × (D.port_faults port ≡ 0)) }
        ensures idle { D.tells → IsIdle (D.seen self.old.core.disk) (D.seen self.new.core.disk) }
        ensures same { (self.new.core.state ≡ self.old.core.state) × (self.new.core.version ≡ self.old.core.version) × (self.new.core.flights ≡ self.old.core.flights) }
        ensures retired { self.new.core.retired ≡ self.old.core.retired }
        ensures faults { D.faults self.new.core.disk ≡ D.faults self.old.core.disk }
        ensures certificates { self.new.certificates ≡ self.old.certificates }
        ensures pins { self.new.core.pins ≡ self.old.core.pins }
    {
        self.core.disk.port(alloc)
    }

    /// How many changes there were. One that failed counts.
    pub fn count(&self) -> u64
        ensures { result ≡ self.now.core.state.count }
    {
        self.core.state.count()
    }

    /// How many rounds have ended since the store was opened. It takes no memory.
    pub fn rounds(&self) -> u64
        ensures { result ≡ self.now.core.begun.rounds }
    {
        self.core.begun.rounds
    }

    /// The certificates that were answered since the store was opened, in order. It takes no memory.
    pub fn certificates(&self) -> &[Certificate]
        ensures { result.now ≡ self.now.certificates.items }
    {
        &self.certificates
    }

    /// The place in the history of the call in which the disk failed, if one has: then the store is stopped.
    pub fn stopped(&self) -> Option<u64>
        ensures { result ≡ self.now.core.state.stopped }
    {
        self.core.state.stopped()
    }

    /// Gives the disk back, whether or not a job is in flight or a pin is held: what was kept for pins goes with the next opening.
    pub fn into_disk(self) -> D
        ensures { result ≡ self.core.disk }
    {
        let core = self.core;
        core.disk
    }
}
