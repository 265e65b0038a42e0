//! The top call.
ghost use Rattle.std.specs.Prelude.{◌≡◌, ◌≤◌, ◌<◌, ◌⊎◌, ℕ, [], Option, None, map, take, IfErr, IfOk, IfSome, MatchResult, IsErrOf};
ghost use Rattle.std.specs.String.{string_bytes};
ghost use Rattle.lethe_base.specs.Counts.{Rose};
ghost use Rattle.lethe_base.specs.History.{History, Change};
ghost use Rattle.lethe_base.specs.declared.config.Fields.{Fields};
ghost use Rattle.lethe_engine.specs.Opening.{IsResumed, IsUntold};
ghost use Rattle.lethe_core.specs.Running.{IsSound};
ghost use Rattle.lethe_core.specs.View.{view_of};
ghost use Rattle.lethe_disk.specs.Goes.{Goes};
ghost use Rattle.lethe_stored.specs.Left.{IsLeft};
ghost use Rattle.lethe_stored.specs.Numbers.{KeepsPace};
ghost use Rattle.lethe_load.specs.Refused.{HasReason};
ghost use Rattle.lethe_load.specs.declared.refused.RecoverRefused.{RecoverRefused};
ghost use Rattle.lethe_recover.specs.Opening.{MayNotOpen, IsCut, IsKeptInOpening, since_start};
ghost use Rattle.lethe_disk.specs.Quiet.{IsQuiet};
ghost use Rattle.lethe_script.specs.Grammar.{script_of};
ghost use Rattle.lethe_run.specs.Ends.{Ends};
ghost use Rattle.lethe_run.specs.Printed.{bad_line, open_line};
ghost use Rattle.lethe_run.specs.Reasons.{IsReasonOf, IsShownOf, IsToldOf, IsWhy, Says};
ghost use Rattle.lethe_base.specs.Keys.{Bytes};

use crate::front::front_of_line;
use crate::print::{open_refusal, refusal};
use crate::reason::Reason;
use crate::script::serve_script;
use crate::words::config_of;
use lethe_base::{Config, NoMemory};
use lethe_disk::Disk;
use lethe_engine::{Engine, OpenRefused};
use lethe_recover::OpenWhy;
use lethe_script::{BadLine, MAX_SCRIPT, ScriptRefused, read_script};
use lethe_wire::{ReadRefused, Sink, Source, read_up_to, write_all};
use std::alloc::Global;

/// How a run ended, and the disk that it was given.
#[derive(Drop)]
pub struct Ended<D: Disk> {
    /// From 0 to 9; there is no 1.
    pub status: u8,
    pub disk: D,
}

/// How a run ended and why, and the disk that it was given.
#[derive(Drop)]
pub struct Told<D: Disk> {
    /// From 0 to 9; there is no 1.
    pub status: u8,
    pub reason: Reason,
    pub disk: D,
}

/// Reads the words, which are `run` and options, two words for each; then the whole source; opens the store of the disk with the configuration
/// that the words ask for, carries out the script over it, prints a line for each line that asks for something, and gives the disk back.
///
/// The status is 0 where all was answered and done, but for ticks behind the clock or barred by a pin, 2 for words that are no command, 3 for bytes that are no script, 4 and 5 where the source and the sink
/// failed, 6 where a change failed or wasn't made, a read wasn't answered, or the store couldn't be opened for a fault of the disk or want of numbers, 7 for
/// want of memory, 8 for a damaged disk, and 9 for one of another configuration.
pub fn run<S: Source, K: Sink, D: Disk>(
    alloc: Global,
    words: &[String],
    source: &mut S,
    sink: &mut K,
    disk: D,
) -> Ended<D>
    ensures ends { Ends (record {
      words = map string_bytes words.now;
      source = S.left source.old;
      taken_before = K.taken sink.old;
      taken = K.taken sink.new;
      SourceRose = Rose (S.faults source.old) (S.faults source.new);
      SinkRose = Rose (K.faults sink.old) (K.faults sink.new);
      Tells = D.tells;
      start = D.seen disk;
      finish = D.seen result.disk;
      faults_before = D.faults disk;
      faults = D.faults result.disk;
      PortsFail = D.ports_fail;
      Unused = result.disk ≡ disk;
    }) result.status }
{
    let told = run_told(alloc, words, source, sink, disk);
    Ended {
        status: told.status,
        disk: told.disk,
    }
}

/// `run`, which hands back the reason of its end as well.
pub fn run_told<S: Source, K: Sink, D: Disk>(
    alloc: Global,
    words: &[String],
    source: &mut S,
    sink: &mut K,
    disk: D,
) -> Told<D>
    ensures ends { Ends (record {
      words = map string_bytes words.now;
      source = S.left source.old;
      taken_before = K.taken sink.old;
      taken = K.taken sink.new;
      SourceRose = Rose (S.faults source.old) (S.faults source.new);
      SinkRose = Rose (K.faults sink.old) (K.faults sink.new);
      Tells = D.tells;
      start = D.seen disk;
      finish = D.seen result.disk;
      faults_before = D.faults disk;
      faults = D.faults result.disk;
      PortsFail = D.ports_fail;
      Unused = result.disk ≡ disk;
    }) result.status }
    ensures reason { IsReasonOf (record {
      words = map string_bytes words.now;
      source = S.left source.old;
      taken_before = K.taken sink.old;
      taken = K.taken sink.new;
      SourceRose = Rose (S.faults source.old) (S.faults source.new);
      SinkRose = Rose (K.faults sink.old) (K.faults sink.new);
      Tells = D.tells;
      start = D.seen disk;
      finish = D.seen result.disk;
      faults_before = D.faults disk;
      faults = D.faults result.disk;
      PortsFail = D.ports_fail;
      Unused = result.disk ≡ disk;
    }) result.status result.reason }
{
    let (reason, disk) = carry_out(alloc, words, source, sink, disk);
    Told {
        status: reason.status().code(),
        reason,
        disk,
    }
}

fn carry_out<S: Source, K: Sink, D: Disk>(
    alloc: Global,
    words: &[String],
    source: &mut S,
    sink: &mut K,
    disk: D,
) -> (Reason, D)
    ensures { IsWhy (record {
      words = map string_bytes words.now;
      source = S.left source.old;
      taken_before = K.taken sink.old;
      taken = K.taken sink.new;
      SourceRose = Rose (S.faults source.old) (S.faults source.new);
      SinkRose = Rose (K.faults sink.old) (K.faults sink.new);
      Tells = D.tells;
      start = D.seen disk;
      finish = D.seen result.1;
      faults_before = D.faults disk;
      faults = D.faults result.1;
      PortsFail = D.ports_fail;
      Unused = result.1 ≡ disk;
    }) result.0 }
{
    let Some(config) = config_of(words) else {
        return (say(sink, b"bad words\n", Reason::Words), disk);
    };
    let bytes = match read_all(alloc, source) {
        Ok(bytes) => bytes,
        Err(ReadRefused::Failed) => return (Reason::Source, disk),
        Err(ReadRefused::NoMemory) => return (Reason::NoMemory, disk),
    };
    let script = match read_script(alloc, &bytes) {
        Ok(script) => script,
        Err(ScriptRefused::Bad(bad)) => return (refuse(alloc, sink, bad, &bytes), disk),
        Err(ScriptRefused::NoMemory) => return (Reason::NoMemory, disk),
    };
    match open_store(alloc, disk, &config) {
        Ok(engine) => serve_script(alloc, sink, script.phases, engine),
        Err(OpenRefused { disk, why }) => (tell(alloc, sink, config, why), disk),
    }
}

/// Reads the source to its end or past the limit of a script.
fn read_all<S: Source>(alloc: Global, source: &mut S) -> Result<Vec<u8>, ReadRefused>
    ensures ok { IfOk result (λ bytes. IfSome (S.left source.old) (λ all. script_of all ≡ script_of bytes.items)) }
    ensures front { IfOk result (λ bytes. IfSome (S.left source.old) (λ all. take 16777216 all ≡ take 16777216 bytes.items)) }
    ensures failed { IsErrOf result ReadRefused.Failed → Rose (S.faults source.old) (S.faults source.new) }
{
    read_up_to(alloc, source, MAX_SCRIPT)
}

/// Opens the store of the configuration.
fn open_store<D: Disk>(alloc: Global, disk: D, config: &Config) -> Result<Engine<D>, OpenRefused<D>>
    ensures sound { IfOk result (λ engine. IsSound D.tells (view_of engine.core)) }
    ensures runs { IfOk result (λ engine. engine.core.state.stopped ≡ None) }
    ensures config_is { IfOk result (λ engine. engine.core.state.manifest.config ≡ config.now) }
    ensures rounds { IfOk result (λ engine. engine.core.begun.rounds ≡ 0) }
    // No pin was made.
    ensures pins { IfOk result (λ engine. engine.core.pins ≡ record { pins = []; made = 0 }) }
    ensures resumed { D.tells → (kept : Fields) (h : History) (change : Option Change) → IsLeft kept (D.seen disk) h change
        → IfOk result (λ engine. IsResumed config.now h change (D.seen disk) (view_of engine.core)) }
    ensures any_moment { D.tells → (kept : Fields) (h : History) (change : Option Change) → IsLeft kept (D.seen disk) h change
        → MatchResult result (λ engine. Goes (IsKeptInOpening kept config.now h change (D.seen disk).directory) (D.seen disk) (D.seen engine.core.disk))
        (λ refused. Goes (IsKeptInOpening kept config.now h change (D.seen disk).directory) (D.seen disk) (D.seen refused.disk)) }
    ensures refused { IfErr result (λ refused. MayNotOpen D.tells config.now (D.seen disk).directory (D.faults disk) (D.faults refused.disk) refused.why) }
    ensures exact { D.tells → (why : RecoverRefused) → HasReason config.now (D.seen disk).directory why
        → MatchResult result (λ engine. ⊥) (λ refused. (refused.why ≡ since_start (D.faults disk) why) ⊎ IsCut ⊥ (D.faults disk) (D.faults refused.disk) refused.why) }
    ensures quiet { D.tells → (why : RecoverRefused) → HasReason config.now (D.seen disk).directory why → IfErr result (λ refused. IsQuiet (D.seen disk) (D.seen refused.disk)) }
    ensures pace { D.tells → (first : ℕ) → KeepsPace first (D.seen disk).moment (D.seen disk).moment (D.seen disk)
        → MatchResult result (λ engine. KeepsPace first (D.seen disk).moment (D.seen disk).moment (D.seen engine.core.disk))
        (λ refused. KeepsPace first (D.seen disk).moment (D.seen disk).moment (D.seen refused.disk)) }
    ensures untouched { D.tells → IfErr result (λ refused. IsUntold refused.why ⊎ IsQuiet (D.seen disk) (D.seen refused.disk)) }
    ensures drawn { D.tells → IfErr result (λ refused. (last : ℕ) → refused.why ≡ OpenWhy.Exhausted last → (D.seen disk).moment < (D.seen refused.disk).moment) }
    ensures faults { IfOk result (λ engine. D.faults disk ≤ D.faults engine.core.disk) }
{
    Engine::open(alloc, disk, config)
}

/// Writes a text, and answers this reason, or that the sink failed.
fn say<K: Sink>(sink: &mut K, text: &[u8], reason: Reason) -> Reason
    ensures { Says reason text.now (K.taken sink.old) (K.taken sink.new) (Rose (K.faults sink.old) (K.faults sink.new)) result }
{
    match write_all(sink, text) {
        Ok(()) => reason,
        Err(_) => Reason::Sink,
    }
}

/// Says that the bytes are no script.
fn refuse<K: Sink>(alloc: Global, sink: &mut K, bad: BadLine, bytes: &[u8]) -> Reason
    ensures { (text : Option Bytes) × IfSome text (IsShownOf bytes.now bad.line) × IsToldOf (Reason.Line bad text) (bad_line bad) (K.taken sink.old) (K.taken sink.new) (Rose (K.faults sink.old) (K.faults sink.new)) result }
{
    match refusal(alloc, bad) {
        Ok(said) => {
            let text = front_of_line(alloc, bytes, bad.line);
            say(sink, said.as_bytes(), Reason::Line { bad, text })
        }
        Err(NoMemory) => Reason::NoMemory,
    }
}

/// Says why the store of the configuration wasn't opened.
fn tell<K: Sink>(alloc: Global, sink: &mut K, asked: Config, why: OpenWhy) -> Reason
    ensures told { IsToldOf (Reason.NotOpened why asked) (open_line asked why) (K.taken sink.old) (K.taken sink.new) (Rose (K.faults sink.old) (K.faults sink.new)) result }
    ensures memory { why ≡ OpenWhy.NoMemory → result ≡ Reason.NoMemory }
{
    if let OpenWhy::NoMemory = why {
        return Reason::NoMemory;
    }
    match open_refusal(alloc, asked.fields(), &why) {
        Ok(text) => say(sink, text.as_bytes(), Reason::NotOpened { why, asked }),
        Err(NoMemory) => Reason::NoMemory,
    }
}
