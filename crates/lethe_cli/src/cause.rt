//! Why the program ends as it does, told on standard error.

use crate::WRITE_FAULT;
use lethe_base::{Fields, Name, NoMemory};
use lethe_dirdisk::DirRefused;
use lethe_reasons::{
    Message, NO_MEMORY_TO_SAY, bad_line, bad_words, damaged, folder_refused, gate_missing,
    no_memory, no_text, open_exhausted, open_fault, other_config, refused_answer, refused_call,
    sink_failed, source_failed,
};
use lethe_recover::OpenWhy;
use lethe_run::Reason;
use std::alloc::Global;
use std::env::{self, VarError};

/// The variable that asks for reasons.
const EXPLAIN: &str = "LETHE_EXPLAIN";

/// Why the program ends.
#[derive(Drop)]
pub(crate) enum Cause {
    /// The words are no command.
    Words,
    /// A word is no text.
    NoText,
    /// There was no memory for the words or the folder.
    NoMemory,
    /// The folder isn't opened.
    Folder(DirRefused),
    /// A used store lies in the folder, of which this is a file, and no gate.
    NoGate(Name),
    /// The run ended.
    Run(Reason),
}

/// Where the status isn't 0, prints one line on standard error. That it can't be written changes nothing.
pub(crate) fn explain(rt: &HostRuntime, words: &[String], status: u8, cause: &Cause) {
    if status == 0 {
        return;
    }
    let alloc = rt.alloc();
    let message = if status == WRITE_FAULT {
        sink_failed(alloc)
    } else {
        message_of(alloc, words, cause)
    };
    let line = message.and_then(|message| message.printed(alloc, status));
    let _ = match line {
        Ok(line) => rt.stderr().write_all(&line),
        Err(NoMemory) => rt.stderr().write_all(NO_MEMORY_TO_SAY),
    };
}

/// The variable is set, whatever it holds.
pub(crate) fn asks_for_reasons(rt: &HostRuntime) -> bool {
    !matches!(env::var(rt, EXPLAIN), Err(VarError::NotPresent))
}

fn message_of(alloc: Global, words: &[String], cause: &Cause) -> Result<Message, NoMemory> {
    let dir = match words {
        [dir, ..] => dir.as_str(),
        [] => "",
    };
    match cause {
        Cause::Words => bad_words(alloc, words),
        Cause::NoText => no_text(alloc),
        Cause::NoMemory => no_memory(alloc),
        Cause::Folder(why) => folder_refused(alloc, dir, why),
        Cause::NoGate(name) => gate_missing(alloc, dir, *name),
        Cause::Run(reason) => run_message(alloc, words, reason),
    }
}

fn run_message(alloc: Global, words: &[String], reason: &Reason) -> Result<Message, NoMemory> {
    match reason {
        Reason::Words => bad_words(alloc, words),
        Reason::Line { bad, text } => match text {
            Some(text) => bad_line(alloc, *bad, text.items()),
            None => bad_line(alloc, *bad, &[]),
        },
        Reason::Source => source_failed(alloc),
        Reason::Sink => sink_failed(alloc),
        Reason::NotOpened { why, asked } => not_opened(alloc, *why, asked.fields()),
        Reason::NoMemory => no_memory(alloc),
        Reason::Answer { line } => refused_answer(alloc, *line),
        // Where nothing is wrong the status is 0.
        Reason::Nothing => refused_call(alloc),
    }
}

fn not_opened(alloc: Global, why: OpenWhy, asked: &Fields) -> Result<Message, NoMemory> {
    match why {
        OpenWhy::Damaged { name } => damaged(alloc, name),
        OpenWhy::OtherConfig { kept } => other_config(alloc, kept.fields(), asked),
        OpenWhy::Fault { .. } => open_fault(alloc),
        OpenWhy::Exhausted { last } => open_exhausted(alloc, last),
        OpenWhy::NoMemory => no_memory(alloc),
    }
}
