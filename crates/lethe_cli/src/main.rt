//! `lethe DIR run`: carries out the script on standard input, over the store that is kept in the folder DIR.
#![tactic(auto)]

mod cause;

use cause::{Cause, asks_for_reasons, explain};
use lethe_dirdisk::{DirDisk, DirRefused, OpenStep, first_stray};
use lethe_disk::{Disk, DiskRefused};
use lethe_run::{are_words, run_told};
use lethe_wire::{Sink, StdSink, StdSource, write_all};
use std::env;
use std::io::{self, ErrorKind};
use std::process::ExitCode;

/// The status where there is no DIR.
const BAD_WORDS: u8 = 2;

/// The status where standard output failed.
const WRITE_FAULT: u8 = 5;

/// The status for want of memory before the words are known, or for the folder.
const NO_MEMORY: u8 = 7;

/// The status where the folder is refused.
const BAD_FOLDER: u8 = 10;

fn main(rt: HostRuntime) -> ExitCode {
    match words_of(&rt) {
        Ok(all) => {
            let (is_asked, words) = behind_explain(&all);
            let (status, cause) = end_of(&rt, words);
            told(&rt, is_asked, words, status, &cause)
        }
        Err(error) if error.kind() == ErrorKind::OutOfMemory => {
            told(&rt, false, &[], NO_MEMORY, &Cause::NoMemory)
        }
        // A word that is no text is no word of a command.
        Err(_) => {
            let mut sink = StdSink::new(io::writer(&rt));
            let status = say(&mut sink, b"bad words\n", BAD_WORDS);
            told(&rt, false, &[], status, &Cause::NoText)
        }
    }
}

/// The end of the program, with its reason on standard error where that is asked for.
fn told(rt: &HostRuntime, is_asked: bool, words: &[String], status: u8, cause: &Cause) -> ExitCode {
    if is_asked || asks_for_reasons(rt) {
        explain(rt, words, status, cause);
    }
    ExitCode::from(status)
}

/// Whether the words begin with `--explain`, before DIR and `run`, and those behind it. It stands for the variable where a program is run without an environment.
fn behind_explain(words: &[String]) -> (bool, &[String]) {
    match words {
        [first, rest @ ..] if first.as_str() == "--explain" && is_run(rest) => (true, rest),
        _ => (false, words),
    }
}

fn is_run(words: &[String]) -> bool {
    match words {
        [_, command, ..] => command.as_str() == "run",
        _ => false,
    }
}

/// Runs the words behind DIR over the disk of that folder, and answers the status and its cause.
fn end_of(rt: &HostRuntime, words: &[String]) -> (u8, Cause) {
    let alloc = rt.alloc();
    let mut sink = StdSink::new(io::writer(rt));
    let [dir, words @ ..] = words else {
        return (say(&mut sink, b"bad words\n", BAD_WORDS), Cause::Words);
    };
    // Where the words are refused no folder is made or touched.
    if !are_words(words) {
        return (say(&mut sink, b"bad words\n", BAD_WORDS), Cause::Words);
    }
    match open_folder(rt, dir) {
        Ok(disk) => {
            let mut source = StdSource::new(rt.reader());
            let told = run_told(alloc, words, &mut source, &mut sink, disk);
            (told.status, Cause::Run(told.reason))
        }
        Err(Cause::NoMemory) => (NO_MEMORY, Cause::NoMemory),
        Err(cause) => (say(&mut sink, b"bad folder\n", BAD_FOLDER), cause),
    }
}

/// The disk of a folder. One in which a used store lies without its gate is refused: an opening would take it for a new store, and remove all.
fn open_folder(rt: &HostRuntime, dir: &str) -> Result<DirDisk, Cause> {
    let mut disk = match DirDisk::open(rt, rt.alloc(), dir) {
        Ok(disk) => disk,
        Err(DirRefused::NoMemory) => return Err(Cause::NoMemory),
        Err(why) => return Err(Cause::Folder(why)),
    };
    match disk.names(rt.alloc()) {
        Ok(names) => match first_stray(&names) {
            Some(name) => Err(Cause::NoGate(name)),
            None => Ok(disk),
        },
        Err(DiskRefused::NoMemory) => Err(Cause::NoMemory),
        Err(DiskRefused::Failed) => Err(Cause::Folder(DirRefused::Folder {
            step: OpenStep::List,
            error: ErrorKind::Other.into(),
        })),
    }
}

/// Writes a line, and answers the status.
fn say<K: Sink>(sink: &mut K, line: &[u8], status: u8) -> u8 {
    match write_all(sink, line) {
        Ok(()) => status,
        Err(_) => WRITE_FAULT,
    }
}

/// The words behind the program's name.
fn words_of(rt: &HostRuntime) -> io::Result<Vec<String>> {
    let mut words = Vec::new(rt.alloc());
    for word in env::args(rt)?.skip(1) {
        words.push(word)?;
    }
    Ok(words)
}
