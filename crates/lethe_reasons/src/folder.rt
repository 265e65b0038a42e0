//! The reasons of a folder that is refused.
ghost use Rattle.std.specs.Prelude.{IfOk};
ghost use Rattle.lethe_dirdisk.specs.FileNames.{file_name};
ghost use Rattle.lethe_reasons.specs.Messages.{Shows};

use crate::message::Message;
use lethe_base::{Name, NoMemory};
use lethe_dirdisk::{DirRefused, OpenStep, spell_file_name};
use std::alloc::Global;
use std::io::{Error, ErrorKind};

const FOLDER: &str = "the folder ";

/// The folder of this path isn't opened.
pub fn folder_refused(alloc: Global, dir: &str, why: &DirRefused) -> Result<Message, NoMemory> {
    match why {
        DirRefused::Foreign { name: Some(name) } => holds(
            alloc,
            dir,
            name,
            ", which is no file of a store: move it away",
        ),
        DirRefused::Foreign { name: None } => refused(
            alloc,
            FOLDER,
            dir,
            " holds something that is no file of a store: move it away",
            "",
        ),
        DirRefused::NoFile { name } => holds(
            alloc,
            dir,
            &spell_file_name(*name),
            ", which is a link, a pipe or a device and no plain file: move it away",
        ),
        DirRefused::Folder { step, error } => step_refused(alloc, dir, *step, error),
        DirRefused::NoMemory => crate::ending::no_memory(alloc),
    }
}

/// The folder holds a used store, of which this is a file, and no gate.
pub fn gate_missing(alloc: Global, dir: &str, name: Name) -> Result<Message, NoMemory>
    ensures folder { IfOk result (Shows dir.now) }
    ensures name { IfOk result (Shows (file_name name)) }
{
    holds(
        alloc,
        dir,
        &spell_file_name(name),
        " and no gate, the empty file g-..: it was tidied away, or a copy left it out; restore the folder from a backup (docs/GUIDE.md, When something goes wrong)",
    )
}

fn holds(alloc: Global, dir: &str, what: &[u8], why: &str) -> Result<Message, NoMemory>
    ensures folder { IfOk result (Shows dir.now) }
    ensures what { IfOk result (Shows what.now) }
{
    Message::of(alloc, FOLDER)?
        .show(dir.as_bytes())?
        .and(" holds ")?
        .show(what)?
        .and(why)
}

/// The system refused a step of its opening.
fn step_refused(
    alloc: Global,
    dir: &str,
    step: OpenStep,
    error: &Error,
) -> Result<Message, NoMemory> {
    let said = error.to_string(alloc)?;
    let said = said.as_str();
    match step {
        OpenStep::Make => not_made(alloc, dir, error.kind(), said),
        OpenStep::Open => refused(alloc, FOLDER, dir, " couldn't be opened: ", said),
        OpenStep::Lock if error.kind() == ErrorKind::WouldBlock => refused(
            alloc,
            "another process holds the folder ",
            dir,
            ": wait until it ends",
            "",
        ),
        OpenStep::Lock => refused(alloc, FOLDER, dir, " couldn't be locked: ", said),
        OpenStep::List => refused(alloc, FOLDER, dir, " couldn't be listed: ", said),
        OpenStep::Look { name } => Message::of(alloc, "the file ")?
            .show(&spell_file_name(name))?
            .and(" of the folder ")?
            .show(dir.as_bytes())?
            .and(" couldn't be looked at: ")?
            .and(said),
        OpenStep::SyncParent => refused(
            alloc,
            "the folder that ",
            dir,
            " lies in couldn't be opened and synced: ",
            said,
        ),
    }
}

fn refused(alloc: Global, what: &str, dir: &str, why: &str, said: &str) -> Result<Message, NoMemory>
    ensures { IfOk result (Shows dir.now) }
{
    Message::of(alloc, what)?
        .show(dir.as_bytes())?
        .and(why)?
        .and(said)
}

/// The folder couldn't be made. Where something is missing, that is the folder that it is to lie in.
fn not_made(alloc: Global, dir: &str, kind: ErrorKind, said: &str) -> Result<Message, NoMemory> {
    if dir.is_empty() {
        return Message::of(alloc, "the folder's name is empty");
    }
    if kind != ErrorKind::NotFound {
        return refused(alloc, FOLDER, dir, " couldn't be made: ", said);
    }
    Message::of(alloc, FOLDER)?
        .show(dir.as_bytes())?
        .and(" couldn't be made, since ")?
        .show(parent_of(dir.as_bytes()))?
        .and(" isn't there: ")?
        .and(said)
}

/// The path of the folder that the folder of a path lies in.
fn parent_of(dir: &[u8]) -> &[u8] {
    let dir = without_slashes(dir);
    match dir.iter().rposition(|byte| *byte == b'/') {
        Some(0) => b"/",
        Some(end) => without_slashes(&dir[..end]),
        None => b".",
    }
}

fn without_slashes(path: &[u8]) -> &[u8] {
    match path.iter().rposition(|byte| *byte != b'/') {
        Some(last) => &path[..last + 1],
        None => &[],
    }
}
