//! The reasons of a run that began.

use crate::message::Message;
use crate::opening::GUIDE;
use lethe_base::NoMemory;
use std::alloc::Global;

/// The source failed.
pub fn source_failed(alloc: Global) -> Result<Message, NoMemory> {
    Message::of(
        alloc,
        "standard input couldn't be read, so nothing was carried out",
    )
}

/// The sink failed.
pub fn sink_failed(alloc: Global) -> Result<Message, NoMemory> {
    Message::of(
        alloc,
        "standard output couldn't be written: what was printed was carried out, and perhaps more",
    )
}

/// There was no memory.
pub fn no_memory(alloc: Global) -> Result<Message, NoMemory> {
    Message::of(
        alloc,
        "there was no memory: what was printed was carried out, and perhaps more",
    )
}

/// The line that was printed as this one, counted from 1, is the first that tells of a change that failed or wasn't made, or of a read that wasn't answered.
pub fn refused_answer(alloc: Global, line: u64) -> Result<Message, NoMemory> {
    let line = format!(in alloc; "{line}")?;
    Message::of(alloc, "line ")?
        .and(&line)?
        .and(
            " of the output is the first that tells of a change that failed or wasn't made, or of a read that wasn't answered: fault, stopped, exhausted, readfault or damaged",
        )?
        .and(GUIDE)
}

/// A call of the store was refused.
pub fn refused_call(alloc: Global) -> Result<Message, NoMemory> {
    Message::of(
        alloc,
        "a change failed or wasn't made, or a read wasn't answered",
    )?
    .and(GUIDE)
}
