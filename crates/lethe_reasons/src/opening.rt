//! The reasons of a store that isn't opened.
ghost use Rattle.std.specs.Prelude.{IfOk};
ghost use Rattle.lethe_dirdisk.specs.FileNames.{file_name};
ghost use Rattle.lethe_reasons.specs.Messages.{Shows};

use crate::message::Message;
use lethe_base::{Fields, Kind, Name, NoMemory, Pick};
use lethe_dirdisk::spell_file_name;
use std::alloc::Global;

pub(crate) const GUIDE: &str = " (docs/GUIDE.md, When something goes wrong)";

/// An object is missing, cut or changed.
pub fn damaged(alloc: Global, name: Name) -> Result<Message, NoMemory>
    ensures { IfOk result (Shows (file_name name)) }
{
    let number = name.no;
    let number = format!(in alloc; "{number}")?;
    Message::of(alloc, kind_word(name.kind))?
        .and(" ")?
        .and(&number)?
        .and(", the file ")?
        .show(&spell_file_name(name))?
        .and(
            ", is missing, cut or changed: there is no repair, so restore the folder from a backup",
        )?
        .and(GUIDE)
}

fn kind_word(kind: Kind) -> &'static str {
    match kind {
        Kind::Gate => "gate",
        Kind::Manifest => "manifest",
        Kind::Segment => "segment",
        Kind::File => "file",
        Kind::Page => "page",
    }
}

/// The store was made with other options than those that are asked for.
pub fn other_config(alloc: Global, kept: &Fields, asked: &Fields) -> Result<Message, NoMemory> {
    let wanted = differing(alloc, kept, asked)?;
    let given = differing(alloc, asked, kept)?;
    Message::of(alloc, "the store was made with other options: run with")?
        .and(&wanted)?
        .and(" in place of")?
        .and(&given)
}

/// The options in which some fields differ from others, with a space before each.
fn differing(alloc: Global, these: &Fields, others: &Fields) -> Result<String, NoMemory> {
    let mut text = String::new(alloc);
    push_number(&mut text, "threshold", these.threshold, others.threshold)?;
    push_number(&mut text, "ratio", these.ratio, others.ratio)?;
    push_number(&mut text, "levels", these.levels, others.levels)?;
    push_number(&mut text, "page", these.page, others.page)?;
    push_number(&mut text, "tile", these.tile, others.tile)?;
    push_number(&mut text, "file", these.file, others.file)?;
    push_number(&mut text, "buffer", these.buffer, others.buffer)?;
    if these.pick != others.pick {
        text.push_str(match these.pick {
            Pick::So => " --pick so",
            Pick::Sd => " --pick sd",
        })?;
    }
    Ok(text)
}

fn push_number(text: &mut String, option: &str, this: u64, other: u64) -> Result<(), NoMemory> {
    if this != other {
        write!(text, " --{option} {this}")?;
    }
    Ok(())
}

/// The file system refused a call of the opening.
pub fn open_fault(alloc: Global) -> Result<Message, NoMemory> {
    Message::of(
        alloc,
        "the store couldn't be opened, since the file system refused a call: look for a full disk, for rights and for errors of the device",
    )?
    .and(GUIDE)
}

/// All numbers up to the last one are used.
pub fn open_exhausted(alloc: Global, last: u64) -> Result<Message, NoMemory> {
    let last = format!(in alloc; "{last}")?;
    Message::of(alloc, "the store has no number left up to ")?
        .and(&last)?
        .and(": make a new one of what a scan prints")?
        .and(GUIDE)
}
