//! A reason as one line of text.
ghost use Rattle.std.specs.Prelude.{◌≡◌, ◌++◌, IfOk, OnOk, codes, take};
ghost use Rattle.std.specs.String.{string_bytes};
ghost use Rattle.lethe_reasons.specs.Messages.{shown, shown_byte, status_text, or_mark, Shows};
ghost use Rattle.lethe_base.specs.Keys.{Bytes};

use lethe_base::NoMemory;
use std::alloc::Global;
use std::marker::Model;

/// What is printed where there is no memory for a reason.
pub const NO_MEMORY_TO_SAY: &[u8] =
    b"lethe: there was no memory to say why (./lethe --help tells the statuses)\n";

/// How many bytes of a word, a path or a name are shown at most.
const CUT: usize = 160;

/// One line that says why something was refused, without its end. Contracts see its bytes: there is at least one, and none is a control byte, so that no line break is among them.
#[derive(Debug, Drop)]
pub struct Message {
    bytes: Vec<u8>,
}

impl Model for Message {
    ghost use Rattle.lethe_base.specs.Keys.{Bytes};
    ghost use Rattle.lethe_reasons.specs.Messages.{IsLine};

    ghost Value = { Bytes };

    ghost view = { λ m. m.bytes.items };

    ghost invariant = { λ m. IsLine m.bytes.items };
}

impl Message {
    /// A message that begins with this text.
    pub(crate) fn of(alloc: Global, text: &str) -> Result<Message, NoMemory>
        ensures { IfOk result (λ message. message ≡ shown (or_mark text.now)) }
    {
        Message::of_bytes(alloc, text.as_bytes())
    }

    /// A message that begins with what was given, as far as it is shown.
    pub(crate) fn of_given(alloc: Global, given: &[u8]) -> Result<Message, NoMemory>
        ensures { IfOk result (λ message. message ≡ shown (or_mark (take 160 given.now))) }
    {
        Message::of_bytes(alloc, front_of(given))
    }

    fn of_bytes(alloc: Global, text: &[u8]) -> Result<Message, NoMemory>
        ensures { IfOk result (λ message. message ≡ shown (or_mark text.now)) }
    {
        let mut bytes = Vec::new(alloc);
        push_shown(&mut bytes, or_mark(text))?;
        Ok(Message { bytes })
    }

    /// The message with a text at its end.
    pub(crate) fn and(self, text: &str) -> Result<Message, NoMemory>
        ensures text { IfOk result (λ message. message ≡ self ++ shown text.now) }
        ensures keeps { (given : Bytes) → Shows given self → IfOk result (Shows given) }
    {
        let Message { mut bytes } = self;
        push_shown(&mut bytes, text.as_bytes())?;
        Ok(Message { bytes })
    }

    /// The message with what was given at its end: a word, a path or a name, as far as it is shown.
    pub(crate) fn show(self, given: &[u8]) -> Result<Message, NoMemory>
        ensures text { IfOk result (λ message. message ≡ self ++ shown (take 160 given.now)) }
        ensures shows { IfOk result (Shows given.now) }
        ensures keeps { (other : Bytes) → Shows other self → IfOk result (Shows other) }
    {
        let Message { mut bytes } = self;
        push_shown(&mut bytes, front_of(given))?;
        Ok(Message { bytes })
    }

    /// Its bytes.
    pub fn bytes(&self) -> &[u8]
        ensures { result.now ≡ self.now }
    {
        &self.bytes
    }

    /// The line that is printed of it: who says it, the reason, the status with which the program ends, and where the statuses are told.
    pub fn printed(&self, alloc: Global, status: u8) -> Result<Vec<u8>, NoMemory>
        ensures { IfOk result (λ line. line.items ≡ codes "lethe: " ++ self.now ++ status_text status) }
    {
        let mut line = Vec::new(alloc);
        line.extend_from_slice(b"lethe: ")?;
        line.extend_from_slice(&self.bytes)?;
        line.extend_from_slice(status_text(alloc, status)?.as_bytes())?;
        Ok(line)
    }
}

/// The end of a printed line.
#[tactic(auto, unfolding(crate::specs::Messages::status_text))]
fn status_text(alloc: Global, status: u8) -> Result<String, NoMemory>
    ensures { IfOk result (λ text. string_bytes text ≡ status_text status) }
{
    Ok(format!(in alloc; " (status {status}: ./lethe --help)\n")?)
}

/// Nothing at all is told as `?`.
#[tactic(auto, unfolding(crate::specs::Messages::or_mark))]
fn or_mark(text: &[u8]) -> &[u8]
    ensures { result.now ≡ or_mark text.now }
{
    match text {
        [] => b"?",
        _ => text,
    }
}

/// Adds a piece as it is shown.
#[tactic(auto, unfolding(crate::specs::Messages::shown))]
fn push_shown(bytes: &mut Vec<u8>, piece: &[u8]) -> Result<(), NoMemory>
    ensures { OnOk result (bytes.new.items ≡ bytes.old.items ++ shown piece.now) }
{
    for byte in piece {
        bytes.push(shown_byte(*byte))?;
    }
    Ok(())
}

/// A control byte is shown as `?`.
fn shown_byte(byte: u8) -> u8
    ensures { result ≡ shown_byte byte }
{
    if byte < b' ' || byte == 127 {
        b'?'
    } else {
        byte
    }
}

/// The front of what was given.
fn front_of(given: &[u8]) -> &[u8]
    ensures { result.now ≡ take 160 given.now }
{
    if given.len() > CUT {
        &given[..CUT]
    } else {
        given
    }
}
