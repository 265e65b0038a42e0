//! Printing.
ghost use Rattle.std.specs.Prelude.{◌≡◌, ◌++◌, OnOk, IfOk, IsTrue, is_ok, if◌then◌else◌};
ghost use Rattle.lethe_base.specs.Keys.{Bytes};
ghost use Rattle.std.specs.List.{flat_map, list_all};
ghost use Rattle.std.specs.String.{string_bytes};
ghost use Rattle.lethe_script.specs.Spelling.{field_text, is_plain, is_visible};
ghost use Rattle.lethe_run.specs.Printed.{line_text, lines_text, reply_text, found_text, pair_text, pairs_text, stat_text, bad_line, open_line, open_fault_line, kind_text, pick_text, config_text};

use crate::reply::{Line, Reply};
use lethe_base::{Fields, Key, Kind, NoMemory, Pick, Value};
use lethe_engine::{Stat, Ticked};
use lethe_recover::OpenWhy;
use lethe_script::BadLine;
use std::alloc::Global;

/// Makes the text that of the lines, up to one for which there is no memory. `false` where there is one.
pub(crate) fn spell(text: &mut Vec<u8>, alloc: Global, lines: &[Line]) -> bool
    ensures front { (rest : Bytes) × (lines_text lines.now ≡ text.new.items ++ rest) }
    ensures whole { IsTrue result → text.new.items ≡ lines_text lines.now }
{
    text.clear();
    for line in lines {
        if add_line(text, alloc, line).is_err() {
            return false;
        }
    }
    true
}

/// Adds a line, or leaves the text as it was.
fn add_line(text: &mut Vec<u8>, alloc: Global, line: &Line) -> Result<(), NoMemory>
    ensures { text.new.items ≡ (if is_ok result then text.old.items ++ line_text line.now else text.old.items) }
{
    let mut spelled = Vec::new(alloc);
    push_line(&mut spelled, alloc, line)?;
    text.extend_from_slice(&spelled)?;
    Ok(())
}

/// Adds a line.
fn push_line(text: &mut Vec<u8>, alloc: Global, line: &Line) -> Result<(), NoMemory>
    ensures { OnOk result (text.new.items ≡ text.old.items ++ line_text line.now) }
{
    let Line::Answer { caller, reply } = line;
    text.extend_from_slice(format!(in alloc; "{caller} ")?.as_bytes())?;
    push_reply(text, alloc, reply)?;
    text.push(b'\n')?;
    Ok(())
}

fn push_reply(text: &mut Vec<u8>, alloc: Global, reply: &Reply) -> Result<(), NoMemory>
    ensures { OnOk result (text.new.items ≡ text.old.items ++ reply_text reply.now) }
{
    match reply {
        Reply::Done { place } => push_words(text, format!(in alloc; "ok {place}")?),
        Reply::Ticked(ticked) => push_ticked(text, alloc, ticked),
        Reply::Got { point, held } => push_got(text, alloc, *point, held),
        Reply::Scanned { point, pairs } => push_scanned(text, alloc, *point, pairs.items()),
        Reply::Counted { point, stat } => push_counted(text, alloc, *point, stat),
        Reply::Pinned {
            point,
            number,
            limit,
        } => push_pinned(text, alloc, *point, *number, *limit),
        Reply::PinGot {
            number,
            point,
            held,
        } => push_pin_got(text, alloc, *number, *point, held),
        Reply::PinScanned {
            number,
            point,
            pairs,
        } => push_pin_scanned(text, alloc, *number, *point, pairs.items()),
        Reply::Unpinned { point, number } => push_unpinned(text, alloc, *point, *number),
        Reply::Fault {
            place,
            before,
            after,
        } => push_words(
            text,
            format!(in alloc; "fault {place} before {before} after {after}")?,
        ),
        Reply::Stopped { at } => push_words(text, format!(in alloc; "stopped {at}")?),
        Reply::Exhausted { last } => push_words(text, format!(in alloc; "exhausted {last}")?),
        Reply::Backwards { clock, .. } => push_words(text, format!(in alloc; "backwards {clock}")?),
        Reply::Barred { number, limit } => push_barred(text, alloc, *number, *limit),
        Reply::ReadFault => push_words(text, format!(in alloc; "readfault")?),
        Reply::Damaged { no } => push_words(text, format!(in alloc; "damaged page {no}")?),
    }
}

/// Adds words that were formatted.
fn push_words(text: &mut Vec<u8>, words: String) -> Result<(), NoMemory>
    ensures { OnOk result (text.new.items ≡ text.old.items ++ string_bytes words) }
{
    text.extend_from_slice(words.as_bytes())?;
    Ok(())
}

fn push_ticked(text: &mut Vec<u8>, alloc: Global, ticked: &Ticked) -> Result<(), NoMemory>
    ensures { OnOk result (text.new.items ≡ text.old.items ++ reply_text (Reply.Ticked ticked.now)) }
{
    let place = ticked.place;
    let clock = ticked.clock;
    text.extend_from_slice(format!(in alloc; "ok {place} clock {clock}")?.as_bytes())?;
    if let Some(certificate) = &ticked.certificate {
        text.push(b' ')?;
        text.extend_from_slice(certificate.text(alloc)?.as_bytes())?;
    }
    Ok(())
}

fn push_pinned(
    text: &mut Vec<u8>,
    alloc: Global,
    point: u64,
    number: u64,
    limit: u64,
) -> Result<(), NoMemory>
    ensures { OnOk result (text.new.items ≡ text.old.items ++ reply_text (Reply.Pinned point number limit)) }
{
    push_words(
        text,
        format!(in alloc; "at {point} pin {number} limit {limit}")?,
    )
}

fn push_unpinned(text: &mut Vec<u8>, alloc: Global, point: u64, number: u64) -> Result<(), NoMemory>
    ensures { OnOk result (text.new.items ≡ text.old.items ++ reply_text (Reply.Unpinned point number)) }
{
    push_words(text, format!(in alloc; "at {point} unpin {number}")?)
}

fn push_barred(text: &mut Vec<u8>, alloc: Global, number: u64, limit: u64) -> Result<(), NoMemory>
    ensures { OnOk result (text.new.items ≡ text.old.items ++ reply_text (Reply.Barred number limit)) }
{
    push_words(text, format!(in alloc; "pinned {number} limit {limit}")?)
}

fn push_got(
    text: &mut Vec<u8>,
    alloc: Global,
    point: u64,
    held: &Option<(u64, Value)>,
) -> Result<(), NoMemory>
    ensures { OnOk result (text.new.items ≡ text.old.items ++ reply_text (Reply.Got point held.now)) }
{
    push_words(text, format!(in alloc; "at {point}")?)?;
    push_found(text, alloc, held)
}

fn push_pin_got(
    text: &mut Vec<u8>,
    alloc: Global,
    number: u64,
    point: u64,
    held: &Option<(u64, Value)>,
) -> Result<(), NoMemory>
    ensures { OnOk result (text.new.items ≡ text.old.items ++ reply_text (Reply.PinGot number point held.now)) }
{
    push_words(text, format!(in alloc; "pin {number} at {point}")?)?;
    push_found(text, alloc, held)
}

/// Adds what a key has.
fn push_found(
    text: &mut Vec<u8>,
    alloc: Global,
    held: &Option<(u64, Value)>,
) -> Result<(), NoMemory>
    ensures { OnOk result (text.new.items ≡ text.old.items ++ found_text held.now) }
{
    match held {
        Some((dkey, value)) => {
            push_words(text, format!(in alloc; " val {dkey} ")?)?;
            push_field(text, alloc, value.bytes())
        }
        None => push_words(text, format!(in alloc; " none")?),
    }
}

fn push_scanned(
    text: &mut Vec<u8>,
    alloc: Global,
    point: u64,
    pairs: &[(Key, u64, Value)],
) -> Result<(), NoMemory>
    ensures { OnOk result (text.new.items ≡ text.old.items ++ reply_text (Reply.Scanned point pairs.now)) }
{
    push_words(text, format!(in alloc; "at {point}")?)?;
    push_listed(text, alloc, pairs)
}

fn push_pin_scanned(
    text: &mut Vec<u8>,
    alloc: Global,
    number: u64,
    point: u64,
    pairs: &[(Key, u64, Value)],
) -> Result<(), NoMemory>
    ensures { OnOk result (text.new.items ≡ text.old.items ++ reply_text (Reply.PinScanned number point pairs.now)) }
{
    push_words(text, format!(in alloc; "pin {number} at {point}")?)?;
    push_listed(text, alloc, pairs)
}

/// Adds what the keys of a range have.
fn push_listed(
    text: &mut Vec<u8>,
    alloc: Global,
    pairs: &[(Key, u64, Value)],
) -> Result<(), NoMemory>
    ensures { OnOk result (text.new.items ≡ text.old.items ++ pairs_text pairs.now) }
{
    let count = pairs.len();
    push_words(text, format!(in alloc; " scan {count}")?)?;
    push_pairs(text, alloc, pairs)
}

fn push_pairs(
    text: &mut Vec<u8>,
    alloc: Global,
    pairs: &[(Key, u64, Value)],
) -> Result<(), NoMemory>
    ensures { OnOk result (text.new.items ≡ text.old.items ++ flat_map pair_text pairs.now) }
{
    for (key, dkey, value) in pairs {
        push_pair(text, alloc, key, *dkey, value)?;
    }
    Ok(())
}

fn push_pair(
    text: &mut Vec<u8>,
    alloc: Global,
    key: &Key,
    dkey: u64,
    value: &Value,
) -> Result<(), NoMemory>
    ensures { OnOk result (text.new.items ≡ text.old.items ++ pair_text (key.now, dkey, value.now)) }
{
    text.push(b' ')?;
    push_field(text, alloc, key.bytes())?;
    text.extend_from_slice(format!(in alloc; " {dkey} ")?.as_bytes())?;
    push_field(text, alloc, value.bytes())
}

fn push_counted(text: &mut Vec<u8>, alloc: Global, point: u64, stat: &Stat) -> Result<(), NoMemory>
    ensures { OnOk result (text.new.items ≡ text.old.items ++ reply_text (Reply.Counted point stat.now)) }
{
    push_words(text, format!(in alloc; "at {point} stat ")?)?;
    push_stat(text, alloc, stat)
}

fn push_stat(text: &mut Vec<u8>, alloc: Global, stat: &Stat) -> Result<(), NoMemory>
    ensures { OnOk result (text.new.items ≡ text.old.items ++ stat_text stat.now) }
{
    let Stat {
        clock,
        pins,
        pending,
        files,
        tombs,
    } = stat;
    text.extend_from_slice(format!(in alloc;
        "clock {clock} pins {pins} pending {pending}"
    )?.as_bytes())?;
    text.extend_from_slice(format!(in alloc; " files {files} tombs {tombs}")?.as_bytes())?;
    Ok(())
}

/// Adds a key or a value.
fn push_field(text: &mut Vec<u8>, alloc: Global, bytes: &[u8]) -> Result<(), NoMemory>
    ensures { OnOk result (text.new.items ≡ text.old.items ++ field_text bytes.now) }
{
    if is_plain(bytes) {
        text.extend_from_slice(bytes)?;
    } else {
        text.push(b'=')?;
        text.extend_from_slice(hex::encode(alloc, bytes)?.as_bytes())?;
    }
    Ok(())
}

/// The bytes stand for themselves in a text.
fn is_plain(bytes: &[u8]) -> bool
    ensures { result ≡ is_plain bytes.now }
{
    !bytes.is_empty() && bytes[0] != b'=' && are_visible(bytes)
}

/// Every byte prints, and is no space.
fn are_visible(bytes: &[u8]) -> bool
    ensures { result ≡ list_all is_visible bytes.now }
{
    bytes.iter().all(|byte| *byte >= b'!' && *byte <= b'~')
}

/// The line of a script that is none.
pub(crate) fn refusal(alloc: Global, bad: BadLine) -> Result<String, NoMemory>
    ensures { IfOk result (λ text. string_bytes text ≡ bad_line bad) }
{
    let line = bad.line;
    let why = bad.why.word();
    Ok(format!(in alloc; "line {line} bad {why}\n")?)
}

/// The line of a store that wasn't opened with the configuration that was asked for.
pub(crate) fn open_refusal(alloc: Global, asked: &Fields, why: &OpenWhy) -> Result<String, NoMemory>
    ensures { IfOk result (λ text. string_bytes text ≡ open_line asked.now why.now) }
{
    match why {
        OpenWhy::Damaged { name } => {
            let kind = kind_word(name.kind);
            let no = name.no;
            Ok(format!(in alloc; "damaged {kind} {no}\n")?)
        }
        OpenWhy::OtherConfig { kept } => {
            let kept = config_text(alloc, kept.fields())?;
            let asked = config_text(alloc, asked)?;
            Ok(format!(in alloc; "other config kept {kept} asked {asked}\n")?)
        }
        OpenWhy::Fault { before, after } => open_fault(alloc, *before, *after),
        OpenWhy::Exhausted { last } => Ok(format!(in alloc; "open exhausted {last}\n")?),
        OpenWhy::NoMemory => Ok(String::new(alloc)),
    }
}

fn open_fault(alloc: Global, before: u64, after: u64) -> Result<String, NoMemory>
    ensures { IfOk result (λ text. string_bytes text ≡ open_fault_line before after) }
{
    Ok(format!(in alloc; "open fault before {before} after {after}\n")?)
}

fn kind_word(kind: Kind) -> &'static str
    ensures { result.now ≡ kind_text kind }
{
    match kind {
        Kind::Gate => "gate",
        Kind::Manifest => "manifest",
        Kind::Segment => "segment",
        Kind::File => "file",
        Kind::Page => "page",
    }
}

fn pick_word(pick: Pick) -> &'static str
    ensures { result.now ≡ pick_text pick }
{
    match pick {
        Pick::So => "so",
        Pick::Sd => "sd",
    }
}

fn config_text(alloc: Global, config: &Fields) -> Result<String, NoMemory>
    ensures { IfOk result (λ text. string_bytes text ≡ config_text config.now) }
{
    let Fields {
        threshold,
        ratio,
        levels,
        page,
        tile,
        file,
        buffer,
        pick,
    } = config;
    let pick = pick_word(*pick);
    let levels = format!(in alloc; "threshold={threshold} ratio={ratio} levels={levels}")?;
    let files = format!(in alloc; " page={page} tile={tile} file={file}")?;
    let rest = format!(in alloc; " buffer={buffer} pick={pick}")?;
    Ok(format!(in alloc; "{levels}{files}{rest}")?)
}
