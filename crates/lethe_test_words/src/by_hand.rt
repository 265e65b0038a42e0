//! A reader of words by hand, from what FORMATS.md says of them, and without any code of `lethe_words`.

use crate::common::Asked;
use lethe_base::{Fields, Pick};
use lethe_words::{Certs, Command};
use std::alloc::Global;
use std::process::Abort;

/// The names of the options.
const NAMES: [&str; 11] = [
    "threshold",
    "ratio",
    "levels",
    "page",
    "tile",
    "file",
    "buffer",
    "pick",
    "workers",
    "turns",
    "certs",
];

fn is_option(name: &str) -> bool {
    NAMES.iter().any(|known| *known == name)
}

/// The option's name without its hyphens and what follows `=`, if the word has that.
fn cut(word: &str) -> Option<(&str, Option<&str>)> {
    let text = word.strip_prefix("--")?;
    match text.split_once('=') {
        Some((name, value)) => Some((name, Some(value))),
        None => Some((text, None)),
    }
}

/// A name and its value.
type Pair<'a> = (&'a str, &'a str);

/// The names in the options' words, each with its value.
fn pairs_of<'a>(alloc: Global, rt: &impl Abort, words: &[&'a str]) -> Option<Vec<Pair<'a>>> {
    let mut pairs = Vec::new(alloc);
    let mut waiting: Option<&'a str> = None;
    for word in words {
        let (name, value) = match waiting {
            Some(_) if word.starts_with('-') => return None,
            Some(name) => (name, Some(*word)),
            None => cut(word)?,
        };
        match value {
            Some(value) => {
                pairs.push((name, value)).expect(rt, "memory");
                waiting = None;
            }
            None => waiting = Some(name),
        }
    }
    if waiting.is_some() { None } else { Some(pairs) }
}

fn value_of<'a>(pairs: &[Pair<'a>], name: &str) -> Option<&'a str> {
    for (known, value) in pairs {
        if *known == name {
            return Some(*value);
        }
    }
    None
}

/// Each name is an option's, and none comes twice.
fn are_options(pairs: &[Pair<'_>]) -> bool {
    for place in 0..pairs.len() {
        let name = pairs[place].0;
        if !is_option(name) || value_of(&pairs[..place], name).is_some() {
            return false;
        }
    }
    true
}

/// A number in digits, without a zero in front of others.
fn number(text: &str) -> Option<u64> {
    if text.bytes().all(|byte| byte.is_ascii_digit()) && (text == "0" || !text.starts_with('0')) {
        text.parse::<u64>().ok()
    } else {
        None
    }
}

/// The number that is given, or the default, if it lies between these two.
fn number_in(value: Option<&str>, default: u64, least: u64, greatest: u64) -> Option<u64> {
    let number = match value {
        Some(text) => number(text)?,
        None => default,
    };
    (least <= number && number <= greatest).then_some(number)
}

fn pick(value: Option<&str>) -> Option<Pick> {
    match value.unwrap_or("so") {
        "so" => Some(Pick::So),
        "sd" => Some(Pick::Sd),
        _ => None,
    }
}

fn certs(value: Option<&str>) -> Option<Certs> {
    match value.unwrap_or("text") {
        "text" => Some(Certs::Text),
        "json" => Some(Certs::Json),
        _ => None,
    }
}

/// The fields, each within its limits: a file has at most 65,536 entries, and a buffer no more records than a file entries.
fn fields(pairs: &[Pair<'_>]) -> Option<Fields> {
    let fields = Fields {
        threshold: number_in(value_of(pairs, "threshold"), 1000, 1, 1_099_511_627_776)?,
        ratio: number_in(value_of(pairs, "ratio"), 4, 2, 16)?,
        levels: number_in(value_of(pairs, "levels"), 3, 1, 6)?,
        page: number_in(value_of(pairs, "page"), 64, 1, 1024)?,
        tile: number_in(value_of(pairs, "tile"), 4, 1, 64)?,
        file: number_in(value_of(pairs, "file"), 8, 1, 256)?,
        buffer: number_in(value_of(pairs, "buffer"), 512, 1, 16_384)?,
        pick: pick(value_of(pairs, "pick"))?,
    };
    let entries = fields
        .page
        .saturating_mul(fields.tile)
        .saturating_mul(fields.file);
    (entries <= 65_536 && fields.buffer <= entries).then_some(fields)
}

fn asked(command: Command, pairs: &[Pair<'_>]) -> Option<Asked> {
    if !are_options(pairs) {
        return None;
    }
    Some(Asked {
        command,
        fields: fields(pairs)?,
        workers: number_in(value_of(pairs, "workers"), 0, 0, 4)?,
        turns: number_in(value_of(pairs, "turns"), 10_000, 1, 1_000_000)?,
        certs: certs(value_of(pairs, "certs"))?,
    })
}

/// What is carried out, and how many words say so.
fn command(words: &[&str]) -> Option<(Command, usize)> {
    match words {
        ["run", ..] => Some((Command::Run, 1)),
        ["load", seed, rounds, ..] => {
            let seed = number(seed)?;
            let rounds = number_in(Some(*rounds), 0, 0, 100_000)?;
            Some((Command::Load { seed, rounds }, 3))
        }
        _ => None,
    }
}

/// What these words ask for.
pub fn read_by_hand(alloc: Global, rt: &impl Abort, words: &[&str]) -> Option<Asked> {
    let (command, count) = command(words)?;
    let options = words.get(count..)?;
    let pairs = pairs_of(alloc, rt, options)?;
    asked(command, &pairs)
}
