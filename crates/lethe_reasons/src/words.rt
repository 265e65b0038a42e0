//! The reasons of words that are no command.
ghost use Rattle.std.specs.Prelude.{IfOk};
ghost use Rattle.lethe_reasons.specs.Messages.{Shows};

use crate::message::Message;
use lethe_base::{Config, Field, Fields, NoMemory};
use lethe_script::read_number;
use std::alloc::Global;

/// What is wrong with the words.
#[derive(Clone, Copy, Debug, PartialEq, Eq, Drop)]
enum Fault<'a> {
    NoFolder,
    NoCommand,
    NoOption(&'a str),
    NoValue(&'a str),
    Twice(&'a str),
    /// The value of an option that takes a number.
    Number(Field, &'a str),
    Pick(&'a str),
    /// The entries of a file are too many.
    Entries(Fields),
    /// The buffer's entries are more than a file's.
    Buffer(Fields),
}

/// The options that take a number, in the order in which they are tested.
const NUMBERS: [Field; 7] = [
    Field::Threshold,
    Field::Ratio,
    Field::Levels,
    Field::Page,
    Field::Tile,
    Field::File,
    Field::Buffer,
];

/// The words of the program aren't a folder, `run` and options: which word is wrong, and its limit.
pub fn bad_words(alloc: Global, words: &[String]) -> Result<Message, NoMemory> {
    match words {
        [] => told(alloc, Fault::NoFolder, &[]),
        [_, command, options @ ..] if command.as_str() == "run" => {
            told(alloc, fault_of(options), options)
        }
        _ => told(alloc, Fault::NoCommand, &[]),
    }
}

/// A word is no text.
pub fn no_text(alloc: Global) -> Result<Message, NoMemory> {
    Message::of(alloc, "a word of the command is no text")
}

/// What is wrong with the options, first their words and then their values.
fn fault_of(options: &[String]) -> Fault<'_> {
    match word_fault(options) {
        Some(fault) => fault,
        None => value_fault(options),
    }
}

fn word_fault(options: &[String]) -> Option<Fault<'_>> {
    for (at, option) in options.iter().enumerate().step_by(2) {
        if !is_option(option) {
            return Some(Fault::NoOption(option));
        }
        if at + 1 == options.len() {
            return Some(Fault::NoValue(option));
        }
        if given_to(option, &options[at + 2..]).is_some() {
            return Some(Fault::Twice(option));
        }
    }
    None
}

fn is_option(word: &str) -> bool {
    word == "--pick" || NUMBERS.iter().any(|field| option_of(*field) == word)
}

/// The value of an option, if it is given.
fn given_to<'a>(option: &str, options: &'a [String]) -> Option<&'a str> {
    let values = options.iter().skip(1);
    for (first, value) in options.iter().zip(values).step_by(2) {
        if first.as_str() == option {
            return Some(value);
        }
    }
    None
}

fn option_of(field: Field) -> &'static str {
    match field {
        Field::Threshold => "--threshold",
        Field::Ratio => "--ratio",
        Field::Levels => "--levels",
        Field::Page => "--page",
        Field::Tile => "--tile",
        Field::File => "--file",
        Field::Buffer => "--buffer",
    }
}

fn value_fault(options: &[String]) -> Fault<'_> {
    for field in NUMBERS {
        if let Some(value) = given_to(option_of(field), options)
            && !is_in_limits(field, value)
        {
            return Fault::Number(field, value);
        }
    }
    if let Some(value) = given_to("--pick", options)
        && value != "so"
        && value != "sd"
    {
        return Fault::Pick(value);
    }
    let fields = fields_of(options);
    match Config::new(fields) {
        Err(refused) if refused.field == Field::Buffer => Fault::Buffer(fields),
        Err(_) => Fault::Entries(fields),
        // These words are a command.
        Ok(_) => Fault::NoCommand,
    }
}

fn is_in_limits(field: Field, value: &str) -> bool {
    match read_number(value.as_bytes()) {
        Ok(number) => field.least() <= number && number <= field.greatest(),
        Err(_) => false,
    }
}

/// The numbers that are given, and the defaults of the others.
fn fields_of(options: &[String]) -> Fields {
    let default = Fields::default();
    Fields {
        threshold: number_or(default.threshold, given_to("--threshold", options)),
        ratio: number_or(default.ratio, given_to("--ratio", options)),
        levels: number_or(default.levels, given_to("--levels", options)),
        page: number_or(default.page, given_to("--page", options)),
        tile: number_or(default.tile, given_to("--tile", options)),
        file: number_or(default.file, given_to("--file", options)),
        buffer: number_or(default.buffer, given_to("--buffer", options)),
        pick: default.pick,
    }
}

fn number_or(default: u64, value: Option<&str>) -> u64 {
    value
        .and_then(|value| read_number(value.as_bytes()).ok())
        .unwrap_or(default)
}

/// What is said of a fault.
fn told(alloc: Global, fault: Fault<'_>, options: &[String]) -> Result<Message, NoMemory> {
    match fault {
        Fault::NoFolder => Message::of(alloc, "there is no folder: ./lethe DIR run < SCRIPT"),
        Fault::NoCommand => Message::of(
            alloc,
            "behind the folder stands the command run: ./lethe DIR run < SCRIPT",
        ),
        Fault::NoOption(word) => word_told(alloc, word, " is no option: ./lethe --help lists them"),
        Fault::NoValue(word) => word_told(alloc, word, " has no value"),
        Fault::Twice(word) => word_told(alloc, word, " is given twice"),
        Fault::Number(field, value) => number_told(alloc, field, value),
        Fault::Pick(value) => Message::of(alloc, "--pick ")?
            .show(value.as_bytes())?
            .and(": --pick is so or sd"),
        Fault::Entries(fields) => entries_told(alloc, &fields, options),
        Fault::Buffer(fields) => buffer_told(alloc, &fields, options),
    }
}

fn word_told(alloc: Global, word: &str, why: &str) -> Result<Message, NoMemory> {
    Message::of_given(alloc, word.as_bytes())?.and(why)
}

fn number_told(alloc: Global, field: Field, value: &str) -> Result<Message, NoMemory>
    ensures { IfOk result (Shows value.now) }
{
    let option = option_of(field);
    let least = field.least();
    let greatest = field.greatest();
    let limits = format!(in alloc; "{least} to {greatest}")?;
    Message::of(alloc, option)?
        .and(" ")?
        .show(value.as_bytes())?
        .and(": ")?
        .and(option)?
        .and(" is a number from ")?
        .and(&limits)
}

fn entries_told(alloc: Global, fields: &Fields, options: &[String]) -> Result<Message, NoMemory> {
    let given = given_text(alloc, &[Field::Page, Field::Tile, Field::File], options)?;
    let product = product_text(alloc, fields)?;
    Message::of(alloc, &given)?
        .and(": a file's ")?
        .and(&product)?
        .and(" entries are more than 65536")
}

fn buffer_told(alloc: Global, fields: &Fields, options: &[String]) -> Result<Message, NoMemory> {
    let fields_named = [Field::Page, Field::Tile, Field::File, Field::Buffer];
    let given = given_text(alloc, &fields_named, options)?;
    let product = product_text(alloc, fields)?;
    let buffer = fields.buffer;
    let buffer = format!(in alloc; "{buffer}")?;
    Message::of(alloc, &given)?
        .and(": the buffer's ")?
        .and(&buffer)?
        .and(" is more than ")?
        .and(&product)
}

fn product_text(alloc: Global, fields: &Fields) -> Result<String, NoMemory> {
    let page = fields.page;
    let tile = fields.tile;
    let file = fields.file;
    Ok(format!(in alloc; "{page} x {tile} x {file}")?)
}

/// Those of some options that are given, with their values and a space between each two words.
fn given_text(alloc: Global, fields: &[Field], options: &[String]) -> Result<String, NoMemory> {
    let mut text = String::new(alloc);
    for field in fields {
        let option = option_of(*field);
        if let Some(value) = given_to(option, options) {
            if !text.is_empty() {
                text.push(' ')?;
            }
            write!(text, "{option} {value}")?;
        }
    }
    Ok(text)
}
