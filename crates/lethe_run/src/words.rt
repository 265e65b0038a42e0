//! What the words of a command ask for.
ghost use Rattle.std.specs.Prelude.{◌≡◌, ◌↔◌, IsSome, IsTrue, map, option_map};
ghost use Rattle.std.specs.List.{list_any};
ghost use Rattle.std.specs.Str.{bytes_eq};
ghost use Rattle.std.specs.String.{string_bytes};
ghost use Rattle.lethe_run.specs.Asked.{config_of, are_options, fields_of, two_by_two, given_to, number_or, pick_or, option_words, configured};

use lethe_base::{Config, Fields, Pick};
use lethe_script::read_number;

/// The configuration that the words ask for: `run`, and options with their values. None where they are no command.
#[tactic(auto, unfolding(crate::specs::Asked::config_of))]
pub(crate) fn config_of(words: &[String]) -> Option<Config>
    ensures { result ≡ config_of (map string_bytes words.now) }
{
    match words {
        [command, options @ ..]
            if command.as_str() == "run" && options.len() % 2 == 0 && are_options(options) => {
            configured(fields_of(options)?)
        }
        _ => None,
    }
}

/// Whether the words are a command: `run`, and options with their values, each given once and within its limits.
pub fn are_words(words: &[String]) -> bool
    ensures { IsTrue result ↔ IsSome (config_of (map string_bytes words.now)) }
{
    config_of(words).is_some()
}

/// The configuration of these fields, if each keeps its limits.
#[tactic(auto, unfolding(crate::specs::Asked::configured))]
fn configured(fields: Fields) -> Option<Config>
    ensures { result ≡ configured fields }
{
    Config::new(fields).ok()
}

/// Each two of the words are an option and its value, and none is given twice.
fn are_options(words: &[String]) -> bool
    ensures { result ≡ are_options (two_by_two (map string_bytes words.now)) }
{
    let mut rest = words;
    while let [option, _, more @ ..] = rest {
        if !is_option(option) || given_to(option, more).is_some() {
            return false;
        }
        rest = more;
    }
    true
}

fn is_option(word: &str) -> bool
    ensures { result ≡ list_any (bytes_eq word.now) option_words }
{
    matches!(
        word,
        "--threshold"
            | "--ratio"
            | "--levels"
            | "--page"
            | "--tile"
            | "--file"
            | "--buffer"
            | "--pick"
    )
}

/// The value of an option, if it is given.
fn given_to<'a>(option: &str, words: &'a [String]) -> Option<&'a str>
    ensures { option_map (λ value. value.now) result ≡ given_to option.now (two_by_two (map string_bytes words.now)) }
{
    let mut rest = words;
    while let [first, value, more @ ..] = rest {
        if first.as_str() == option {
            return Some(value);
        }
        rest = more;
    }
    None
}

/// The fields that are given, and the defaults of the others. None where a value isn't of its kind.
#[tactic(auto, unfolding(crate::specs::Asked::fields_of))]
fn fields_of(options: &[String]) -> Option<Fields>
    ensures { result ≡ fields_of (two_by_two (map string_bytes options.now)) }
{
    let default = Fields::default();
    Some(Fields {
        threshold: number_or(default.threshold, given_to("--threshold", options))?,
        ratio: number_or(default.ratio, given_to("--ratio", options))?,
        levels: number_or(default.levels, given_to("--levels", options))?,
        page: number_or(default.page, given_to("--page", options))?,
        tile: number_or(default.tile, given_to("--tile", options))?,
        file: number_or(default.file, given_to("--file", options))?,
        buffer: number_or(default.buffer, given_to("--buffer", options))?,
        pick: pick_or(default.pick, given_to("--pick", options))?,
    })
}

/// The number that is given, or the default.
fn number_or(default: u64, value: Option<&str>) -> Option<u64>
    ensures { result ≡ number_or default (option_map (λ value. value.now) value.entry) }
{
    match value {
        Some(value) => read_number(value.as_bytes()).ok(),
        None => Some(default),
    }
}

/// The pick that is given, or the default.
fn pick_or(default: Pick, value: Option<&str>) -> Option<Pick>
    ensures { result ≡ pick_or default (option_map (λ value. value.now) value.entry) }
{
    match value {
        Some("so") => Some(Pick::So),
        Some("sd") => Some(Pick::Sd),
        Some(_) => None,
        None => Some(default),
    }
}
