//! The test in front of `clap`, which takes words that no command has: `--`, and options in front of a seed.
ghost use Rattle.std.specs.Prelude.{◌≡◌, map};
ghost use Rattle.std.specs.List.{list_all};
ghost use Rattle.std.specs.String.{string_bytes};
ghost use Rattle.lethe_words.specs.Front.{is_clear, may_be_read};
ghost use Rattle.lethe_words.specs.Options.{is_plain};

/// The word doesn't begin with a hyphen.
fn is_plain(word: &str) -> bool
    ensures { result ≡ is_plain word.now }
{
    !matches!(word.as_bytes(), [b'-', ..])
}

/// The word begins with no hyphen, or with two and more behind them.
fn is_clear(word: &str) -> bool
    ensures { result ≡ is_clear word.now }
{
    match word.as_bytes() {
        [b'-', b'-', _, ..] => true,
        [b'-', ..] => false,
        _ => true,
    }
}

fn are_clear(words: &[String]) -> bool
    ensures { result ≡ list_all is_clear (map string_bytes words.now) }
{
    each_is_clear(words)
}

fn each_is_clear(words: &[String]) -> bool
    ensures { result ≡ list_all (λ word. is_clear (string_bytes word)) words.now }
{
    words.iter().all(|word| is_clear(word))
}

/// The words are `run` and clear words, or `load`, two plain words and clear ones. No other words are a command.
pub(crate) fn may_be_read(words: &[String]) -> bool
    ensures { result ≡ may_be_read (map string_bytes words.now) }
{
    match words {
        [command, options @ ..] if command.as_str() == "run" => are_clear(options),
        [command, seed, rounds, options @ ..] if command.as_str() == "load" => {
            is_plain(seed) && is_plain(rounds) && are_clear(options)
        }
        _ => false,
    }
}
