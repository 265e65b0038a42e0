//! The command as `clap` has it.
ghost use Rattle.std.specs.Prelude.{◌≡◌, ◌++◌, ◌∷◌, [], false, map, IfOk, codes};
ghost use Rattle.clap.specs.Words.{app_of, new_app, new_rule, rule_of, with_rule};
ghost use Rattle.clap.specs.declared.builder.Command.TheViews.{out-Command as fields_of};
ghost use Rattle.lethe_words.specs.Command.{app, optioned, leaf_app, long_rule};

use clap::{Arg, Command};
use std::alloc::{AllocError, Global};

/// An option with a value.
fn option<'a>(alloc: Global, name: &'a str) -> Arg<'a>
    ensures rule { rule_of result ≡ long_rule name.entry.now }
    ensures local { result.global ≡ false }
{
    Arg::new(alloc, name).long(name)
}

/// The command with all options.
fn with_options<'a>(alloc: Global, command: Command<'a>) -> Result<Command<'a>, AllocError>
    requires { (fields_of command).has_globals ≡ false }
    ensures app { IfOk result (λ r. app_of r ≡ optioned (app_of command.entry)) }
    ensures local { IfOk result (λ r. (fields_of r).has_globals ≡ false) }
{
    let whole = command
        .arg(option(alloc, "threshold"))?
        .arg(option(alloc, "ratio"))?
        .arg(option(alloc, "levels"))?
        .arg(option(alloc, "page"))?
        .arg(option(alloc, "tile"))?
        .arg(option(alloc, "file"))?
        .arg(option(alloc, "buffer"))?
        .arg(option(alloc, "pick"))?
        .arg(option(alloc, "workers"))?
        .arg(option(alloc, "turns"))?
        .arg(option(alloc, "certs"))?;
    Ok(whole)
}

/// The command `run`.
fn run<'a>(alloc: Global) -> Result<Command<'a>, AllocError>
    ensures app { IfOk result (λ r. app_of r ≡ leaf_app (codes "run") []) }
    ensures local { IfOk result (λ r. (fields_of r).has_globals ≡ false) }
{
    with_options(alloc, Command::new(alloc, "run"))
}

/// The command `load`, with a seed and a number of rounds in front of the options.
fn load<'a>(alloc: Global) -> Result<Command<'a>, AllocError>
    ensures app { IfOk result (λ r. app_of r ≡ leaf_app (codes "load") (new_rule (codes "SEED") ∷ new_rule (codes "N") ∷ [])) }
    ensures local { IfOk result (λ r. (fields_of r).has_globals ≡ false) }
{
    let bare = Command::new(alloc, "load")
        .arg(Arg::new(alloc, "SEED"))?
        .arg(Arg::new(alloc, "N"))?;
    with_options(alloc, bare)
}

/// The command with both. It has no help and no version.
pub(crate) fn lethe<'a>(alloc: Global) -> Result<Command<'a>, AllocError>
    ensures { IfOk result (λ r. app_of r ≡ app) }
{
    let bare = Command::new(alloc, "lethe")
        .no_binary_name(true)
        .disable_help_flag(true)
        .disable_help_subcommand(true);
    let whole = bare.subcommand(run(alloc)?)?.subcommand(load(alloc)?)?;
    Ok(whole)
}
