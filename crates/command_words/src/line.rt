//! The one call of the parser of command lines.

ghost use Rattle.std.specs.Prelude.{◌≡◌, ◌≢◌, ◌⊎◌, List, None, Some, IfOk, MatchResult, false, map, true};
ghost use Rattle.std.specs.List.{AllByRecursion};
ghost use Rattle.std.specs.Str.{IsUtf8};
ghost use Rattle.clap.specs.Matches.{found_of};
ghost use Rattle.clap.specs.Simple.{app_of};
ghost use Rattle.clap.specs.Walk.{rule_of};
ghost use Rattle.command_words.specs.Commands.{Shows, app_for, option_rule};
ghost use Rattle.command_words.specs.Lines.{Line, are_names, line_of};

use crate::plan::Usage;
use clap::builder::ValueParser;
use clap::error::ErrorKind;
use clap::{Arg, ArgAction, ArgMatches, Command};
use std::alloc::{AllocError, Global};

/// The name by which the positionals are found.
pub(crate) const POSITIONAL: &str = "PATH";

/// What is read of the words, for options of these names.
pub(crate) fn read<'a>(
    alloc: Global,
    names: &'a [&'a str],
    words: &'a [&'a str],
) -> Result<ArgMatches<'a>, Usage>
    requires names { are_names (map (λ n. n.now) names.now) ≡ true }
    requires texts { AllByRecursion IsUtf8 (map (λ w. w.now) words.now) }
    ensures { let line_is = line_of (map (λ n. n.now) names.now) (map (λ w. w.now) words.now) in
        MatchResult result
        (λ m. (line : Line) × (line_is ≡ Some line) × Shows (found_of m) line)
        (λ why. (why ≡ Usage.OutOfMemory) ⊎ ((why ≡ Usage.NotAForm) × (line_is ≡ None))) }
{
    let command = command_for(alloc, names)?;
    match command.try_get_matches_from(words) {
        Ok(matches) => Ok(matches),
        Err(error) => Err(usage_of(error.kind())),
    }
}

// Why words have no line, by the kind of the parser's error.
fn usage_of(kind: ErrorKind) -> Usage
    ensures { (result ≡ Usage.OutOfMemory)
        ⊎ ((result ≡ Usage.NotAForm) × (kind ≢ ErrorKind.OutOfMemory)) }
{
    match kind {
        ErrorKind::OutOfMemory => Usage::OutOfMemory,
        _ => Usage::NotAForm,
    }
}

// A command with any number of positionals and options of these names.
fn command_for<'a>(alloc: Global, names: &'a [&'a str]) -> Result<Command<'a>, AllocError>
    ensures { IfOk result (λ c. app_of c ≡ app_for (map (λ n. n.now) names.now)) }
{
    let positional = Arg::new(alloc, POSITIONAL)
        .action(ArgAction::Append)
        .value_parser(ValueParser::NonEmptyString);
    let mut command = Command::new(alloc, "")
        .no_binary_name(true)
        .disable_help_flag(true)
        .disable_version_flag(true)
        .arg(positional)?;
    for name in names {
        command = command.arg(option_for(alloc, name))?;
    }
    Ok(command)
}

// An option with one value, which is not empty.
fn option_for<'a>(alloc: Global, name: &'a str) -> Arg<'a>
    ensures rule { rule_of result ≡ option_rule name.entry.now }
    ensures local { result.global ≡ false }
{
    Arg::new(alloc, name)
        .long(name)
        .action(ArgAction::Set)
        .value_parser(ValueParser::NonEmptyString)
}
