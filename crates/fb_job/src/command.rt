//! The commands as `clap` takes them, with their options.
ghost use Rattle.std.specs.Prelude.{◌≡◌, map, string_bytes, true, false, IfOk};
ghost use Rattle.clap.specs.Words.{App, app_of, found_of, is_simple_and_free, new_app, rows_of, rule_of, with_rule, first_of, kind_of};
ghost use Rattle.fb_job.specs.Commands.{flag_rule, option_rule, word_rule, rows_given, test_app, check_app, replay_app, fmt_app, trial_app};
ghost use Rattle.fb_job.specs.Answers.{AnswersJob, cause_of};
ghost use Rattle.fb_job.specs.Options.{is_set};

use crate::job::JobError;
use crate::word::Word;
use clap::error::ErrorKind;
use clap::{Arg, ArgAction, ArgMatches, Command, Error};
use std::alloc::{AllocError, Global};

/// An option with a value.
fn option<'a>(alloc: Global, name: &'a str, required: bool) -> Arg<'a>
    ensures rule { rule_of result ≡ option_rule name.entry.now required }
    ensures local { result.global ≡ false }
{
    Arg::new(alloc, name)
        .long(name)
        .action(ArgAction::Set)
        .required(required)
}

/// A command with one option more.
fn with_option<'a>(
    alloc: Global,
    command: Command<'a>,
    name: &'a str,
    required: bool,
) -> Result<Command<'a>, AllocError>
    ensures { IfOk result (λ c. app_of c ≡ with_rule (app_of command.entry) (option_rule name.entry.now required)) }
{
    command.arg(option(alloc, name, required))
}

/// An option without a value.
fn flag<'a>(alloc: Global, name: &'a str) -> Arg<'a>
    ensures rule { rule_of result ≡ flag_rule name.entry.now }
    ensures local { result.global ≡ false }
{
    Arg::new(alloc, name).long(name).action(ArgAction::SetTrue)
}

/// A command with one option more, which has no value.
fn with_flag<'a>(
    alloc: Global,
    command: Command<'a>,
    name: &'a str,
) -> Result<Command<'a>, AllocError>
    ensures { IfOk result (λ c. app_of c ≡ with_rule (app_of command.entry) (flag_rule name.entry.now)) }
{
    command.arg(flag(alloc, name))
}

/// A word that has its meaning by its place.
fn placed<'a>(alloc: Global, name: &'a str) -> Arg<'a>
    ensures rule { rule_of result ≡ word_rule name.entry.now }
    ensures local { result.global ≡ false }
{
    Arg::new(alloc, name).action(ArgAction::Set).required(true)
}

/// A command with one word more, behind those that it has.
fn with_word<'a>(
    alloc: Global,
    command: Command<'a>,
    name: &'a str,
) -> Result<Command<'a>, AllocError>
    ensures { IfOk result (λ c. app_of c ≡ with_rule (app_of command.entry) (word_rule name.entry.now)) }
{
    command.arg(placed(alloc, name))
}

/// The options of `test`.
pub(crate) fn test_command<'a>(alloc: Global) -> Result<Command<'a>, AllocError>
    ensures { IfOk result (λ c. app_of c ≡ test_app) }
{
    let command = Command::new(alloc, "test");
    let command = with_option(alloc, command, "services", true)?;
    let command = with_option(alloc, command, "test", true)?;
    let command = with_option(alloc, command, "report", true)?;
    let command = with_option(alloc, command, "faults", false)?;
    let command = with_option(alloc, command, "fuel", false)?;
    let command = with_option(alloc, command, "budget", false)?;
    let command = with_flag(alloc, command, "no-reduction")?;
    Ok(command)
}

/// The options of `check`.
pub(crate) fn check_command<'a>(alloc: Global) -> Result<Command<'a>, AllocError>
    ensures { IfOk result (λ c. app_of c ≡ check_app) }
{
    let command = Command::new(alloc, "check");
    let command = with_option(alloc, command, "services", true)?;
    let command = with_option(alloc, command, "test", true)?;
    let command = with_option(alloc, command, "report", true)?;
    let command = with_option(alloc, command, "faults", false)?;
    Ok(command)
}

/// The options of `replay`.
pub(crate) fn replay_command<'a>(alloc: Global) -> Result<Command<'a>, AllocError>
    ensures { IfOk result (λ c. app_of c ≡ replay_app) }
{
    let command = Command::new(alloc, "replay");
    let command = with_option(alloc, command, "services", true)?;
    let command = with_option(alloc, command, "test", true)?;
    let command = with_option(alloc, command, "plan", true)?;
    let command = with_option(alloc, command, "fuel", false)?;
    Ok(command)
}

/// The option of `fmt`.
pub(crate) fn fmt_command<'a>(alloc: Global) -> Result<Command<'a>, AllocError>
    ensures { IfOk result (λ c. app_of c ≡ fmt_app) }
{
    let command = Command::new(alloc, "fmt");
    let command = with_option(alloc, command, "services", true)?;
    Ok(command)
}

/// The words of `trial`.
pub(crate) fn trial_command<'a>(alloc: Global) -> Result<Command<'a>, AllocError>
    ensures { IfOk result (λ c. app_of c ≡ trial_app) }
{
    let command = Command::new(alloc, "trial");
    let command = with_word(alloc, command, "NUMBER")?;
    let command = with_word(alloc, command, "SIZE")?;
    Ok(command)
}

/// Why `clap` gave no matches: without memory, or for the words.
fn cause_of(error: &Error) -> JobError
    ensures { result ≡ cause_of (kind_of error.now) }
{
    if error.kind() == ErrorKind::OutOfMemory {
        JobError::Memory
    } else {
        JobError::Usage
    }
}

/// What the words say, where the command takes them. Its first word is taken for the program's name.
pub(crate) fn matches_of<'a>(
    command: Command<'a>,
    words: &'a [String],
) -> Result<ArgMatches<'a>, JobError>
    requires { is_simple_and_free (app_of command) ≡ true }
    ensures { AnswersJob (λ m. rows_of (found_of m)) (rows_given (app_of command.entry) (map string_bytes words.entry.now)) result }
{
    match command.try_get_matches_from(words) {
        Ok(matches) => Ok(matches),
        Err(error) => Err(cause_of(&error)),
    }
}

/// The word that an option has, which is there where the option is required.
pub(crate) fn word_of(alloc: Global, matches: &ArgMatches<'_>, name: &str) -> Result<Word, JobError>
    ensures { AnswersJob (λ w. w) (first_of name.now (rows_of (found_of matches.now))) result }
{
    match matches.get_str(name) {
        Some(text) => Ok(Word::of(alloc, text)?),
        None => Err(JobError::Usage),
    }
}

/// The word that an option has, where it is given.
pub(crate) fn optional_word(
    alloc: Global,
    matches: &ArgMatches<'_>,
    name: &str,
) -> Result<Option<Word>, AllocError>
    ensures { IfOk result (λ word. word ≡ first_of name.now (rows_of (found_of matches.now))) }
{
    match matches.get_str(name) {
        Some(text) => {
            let word = Word::of(alloc, text)?;
            Ok(Some(word))
        }
        None => Ok(None),
    }
}

/// Whether an option without a value is given.
pub(crate) fn is_set(matches: &ArgMatches<'_>, name: &str) -> bool
    ensures { result ≡ is_set (first_of name.now (rows_of (found_of matches.now))) }
{
    match matches.get_str(name) {
        Some(text) => text == "true",
        None => false,
    }
}
