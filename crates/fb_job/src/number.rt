//! The numbers that words give.
ghost use Rattle.std.specs.Prelude.{◌≡◌, ◌≤◌, ◌==◌, slice_index, IfSome};
ghost use Rattle.clap.specs.Words.{found_of, rows_of};
ghost use Rattle.fb_job.specs.Answers.{AnswersJob};
ghost use Rattle.fb_job.specs.Numbers.{budget_given, fuel_given, number_given, number_of, number_read, size_given, within_limits};

use crate::job::JobError;
use clap::ArgMatches;
use std::num::ParseIntError;

/// The units of fuel of each run where the words give none.
pub const DEFAULT_FUEL: u64 = 100_000;

/// The most units of fuel that words may give.
const MOST_FUEL: u64 = 1_000_000;

/// The most plans that are run where the words don't say it.
pub const DEFAULT_BUDGET: u64 = 10_000;

/// The greatest budget that words may give.
const MOST_BUDGET: u64 = 1_000_000;

/// The greatest number of a trial.
const MOST_NUMBER: u64 = 18_446_744_073_709_551_615;

/// The most services of a trial.
const MOST_SIZE: u64 = 12;

/// Whether a `+` stands first.
fn has_plus(text: &str) -> bool
    ensures { result ≡ (slice_index text.now 0 == 43) }
{
    matches!(text.as_bytes(), [b'+', ..])
}

/// The number, where it is within the limits.
fn within_limits(least: u64, most: u64, number: u64) -> Option<u64>
    ensures given { result ≡ within_limits least most number }
    ensures within { IfSome result (λ number. number ≤ most) }
{
    if number < least {
        return None;
    }
    if number > most {
        return None;
    }
    Some(number)
}

/// The number within the limits that was read.
fn number_read(least: u64, most: u64, number: Result<u64, ParseIntError>) -> Option<u64>
    ensures given { result ≡ number_read least most number }
    ensures within { IfSome result (λ number. number ≤ most) }
{
    match number {
        Ok(number) => within_limits(least, most, number),
        Err(_) => None,
    }
}

/// The number that a text says: decimal digits alone, and within the limits.
fn number_of(least: u64, most: u64, text: &str) -> Option<u64>
    ensures given { result ≡ number_of least most text.now }
    ensures within { IfSome result (λ number. number ≤ most) }
{
    // `parse` takes a `+` before the digits.
    if has_plus(text) {
        return None;
    }
    let number = text.parse::<u64>();
    let number = number_read(least, most, number);
    number
}

/// The number that was given, or none that can be taken.
fn given(number: Option<u64>) -> Result<u64, JobError>
    ensures { AnswersJob (λ number. number) number result }
{
    match number {
        Some(number) => Ok(number),
        None => Err(JobError::Usage),
    }
}

/// The units of fuel that the words give.
pub(crate) fn fuel_given(matches: &ArgMatches<'_>) -> Result<u64, JobError>
    ensures { AnswersJob (λ fuel. fuel) (fuel_given (rows_of (found_of matches.now))) result }
{
    match matches.get_str("fuel") {
        Some(text) => given(number_of(1, MOST_FUEL, text)),
        None => Ok(DEFAULT_FUEL),
    }
}

/// The budget that the words give.
pub(crate) fn budget_given(matches: &ArgMatches<'_>) -> Result<u64, JobError>
    ensures { AnswersJob (λ budget. budget) (budget_given (rows_of (found_of matches.now))) result }
{
    match matches.get_str("budget") {
        Some(text) => given(number_of(0, MOST_BUDGET, text)),
        None => Ok(DEFAULT_BUDGET),
    }
}

/// The number of a trial that the words give.
pub(crate) fn number_given(matches: &ArgMatches<'_>) -> Result<u64, JobError>
    ensures { AnswersJob (λ number. number) (number_given (rows_of (found_of matches.now))) result }
{
    match matches.get_str("NUMBER") {
        Some(text) => given(number_of(0, MOST_NUMBER, text)),
        None => Err(JobError::Usage),
    }
}

/// The size that was given, or none that can be taken.
fn small(size: Option<u64>) -> Result<u32, JobError>
    requires { IfSome size (λ size. size ≤ 12) }
    ensures { AnswersJob (λ size. size) size result }
{
    match size {
        Some(size) => Ok(size as u32),
        None => Err(JobError::Usage),
    }
}

/// The size of a trial that the words give.
pub(crate) fn size_given(matches: &ArgMatches<'_>) -> Result<u32, JobError>
    ensures { AnswersJob (λ size. size) (size_given (rows_of (found_of matches.now))) result }
{
    match matches.get_str("SIZE") {
        Some(text) => small(number_of(1, MOST_SIZE, text)),
        None => Err(JobError::Usage),
    }
}
