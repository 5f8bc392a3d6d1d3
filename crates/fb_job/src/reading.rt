//! Jobs, read from words.
ghost use Rattle.std.specs.Prelude.{map, string_bytes};
ghost use Rattle.fb_job.specs.Answers.{AnswersJob};
ghost use Rattle.fb_job.specs.Jobs.{test_of_words, check_of_words, replay_of_words, fmt_of_words, trial_of_words, job_by, job_of_words};

use crate::command::{
    check_command, fmt_command, is_set, matches_of, optional_word, replay_command, test_command,
    trial_command, word_of,
};
use crate::job::{CheckJob, Job, JobError, ReplayJob, TestJob};
use crate::number::{budget_given, fuel_given, number_given, size_given};
use std::alloc::Global;

fn test_of(alloc: Global, words: &[String]) -> Result<Job, JobError>
    ensures { AnswersJob (λ job. job) (test_of_words (map string_bytes words.now)) result }
{
    let matches = matches_of(test_command(alloc)?, words)?;
    let services = word_of(alloc, &matches, "services")?;
    let test = word_of(alloc, &matches, "test")?;
    let report = word_of(alloc, &matches, "report")?;
    let faults = optional_word(alloc, &matches, "faults")?;
    let fuel = fuel_given(&matches)?;
    let budget = budget_given(&matches)?;
    let reduction = !is_set(&matches, "no-reduction");
    Ok(Job::Test(TestJob {
        services,
        test,
        report,
        faults,
        fuel,
        budget,
        reduction,
    }))
}

fn check_of(alloc: Global, words: &[String]) -> Result<Job, JobError>
    ensures { AnswersJob (λ job. job) (check_of_words (map string_bytes words.now)) result }
{
    let matches = matches_of(check_command(alloc)?, words)?;
    let services = word_of(alloc, &matches, "services")?;
    let test = word_of(alloc, &matches, "test")?;
    let report = word_of(alloc, &matches, "report")?;
    let faults = optional_word(alloc, &matches, "faults")?;
    Ok(Job::Check(CheckJob {
        services,
        test,
        report,
        faults,
    }))
}

fn replay_of(alloc: Global, words: &[String]) -> Result<Job, JobError>
    ensures { AnswersJob (λ job. job) (replay_of_words (map string_bytes words.now)) result }
{
    let matches = matches_of(replay_command(alloc)?, words)?;
    let services = word_of(alloc, &matches, "services")?;
    let test = word_of(alloc, &matches, "test")?;
    let plan = word_of(alloc, &matches, "plan")?;
    let fuel = fuel_given(&matches)?;
    Ok(Job::Replay(ReplayJob {
        services,
        test,
        plan,
        fuel,
    }))
}

fn fmt_of(alloc: Global, words: &[String]) -> Result<Job, JobError>
    ensures { AnswersJob (λ job. job) (fmt_of_words (map string_bytes words.now)) result }
{
    let matches = matches_of(fmt_command(alloc)?, words)?;
    let services = word_of(alloc, &matches, "services")?;
    Ok(Job::Fmt { services })
}

fn trial_of(alloc: Global, words: &[String]) -> Result<Job, JobError>
    ensures { AnswersJob (λ job. job) (trial_of_words (map string_bytes words.now)) result }
{
    let matches = matches_of(trial_command(alloc)?, words)?;
    let number = number_given(&matches)?;
    let size = size_given(&matches)?;
    Ok(Job::Trial { number, size })
}

/// The job that words say to a command of this name.
fn job_by(alloc: Global, command: &str, words: &[String]) -> Result<Job, JobError>
    ensures { AnswersJob (λ job. job) (job_by command.now (map string_bytes words.now)) result }
{
    if command == "test" {
        return test_of(alloc, words);
    }
    if command == "check" {
        return check_of(alloc, words);
    }
    if command == "replay" {
        return replay_of(alloc, words);
    }
    if command == "fmt" {
        return fmt_of(alloc, words);
    }
    if command == "trial" {
        return trial_of(alloc, words);
    }
    Err(JobError::Usage)
}

/// The job that words say: the command's name, and its options in any order, each as `--name VALUE` or `--name=VALUE`,
/// and `--no-reduction` without a value. `trial` has two words instead, NUMBER and SIZE.
///
/// `Usage` comes where there is no word, the first is no command's name, or `clap` refuses the others, as it does an option
/// that is missing, unknown or given twice, and a request for help; and where a number isn't decimal digits alone, or isn't
/// within its limits.
pub fn job_of(alloc: Global, words: &[String]) -> Result<Job, JobError>
    ensures { AnswersJob (λ job. job) (job_of_words (map string_bytes words.now)) result }
{
    match words.first() {
        Some(command) => job_by(alloc, command.as_str(), words),
        None => Err(JobError::Usage),
    }
}
