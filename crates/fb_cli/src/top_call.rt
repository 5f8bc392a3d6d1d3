//! The top call.
ghost use Rattle.std.specs.Prelude.{◌≡◌, map, string_bytes, IfSome, Some};
ghost use Rattle.fb_base.specs.Count.{Rose, NeverFell};
ghost use Rattle.fb_files.specs.Told.{BothTold};
ghost use Rattle.fb_job.specs.Jobs.{job_of_words};
ghost use Rattle.fb_job.specs.Limits.{KeepsLimits};
ghost use Rattle.fb_job.specs.Names.{report_name};
ghost use Rattle.fb_cli.specs.Telling.{status_told, text_told};
ghost use Rattle.fb_cli.specs.Asking.{AsksFor};
ghost use Rattle.fb_cli.specs.Completing.{Completes};
ghost use Rattle.fb_cli.specs.Decision.{DecidesJob, DecidesWords};
ghost use Rattle.fb_cli.specs.PlanInput.{AnswersPlan};
ghost use Rattle.fb_cli.specs.Trials.{AnswersTrial};
ghost use Rattle.fb_cli.specs.Answers.{IsUsage, IsSameName, IsDecidedBy, IsDecidedOrMemory, IsJobEnd, HasReadCause, HasWriteCause, Asks, LeavesJob, Leaves, TellsTruth, IsTextOf, Sends};

use crate::check::check;
use crate::fmt::fmt;
use crate::replay::replay;
use crate::status::Status;
use crate::tell::{Ending, tell};
use crate::test::test;
use crate::trial::trial;
use fb_files::{Files, Sink};
use fb_job::{Job, JobError, job_of, jobs_keep_their_limits};
use std::alloc::Global;

/// How a job ends, before its text is put.
fn carry_out<F: Files>(alloc: Global, files: &mut F, job: &Job) -> Ending
    requires { KeepsLimits job.now }
    ensures ends { IsJobEnd (status_told result) }
    ensures decided { IfSome (F.held files.old) (λ held. IsDecidedBy (DecidesJob held job.now) (status_told result)) }
    ensures plan { AnswersPlan (Some job.now) (status_told result) }
    ensures trial { AnswersTrial ⊥ (Some job.now) (status_told result) }
    ensures text { IsTextOf (status_told result) (Some job.now) (F.held files.old)
        (text_told (report_name (Some job.now)) result) }
    ensures read_fault { HasReadCause (Rose (F.faults files.old) (F.faults files.new)) (status_told result) }
    ensures write_fault { HasWriteCause (Rose (F.faults files.old) (F.faults files.new)) ⊥ (status_told result) }
    ensures asked { BothTold (AsksFor job.now ⊥ (status_told result)) (F.asked files.old) (F.asked files.new) }
    ensures held { BothTold (LeavesJob job.now (Rose (F.faults files.old) (F.faults files.new)) (status_told result))
        (F.held files.old) (F.held files.new) }
    ensures truth { BothTold (TellsTruth (Some job.now) (status_told result)) (F.held files.old) (F.held files.new) }
    ensures completes { IfSome (F.held files.old) (λ held. Completes held (Some job.now) (status_told result)) }
    ensures count { NeverFell (F.faults files.old) (F.faults files.new) }
{
    match job {
        Job::Test(job) => test(alloc, files, job),
        Job::Check(job) => check(alloc, files, job),
        Job::Replay(job) => replay(alloc, files, job),
        Job::Fmt { services } => fmt(alloc, files, services),
        Job::Trial { number, size } => trial(alloc, *number, *size),
    }
}

/// Carries out a command, whose words are those after the program's name.
///
/// So far it is `test --services FILE --test FILE --report FILE`, and with it `--faults FILE`, `--budget N` and
/// `--no-reduction` where they are meant, `check --services FILE --test FILE --report FILE`, and with it `--faults FILE`,
/// `replay --services FILE --test FILE --plan PLAN`, this and `test` with `--fuel N` where the
/// default isn't meant, or `fmt --services FILE`, in any order, or `trial NUMBER SIZE`, which uses no file. A plan's text is read; the inputs are loaded, the services
/// first, then the test, then the fault file; a test's report is created and its lines are appended one by one; last the text
/// of the answer is put: the totals where `test` completed or the report is
/// valid, the run where `replay` met its plan, and the services in their
/// canonical form where `fmt` printed them. A name is a path as the files object takes it, and each name is compared byte
/// for byte.
pub fn run<F: Files, O: Sink>(alloc: Global, words: &[String], files: &mut F, out: &mut O) -> Status
    ensures usage { IsUsage (job_of_words (map string_bytes words.now)) result }
    ensures same_name { IsSameName (job_of_words (map string_bytes words.now)) result }

    // The words alone decide whether a plan's text is refused.
    ensures plan { AnswersPlan (job_of_words (map string_bytes words.now)) result }

    // So they do of a trial, which asks the files for nothing.
    ensures trial { AnswersTrial (Rose (O.faults out.old) (O.faults out.new)) (job_of_words (map string_bytes words.now)) result }

    // Where held is told, the words and the held files decide, and else a failure or want of memory ends it.
    ensures decided { IfSome (F.held files.old) (λ held. IsDecidedBy (DecidesWords held (job_of_words (map string_bytes words.now))) result) }
    ensures complete { IfSome (F.held files.old) (λ held.
        ¬ Rose (F.faults files.old) (F.faults files.new) → ¬ Rose (O.faults out.old) (O.faults out.new)
        → IsDecidedOrMemory (DecidesWords held (job_of_words (map string_bytes words.now))) result) }

    // Where each plan ends within the fuel and the budget suffices, neither stops the campaign.
    ensures completes { IfSome (F.held files.old) (λ held. Completes held (job_of_words (map string_bytes words.now)) result) }

    // A failure has its cause in a count.
    ensures read_fault { HasReadCause (Rose (F.faults files.old) (F.faults files.new)) result }
    ensures write_fault { HasWriteCause (Rose (F.faults files.old) (F.faults files.new)) (Rose (O.faults out.old) (O.faults out.new)) result }

    ensures asked { BothTold (Asks (job_of_words (map string_bytes words.now)) (Rose (O.faults out.old) (O.faults out.new)) result)
        (F.asked files.old) (F.asked files.new) }
    ensures held { BothTold (Leaves (job_of_words (map string_bytes words.now)) (Rose (F.faults files.old) (F.faults files.new)) result)
        (F.held files.old) (F.held files.new) }

    // The headline: a completed campaign leaves a report that tells the truth, and so does a report that `check` calls good.
    ensures truth { BothTold (TellsTruth (job_of_words (map string_bytes words.now)) result) (F.held files.old) (F.held files.new) }

    ensures sent { BothTold (Sends (job_of_words (map string_bytes words.now)) (F.held files.old) (F.asked files.old) (F.asked files.new) result)
        (O.sent out.old) (O.sent out.new) }
{
    let job = match job_of(alloc, words) {
        Ok(job) => job,
        Err(JobError::Usage) => return tell(alloc, "", Ending::Told(Status::Usage), out),
        Err(JobError::Memory) => return Status::Memory,
    };
    if job.overwrites_input() {
        return tell(
            alloc,
            job.report_name(),
            Ending::Told(Status::SameName),
            out,
        );
    }
    jobs_keep_their_limits();
    let ending = carry_out(alloc, files, &job);
    tell(alloc, job.report_name(), ending, out)
}
