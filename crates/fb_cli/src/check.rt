//! The check of a report.
ghost use Rattle.std.specs.Prelude.{◌≡◌, ◌<◌, [], IfOk, IfErr, IfSome, Some};
ghost use Rattle.fb_base.specs.Count.{Rose, NeverFell};
ghost use Rattle.fb_check.specs.Programs.{kinds_given};
ghost use Rattle.fb_files.specs.Told.{BothTold};
ghost use Rattle.fb_job.specs.declared.job.Job.TheVariants.{Check as check_job};
ghost use Rattle.fb_cli.specs.Asking.{AsksFor};
ghost use Rattle.fb_cli.specs.Checking.{IsEndingFound, PrintsValid, check_inputs_of, report_seen};
ghost use Rattle.fb_cli.specs.Decision.{DecidesJob};
ghost use Rattle.fb_cli.specs.Loading.{AsksReport, GivesInput, HasLoadCause};
ghost use Rattle.fb_cli.specs.Sources.{EndsSources};
ghost use Rattle.fb_cli.specs.Telling.{status_told, text_told};
ghost use Rattle.fb_cli.specs.Answers.{IsJobEnd, IsDecidedBy, HasReadCause, HasWriteCause, TellsTruth, IsTextOf};

use crate::load::load_bytes;
use crate::status::{Role, Status};
use crate::tell::Ending;
use crate::test_inputs::{TestInputs, load_inputs};
use crate::texts::valid_text;
use fb_base::Steps;
use fb_files::Files;
use fb_job::CheckJob;
use fb_valid::valid_reports_are_true;
use fb_verify::{Totals, Verdict, verify};
use std::alloc::Global;
use std::marker::Brand;
use std::sync::ledger::{Blank, Ledger};

/// What a report is checked against, and its bytes.
#[derive(Drop)]
pub(crate) struct CheckInputs {
    pub(crate) inputs: TestInputs,
    pub(crate) report: Vec<u8>,
}

/// The accepted inputs of a check and the report, which is loaded last, or how they end the job.
fn load_check_inputs<F: Files>(
    alloc: Global,
    files: &mut F,
    job: &CheckJob,
) -> Result<CheckInputs, Status>
    ensures content { IfSome (F.held files.old) (λ held. GivesInput report_seen result (check_inputs_of held job.now)) }
    ensures made { IfOk result (λ given. given.inputs.sources.test.services ≡ given.inputs.sources.program.tree) }
    ensures kinds { IfOk result (λ given. given.inputs.faults.kinds ≡ kinds_given given.inputs.sources.program.tree) }
    ensures ends { IfErr result EndsSources }
    ensures cause { HasLoadCause (F.faults files.old) (F.faults files.new) result }
    ensures asks { BothTold (AsksReport job.now result) (F.asked files.old) (F.asked files.new) }
    ensures held { F.held files.new ≡ F.held files.old }
    ensures count { NeverFell (F.faults files.old) (F.faults files.new) }
{
    let inputs = load_inputs(alloc, files, &job.services, &job.test, &job.faults)?;
    let report = load_bytes(alloc, files, Role::Report, &job.report)?;
    Ok(CheckInputs { inputs, report })
}

/// How a valid report ends a check: its totals are printed.
fn printed(alloc: Global, totals: &Totals) -> Ending
    ensures { PrintsValid totals.now result }
{
    match valid_text(alloc, totals) {
        Ok(text) => Ending::Printed { passed: true, text },
        Err(_) => Ending::Told(Status::Memory),
    }
}

/// How a report ends a check. Nobody counts the evaluations.
fn ending_of<L: Ledger>(alloc: Global, given: &CheckInputs, blank: Blank) -> Ending
    requires made { given.now.inputs.sources.test.services ≡ given.now.inputs.sources.program.tree }
    requires kinds { given.now.inputs.faults.kinds ≡ kinds_given given.now.inputs.sources.program.tree }
    requires name { blank.name ≡ L.name }
    requires parts { blank.parts ≡ L.parts }
    requires some { 0 < L.parts }
    ensures { IsEndingFound (report_seen given.now) result }
{
    let mut evals = Steps::<L>::new(blank);
    let sources = &given.inputs.sources;
    let faults = &given.inputs.faults;
    let report = given.report.as_slice();
    match verify(
        alloc,
        &sources.program,
        &sources.test,
        faults,
        report,
        &mut evals,
    ) {
        Ok(Verdict::Yes(totals)) => printed(alloc, &totals),
        Ok(Verdict::No { line, rule }) => Ending::Told(Status::No { line, rule }),
        Err(_) => Ending::Told(Status::Memory),
    }
}

/// How a `check` ends, before its text is put.
pub(crate) fn check<F: Files>(alloc: Global, files: &mut F, job: &CheckJob) -> Ending
    ensures ends { IsJobEnd (status_told result) }
    ensures decided { IfSome (F.held files.old) (λ held. IsDecidedBy (DecidesJob held (check_job job.now)) (status_told result)) }
    ensures text { IsTextOf (status_told result) (Some (check_job job.now)) (F.held files.old) (text_told [] result) }
    ensures read_fault { HasReadCause (Rose (F.faults files.old) (F.faults files.new)) (status_told result) }
    ensures write_fault { HasWriteCause ⊥ ⊥ (status_told result) }
    ensures asked { BothTold (AsksFor (check_job job.now) ⊥ (status_told result)) (F.asked files.old) (F.asked files.new) }
    ensures held { F.held files.new ≡ F.held files.old }
    ensures truth { BothTold (TellsTruth (Some (check_job job.now)) (status_told result)) (F.held files.old) (F.held files.new) }
    ensures count { NeverFell (F.faults files.old) (F.faults files.new) }
{
    valid_reports_are_true();
    match load_check_inputs(alloc, files, job) {
        Ok(given) => {
            given.inputs.faults.proper();
            ending_of::<Brand>(alloc, &given, Blank::new(1))
        }
        Err(status) => Ending::Told(status),
    }
}
