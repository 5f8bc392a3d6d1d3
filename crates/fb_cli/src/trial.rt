//! The trial of a generated program: its campaign and the check of its report, in memory.
ghost use Rattle.std.specs.Prelude.{◌≡◌, ◌<◌, All, [], IfOk, IsErrOf, Option, Ok, Some};
ghost use Rattle.fb_check.specs.Programs.{kinds_given};
ghost use Rattle.fb_files.specs.Files.{Held};
ghost use Rattle.fb_functest.specs.Reading.{bytes_of};
ghost use Rattle.fb_report.specs.Ranges.{IsInRange};
ghost use Rattle.fb_explore.specs.Explored.{IsExplored};
ghost use Rattle.fb_job.specs.declared.job.Job.TheVariants.{Trial};
ghost use Rattle.fb_job.specs.Limits.{IsSize};
ghost use Rattle.fb_cli.specs.Answers.{IsDecidedBy, IsTextOf};
ghost use Rattle.fb_cli.specs.Telling.{status_told, text_told};
ghost use Rattle.fb_cli.specs.TestInputs.{inputs_seen};
ghost use Rattle.fb_cli.specs.Trials.{AnswersTrial, EndsTrial, IsTrialEnding, PrintsTrial, trial_settings};

use crate::campaign::status_of_end;
use crate::generated::generated_inputs;
use crate::status::Status;
use crate::tell::Ending;
use crate::test_inputs::TestInputs;
use crate::texts::trial_text;
use fb_base::Steps;
use fb_explore::{ExploreEnd, KeptLines, explore};
use fb_functest::campaigns_have_lines;
use fb_job::{DEFAULT_BUDGET, DEFAULT_FUEL};
use fb_report::{Line, Totals, line_bytes};
use fb_valid::{completed_reports_are_valid, one_line_breaks_first};
use fb_verify::{Verdict, verify};
use std::alloc::{AllocError, Global};
use std::marker::Brand;
use std::sync::ledger::{Blank, Ledger};

/// The bytes of lines, one after another.
fn joined_lines(alloc: Global, lines: &[Line]) -> Result<Vec<u8>, AllocError>
    requires { All IsInRange lines.now }
    ensures { IfOk result (λ bytes. bytes.items ≡ bytes_of lines.now) }
{
    let mut bytes = Vec::new(alloc);
    for line in lines {
        let text = line_bytes(alloc, line)?;
        bytes.extend_from_slice(text.as_slice())?;
    }
    Ok(bytes)
}

/// Explores the plans of the test, and keeps the lines.
fn keep_lines<L: Ledger>(
    alloc: Global,
    inputs: &TestInputs,
    lines: &mut KeptLines,
    evals: &mut Steps<L>,
) -> Result<Totals, ExploreEnd>
    requires none { lines.old.plan.fails.items ≡ [] }
    requires made { inputs.now.sources.test.services ≡ inputs.now.sources.program.tree }
    requires kinds { inputs.now.faults.kinds ≡ kinds_given inputs.now.sources.program.tree }
    ensures explored { IsExplored inputs.now.sources.program.tree inputs.now.sources.test.tree inputs.now.faults trial_settings result
        (Some (bytes_of lines.old.lines)) (Some (bytes_of lines.new.lines)) }
    ensures kept { ¬ IsErrOf result ExploreEnd.LineFault }
{
    let explored = explore(
        alloc,
        &inputs.sources.program,
        &inputs.sources.test,
        &inputs.faults,
        DEFAULT_FUEL,
        DEFAULT_BUDGET,
        true,
        lines,
        evals,
    );
    // No put was to fail, so none has.
    let _none = lines.faults();
    explored
}

/// How a trial whose report is valid ends: the totals are printed.
fn printed(alloc: Global, totals: &Totals) -> Ending
    ensures { PrintsTrial totals.now result }
{
    match trial_text(alloc, totals) {
        Ok(text) => Ending::Printed {
            passed: totals.failed == 0,
            text,
        },
        Err(_) => Ending::Told(Status::Memory),
    }
}

/// How a trial ends whose campaign completed: its report is checked.
fn checked<L: Ledger>(
    alloc: Global,
    inputs: &TestInputs,
    lines: &KeptLines,
    totals: &Totals,
    evals: &mut Steps<L>,
) -> Ending
    requires made { inputs.now.sources.test.services ≡ inputs.now.sources.program.tree }
    requires kinds { inputs.now.faults.kinds ≡ kinds_given inputs.now.sources.program.tree }
    requires explored { IsExplored inputs.now.sources.program.tree inputs.now.sources.test.tree inputs.now.faults trial_settings (Ok totals.now)
        (Some []) (Some (bytes_of lines.now.lines)) }
    ensures { IsTrialEnding (inputs_seen inputs.now) result }
{
    campaigns_have_lines();
    completed_reports_are_valid();
    one_line_breaks_first();
    inputs.faults.proper();
    let Ok(report) = joined_lines(alloc, lines.lines()) else {
        return Ending::Told(Status::Memory);
    };
    let sources = &inputs.sources;
    let report = report.as_slice();
    match verify(
        alloc,
        &sources.program,
        &sources.test,
        &inputs.faults,
        report,
        evals,
    ) {
        Ok(Verdict::Yes(_)) => printed(alloc, totals),
        Ok(Verdict::No { line, rule }) => Ending::Told(Status::No { line, rule }),
        Err(_) => Ending::Told(Status::Memory),
    }
}

/// How the trial of accepted inputs ends. Nobody counts the evaluations.
fn ending_of<L: Ledger>(alloc: Global, inputs: &TestInputs, blank: Blank) -> Ending
    requires made { inputs.now.sources.test.services ≡ inputs.now.sources.program.tree }
    requires kinds { inputs.now.faults.kinds ≡ kinds_given inputs.now.sources.program.tree }
    requires name { blank.name ≡ L.name }
    requires parts { blank.parts ≡ L.parts }
    requires some { 0 < L.parts }
    ensures { IsTrialEnding (inputs_seen inputs.now) result }
{
    let mut evals = Steps::<L>::new(blank);
    let Ok(mut lines) = KeptLines::new(alloc, Vec::new(alloc)) else {
        return Ending::Told(Status::Memory);
    };
    match keep_lines(alloc, inputs, &mut lines, &mut evals) {
        Ok(totals) => checked(alloc, inputs, &lines, &totals, &mut evals),
        Err(end) => Ending::Told(status_of_end(end)),
    }
}

/// How a `trial` ends, before its text is put.
pub(crate) fn trial(alloc: Global, number: u64, size: u32) -> Ending
    requires { IsSize size }
    ensures ends { EndsTrial (status_told result) }
    ensures answer { AnswersTrial ⊥ (Some (Trial number size)) (status_told result) }
    ensures text { (held : Option Held) → IsTextOf (status_told result) (Some (Trial number size)) held (text_told [] result) }
{
    match generated_inputs(alloc, number, size) {
        Ok(inputs) => ending_of::<Brand>(alloc, &inputs, Blank::new(1)),
        Err(status) => Ending::Told(status),
    }
}
