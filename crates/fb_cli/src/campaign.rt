//! The campaign of a test, and its report.
ghost use Rattle.std.specs.Prelude.{◌≡◌, ◌<◌, IsErrOf, IsSome};
ghost use Rattle.fb_base.specs.Count.{Rose, NeverFell};
ghost use Rattle.fb_check.specs.Programs.{kinds_given};
ghost use Rattle.fb_explore.specs.Explored.{IsExplored};
ghost use Rattle.fb_job.specs.Limits.{IsFuel};
ghost use Rattle.fb_cli.specs.Campaigns.{settings_with};
ghost use Rattle.fb_cli.specs.Exploring.{IsWritten, IsEndingOf, PrintsTotals, status_of_end, told_beside, written_in};
ghost use Rattle.fb_cli.specs.TestInputs.{inputs_seen};

use crate::report_file::ReportFile;
use crate::status::Status;
use crate::tell::Ending;
use crate::test_inputs::TestInputs;
use crate::texts::completed_text;
use fb_base::Steps;
use fb_explore::{ExploreEnd, explore};
use fb_files::{Files, WriteError};
use fb_functest::{campaigns_have_lines, completed_reports_are_true};
use fb_job::TestJob;
use fb_report::Totals;
use std::alloc::Global;
use std::sync::ledger::{Blank, Ledger};

/// Explores the plans of the test, and appends the lines to the file that was created.
fn append_lines<F: Files, L: Ledger>(
    alloc: Global,
    files: &mut F,
    job: &TestJob,
    inputs: &TestInputs,
    evals: &mut Steps<L>,
) -> Result<Totals, ExploreEnd>
    requires created { IsSome (F.created files.old) }
    requires made { inputs.now.sources.test.services ≡ inputs.now.sources.program.tree }
    requires kinds { inputs.now.faults.kinds ≡ kinds_given inputs.now.sources.program.tree }
    requires fuel { IsFuel job.now.fuel }
    ensures explored { IsExplored inputs.now.sources.program.tree inputs.now.sources.test.tree inputs.now.faults (settings_with job.now) result
        (written_in (F.created files.old) (F.held files.old)) (written_in (F.created files.new) (F.held files.new)) }
    ensures created { F.created files.new ≡ F.created files.old }
    ensures asked { F.asked files.new ≡ F.asked files.old }
    ensures beside { told_beside (F.created files.new) (F.held files.new) ≡ told_beside (F.created files.old) (F.held files.old) }
    ensures cause { IsErrOf result ExploreEnd.LineFault → Rose (F.faults files.old) (F.faults files.new) }
    ensures count { NeverFell (F.faults files.old) (F.faults files.new) }
{
    let mut lines = ReportFile { files };
    let explored = explore(
        alloc,
        &inputs.sources.program,
        &inputs.sources.test,
        &inputs.faults,
        job.fuel,
        job.budget,
        job.reduction,
        &mut lines,
        evals,
    );
    // Taken apart, the lines give the files back.
    let ReportFile { files: _files } = lines;
    explored
}

/// Creates the report, and writes the lines of the campaign.
fn create_report<F: Files, L: Ledger>(
    alloc: Global,
    files: &mut F,
    job: &TestJob,
    inputs: &TestInputs,
    evals: &mut Steps<L>,
) -> Result<Totals, ExploreEnd>
    requires made { inputs.now.sources.test.services ≡ inputs.now.sources.program.tree }
    requires kinds { inputs.now.faults.kinds ≡ kinds_given inputs.now.sources.program.tree }
    requires fuel { IsFuel job.now.fuel }
    ensures written { IsWritten job.now (inputs_seen inputs.now) result (F.held files.old) (F.held files.new) }
    ensures asked { F.asked files.new ≡ F.asked files.old }
    ensures cause { IsErrOf result ExploreEnd.LineFault → Rose (F.faults files.old) (F.faults files.new) }
    ensures count { NeverFell (F.faults files.old) (F.faults files.new) }
{
    campaigns_have_lines();
    completed_reports_are_true();
    inputs.faults.proper();
    match files.create(job.report.as_str()) {
        Ok(()) => append_lines(alloc, files, job, inputs, evals),
        Err(WriteError::Failed) => Err(ExploreEnd::LineFault),
        Err(WriteError::Memory) => Err(ExploreEnd::Memory),
    }
}

/// Explores the plans of the test, and writes the report. Nobody counts the evaluations.
pub(crate) fn write_report<F: Files, L: Ledger>(
    alloc: Global,
    files: &mut F,
    job: &TestJob,
    inputs: &TestInputs,
    blank: Blank,
) -> Result<Totals, ExploreEnd>
    requires made { inputs.now.sources.test.services ≡ inputs.now.sources.program.tree }
    requires kinds { inputs.now.faults.kinds ≡ kinds_given inputs.now.sources.program.tree }
    requires fuel { IsFuel job.now.fuel }
    requires name { blank.name ≡ L.name }
    requires parts { blank.parts ≡ L.parts }
    requires some { 0 < L.parts }
    ensures written { IsWritten job.now (inputs_seen inputs.now) result (F.held files.old) (F.held files.new) }
    ensures asked { F.asked files.new ≡ F.asked files.old }
    ensures cause { IsErrOf result ExploreEnd.LineFault → Rose (F.faults files.old) (F.faults files.new) }
    ensures count { NeverFell (F.faults files.old) (F.faults files.new) }
{
    let mut evals = Steps::<L>::new(blank);
    create_report(alloc, files, job, inputs, &mut evals)
}

pub(crate) fn status_of_end(end: ExploreEnd) -> Status
    ensures { result ≡ status_of_end end }
{
    match end {
        ExploreEnd::FuelSpent(plan) => Status::FuelSpent(plan),
        ExploreEnd::BudgetSpent(plan) => Status::BudgetSpent(plan),
        ExploreEnd::LineFault => Status::WriteFault,
        ExploreEnd::Memory => Status::Memory,
    }
}

/// How a completed campaign ends: its totals are printed.
fn printed(alloc: Global, totals: &Totals) -> Ending
    ensures { PrintsTotals totals.now result }
{
    match completed_text(alloc, totals) {
        Ok(text) => Ending::Printed {
            passed: totals.failed == 0,
            text,
        },
        Err(_) => Ending::Told(Status::Memory),
    }
}

/// How a campaign ends.
pub(crate) fn ending_of(alloc: Global, explored: Result<Totals, ExploreEnd>) -> Ending
    ensures { IsEndingOf explored result }
{
    match explored {
        Ok(totals) => printed(alloc, &totals),
        Err(end) => Ending::Told(status_of_end(end)),
    }
}
