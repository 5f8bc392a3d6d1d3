//! Laws of valid reports. Each is a function that does nothing: what it ensures is the law.
ghost use Rattle.fb_syntax.specs.Trees.{ServicesTree, TestTree};
ghost use Rattle.fb_campaign.specs.Runs.{Choices};
ghost use Rattle.fb_valid.specs.Laws.{ValidReportsAreTrue, CompletedReportsAreValid, ValidRunsAreFew, ValidReportsTellTotals, OneBreaksFirst, ValidBreaksNone, UnbrokenIsValid};
ghost use Rattle.fb_valid.specs.Forged.{ForgedReportsBreak};

use fb_campaign::{completed_campaigns_are_valid, runs_are_few};
use fb_check::lookups_join;
use fb_functest::{lines_tell_plans, our_runs_are_lawful, reports_are_read_one_way};
use fb_meaning::{records_of_runs_are_true, spelled_is_run};
use fb_reading::answers_are_unique;

/// A valid report is true, whoever made it.
pub fn valid_reports_are_true()
    ensures { ValidReportsAreTrue }
{
    spelled_is_run();
    our_runs_are_lawful();
    fb_campaign::valid_reports_are_true();
    lines_tell_plans();
}

/// What is written of a completed campaign over accepted sources is a valid report, whether plans are pruned or not.
pub fn completed_reports_are_valid()
    ensures { CompletedReportsAreValid }
{
    spelled_is_run();
    our_runs_are_lawful();
    completed_campaigns_are_valid();
    records_of_runs_are_true();
    lines_tell_plans();
    reports_are_read_one_way();
    lookups_join();
}

/// With reduction the run lines of a valid report are at most one more than the different records of all met plans.
pub fn valid_runs_are_few()
    ensures { ValidRunsAreFew }
{
    spelled_is_run();
    our_runs_are_lawful();
    runs_are_few();
}

/// At most one line is the first that breaks a rule, and it breaks one rule first. In a valid report none does; and where
/// each line is read and none does, the report can't but be valid.
pub fn one_line_breaks_first()
    ensures one { OneBreaksFirst }
    ensures valid { ValidBreaksNone }
    ensures unbroken { UnbrokenIsValid }
{
    answers_are_unique();
    spelled_is_run();
}

/// The last line of a valid report has the totals of all its lines.
pub fn valid_reports_tell_totals()
    ensures { ValidReportsTellTotals }
{}

/// Reports that nobody's campaign wrote break where they should: such as without a header or with two, without a plan
/// line, or with a first plan line that has a parent.
pub fn forged_reports_break()
    ensures { (services : ServicesTree) (test : TestTree) (choices : Choices) → ForgedReportsBreak services test choices }
{}
