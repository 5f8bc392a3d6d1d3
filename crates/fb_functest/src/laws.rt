//! Laws of runs under plans. Each is a function that does nothing: what it ensures is the law.
ghost use Rattle.fb_syntax.specs.Trees.{ServicesTree, TestTree};
ghost use Rattle.fb_campaign.specs.Runs.{AreLawful};
ghost use Rattle.fb_functest.specs.Reading.{BytesAreReadOneWay, WrittenLinesAreRead};
ghost use Rattle.fb_functest.specs.ReportLaws.{CampaignsHaveLines, CampaignsAreInRange, CompletedReportsAreTrue, CoveredIsFound, OutcomesAreCounted};
ghost use Rattle.fb_functest.specs.Runs.{gives_of, runs_of};
ghost use Rattle.fb_functest.specs.Told.{PlansAreTold, TruthIsTold};

use fb_campaign::{completed_campaigns_are_valid, valid_reports_are_true};
use fb_meaning::{more_fuel_same_run, records_of_runs_are_true, runs_are_lawful, runs_go_alike};
use fb_reading::{answers_are_unique, written_lines_are_answers};
use fb_report::written_lines_stay_whole;

/// All that is proved of campaigns over lawful runs holds of the runs of any test of any services.
pub fn our_runs_are_lawful()
    ensures { (services : ServicesTree) (test : TestTree) → AreLawful (gives_of services) (runs_of services test) }
{
    more_fuel_same_run();
    runs_are_lawful();
    runs_go_alike();
}

/// The bytes of a report are read in one way at most, and what is written of lines is read as these lines.
pub fn reports_are_read_one_way()
    ensures one_way { BytesAreReadOneWay }
    ensures written { WrittenLinesAreRead }
{
    answers_are_unique();
    written_lines_are_answers();
    written_lines_stay_whole();
}

/// The numbers in the outcome of each run are counted from 1.
pub fn outcomes_are_counted()
    ensures { OutcomesAreCounted }
{}

/// Each campaign over accepted sources has its lines, a stopped one too, and all of them are in range.
pub fn campaigns_have_lines()
    ensures there { CampaignsHaveLines }
    ensures in_range { CampaignsAreInRange }
{
    records_of_runs_are_true();
}

/// The plan lines of a report tell the plans of a campaign's lines where each extends the plan of its parent, and the
/// bytes are true where the campaign's lines are.
pub fn lines_tell_plans()
    ensures plans { PlansAreTold }
    ensures truth { TruthIsTold }
{}

/// What is written of a completed campaign is a true report.
pub fn completed_reports_are_true()
    ensures { CompletedReportsAreTrue }
{
    our_runs_are_lawful();
    completed_campaigns_are_valid();
    valid_reports_are_true();
    reports_are_read_one_way();
}

/// Records cover a plan, by its whole run, exactly where a campaign that knows them finds it covered.
pub fn covered_is_found()
    ensures { CoveredIsFound }
{}
