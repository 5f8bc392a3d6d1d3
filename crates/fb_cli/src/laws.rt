//! Laws of what is decided and written. Each is a function that does nothing: what it ensures is the law.
ghost use Rattle.std.specs.Prelude.{◌≡◌, ℕ, List, Option};
ghost use Rattle.fb_files.specs.Files.{Held};
ghost use Rattle.fb_job.specs.declared.job.Job.{Job};
ghost use Rattle.fb_cli.specs.declared.status.Status.{Status};
ghost use Rattle.fb_cli.specs.Campaigns.{AcceptedInputsHaveReports};
ghost use Rattle.fb_cli.specs.Decision.{DecidesWords};
ghost use Rattle.fb_cli.specs.PlanInput.{PlanRead, ReadsPlan};

use fb_functest::campaigns_have_lines;
use fb_index::{plan_of_text, refusals_have_one_offset};
use fb_verify::verdicts_are_exact;

/// What words say and files hold decides one status at most, and the text of a plan is read in one way. A report has one
/// verdict at most.
pub fn commands_are_decided_once()
    ensures words { (held : Held) (job : Option Job) (one other : Status) →
        DecidesWords held job one → DecidesWords held job other → one ≡ other }
    ensures plan { (text : List ℕ) (one other : PlanRead) → ReadsPlan text one → ReadsPlan text other → one ≡ other }
{
    plan_of_text();
    refusals_have_one_offset();
    verdicts_are_exact();
}

/// The campaign over accepted inputs has its report, whatever the job's numbers.
pub fn accepted_inputs_have_reports()
    ensures { AcceptedInputsHaveReports }
{
    campaigns_have_lines();
}
