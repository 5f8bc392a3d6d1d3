//! The campaign of a test.
ghost use Rattle.std.specs.Prelude.{◌≡◌, IfSome, Some};
ghost use Rattle.fb_base.specs.Count.{Rose, NeverFell};
ghost use Rattle.fb_files.specs.Told.{BothTold};
ghost use Rattle.fb_job.specs.declared.job.Job.TheVariants.{Test as test_job};
ghost use Rattle.fb_job.specs.Limits.{IsFuel};
ghost use Rattle.fb_cli.specs.Asking.{AsksFor};
ghost use Rattle.fb_cli.specs.Completing.{Completes};
ghost use Rattle.fb_cli.specs.Decision.{DecidesJob};
ghost use Rattle.fb_cli.specs.Telling.{status_told, text_told};
ghost use Rattle.fb_cli.specs.Answers.{IsJobEnd, IsDecidedBy, HasReadCause, HasWriteCause, LeavesJob, TellsTruth, IsTextOf};

use crate::campaign::{ending_of, write_report};
use crate::tell::Ending;
use crate::test_inputs::load_inputs;
use fb_campaign::budgets_suffice;
use fb_files::Files;
use fb_functest::our_runs_are_lawful;
use fb_job::TestJob;
use std::alloc::Global;
use std::marker::Brand;
use std::sync::ledger::Blank;

/// How a `test` ends, before its text is put.
pub(crate) fn test<F: Files>(alloc: Global, files: &mut F, job: &TestJob) -> Ending
    requires { IsFuel job.now.fuel }
    ensures ends { IsJobEnd (status_told result) }
    ensures decided { IfSome (F.held files.old) (λ held. IsDecidedBy (DecidesJob held (test_job job.now)) (status_told result)) }
    ensures text { IsTextOf (status_told result) (Some (test_job job.now)) (F.held files.old) (text_told job.now.report result) }
    ensures read_fault { HasReadCause (Rose (F.faults files.old) (F.faults files.new)) (status_told result) }
    ensures write_fault { HasWriteCause (Rose (F.faults files.old) (F.faults files.new)) ⊥ (status_told result) }
    ensures asked { BothTold (AsksFor (test_job job.now) ⊥ (status_told result)) (F.asked files.old) (F.asked files.new) }
    ensures held { BothTold (LeavesJob (test_job job.now) (Rose (F.faults files.old) (F.faults files.new)) (status_told result))
        (F.held files.old) (F.held files.new) }
    ensures completes { IfSome (F.held files.old) (λ held. Completes held (Some (test_job job.now)) (status_told result)) }
    ensures truth { BothTold (TellsTruth (Some (test_job job.now)) (status_told result)) (F.held files.old) (F.held files.new) }
    ensures count { NeverFell (F.faults files.old) (F.faults files.new) }
{
    budgets_suffice();
    our_runs_are_lawful();
    match load_inputs(alloc, files, &job.services, &job.test, &job.faults) {
        Ok(inputs) => {
            inputs.faults.proper();
            let explored = write_report::<F, Brand>(alloc, files, job, &inputs, Blank::new(1));
            ending_of(alloc, explored)
        }
        Err(status) => Ending::Told(status),
    }
}
