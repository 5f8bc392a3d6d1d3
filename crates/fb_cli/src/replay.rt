//! The run of one plan.
ghost use Rattle.std.specs.Prelude.{◌≡◌, [], IfSome, Ok};
ghost use Rattle.fb_base.specs.Count.{Rose, NeverFell};
ghost use Rattle.fb_files.specs.Told.{BothTold};
ghost use Rattle.fb_job.specs.declared.job.Job.TheVariants.{Replay};
ghost use Rattle.fb_job.specs.Limits.{IsFuel};
ghost use Rattle.fb_cli.specs.PlanInput.{ReadsPlan, IsPlanReading, AnswersPlan};
ghost use Rattle.fb_cli.specs.Replaying.{is_passed, ending_of_replay, DecidesPlan};
ghost use Rattle.fb_cli.specs.Asking.{AsksFor};
ghost use Rattle.fb_cli.specs.Decision.{DecidesJob};
ghost use Rattle.fb_cli.specs.Telling.{status_told, text_told};
ghost use Rattle.fb_cli.specs.Answers.{IsJobEnd, IsDecidedBy, HasReadCause, HasWriteCause, IsTextOf};

use crate::load::limit_of;
use crate::sources::load_sources;
use crate::status::{Role, Status, Why};
use crate::tell::Ending;
use fb_files::Files;
use fb_index::{Plan, PlanError};
use fb_job::{ReplayJob, Word};
use fb_replay::{ReplayError, Replayed};
use fb_tree::Outcome;
use std::alloc::Global;

/// The plan that a text spells, or its refusal.
fn read_plan(alloc: Global, text: &Word) -> Result<Plan, Status>
    ensures { IsPlanReading text.now result }
{
    let bytes = text.as_str().as_bytes();
    if bytes.len() as u64 > limit_of(Role::Plan) {
        return Err(Status::refused(Role::Plan, Why::TooLong));
    }
    match Plan::read_text(alloc, bytes) {
        Ok(plan) => {
            plan.proper();
            Ok(plan)
        }
        Err(PlanError::BadPlan { offset }) => Err(Status::refused(
            Role::Plan,
            Why::Plan { offset },
        )),
        Err(PlanError::Memory) => Err(Status::Memory),
    }
}

fn is_passed(outcome: &Outcome) -> bool
    ensures { result ≡ is_passed outcome.now }
{
    match outcome {
        Outcome::Passed => true,
        Outcome::AssertFailed(_) | Outcome::CallFailed(_, _) | Outcome::Fault(_) => false,
    }
}

/// How the replay of a plan ends.
fn ending_of_replay(plan: Plan, replayed: Result<Replayed, ReplayError>) -> Ending
    ensures { result ≡ ending_of_replay plan replayed }
{
    match replayed {
        Ok(Replayed { outcome, text }) => Ending::Printed {
            passed: is_passed(&outcome),
            text,
        },
        Err(ReplayError::NotMet(index)) => Ending::Told(Status::NotMet(index)),
        Err(ReplayError::Spent) => Ending::Told(Status::FuelSpent(plan)),
        Err(ReplayError::Memory) => Ending::Told(Status::Memory),
    }
}

/// How the replay of a plan that was read ends.
fn replay_plan<F: Files>(alloc: Global, files: &mut F, job: &ReplayJob, plan: Plan) -> Ending
    requires read { ReadsPlan job.now.plan (Ok plan) }
    requires fuel { IsFuel job.now.fuel }
    ensures ends { IsJobEnd (status_told result) }
    ensures decided { IfSome (F.held files.old) (λ held. IsDecidedBy (DecidesPlan held job.now (Ok plan)) (status_told result)) }
    ensures text { IsTextOf (status_told result) (Some (Replay job.now)) (F.held files.old) (text_told [] result) }
    ensures plan { AnswersPlan (Some (Replay job.now)) (status_told result) }
    ensures read_fault { HasReadCause (Rose (F.faults files.old) (F.faults files.new)) (status_told result) }
    ensures write_fault { HasWriteCause ⊥ ⊥ (status_told result) }
    ensures asked { BothTold (AsksFor (Replay job.now) ⊥ (status_told result)) (F.asked files.old) (F.asked files.new) }
    ensures held { F.held files.new ≡ F.held files.old }
    ensures count { NeverFell (F.faults files.old) (F.faults files.new) }
{
    match load_sources(alloc, files, &job.services, &job.test) {
        Ok(sources) => {
            let replayed = fb_replay::replay(
                alloc,
                &sources.program,
                &sources.test,
                &plan,
                job.fuel,
            );
            ending_of_replay(plan, replayed)
        }
        Err(status) => Ending::Told(status),
    }
}

/// How a `replay` ends, before its text is put. The plan's text is read before anything is loaded.
pub(crate) fn replay<F: Files>(alloc: Global, files: &mut F, job: &ReplayJob) -> Ending
    requires { IsFuel job.now.fuel }
    ensures ends { IsJobEnd (status_told result) }
    ensures decided { IfSome (F.held files.old) (λ held. IsDecidedBy (DecidesJob held (Replay job.now)) (status_told result)) }
    ensures text { IsTextOf (status_told result) (Some (Replay job.now)) (F.held files.old) (text_told [] result) }
    ensures plan { AnswersPlan (Some (Replay job.now)) (status_told result) }
    ensures read_fault { HasReadCause (Rose (F.faults files.old) (F.faults files.new)) (status_told result) }
    ensures write_fault { HasWriteCause ⊥ ⊥ (status_told result) }
    ensures asked { BothTold (AsksFor (Replay job.now) ⊥ (status_told result)) (F.asked files.old) (F.asked files.new) }
    ensures held { F.held files.new ≡ F.held files.old }
    ensures count { NeverFell (F.faults files.old) (F.faults files.new) }
{
    match read_plan(alloc, &job.plan) {
        Ok(plan) => replay_plan(alloc, files, job, plan),
        Err(status) => Ending::Told(status),
    }
}
