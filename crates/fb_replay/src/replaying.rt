//! The replay of a plan.
ghost use Rattle.std.specs.Prelude.{◌≡◌, ◌≤◌, ◌<◌};
ghost use Rattle.fb_eval.specs.Units.{most_units};
ghost use Rattle.fb_functest.specs.Running.{GivesRun};
ghost use Rattle.fb_meaning.specs.Runs.{run_of};
ghost use Rattle.fb_replay.specs.Replays.{GivesReplay, TellsUnmet};

use crate::calls::replay_text;
use crate::unmet::first_unmet;
use fb_base::Steps;
use fb_check::{CheckedTest, Program};
use fb_functest::{Ran, RunStop, run_plan};
use fb_index::{Index, Plan};
use fb_meaning::{kinds_are_kept, runs_are_lawful};
use fb_tree::Outcome;
use std::alloc::{AllocError, Global};
use std::marker::Brand;
use std::sync::ledger::{Blank, Ledger};

/// The run of a plan as it is printed.
#[derive(Drop)]
pub struct Replayed {
    pub outcome: Outcome,
    /// A line for each call in the order in which calls begin, and one for the outcome.
    pub text: String,
}

/// Why a plan wasn't replayed.
#[derive(Drop)]
pub enum ReplayError {
    /// Its run injects something else. This is the index of the first fault that wasn't injected in its place.
    NotMet(Index),
    /// Its run needs more units of fuel than it was handed.
    Spent,
    Memory,
}

impl From<AllocError> for ReplayError {
    ghost use Rattle.std.specs.Prelude.{◌≡◌};
    ghost use Rattle.fb_replay.specs.declared.replaying.ReplayError.TheVariants.{Memory};

    ghost from_gives = { λ _ e. e ≡ Memory };

    fn from(_e: AllocError) -> ReplayError {
        ReplayError::Memory
    }
}

impl From<RunStop> for ReplayError {
    ghost use Rattle.std.specs.Prelude.{◌≡◌};
    ghost use Rattle.fb_replay.specs.Replays.{error_of_stop};

    ghost from_gives = { λ stop e. e ≡ error_of_stop stop };

    fn from(stop: RunStop) -> ReplayError {
        match stop {
            RunStop::Spent => ReplayError::Spent,
            RunStop::Memory => ReplayError::Memory,
        }
    }
}

/// The run of a plan, whose invocations nobody counts.
fn run_uncounted<L: Ledger>(
    alloc: Global,
    program: &Program,
    test: &CheckedTest,
    plan: &Plan,
    fuel: u64,
    blank: Blank,
) -> Result<Ran, RunStop>
    requires name { blank.name ≡ L.name }
    requires parts { blank.parts ≡ L.parts }
    requires some { 0 < L.parts }
    requires fuel { fuel ≤ most_units }
    ensures { GivesRun (run_of program.now.tree test.now.tree fuel plan.now) result }
{
    let mut evals = Steps::<L>::new(blank);
    run_plan(alloc, program, test, plan, fuel, &mut evals)
}

/// Refuses a plan that isn't a front of what its run injected.
fn meet(alloc: Global, plan: &Plan, injected: &Plan) -> Result<(), ReplayError>
    ensures { TellsUnmet plan.now injected.now result }
{
    let planned = plan.faults(alloc)?;
    let others = injected.faults(alloc)?;
    match first_unmet(planned.as_slice(), others.as_slice()) {
        None => Ok(()),
        Some(index) => Err(ReplayError::NotMet(index.copy()?)),
    }
}

/// Runs the test under a plan, and gives the run's text where it injects exactly the plan.
pub fn replay(
    alloc: Global,
    program: &Program,
    test: &CheckedTest,
    plan: &Plan,
    fuel: u64,
) -> Result<Replayed, ReplayError>
    requires fuel { fuel ≤ most_units }
    requires made { test.now.services ≡ program.now.tree }
    ensures { GivesReplay program.now.tree plan.now (run_of program.now.tree test.now.tree fuel plan.now) result }
{
    kinds_are_kept();
    runs_are_lawful();
    let ran = run_uncounted::<Brand>(alloc, program, test, plan, fuel, Blank::new(1))?;
    meet(alloc, plan, &ran.injected)?;
    let text = replay_text(alloc, program, &ran.tree)?;
    Ok(Replayed {
        outcome: ran.outcome,
        text,
    })
}
