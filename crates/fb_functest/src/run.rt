//! The run of one plan.
ghost use Rattle.std.specs.Prelude.{◌≡◌, ◌+◌, ◌≤◌, ◌++◌, length, filter_map, IfOk};
ghost use Rattle.std.specs.Option.{option_to_list};
ghost use Rattle.fb_tree.specs.Calls.{injection_of, injections_of};
ghost use Rattle.fb_tree.specs.Records.{records_in};
ghost use Rattle.fb_tree.specs.Views.{view_run};
ghost use Rattle.fb_meaning.specs.Runs.{run_of};
ghost use Rattle.fb_eval.specs.Units.{most_units};
ghost use Rattle.fb_functest.specs.Running.{GivesRun, stop_of};

use fb_base::Steps;
use fb_check::{CheckedTest, Program};
use fb_eval::{Fuel, Stop, eval_body_test};
use fb_index::Plan;
use fb_meaning::nothing_else_is_missing;
use fb_transport::Injecting;
use fb_tree::{Outcome, Preorder, TestNode, Visit};
use std::alloc::{AllocError, Global};
use std::sync::ledger::Ledger;

/// A run that came to its end.
#[derive(Drop)]
pub struct Ran {
    pub outcome: Outcome,
    pub tree: TestNode,
    /// What it injected: the plan itself where the plan is met.
    pub injected: Plan,
}

/// Why a run didn't come to its end.
#[derive(Debug, Drop, Clone, Copy, PartialEq, Eq)]
pub enum RunStop {
    /// It needs more units of fuel than it was handed.
    Spent,
    Memory,
}

impl From<AllocError> for RunStop {
    ghost use Rattle.std.specs.Prelude.{◌≡◌};
    ghost use Rattle.fb_functest.specs.declared.run.RunStop.TheVariants.{Memory};

    ghost from_gives = { λ _ e. e ≡ Memory };

    fn from(_e: AllocError) -> RunStop {
        RunStop::Memory
    }
}

/// One fault more where the call was injected.
fn with_injection(alloc: Global, injected: Plan, visit: Visit) -> Result<Plan, AllocError>
    ensures { IfOk result (λ plan. plan ≡ injected ++ option_to_list (injection_of visit)) }
{
    let Visit { index, fault, .. } = visit;
    match fault {
        Some(reply) => injected.with(alloc, index, reply),
        None => Ok(injected),
    }
}

/// The faults that a run injected, in the order in which its calls begin.
fn injections(alloc: Global, run: &TestNode) -> Result<Plan, AllocError>
    ensures { IfOk result (λ plan. plan ≡ injections_of (view_run run.now)) }
{
    let mut calls = Preorder::new(alloc, run)?;
    let mut injected = Plan::empty();
    while let Some(visit) = calls.next() {
        injected = with_injection(alloc, injected, visit?)?;
    }
    Ok(injected)
}

/// Why a run stops whose source lacks no answer.
fn stop_of(stop: Stop) -> RunStop
    ensures { result ≡ stop_of stop }
{
    match stop {
        Stop::Spent => RunStop::Spent,
        Stop::Missing | Stop::Memory => RunStop::Memory,
    }
}

/// The run of a plan: the test is evaluated, and the plan's faults are injected where it meets them.
///
/// It ticks `evals` once for each invocation of the run.
pub fn run_plan<L: Ledger>(
    alloc: Global,
    program: &Program,
    test: &CheckedTest,
    plan: &Plan,
    fuel: u64,
    evals: &mut Steps<L>,
) -> Result<Ran, RunStop>
    requires { fuel ≤ most_units }
    ensures run { GivesRun (run_of program.now.tree test.now.tree fuel plan.now) result }
    ensures ticks { IfOk result (λ ran. evals.new ≡ evals.old + length (records_in (view_run ran.tree).calls)) }
    ensures most { evals.new ≤ evals.old + fuel }
{
    nothing_else_is_missing();
    let mut transport = Injecting::new(program.kinds(), plan.copy()?);
    let mut left = Fuel::of(fuel);
    match eval_body_test(alloc, program, test, &mut transport, &mut left, evals) {
        Ok(tree) => {
            let injected = injections(alloc, &tree)?;
            Ok(Ran {
                outcome: tree.outcome,
                tree,
                injected,
            })
        }
        Err(stop) => Err(stop_of(stop)),
    }
}
