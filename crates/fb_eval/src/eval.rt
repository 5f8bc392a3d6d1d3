//! The evaluation of a method, of a test, and of one body by a script.
ghost use Rattle.std.specs.Prelude.{◌≡◌, ◌+◌, ◌≤◌, ◌<◌, false, [], length, IfOk};
ghost use Rattle.fb_check.specs.Programs.{methods_of};
ghost use Rattle.fb_tree.specs.Records.{records_of, records_in};
ghost use Rattle.fb_tree.specs.Views.{view_node, view_run};
ghost use Rattle.fb_meaning.specs.Evaluations.{Done};
ghost use Rattle.fb_meaning.specs.Meaning.{method_meaning, outcome_of_flow, test_meaning};
ghost use Rattle.fb_eval.specs.Ways.{IsLacked, WantedAfter, lacks_answer};
ghost use Rattle.fb_eval.specs.Means.{invocation_means};
ghost use Rattle.fb_eval.specs.States.{Ends, IsBodyOf, calls_of, flow_of};
ghost use Rattle.fb_eval.specs.Locals.{EndsWithRecord};

use crate::body::Body;
use crate::decides::{Decides, Local};
use crate::flow::Flow;
use crate::fuel::Fuel;
use crate::progress::Progress;
use crate::stop::Stop;
use crate::walk::BEGINNING;
use fb_base::{List, MethodId, Steps, Value};
use fb_check::{CheckedTest, Program};
use fb_expression::{InjectedCallees, Variables};
use fb_index::Index;
use fb_transport::{Scripted, Transport};
use fb_tree::{Node, Outcome, Record, TestNode, record_of};
use std::alloc::{AllocError, Global};
use std::mem;
use std::rc::Rc;
use std::sync::ledger::Ledger;

/// A method on arguments, at an index.
///
/// Each call is decided by the transport: its callee is evaluated, a reply is injected, or the reply is known and takes
/// its steps. It ticks `evals` once for its own body, even where it stops, and once for each callee's.
pub fn eval_method<T: Transport, L: Ledger>(
    alloc: Global,
    program: &Program,
    method: MethodId,
    args: &[Value],
    at: &Index,
    transport: &mut T,
    fuel: &mut Fuel,
    evals: &mut Steps<L>,
) -> Result<Rc<Node>, Stop>
    requires { method.0 < length (methods_of program.now.tree) }
    ensures means { Ends (method_meaning program.now.tree (T.gives transport.old) fuel.old method args.now at.now) (λ node. Done (view_node node.value) fuel.new) result }
    ensures ticks { IfOk result (λ node. evals.new ≡ evals.old + length (records_of (view_node node.value))) }
    ensures most { evals.new ≤ evals.old + fuel.old + 1 }
    ensures still { T.forwards transport.old ≡ false → evals.new ≡ evals.old + 1 }
    ensures fuel { fuel.new ≤ fuel.old }
    ensures gives { T.gives transport.new ≡ T.gives transport.old }
    ensures forwards { T.forwards transport.new ≡ T.forwards transport.old }
{
    evals.tick();
    let body = Body::of_method(alloc, program, method, at.copy()?);
    let node = body.invoke(transport, fuel, evals, method, copied(alloc, args)?)?;
    Ok(Rc::new(alloc, node)?)
}

/// The test.
///
/// It ticks `evals` once for each callee's body.
pub fn eval_body_test<T: Transport, L: Ledger>(
    alloc: Global,
    program: &Program,
    test: &CheckedTest,
    transport: &mut T,
    fuel: &mut Fuel,
    evals: &mut Steps<L>,
) -> Result<TestNode, Stop>
    ensures means { Ends (test_meaning program.now.tree test.now.tree (T.gives transport.old) fuel.old) (λ run. Done (view_run run) fuel.new) result }
    ensures ticks { IfOk result (λ run. evals.new ≡ evals.old + length (records_in (view_run run).calls)) }
    ensures most { evals.new ≤ evals.old + fuel.old }
    ensures still { T.forwards transport.old ≡ false → evals.new ≡ evals.old }
    ensures fuel { fuel.new ≤ fuel.old }
    ensures gives { T.gives transport.new ≡ T.gives transport.old }
    ensures forwards { T.forwards transport.new ≡ T.forwards transport.old }
{
    fuel.proper();
    let body = Body::of_test(alloc, program, test);
    let mut progress = Progress::new(
        alloc,
        Variables::new(alloc),
        Some(InjectedCallees::new(alloc)),
    );
    let stmts = test.tree().body.stmts.as_slice();
    let flow = body.statements(&mut progress, transport, fuel, evals, BEGINNING, stmts)?;
    Ok(run_of(progress, flow))
}

/// One body with the replies of a script: no callee is evaluated.
///
/// It ticks `evals` once, even where it stops. The script wants what it lacked, or what it wanted before.
pub fn eval_local<L: Ledger>(
    alloc: Global,
    program: &Program,
    method: MethodId,
    args: &[Value],
    script: &mut Scripted,
    fuel: &mut Fuel,
    evals: &mut Steps<L>,
) -> Result<Record, Stop>
    requires { method.0 < length (methods_of program.now.tree) }
    ensures means { EndsWithRecord (method_meaning program.now.tree (⟦<Scripted as Transport>⟧.gives script.old) fuel.old method args.now []) fuel.new result }
    ensures once { evals.new ≡ evals.old + 1 }
    ensures fuel { fuel.new ≤ fuel.old }
    ensures gives { ⟦<Scripted as Transport>⟧.gives script.new ≡ ⟦<Scripted as Transport>⟧.gives script.old }
    ensures wanted { WantedAfter (lacks_answer result) script.old.wanted script.new.wanted (IsLacked (⟦<Scripted as Transport>⟧.gives script.old) script.new.wanted) }
{
    evals.tick();
    let empty = Scripted::new(alloc, Vec::new(alloc))?;
    let mut local = Local {
        script: mem::replace(script, empty),
    };
    let body = Body::of_method(alloc, program, method, Index::root());
    let result = record(alloc, &body, method, args, &mut local, fuel, evals);
    let Local { script: used } = local;
    *script = used;
    result
}

/// The record of a body whose calls this script decides.
fn record<L: Ledger>(
    alloc: Global,
    body: &Body,
    method: MethodId,
    args: &[Value],
    local: &mut Local,
    fuel: &mut Fuel,
    evals: &mut Steps<L>,
) -> Result<Record, Stop>
    requires within { method.0 < length (methods_of body.now.program.now.tree) }
    requires body { IsBodyOf body.now method }
    ensures means { EndsWithRecord (invocation_means body.now.program.now.tree (⟦<Local as Decides>⟧.ways local.old).gives method args.now body.now.index fuel.old) fuel.new result }
    ensures ways { ⟦<Local as Decides>⟧.ways local.new ≡ ⟦<Local as Decides>⟧.ways local.old }
    ensures wanted { WantedAfter (lacks_answer result) local.old.script.wanted local.new.script.wanted (IsLacked (⟦<Local as Decides>⟧.ways local.new).gives local.new.script.wanted) }
    ensures fuel { fuel.new ≤ fuel.old }
    ensures still { evals.new ≡ evals.old }
{
    let node = body.invoke(local, fuel, evals, method, copied(alloc, args)?)?;
    Ok(record_of(alloc, &node)?)
}

/// Arguments in memory of their own.
fn copied(alloc: Global, values: &[Value]) -> Result<List<Value>, AllocError>
    ensures { IfOk result (λ copies. copies ≡ values.now) }
{
    let mut copies = List::new(alloc);
    for value in values {
        copies.push(value.copy(alloc)?)?;
    }
    Ok(copies)
}

/// A test that has come to its end.
fn run_of(progress: Progress, flow: Flow) -> TestNode
    ensures { view_run result ≡ record { calls = calls_of progress; outcome = outcome_of_flow (flow_of flow); steps = progress.steps } }
{
    TestNode {
        calls: progress.calls,
        outcome: outcome_of(&flow),
        steps: progress.steps,
    }
}

/// A test whose end is reached has passed.
fn outcome_of(flow: &Flow) -> Outcome
    ensures { result ≡ outcome_of_flow (flow_of flow.now) }
{
    match flow {
        Flow::Ended(outcome) => *outcome,
        Flow::Next | Flow::Broke | Flow::Gave(_) => Outcome::Passed,
    }
}
