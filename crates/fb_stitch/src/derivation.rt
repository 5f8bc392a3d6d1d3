//! The run of a plan, derived from records.
ghost use Rattle.std.specs.Prelude.{◌≡◌, ◌≤◌, ◌++◌, [], filter_map, IfErr, IfOk, OnOk};
ghost use Rattle.std.specs.Option.{option_to_list};
ghost use Rattle.fb_tree.specs.Calls.{injection_of};
ghost use Rattle.fb_tree.specs.Records.{steps_in};
ghost use Rattle.fb_tree.specs.Views.{view_calls};
ghost use Rattle.fb_eval.specs.Units.{most_units};
ghost use Rattle.fb_meaning.specs.CallLaws.{AreDecided};
ghost use Rattle.fb_stitch.specs.Sources.{AreTrueOf};
ghost use Rattle.fb_stitch.specs.Stitched.{IsSound};
ghost use Rattle.fb_stitch.specs.Finding.{ground_of, stitched_by};
ghost use Rattle.fb_stitch.specs.Derivations.{GivesDerived, HasCalls, IsListed, IsNothing, not_derived_of};
ghost use Rattle.fb_stitch.specs.declared.derivation.NotDerived.TheVariants.{Memory};

use crate::found::Found;
use crate::stitching::Stitching;
use crate::walks::{Request, Walks};
use fb_base::{List, Steps};
use fb_check::{CheckedTest, Program};
use fb_eval::{Fuel, Stop, eval_body_test};
use fb_index::{Index, Plan};
use fb_meaning::{
    calls_are_decided, decisions_make_the_run, more_fuel_same_run, replies_make_it_again,
    spelled_is_run,
};
use fb_store::Store;
use fb_tree::{Made, Outcome, TestNode, Visit};
use std::alloc::{AllocError, Global};
use std::sync::ledger::Ledger;

/// The run of a plan.
#[derive(Drop)]
pub struct Derived {
    pub outcome: Outcome,
    /// The numbers of its invocations' records, in the order in which they begin.
    pub uses: List<u64>,
    /// Its calls, in the order in which they begin.
    pub calls: List<Visit>,
    /// What it injected: the plan itself where the plan is met.
    pub injected: Plan,
    /// The units of fuel that it needs.
    pub steps: u64,
}

/// Why a run wasn't derived.
#[derive(Clone, Copy, Debug, Drop, PartialEq, Eq)]
pub enum NotDerived {
    /// It needs more units of fuel than it was handed, or one of its invocations isn't recorded.
    NotCovered,
    Memory,
}

impl From<AllocError> for NotDerived {
    ghost use Rattle.std.specs.Prelude.{◌≡◌};
    ghost use Rattle.fb_stitch.specs.declared.derivation.NotDerived.TheVariants.{Memory};

    ghost from_gives = { λ _ e. e ≡ Memory };

    fn from(_e: AllocError) -> NotDerived {
        NotDerived::Memory
    }
}

/// Why nothing is derived where the evaluation of the test stops.
fn not_derived(stop: Stop) -> NotDerived
    ensures { result ≡ not_derived_of stop }
{
    match stop {
        Stop::Spent => NotDerived::NotCovered,
        Stop::Missing => NotDerived::NotCovered,
        Stop::Memory => NotDerived::Memory,
    }
}

/// One fault more where the call was injected.
fn with_injection(alloc: Global, injected: Plan, visit: &Visit) -> Result<Plan, AllocError>
    ensures { IfOk result (λ plan. plan ≡ injected ++ option_to_list (injection_of visit.now)) }
{
    match &visit.fault {
        Some(reply) => injected.with(alloc, visit.index.copy()?, reply.copy(alloc)?),
        None => Ok(injected),
    }
}

/// The faults among some calls.
fn injections(alloc: Global, visits: &[Visit]) -> Result<Plan, AllocError>
    ensures { IfOk result (λ plan. plan ≡ filter_map injection_of visits.now) }
{
    let mut injected = Plan::empty();
    for visit in visits {
        injected = with_injection(alloc, injected, visit)?;
    }
    Ok(injected)
}

/// Walks the calls that a test made, each of which was known.
fn walk_calls(walks: &Walks, found: &mut Found, calls: &[Made]) -> Result<(), NotDerived>
    requires sound { IsSound (ground_of walks.now) }
    requires known { AreDecided (stitched_by walks.now) [] (view_calls calls.now) }
    requires enough { steps_in (view_calls calls.now) ≤ walks.now.limit }
    requires nothing { IsNothing found.old }
    ensures calls { OnOk result (HasCalls (ground_of walks.now) found.new (view_calls calls.now)) }
    ensures err { IfErr result (λ e. e ≡ Memory) }
{
    calls_are_decided();
    decisions_make_the_run();
    more_fuel_same_run();
    let root = Index::root();
    for made in calls {
        let request = Request {
            entry: made.entry,
            callee: made.callee,
            args: made.args.as_slice(),
        };
        let Some(rank) = walks.rank(made.callee) else {
            return Err(NotDerived::NotCovered);
        };
        let Some(_reply) = walks.call(found, &request, &root, rank)? else {
            return Err(NotDerived::NotCovered);
        };
    }
    Ok(())
}

/// The run whose direct calls were known with these parts.
fn joined(walks: &Walks, parts: &TestNode, steps: u64) -> Result<Derived, NotDerived>
    requires sound { IsSound (ground_of walks.now) }
    requires known { AreDecided (stitched_by walks.now) [] (view_calls parts.now.calls.items) }
    requires enough { steps_in (view_calls parts.now.calls.items) ≤ walks.now.limit }
    ensures outcome { IfOk result (λ derived. derived.outcome ≡ parts.now.outcome) }
    ensures steps { IfOk result (λ derived. derived.steps ≡ steps) }
    ensures listed { IfOk result (λ derived. IsListed (ground_of walks.now) (view_calls parts.now.calls.items) derived) }
    ensures err { IfErr result (λ e. e ≡ Memory) }
{
    let mut found = Found::new(walks.alloc);
    walk_calls(walks, &mut found, parts.calls.as_slice())?;
    let injected = injections(walks.alloc, found.visits.as_slice())?;
    let Found { uses, visits, .. } = found;
    Ok(Derived {
        outcome: parts.outcome,
        uses: List::of(uses),
        calls: visits,
        injected,
        steps,
    })
}

/// The run of a plan, where it needs no more than the fuel and each of its invocations is recorded.
///
/// The test's body is evaluated, and no service's.
pub fn derive<L: Ledger>(
    alloc: Global,
    program: &Program,
    test: &CheckedTest,
    store: &Store,
    plan: &Plan,
    fuel: u64,
    evals: &mut Steps<L>,
) -> Result<Derived, NotDerived>
    requires known { AreTrueOf program.now.tree store.now }
    requires small { fuel ≤ most_units }
    ensures derived { GivesDerived program.now.tree test.now.tree fuel store.now plan.now result }
    ensures still { evals.new ≡ evals.old }
{
    calls_are_decided();
    decisions_make_the_run();
    more_fuel_same_run();
    replies_make_it_again();
    spelled_is_run();
    let walks = Walks {
        alloc,
        program,
        store,
        plan,
        limit: fuel,
    };
    walks.proper();
    let mut stitching = Stitching::new(program, store, plan, fuel);
    let mut left = Fuel::of(fuel);
    match eval_body_test(alloc, program, test, &mut stitching, &mut left, evals) {
        Ok(parts) => joined(&walks, &parts, fuel - left.left()),
        Err(stop) => Err(not_derived(stop)),
    }
}
