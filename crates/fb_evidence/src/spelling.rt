//! The trees that the uses of plan lines spell.
ghost use Rattle.std.specs.Prelude.{◌≡◌, ◌≤◌, IfOk};
ghost use Rattle.fb_eval.specs.Units.{most_units};
ghost use Rattle.fb_meaning.specs.Each.{HoldsOfEach};
ghost use Rattle.fb_meaning.specs.Records.{IsTrueRecord};
ghost use Rattle.fb_evidence.specs.Deciding.{Decides};
ghost use Rattle.fb_evidence.specs.SpelledTrees.{CallMethods, GivesSpelled, TakesSpelled, TellsTreeOf};

use crate::grounds::Grounds;
use fb_base::{List, Steps};
use fb_index::Plan;
use fb_meaning::{covered_is_spelled, kinds_are_kept, spelled_is_run};
use fb_stitch::{Derived, NotDerived, derive};
use fb_store::Store;
use fb_tree::{Outcome, Visit};
use std::alloc::AllocError;
use std::sync::ledger::Ledger;

/// The tree that uses spell, without what no rule on lines asks for.
#[derive(Drop)]
pub struct Spelled {
    /// Its calls, in the order in which they begin.
    pub calls: List<Visit>,
    pub outcome: Outcome,
}

fn same_numbers(numbers: &[u64], others: &[u64]) -> bool
    ensures { Decides (numbers.now ≡ others.now) result }
{
    numbers == others
}

/// What is derived, where it injects the plan and has these uses.
fn spelled_by(derived: Derived, plan: &Plan, uses: &[u64]) -> Option<Spelled>
    ensures { TakesSpelled derived plan.now uses.now result }
{
    if !derived.injected.same(plan) {
        return None;
    }
    if !same_numbers(derived.uses.as_slice(), uses) {
        return None;
    }
    Some(Spelled {
        calls: derived.calls,
        outcome: derived.outcome,
    })
}

impl Grounds<'_> {
    /// The tree that the uses of a plan line spell into the store's records, under the line's plan.
    ///
    /// The test's body is evaluated, and no service's.
    pub fn tree_of<L: Ledger>(
        &self,
        store: &Store,
        fuel: u64,
        plan: &Plan,
        uses: &[u64],
        evals: &mut Steps<L>,
    ) -> Result<Option<Spelled>, AllocError>
        requires known { HoldsOfEach (IsTrueRecord self.now.program.now.tree fuel) store.now }
        requires small { fuel ≤ most_units }
        requires made { self.now.test.now.services ≡ self.now.program.now.tree }
        ensures spelled { IfOk result (GivesSpelled self.now.program.now.tree self.now.test.now.tree fuel store.now plan.now uses.now) }
        ensures line { IfOk result (TellsTreeOf self.now.program.now.tree self.now.test.now.tree fuel store.now plan.now uses.now) }
        ensures callees { IfOk result (CallMethods self.now.program.now.tree) }
        ensures still { evals.new ≡ evals.old }
    {
        covered_is_spelled();
        kinds_are_kept();
        spelled_is_run();
        store.proper();
        match derive(
            self.alloc,
            self.program,
            self.test,
            store,
            plan,
            fuel,
            evals,
        ) {
            Ok(derived) => {
                let spelled = spelled_by(derived, plan, uses);
                Ok(spelled)
            }
            Err(NotDerived::NotCovered) => Ok(None),
            Err(NotDerived::Memory) => Err(AllocError),
        }
    }
}
