//! A plan's turn: it is pruned or run, or the campaign stops at it.
ghost use Rattle.std.specs.Prelude.{◌≡◌, ◌<◌, List as ListOf, [], ◌∷◌, All, Some, true, IfOk, OnOk, length};
ghost use Rattle.fb_campaign.specs.Campaign.{Progress};
ghost use Rattle.fb_check.specs.Programs.{kinds_given};
ghost use Rattle.fb_report.specs.declared.line.Cause.TheVariants as cause;
ghost use Rattle.fb_report.specs.declared.line.Line.{Line};
ghost use Rattle.fb_stitch.specs.Sources.{AreTrueOf};
ghost use Rattle.fb_explore.specs.declared.end.ExploreEnd.TheVariants as end;
ghost use Rattle.fb_explore.specs.Ends.{stop_before_end};
ghost use Rattle.fb_explore.specs.Explored.{IsFuel};
ghost use Rattle.fb_explore.specs.Puts.{HavePutLines};
ghost use Rattle.fb_explore.specs.Tallies.{totals_by};
ghost use Rattle.fb_explore.specs.Turns.{AreCallsOf, CanBeTold, GoesOnWaiting, GoesOnWith, IsTurn, StandsBefore, StopsBy, added_by, end_line_by, turn_by, turn_if_run};

use crate::end::ExploreEnd;
use crate::explorer::Explorer;
use crate::known::Known;
use crate::lines::Lines;
use fb_base::{List, Steps};
use fb_functest::{RunStop, covered_is_found, run_plan};
use fb_meaning::kinds_are_kept;
use fb_report::Cause;
use fb_stitch::{NotDerived, derive, derived_plans_are_covered};
use fb_tree::Visit;
use fb_worklist::{Pending, Worklist};
use std::sync::ledger::Ledger;

impl Explorer<'_> {
    /// Ends the campaign at a plan whose run needs more fuel.
    fn stop_for_fuel<W: Lines>(
        &self,
        pending: &Pending,
        known: &Known,
        lines: &mut W,
    ) -> Result<List<Visit>, ExploreEnd>
        requires { CanBeTold self.now.faults.now.version pending.now.plan }
        ensures put { HavePutLines (end_line_by cause.Fuel (totals_by known.now.tally (length known.now.store)) (Some pending.now.plan) ∷ []) (stop_before_end result)
            (W.written lines.old) (W.faults lines.old) (W.written lines.new) (W.faults lines.new) }
        ensures rest { W.rest lines.new ≡ W.rest lines.old }
        ensures stops { StopsBy (end.FuelSpent pending.now.plan) result }
    {
        let stopped = pending.plan.copy()?;
        let told = pending.plan.copy()?;
        self.put_end(Cause::Fuel, Some(told), known, lines)?;
        Err(ExploreEnd::FuelSpent(stopped))
    }

    /// Ends the campaign at a plan that may no longer be run.
    fn stop_for_budget<W: Lines>(
        &self,
        pending: &Pending,
        known: &Known,
        lines: &mut W,
    ) -> Result<List<Visit>, ExploreEnd>
        requires { CanBeTold self.now.faults.now.version pending.now.plan }
        ensures put { HavePutLines (end_line_by cause.Budget (totals_by known.now.tally (length known.now.store)) (Some pending.now.plan) ∷ []) (stop_before_end result)
            (W.written lines.old) (W.faults lines.old) (W.written lines.new) (W.faults lines.new) }
        ensures rest { W.rest lines.new ≡ W.rest lines.old }
        ensures stops { StopsBy (end.BudgetSpent pending.now.plan) result }
    {
        let stopped = pending.plan.copy()?;
        let told = pending.plan.copy()?;
        self.put_end(Cause::Budget, Some(told), known, lines)?;
        Err(ExploreEnd::BudgetSpent(stopped))
    }

    /// Runs the plan within the budget, and gives the calls of its run.
    fn run<W: Lines, L: Ledger>(
        &self,
        pending: &Pending,
        known: &mut Known,
        lines: &mut W,
        evals: &mut Steps<L>,
    ) -> Result<List<Visit>, ExploreEnd>
        requires fuel { IsFuel self.now.fuel }
        requires made { self.now.test.now.services ≡ self.now.program.now.tree }
        requires plan { CanBeTold self.now.faults.now.version pending.now.plan }
        requires known { AreTrueOf self.now.program.now.tree known.old.store }
        ensures turn { (progress : Progress) (told : ListOf Line) → turn_by self.now progress pending.now.plan ≡ turn_if_run self.now progress pending.now.plan →
            StandsBefore self.now.program.now.tree self.now.faults.now.version progress pending.now known.old
            (added_by progress (turn_by self.now progress pending.now.plan)) told →
            IsTurn (GoesOnWith self.now progress pending.now.plan known.new) self.now progress pending.now.plan told result
            (W.written lines.old) (W.faults lines.old) (W.written lines.new) (W.faults lines.new) evals.old evals.new }
        ensures rest { W.rest lines.new ≡ W.rest lines.old }
        ensures hold { OnOk result (AreTrueOf self.now.program.now.tree known.new.store) }
        ensures calls { IfOk result (AreCallsOf self.now pending.now.plan) }
    {
        if self.budget <= known.tally.run() {
            return self.stop_for_budget(pending, known, lines);
        }
        match run_plan(
            self.alloc,
            self.program,
            self.test,
            &pending.plan,
            self.fuel,
            evals,
        ) {
            Ok(ran) => {
                let calls = self.put_ran(pending, ran, known, lines)?;
                Ok(calls)
            }
            Err(RunStop::Spent) => self.stop_for_fuel(pending, known, lines),
            Err(RunStop::Memory) => Err(ExploreEnd::Memory),
        }
    }

    /// Prunes the plan where it is covered, and else runs it.
    fn prune_or_run<W: Lines, L: Ledger>(
        &self,
        pending: &Pending,
        known: &mut Known,
        lines: &mut W,
        evals: &mut Steps<L>,
    ) -> Result<List<Visit>, ExploreEnd>
        requires fuel { IsFuel self.now.fuel }
        requires made { self.now.test.now.services ≡ self.now.program.now.tree }
        requires plan { CanBeTold self.now.faults.now.version pending.now.plan }
        requires known { AreTrueOf self.now.program.now.tree known.old.store }
        requires reduction { self.now.reduction ≡ true }
        requires later { 0 < known.old.tally.plans }
        ensures turn { (progress : Progress) (told : ListOf Line) →
            StandsBefore self.now.program.now.tree self.now.faults.now.version progress pending.now known.old
            (added_by progress (turn_by self.now progress pending.now.plan)) told →
            IsTurn (GoesOnWith self.now progress pending.now.plan known.new) self.now progress pending.now.plan told result
            (W.written lines.old) (W.faults lines.old) (W.written lines.new) (W.faults lines.new) evals.old evals.new }
        ensures rest { W.rest lines.new ≡ W.rest lines.old }
        ensures hold { OnOk result (AreTrueOf self.now.program.now.tree known.new.store) }
        ensures calls { IfOk result (AreCallsOf self.now pending.now.plan) }
    {
        covered_is_found();
        derived_plans_are_covered();
        match derive(
            self.alloc,
            self.program,
            self.test,
            &known.store,
            &pending.plan,
            self.fuel,
            evals,
        ) {
            Ok(derived) => {
                let calls = self.put_pruned(pending, derived, known, lines)?;
                Ok(calls)
            }
            Err(NotDerived::NotCovered) => self.run(pending, known, lines, evals),
            Err(NotDerived::Memory) => Err(ExploreEnd::Memory),
        }
    }

    /// Prunes or runs the plan, and gives the calls of its run. The first plan is always run.
    fn tell<W: Lines, L: Ledger>(
        &self,
        pending: &Pending,
        known: &mut Known,
        lines: &mut W,
        evals: &mut Steps<L>,
    ) -> Result<List<Visit>, ExploreEnd>
        requires fuel { IsFuel self.now.fuel }
        requires made { self.now.test.now.services ≡ self.now.program.now.tree }
        requires plan { CanBeTold self.now.faults.now.version pending.now.plan }
        requires known { AreTrueOf self.now.program.now.tree known.old.store }
        ensures turn { (progress : Progress) (told : ListOf Line) →
            StandsBefore self.now.program.now.tree self.now.faults.now.version progress pending.now known.old
            (added_by progress (turn_by self.now progress pending.now.plan)) told →
            IsTurn (GoesOnWith self.now progress pending.now.plan known.new) self.now progress pending.now.plan told result
            (W.written lines.old) (W.faults lines.old) (W.written lines.new) (W.faults lines.new) evals.old evals.new }
        ensures rest { W.rest lines.new ≡ W.rest lines.old }
        ensures hold { OnOk result (AreTrueOf self.now.program.now.tree known.new.store) }
        ensures calls { IfOk result (AreCallsOf self.now pending.now.plan) }
    {
        if self.reduction {
            if 0 < known.tally.plans() {
                return self.prune_or_run(pending, known, lines, evals);
            }
        }
        self.run(pending, known, lines, evals)
    }

    /// Takes a plan's turn: its lines are put, and its extensions wait behind all others.
    pub(crate) fn take_turn<W: Lines, L: Ledger>(
        &self,
        pending: &Pending,
        known: &mut Known,
        waiting: &mut Worklist,
        lines: &mut W,
        evals: &mut Steps<L>,
    ) -> Result<(), ExploreEnd>
        requires fuel { IsFuel self.now.fuel }
        requires made { self.now.test.now.services ≡ self.now.program.now.tree }
        requires kinds { self.now.faults.now.kinds ≡ kinds_given self.now.program.now.tree }
        requires plan { CanBeTold self.now.faults.now.version pending.now.plan }
        requires known { AreTrueOf self.now.program.now.tree known.old.store }
        requires waiting { All (λ other. CanBeTold self.now.faults.now.version other.plan) waiting.old }
        ensures turn { (progress : Progress) (told : ListOf Line) →
            StandsBefore self.now.program.now.tree self.now.faults.now.version progress pending.now known.old
            (added_by progress (turn_by self.now progress pending.now.plan)) told →
            IsTurn (λ done. GoesOnWaiting self.now progress pending.now waiting.old waiting.new known.old.tally.plans known.new) self.now progress pending.now.plan told result
            (W.written lines.old) (W.faults lines.old) (W.written lines.new) (W.faults lines.new) evals.old evals.new }
        ensures rest { W.rest lines.new ≡ W.rest lines.old }
        ensures hold { OnOk result (AreTrueOf self.now.program.now.tree known.new.store) }
        ensures told { OnOk result (All (λ other. CanBeTold self.now.faults.now.version other.plan) waiting.new) }
    {
        kinds_are_kept();
        let number = known.tally.plans();
        let calls = self.tell(pending, known, lines, evals)?;
        self.faults.proper();
        waiting.push_extensions(&pending.plan, number, calls.as_slice(), self.faults)?;
        Ok(())
    }
}
