//! What a line below a header breaks first, by itself and the lines above it.
ghost use Rattle.std.specs.Prelude.{◌≡◌, ◌+◌, ◌≤◌, ◌<◌, ℕ, List as ListOf, Bool, All, IfOk, length};
ghost use Rattle.fb_tree.specs.declared.visit.Visit.{Visit as VisitOf};
ghost use Rattle.fb_report.specs.declared.line.Line.{Line as LineOf};
ghost use Rattle.fb_report.specs.declared.line.Line.TheVariants as line;
ghost use Rattle.fb_tally.specs.Decisions.{Decides};

use crate::below::Below;
use crate::known::Known;
use crate::told::Told;
use crate::verdict::Rule;
use fb_base::Steps;
use fb_book::other_lines_change_no_book;
use fb_config::Faults;
use fb_evidence::{Grounds, Spelled};
use fb_index::Plan;
use fb_report::{Line, NamedRecord};
use fb_tally::end_lines_own_nothing;
use fb_tree::Outcome;
use std::alloc::AllocError;
use std::sync::ledger::Ledger;

/// What lines are judged by.
#[derive(Drop)]
pub(crate) struct Judge<'a> {
    pub grounds: Grounds<'a>,
    pub faults: &'a Faults,
}

/// Whether two outcomes are the same.
fn is_same(outcome: &Outcome, other: &Outcome) -> bool
    ensures { Decides (outcome.now ≡ other.now) result }
{
    *outcome == *other
}

impl Judge<'_> {
    ghost use Rattle.fb_audit.specs.Kept.{IsBelow, IsProved};
    ghost use Rattle.fb_audit.specs.Judged.{ChildComesNext, ComesNext, IsJudged, PlanComesNext, TreeComesNext, evals_for, IsOfOneProgram, basis_of};
    ghost use Rattle.fb_audit.specs.Taken.{IsNextBelow};

    /// Takes an inv line in its place.
    fn take_inv<L: Ledger>(
        &self,
        known: &mut Known,
        fuel: u64,
        at: u64,
        owner: u64,
        made: &NamedRecord,
        evals: &mut Steps<L>,
    ) -> Result<Option<Rule>, AllocError>
        requires { IsProved (basis_of self.now) fuel known.old }
        ensures judged { IfOk result (λ told. (version id : ℕ) (above : ListOf LineOf) →
            ComesNext (basis_of self.now) version fuel above (line.Inv id owner made.now) at known.old →
            IsJudged (basis_of self.now) version fuel above (line.Inv id owner made.now) known.new told) }
        ensures ticks { evals.new ≤ evals.old + 1 }
    {
        other_lines_change_no_book();
        if self
            .grounds
            .add_record(&mut known.store, fuel, made, evals)?
        {
            known.owners.add_record(at, owner)?;
            return Ok(None);
        }
        Ok(Some(Rule::V2))
    }

    /// Takes a plan line whose uses spell a tree.
    fn take_tree(
        &self,
        known: &mut Known,
        fuel: u64,
        at: u64,
        plan: Plan,
        told: &Told<'_>,
        spelled: &Spelled,
    ) -> Result<Option<Rule>, AllocError>
        requires callees { All (λ (call : VisitOf). call.callee.0 < length self.now.faults.now.kinds) spelled.now.calls }
        requires proved { IsProved (basis_of self.now) fuel known.old }
        ensures { IfOk result (λ rule. (version : ℕ) (above : ListOf LineOf) (line : LineOf) →
            TreeComesNext (basis_of self.now) version fuel above line at known.old told.now plan spelled.now →
            IsJudged (basis_of self.now) version fuel above line known.new rule) }
    {
        if !known.owners.uses_earlier(told.run, told.uses) {
            return Ok(Some(Rule::V7));
        }
        if !is_same(told.outcome, &spelled.outcome) {
            return Ok(Some(Rule::V5));
        }
        known.owners.add_plan(at, told.run, told.uses)?;
        known.book.add(
            at,
            plan,
            told.parent,
            told.fault,
            spelled.calls.as_slice(),
            self.faults,
        )?;
        Ok(None)
    }

    /// Takes a plan line that has this plan.
    fn take_child<L: Ledger>(
        &self,
        known: &mut Known,
        fuel: u64,
        at: u64,
        plan: Plan,
        told: &Told<'_>,
        evals: &mut Steps<L>,
    ) -> Result<Option<Rule>, AllocError>
        requires made { IsOfOneProgram self.now }
        requires proved { IsProved (basis_of self.now) fuel known.old }
        ensures judged { IfOk result (λ rule. (version : ℕ) (above : ListOf LineOf) (line : LineOf) →
            ChildComesNext (basis_of self.now) version fuel above line at known.old told.now plan →
            IsJudged (basis_of self.now) version fuel above line known.new rule) }
        ensures still { evals.new ≡ evals.old }
    {
        match self
            .grounds
            .tree_of(&known.store, fuel, &plan, told.uses, evals)?
        {
            None => Ok(Some(Rule::V4)),
            Some(spelled) => self.take_tree(known, fuel, at, plan, told, &spelled),
        }
    }

    /// Takes a plan line in its place.
    fn take_plan<L: Ledger>(
        &self,
        known: &mut Known,
        fuel: u64,
        at: u64,
        told: &Told<'_>,
        evals: &mut Steps<L>,
    ) -> Result<Option<Rule>, AllocError>
        requires made { IsOfOneProgram self.now }
        requires proved { IsProved (basis_of self.now) fuel known.old }
        ensures judged { IfOk result (λ rule. (version : ℕ) (above : ListOf LineOf) (line : LineOf) →
            PlanComesNext (basis_of self.now) version fuel above line at known.old told.now →
            IsJudged (basis_of self.now) version fuel above line known.new rule) }
        ensures still { evals.new ≡ evals.old }
    {
        let alloc = self.grounds.alloc;
        match known
            .book
            .plan_of(alloc, self.faults, told.parent, told.fault, told.run)?
        {
            None => Ok(Some(Rule::V3)),
            Some(plan) => self.take_child(known, fuel, at, plan, told, evals),
        }
    }

    /// Takes a line in its place.
    fn take<L: Ledger>(
        &self,
        known: &mut Known,
        fuel: u64,
        at: u64,
        line: &Line,
        evals: &mut Steps<L>,
    ) -> Result<Option<Rule>, AllocError>
        requires made { IsOfOneProgram self.now }
        requires proved { IsProved (basis_of self.now) fuel known.old }
        ensures judged { IfOk result (λ rule. (version : ℕ) (above : ListOf LineOf) → ComesNext (basis_of self.now) version fuel above line.now at known.old →
            IsJudged (basis_of self.now) version fuel above line.now known.new rule) }
        ensures ticks { evals.new ≤ evals.old + evals_for line.now }
    {
        match line {
            Line::Inv { plan, made, .. } => self.take_inv(known, fuel, at, *plan, made, evals),
            Line::Plan {
                parent,
                fault,
                run,
                uses,
                outcome,
                ..
            } => {
                let told = Told {
                    parent: *parent,
                    fault,
                    run: *run,
                    uses: uses.as_slice(),
                    outcome,
                };
                self.take_plan(known, fuel, at, &told, evals)
            }
            Line::Header { .. } => Ok(None),
            Line::End { .. } => {
                end_lines_own_nothing();
                other_lines_change_no_book();
                Ok(None)
            }
        }
    }

    /// Takes a line below a header.
    pub(crate) fn take_below<L: Ledger>(
        &self,
        below: &mut Below,
        line: &Line,
        evals: &mut Steps<L>,
    ) -> Result<Option<Rule>, AllocError>
        requires made { IsOfOneProgram self.now }
        requires proved { IsProved (basis_of self.now) below.old.fuel below.old.known }
        requires room { below.old.tally.plans + below.old.tally.records ≤ length below.old.lines.items }
        ensures judged { IfOk result (λ rule. (version fuel : ℕ) (reduction : Bool) (above : ListOf LineOf) →
            IsBelow (basis_of self.now) version fuel reduction above below.old →
            IsNextBelow (basis_of self.now) version fuel reduction above line.now below.new rule) }
        ensures ticks { evals.new ≤ evals.old + evals_for line.now }
    {
        if !below.tally.has_place(line) {
            return Ok(Some(Rule::V1));
        }
        let at = below.lines.len() as u64;
        match self.take(&mut below.known, below.fuel, at, line, evals)? {
            Some(rule) => Ok(Some(rule)),
            None => {
                below.count(line)?;
                Ok(None)
            }
        }
    }
}
