//! Who owns the records that lines tell.
ghost use Rattle.std.specs.Prelude.{◌≡◌, List, [], ◌∷◌, ◌++◌, length, Some, OnOk, IfOk};
ghost use Rattle.fb_report.specs.declared.line.Line.{Line};
ghost use Rattle.fb_functest.specs.PlanLines.{PlanLine, plan_line_in};
ghost use Rattle.fb_valid.specs.Lines.{owner_in};
ghost use Rattle.fb_valid.specs.Rules.{OfPlan, UsesEarlier, HasOwner, OwnsSome};
ghost use Rattle.fb_tally.specs.Decisions.{Decides};
ghost use Rattle.fb_tally.specs.Firsts.{FirstBreakAt};
ghost use Rattle.fb_tally.specs.Owned.{AreOwnersOf, UsesAbove};

use crate::owning::{are_earlier, first_not_owned, first_without_record, own_by_line};
use crate::rows::{PlanRow, RecordRow};
use std::alloc::{AllocError, Global};
use std::marker::Model;

/// A row for each inv line and one for each plan line read so far.
#[derive(Drop)]
pub struct Owners {
    records: Vec<RecordRow>,
    plans: Vec<PlanRow>,
}

impl Model for Owners {
    ghost use Rattle.fb_tally.specs.Owned.{OwnerRows};

    ghost Value = { OwnerRows };

    ghost view = { λ o. record { records = o.records.items; plans = o.plans.items } };
}

impl Owners {
    pub fn new(alloc: Global) -> Owners
        ensures { AreOwnersOf [] result }
    {
        Owners {
            records: Vec::new(alloc),
            plans: Vec::new(alloc),
        }
    }

    /// Reads an inv line, below so many lines, that names the plan line with this number as owner.
    pub fn add_record(&mut self, at: u64, owner: u64) -> Result<(), AllocError>
        ensures { OnOk result ((lines : List Line) (line : Line)
            → AreOwnersOf lines self.old
            → owner_in line ≡ Some owner
            → at ≡ length lines → AreOwnersOf (lines ++ line ∷ []) self.new) }
    {
        self.records.push(RecordRow {
            at,
            owner,
            owned: false,
        })?;
        Ok(())
    }

    /// Reads a plan line, below so many lines.
    pub fn add_plan(&mut self, at: u64, run: bool, uses: &[u64]) -> Result<(), AllocError>
        ensures { OnOk result ((lines : List Line) (line : Line) (told : PlanLine)
            → AreOwnersOf lines self.old
            → plan_line_in line ≡ Some told
            → told.run ≡ run
            → told.uses ≡ uses.now → UsesAbove lines told → at ≡ length lines → AreOwnersOf (lines ++ line ∷ []) self.new) }
    {
        let number = self.plans.len() as u64;
        self.plans.push(PlanRow { at, run })?;
        own_by_line(&mut self.records, number, run, uses);
        Ok(())
    }

    /// Whether a next plan line, if it is pruned, uses only records that name plan lines read by now.
    pub fn uses_earlier(&self, run: bool, uses: &[u64]) -> bool
        ensures { (lines : List Line) (told : PlanLine)
            → AreOwnersOf lines self.now → told.run ≡ run → told.uses ≡ uses.now → Decides (UsesEarlier lines told) result }
    {
        if run {
            return true;
        }
        are_earlier(&self.records, self.plans.len() as u64, uses)
    }

    /// How many lines stand above the first inv line whose record isn't owned by the run line that it names, by a use of it.
    pub fn first_not_owned(&self) -> Option<u64>
        ensures { (lines : List Line) → AreOwnersOf lines self.now → FirstBreakAt (HasOwner lines) lines result }
    {
        first_not_owned(&self.records)
    }

    /// How many lines stand above the first run line, behind the first plan line, that no inv line names as owner.
    pub fn first_without_record(&self, alloc: Global) -> Result<Option<u64>, AllocError>
        ensures { IfOk result
            (λ found. (lines : List Line) → AreOwnersOf lines self.now → FirstBreakAt (OfPlan (OwnsSome lines)) lines found) }
    {
        first_without_record(alloc, &self.records, &self.plans)
    }
}
