//! The lines of plans, and the end line.
ghost use Rattle.std.specs.Prelude.{◌≡◌, [], ◌∷◌, All, IfOk, IfSome, OnOk, length};
ghost use Rattle.fb_campaign.specs.Reports.{has_passed};
ghost use Rattle.fb_index.specs.Fault.{IsAtCall};
ghost use Rattle.fb_report.specs.Ranges.{IsCounted};
ghost use Rattle.fb_explore.specs.Puts.{HavePutLines, stop_of};
ghost use Rattle.fb_explore.specs.Tallies.{totals_by, with_line};
ghost use Rattle.fb_explore.specs.Turns.{CanBeTold, end_line_by, parent_of, plan_line_of};
ghost use Rattle.fb_functest.specs.ReportLines.{last_fault};

use crate::error::PutError;
use crate::explorer::Explorer;
use crate::known::Known;
use crate::lines::Lines;
use crate::put_line::put_line;
use crate::tally::Tally;
use fb_base::{List, Reply};
use fb_index::{Index, Plan};
use fb_report::{Cause, Line};
use fb_tree::Outcome;
use fb_worklist::Pending;
use std::alloc::{AllocError, Global};

/// Whether the test has passed.
fn has_passed(outcome: &Outcome) -> bool
    ensures { result ≡ has_passed outcome.now }
{
    match outcome {
        Outcome::Passed => true,
        Outcome::AssertFailed(_) => false,
        Outcome::CallFailed(_, _) => false,
        Outcome::Fault(_) => false,
    }
}

/// The number of the line whose plan it extends.
#[tactic(auto, using(crate::proofs::PlanLines::extends))]
fn parent_of(pending: &Pending) -> Option<u64>
    ensures { result ≡ parent_of pending.now }
{
    match pending.plan.last() {
        Some(_) => Some(pending.parent),
        None => None,
    }
}

/// The last fault of a plan.
fn last_fault(alloc: Global, plan: &Plan) -> Result<Option<(Index, Reply)>, AllocError>
    ensures { IfOk result (λ fault. fault ≡ last_fault plan.now) }
{
    match plan.last() {
        Some((index, reply)) => Ok(Some((index.copy()?, reply.copy(alloc)?))),
        None => Ok(None),
    }
}

impl Explorer<'_> {
    /// Puts the line of a plan, which comes next, and counts it.
    pub(crate) fn put_plan<W: Lines>(
        &self,
        pending: &Pending,
        is_run: bool,
        uses: List<u64>,
        outcome: Outcome,
        tally: &mut Tally,
        lines: &mut W,
    ) -> Result<(), PutError>
        requires plan { CanBeTold self.now.faults.now.version pending.now.plan }
        requires counted { IsCounted outcome }
        ensures put { HavePutLines (plan_line_of self.now.faults.now.version tally.old.plans pending.now is_run uses outcome ∷ []) (stop_of result)
            (W.written lines.old) (W.faults lines.old) (W.written lines.new) (W.faults lines.new) }
        ensures rest { W.rest lines.new ≡ W.rest lines.old }
        ensures tally { OnOk result (tally.new ≡ with_line tally.old is_run (has_passed outcome)) }
    {
        self.faults.proper();
        let id = tally.plans();
        tally.add(is_run, has_passed(&outcome))?;
        let line = Line::Plan {
            version: self.faults.version(),
            id,
            parent: parent_of(pending),
            fault: last_fault(self.alloc, &pending.plan)?,
            run: is_run,
            uses,
            outcome,
        };
        put_line(self.alloc, line, lines)
    }

    /// Puts the end line.
    #[tactic(auto, unfolding(fb_report::specs::Ranges::IsInRange))]
    pub(crate) fn put_end<W: Lines>(
        &self,
        cause: Cause,
        stopped: Option<Plan>,
        known: &Known,
        lines: &mut W,
    ) -> Result<(), PutError>
        requires { IfSome stopped (All IsAtCall) }
        ensures put { HavePutLines (end_line_by cause (totals_by known.now.tally (length known.now.store)) stopped ∷ []) (stop_of result)
            (W.written lines.old) (W.faults lines.old) (W.written lines.new) (W.faults lines.new) }
        ensures rest { W.rest lines.new ≡ W.rest lines.old }
    {
        let totals = known.totals();
        let line = Line::End {
            cause,
            plans: totals.plans,
            run: totals.run,
            pruned: totals.pruned,
            failed: totals.failed,
            invs: totals.invs,
            stopped,
        };
        put_line(self.alloc, line, lines)
    }
}
