//! The lines of a report.
ghost use Rattle.std.specs.Prelude.{All, IfSome};
ghost use Rattle.fb_base.specs.Replies.{IsProperReply};
ghost use Rattle.fb_index.specs.Index.{IsIndex};
ghost use Rattle.fb_index.specs.Plan.{IsPlan};
ghost use Rattle.fb_report.specs.Ranges.{IsLong, IsProperLine, IsProperOutcome};

use crate::named::NamedRecord;
use fb_base::{List, Reply};
use fb_index::{Index, Plan};
use fb_tree::Outcome;

/// Why a campaign ended.
#[derive(Debug, Drop, Clone, Copy, PartialEq, Eq)]
pub enum Cause {
    Completed,
    Fuel,
    Budget,
}

/// A line of a report.
#[derive(Drop)]
pub enum Line {
    Header {
        version: u32,
        fuel: u64,
        reduction: bool,
    },
    /// A recorded invocation, and the number of the plan whose run showed it.
    Inv {
        id: u64,
        plan: u64,
        made: NamedRecord,
    },
    /// A plan by its parent's number and the fault that it adds, whether it was run, the records that it used, and its outcome.
    Plan {
        version: u32,
        id: u64,
        parent: Option<u64>,
        fault: Option<(Index, Reply)>,
        run: bool,
        uses: List<u64>,
        outcome: Outcome,
    },
    /// The totals, and the plan at which a campaign stopped.
    End {
        cause: Cause,
        plans: u64,
        run: u64,
        pruned: u64,
        failed: u64,
        invs: u64,
        stopped: Option<Plan>,
    },
}

impl Line {
    /// What holds of each line that a program has.
    #[tactic(auto, unfolding(crate::specs::Ranges::IsProperLine))]
    pub fn proper(&self)
        ensures { IsProperLine self.now }
    {
        match self {
            Line::Header { version, fuel, .. } => {
                let _numbers = (*version, *fuel);
            }
            Line::Inv { id, plan, made } => {
                let _numbers = (*id, *plan);
                made.proper();
            }
            Line::Plan {
                version,
                id,
                parent,
                fault,
                uses,
                outcome,
                ..
            } => {
                let _numbers = (*version, *id);
                proper_parent(parent);
                proper_fault(fault);
                proper_uses(uses.as_slice());
                proper_outcome(outcome);
            }
            Line::End {
                plans,
                run,
                pruned,
                failed,
                invs,
                stopped,
                ..
            } => {
                let _numbers = (*plans, *run, *pruned, *failed, *invs);
                proper_stop(stopped);
            }
        }
    }
}

fn proper_parent(parent: &Option<u64>)
    ensures { IfSome parent.now IsLong }
{
    if let Some(parent) = parent {
        let _parent = *parent;
    }
}

fn proper_fault(fault: &Option<(Index, Reply)>)
    ensures { IfSome fault.now (λ f. IsIndex f.0 × IsProperReply f.1) }
{
    if let Some((index, reply)) = fault {
        index.proper();
        reply.proper();
    }
}

fn proper_uses(uses: &[u64])
    ensures { All IsLong uses.now }
{
    for number in uses {
        let _number = *number;
    }
}

fn proper_outcome(outcome: &Outcome)
    ensures { IsProperOutcome outcome.now }
{
    match outcome {
        Outcome::Passed => {}
        Outcome::AssertFailed(number) | Outcome::Fault(number) => {
            let _number = *number;
        }
        Outcome::CallFailed(site, code) => {
            let _site = *site;
            let _code = code.bytes();
        }
    }
}

fn proper_stop(stopped: &Option<Plan>)
    ensures { IfSome stopped.now IsPlan }
{
    if let Some(plan) = stopped {
        plan.proper();
    }
}
