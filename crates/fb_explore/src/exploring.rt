//! Campaigns, line by line.
ghost use Rattle.std.specs.Prelude.{◌≡◌, Bool, IsErrOf};
ghost use Rattle.fb_base.specs.Count.{Rose, NeverFell};
ghost use Rattle.fb_check.specs.Programs.{kinds_given};
ghost use Rattle.fb_explore.specs.Below.{AreTurnsTaken, IsExploredBelow};
ghost use Rattle.fb_explore.specs.Ends.{TicksAtMost};
ghost use Rattle.fb_explore.specs.Explored.{IsFuel, IsExplored, settings_of, explored};

use crate::end::ExploreEnd;
use crate::explorer::Explorer;
use crate::known::Known;
use crate::lines::Lines;
use crate::put_line::put_line;
use fb_base::Steps;
use fb_campaign::{each_plan_is_met_once, waiting_plans_come_next};
use fb_check::{CheckedTest, Program};
use fb_config::Faults;
use fb_functest::{campaigns_have_lines, our_runs_are_lawful};
use fb_index::Plan;
use fb_report::{Cause, Line, Totals};
use fb_worklist::{Pending, Worklist};
use std::alloc::Global;
use std::sync::ledger::Ledger;

/// Takes the turns of all plans, the empty plan first, and gives what is known of their lines.
fn take_turns<W: Lines, L: Ledger>(
    explorer: &Explorer<'_>,
    lines: &mut W,
    evals: &mut Steps<L>,
) -> Result<Known, ExploreEnd>
    requires fuel { IsFuel explorer.now.fuel }
    requires made { explorer.now.test.now.services ≡ explorer.now.program.now.tree }
    requires kinds { explorer.now.faults.now.kinds ≡ kinds_given explorer.now.program.now.tree }
    ensures turns { AreTurnsTaken explorer.now result
        (W.written lines.old) (W.faults lines.old) (W.written lines.new) (W.faults lines.new) evals.old evals.new }
    ensures rest { W.rest lines.new ≡ W.rest lines.old }
{
    campaigns_have_lines();
    each_plan_is_met_once();
    our_runs_are_lawful();
    waiting_plans_come_next();
    explorer.faults.proper();
    let mut known = Known::new(explorer.alloc);
    let mut waiting = Worklist::new(explorer.alloc);
    let mut next = Some(Pending {
        plan: Plan::empty(),
        parent: 0,
    });
    while let Some(pending) = next {
        explorer.take_turn(&pending, &mut known, &mut waiting, lines, evals)?;
        next = waiting.pop_first();
    }
    Ok(known)
}

/// Puts all lines below the header.
fn explore_below<W: Lines, L: Ledger>(
    explorer: &Explorer<'_>,
    lines: &mut W,
    evals: &mut Steps<L>,
) -> Result<Totals, ExploreEnd>
    requires fuel { IsFuel explorer.now.fuel }
    requires made { explorer.now.test.now.services ≡ explorer.now.program.now.tree }
    requires kinds { explorer.now.faults.now.kinds ≡ kinds_given explorer.now.program.now.tree }
    ensures below { IsExploredBelow explorer.now result
        (W.written lines.old) (W.faults lines.old) (W.written lines.new) (W.faults lines.new) evals.old evals.new }
    ensures rest { W.rest lines.new ≡ W.rest lines.old }
{
    let known = take_turns(explorer, lines, evals)?;
    explorer.put_end(Cause::Completed, None, &known, lines)?;
    Ok(known.totals())
}

/// Runs the plans of a test and puts the lines of the campaign's report, each as it is made.
///
/// Where it ends early, the lines up to the end line are put, or, where a line can't be put or memory is refused, a front of
/// their bytes.
#[tactic(auto, unfolding(fb_report::specs::Ranges::IsInRange))]
pub fn explore<W: Lines, L: Ledger>(
    alloc: Global,
    program: &Program,
    test: &CheckedTest,
    faults: &Faults,
    fuel: u64,
    budget: u64,
    reduction: bool,
    lines: &mut W,
    evals: &mut Steps<L>,
) -> Result<Totals, ExploreEnd>
    requires fuel { IsFuel fuel }
    requires made { test.now.services ≡ program.now.tree }
    requires kinds { faults.now.kinds ≡ kinds_given program.now.tree }
    ensures report { IsExplored program.now.tree test.now.tree faults.now (settings_of fuel budget reduction) result (W.written lines.old) (W.written lines.new) }
    ensures cause { IsErrOf result ExploreEnd.LineFault → Rose (W.faults lines.old) (W.faults lines.new) }
    ensures count { NeverFell (W.faults lines.old) (W.faults lines.new) }
    ensures rest { W.rest lines.new ≡ W.rest lines.old }
    ensures ticks { TicksAtMost (explored program.now.tree test.now.tree faults.now (settings_of fuel budget reduction)) fuel result evals.old evals.new }
{
    campaigns_have_lines();
    faults.proper();
    let header = Line::Header {
        version: faults.version(),
        fuel,
        reduction,
    };
    put_line(alloc, header, lines)?;
    let explorer = Explorer {
        alloc,
        program,
        test,
        faults,
        fuel,
        budget,
        reduction,
    };
    explore_below(&explorer, lines, evals)
}
