//! The lines of a plan that was run.
ghost use Rattle.std.specs.Prelude.{◌≡◌, List as ListOf, IfOk, OnOk};
ghost use Rattle.fb_campaign.specs.Campaign.{Progress, run};
ghost use Rattle.fb_functest.specs.Running.{IsRan};
ghost use Rattle.fb_functest.specs.Runs.{went_of};
ghost use Rattle.fb_meaning.specs.Runs.{run_of};
ghost use Rattle.fb_report.specs.declared.line.Line.{Line};
ghost use Rattle.fb_stitch.specs.Sources.{AreTrueOf};
ghost use Rattle.fb_tree.specs.Calls.{visits_of};
ghost use Rattle.fb_tree.specs.Views.{view_run};
ghost use Rattle.fb_explore.specs.Puts.{HavePutLines, stop_of};
ghost use Rattle.fb_explore.specs.Turns.{CanBeTold, IsKnownOf, StandsBefore, added_if_run, settings_by};

use crate::error::PutError;
use crate::explorer::Explorer;
use crate::invs::put_records;
use crate::known::Known;
use crate::lines::Lines;
use crate::recording::{calls_of_run, records_of_run};
use fb_base::List;
use fb_functest::{Ran, outcomes_are_counted};
use fb_meaning::records_of_runs_are_true;
use fb_tree::Visit;
use fb_worklist::Pending;

impl Explorer<'_> {
    /// Puts the lines of a plan that was run, its new records first, and gives its calls.
    pub(crate) fn put_ran<W: Lines>(
        &self,
        pending: &Pending,
        ran: Ran,
        known: &mut Known,
        lines: &mut W,
    ) -> Result<List<Visit>, PutError>
        requires made { self.now.test.now.services ≡ self.now.program.now.tree }
        requires plan { CanBeTold self.now.faults.now.version pending.now.plan }
        requires ran { IsRan (run_of self.now.program.now.tree self.now.test.now.tree self.now.fuel pending.now.plan) ran }
        requires known { AreTrueOf self.now.program.now.tree known.old.store }
        ensures put { (progress : Progress) (told : ListOf Line) → StandsBefore self.now.program.now.tree self.now.faults.now.version progress pending.now known.old
            (added_if_run progress pending.now.plan (went_of (view_run ran.tree))) told → HavePutLines told (stop_of result)
            (W.written lines.old) (W.faults lines.old) (W.written lines.new) (W.faults lines.new) }
        ensures rest { W.rest lines.new ≡ W.rest lines.old }
        ensures known { OnOk result ((progress : Progress) → IsKnownOf progress known.old →
            IsKnownOf (run (settings_by self.now) progress pending.now.plan (went_of (view_run ran.tree))) known.new) }
        ensures hold { OnOk result (AreTrueOf self.now.program.now.tree known.new.store) }
        ensures calls { IfOk result (λ calls. calls ≡ visits_of (view_run ran.tree)) }
    {
        records_of_runs_are_true();
        outcomes_are_counted();
        let Ran { outcome, tree, .. } = ran;
        let records = records_of_run(self.alloc, &tree)?;
        let calls = calls_of_run(self.alloc, &tree)?;
        let Known { store, tally } = known;
        let uses = put_records(
            self.alloc,
            self.program,
            tally.plans(),
            records,
            store,
            lines,
        )?;
        self.put_plan(pending, true, uses, outcome, tally, lines)?;
        Ok(calls)
    }
}
