//! The line of a plan that is pruned.
ghost use Rattle.std.specs.Prelude.{◌≡◌, List as ListOf, Some, IfOk, OnOk};
ghost use Rattle.fb_campaign.specs.Campaign.{Progress, prune};
ghost use Rattle.fb_campaign.specs.Runs.{Went};
ghost use Rattle.fb_functest.specs.Runs.{runs_of};
ghost use Rattle.fb_report.specs.declared.line.Line.{Line};
ghost use Rattle.fb_stitch.specs.Derivations.{IsDerived};
ghost use Rattle.fb_explore.specs.Puts.{HavePutLines, stop_of};
ghost use Rattle.fb_explore.specs.Turns.{CanBeTold, IsKnownOf, StandsBefore, added_if_pruned};

use crate::error::PutError;
use crate::explorer::Explorer;
use crate::known::Known;
use crate::lines::Lines;
use fb_base::List;
use fb_functest::outcomes_are_counted;
use fb_stitch::Derived;
use fb_tree::Visit;
use fb_worklist::Pending;

impl Explorer<'_> {
    /// Puts the line of a plan whose run was derived, and gives its calls.
    pub(crate) fn put_pruned<W: Lines>(
        &self,
        pending: &Pending,
        derived: Derived,
        known: &mut Known,
        lines: &mut W,
    ) -> Result<List<Visit>, PutError>
        requires plan { CanBeTold self.now.faults.now.version pending.now.plan }
        requires derived { IsDerived self.now.program.now.tree self.now.test.now.tree self.now.fuel known.old.store pending.now.plan derived }
        ensures put { (progress : Progress) (went : Went) (told : ListOf Line) →
            runs_of self.now.program.now.tree self.now.test.now.tree self.now.fuel pending.now.plan ≡ Some went →
            StandsBefore self.now.program.now.tree self.now.faults.now.version progress pending.now known.old
            (added_if_pruned progress pending.now.plan went) told → HavePutLines told (stop_of result)
            (W.written lines.old) (W.faults lines.old) (W.written lines.new) (W.faults lines.new) }
        ensures rest { W.rest lines.new ≡ W.rest lines.old }
        ensures known { OnOk result ((progress : Progress) (went : Went) →
            runs_of self.now.program.now.tree self.now.test.now.tree self.now.fuel pending.now.plan ≡ Some went →
            IsKnownOf progress known.old → IsKnownOf (prune progress pending.now.plan went) known.new) }
        ensures store { known.new.store ≡ known.old.store }
        ensures calls { IfOk result (λ calls. (went : Went) →
            runs_of self.now.program.now.tree self.now.test.now.tree self.now.fuel pending.now.plan ≡ Some went → calls ≡ went.visits) }
    {
        outcomes_are_counted();
        known.store.proper();
        let Derived {
            outcome,
            uses,
            calls,
            ..
        } = derived;
        self.put_plan(pending, false, uses, outcome, &mut known.tally, lines)?;
        Ok(calls)
    }
}
