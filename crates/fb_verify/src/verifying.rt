//! Whole reports.
ghost use Rattle.std.specs.Prelude.{◌≡◌, [], IfOk};
ghost use Rattle.fb_check.specs.Programs.{kinds_given};
ghost use Rattle.fb_config.specs.Choices.{choices_for};
ghost use Rattle.fb_verify.specs.Ticks.{IsTickedBy};
ghost use Rattle.fb_verify.specs.Verdicts.{IsVerdict};

use crate::checker::Checker;
use crate::verdict::Verdict;
use fb_base::Steps;
use fb_check::{CheckedTest, Program};
use fb_config::Faults;
use std::alloc::{AllocError, Global};
use std::sync::ledger::Ledger;

/// What is found of a report. A method's body is evaluated at most once for each inv line.
pub fn verify<L: Ledger>(
    alloc: Global,
    program: &Program,
    test: &CheckedTest,
    faults: &Faults,
    report: &[u8],
    evals: &mut Steps<L>,
) -> Result<Verdict, AllocError>
    requires made { test.now.services ≡ program.now.tree }
    requires kinds { faults.now.kinds ≡ kinds_given program.now.tree }
    ensures verdict { IfOk result (IsVerdict program.now.tree test.now.tree (choices_for faults.now) report.now) }
    ensures ticks { IsTickedBy report.now [] evals.old evals.new }
{
    let mut checker = Checker::new(alloc, program, test, faults);
    checker.feed(report, evals)?;
    checker.finish()
}
