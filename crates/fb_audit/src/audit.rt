//! The audit of a report's lines.

use crate::below::Below;
use crate::judge::Judge;
use crate::taken::Taken;
use crate::verdict::{Break, Conclusion, Rule};
use fb_base::Steps;
use fb_check::{CheckedTest, Program};
use fb_config::Faults;
use fb_evidence::Grounds;
use fb_report::Line;
use fb_tally::lines_are_more_than_tallied;
use std::alloc::{AllocError, Global};
use std::marker::Model;
use std::mem;
use std::sync::ledger::Ledger;

/// Takes the lines of a report one by one, the header first, and tries the rules on all lines behind the last one.
///
/// It keeps what the rules ask of the lines above, and no line. Once a line broke a rule, or memory was refused, it has taken
/// nothing.
#[derive(Drop)]
pub struct Audit<'a> {
    judge: Judge<'a>,
    taken: Taken,
}

impl<'a> Model for Audit<'a> {
    ghost use Rattle.fb_audit.specs.Judged.{IsOfOneProgram, basis_of};
    ghost use Rattle.fb_audit.specs.Taken.{Audited, IsTakenOfSome};

    ghost Value = { Audited };

    ghost use Rattle.std.specs.Coded.{codes};
    ghost use Rattle.fb_syntax.specs.TreeCodes.{coded_services, coded_test};

    ghost coded = { Prim.hlevel (codes, coded_services, coded_test) };

    ghost view = { λ a. record { basis = basis_of a.judge; taken = a.taken } };

    ghost invariant = { λ a. IsOfOneProgram a.judge × IsTakenOfSome (basis_of a.judge) a.taken };
}

impl<'a> Audit<'a> {
    ghost use Rattle.std.specs.Prelude.{◌≡◌, ◌+◌, ◌≤◌, [], List as ListOf, IfOk};
    ghost use Rattle.fb_syntax.specs.Trees.{ServicesTree, TestTree};
    ghost use Rattle.fb_campaign.specs.Runs.{Choices};
    ghost use Rattle.fb_check.specs.Programs.{kinds_given};
    ghost use Rattle.fb_config.specs.Choices.{choices_for};
    ghost use Rattle.fb_report.specs.declared.line.Line.{Line as LineOf};
    ghost use Rattle.fb_reading.specs.Answers.{IsLine};
    ghost use Rattle.fb_audit.specs.declared.taken.Taken.TheVariants as taken;
    ghost use Rattle.fb_audit.specs.Concluded.{Concludes};
    ghost use Rattle.fb_audit.specs.Judged.{evals_for};
    ghost use Rattle.fb_audit.specs.Standing.{StandsFor, Takes};
    ghost use Rattle.fb_audit.specs.Taken.{IsNext, IsTakenOf, IsTakenOfSome};

    /// An audit of a report on this test of the services, by these faults, that has taken no line.
    pub fn new(
        alloc: Global,
        program: &'a Program,
        test: &'a CheckedTest,
        faults: &'a Faults,
    ) -> Audit<'a>
        requires made { test.now.services ≡ program.now.tree }
        requires kinds { faults.now.kinds ≡ kinds_given program.now.tree }
        ensures { StandsFor program.now.tree test.now.tree (choices_for faults.now) [] result }
    {
        let grounds = Grounds {
            alloc,
            program,
            test,
        };
        Audit {
            judge: Judge { grounds, faults },
            taken: Taken::Nothing,
        }
    }

    /// Takes the first line, where it is a header.
    #[tactic(auto, unfolding(fb_report::specs::Ranges::IsInRange))]
    fn begin(&mut self, line: &Line) -> Result<Option<Rule>, AllocError>
        requires { IsLine line.now }
        ensures taken { IfOk result (IsNext self.old.basis [] line.now self.new.taken) }
        ensures basis { self.new.basis ≡ self.old.basis }
    {
        match line {
            Line::Header {
                version,
                fuel,
                reduction,
            } => {
                let below = Below::new(self.judge.grounds.alloc, *version, *fuel, *reduction)?;
                self.taken = Taken::Lines(below);
                Ok(None)
            }
            Line::Inv { .. } => Ok(Some(Rule::V1)),
            Line::Plan { .. } => Ok(Some(Rule::V1)),
            Line::End { .. } => Ok(Some(Rule::V1)),
        }
    }

    /// Takes a further line.
    fn go_on<L: Ledger>(
        &mut self,
        below: Below,
        line: &Line,
        evals: &mut Steps<L>,
    ) -> Result<Option<Rule>, AllocError>
        requires { IsTakenOfSome self.old.basis (taken.Lines below) }
        ensures taken { IfOk result (λ rule. (lines : ListOf LineOf) → IsTakenOf self.old.basis lines (taken.Lines below) →
            IsNext self.old.basis lines line.now self.new.taken rule) }
        ensures basis { self.new.basis ≡ self.old.basis }
        ensures ticks { evals.new ≤ evals.old + evals_for line.now }
    {
        lines_are_more_than_tallied();
        let mut below = below;
        match self.judge.take_below(&mut below, line, evals)? {
            Some(rule) => Ok(Some(rule)),
            None => {
                self.taken = Taken::Lines(below);
                Ok(None)
            }
        }
    }

    /// Takes the next line of the report, or answers with the first rule that it breaks by itself and the lines above it.
    ///
    /// Its time doesn't grow with the number of lines above it. Of an inv line the record's own body is evaluated, of other lines
    /// no service's.
    pub fn take<L: Ledger>(
        &mut self,
        line: &Line,
        evals: &mut Steps<L>,
    ) -> Result<Option<Rule>, AllocError>
        requires { IsLine line.now }
        ensures taken { IfOk result (λ rule. (services : ServicesTree) (test : TestTree) (choices : Choices) (lines : ListOf LineOf) →
            StandsFor services test choices lines self.old → Takes services test choices lines line.now rule self.new) }
        ensures ticks { evals.new ≤ evals.old + evals_for line.now }
    {
        match mem::replace(&mut self.taken, Taken::Nothing) {
            Taken::Nothing => self.begin(line),
            Taken::Lines(below) => self.go_on(below, line, evals),
        }
    }

    /// Tries the rules on all lines, once the last one is taken: the first that is broken, or the totals.
    pub fn conclude(&self) -> Result<Conclusion, AllocError>
        ensures { IfOk result (λ found. (services : ServicesTree) (test : TestTree) (choices : Choices) (lines : ListOf LineOf) →
            StandsFor services test choices lines self.now → Concludes services test choices lines found) }
    {
        match &self.taken {
            Taken::Nothing => Ok(Conclusion::Broken(Break {
                line: 1,
                rule: Rule::V1,
            })),
            Taken::Lines(below) => self.judge.conclude(below),
        }
    }
}
