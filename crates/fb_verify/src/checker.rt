//! A checker of bytes that come piece by piece.
ghost use Rattle.std.specs.Prelude.{◌≡◌, ℕ, [], List, ◌++◌, IfOk, OnErr, IsErr};
ghost use Rattle.fb_syntax.specs.Trees.{ServicesTree, TestTree};
ghost use Rattle.fb_campaign.specs.Runs.{Choices};
ghost use Rattle.fb_check.specs.Programs.{kinds_given};
ghost use Rattle.fb_config.specs.Choices.{choices_for};
ghost use Rattle.fb_verify.specs.Standing.{HasFailed, IsFed, StandsFor};
ghost use Rattle.fb_verify.specs.Ticks.{IsTickedInPiece};
ghost use Rattle.fb_verify.specs.Verdicts.{IsVerdict};

use crate::reading::Reading;
use crate::verdict::Verdict;
use fb_audit::{Audit, Break};
use fb_base::Steps;
use fb_check::{CheckedTest, Program};
use fb_config::Faults;
use std::alloc::{AllocError, Global};
use std::sync::ledger::Ledger;

/// Whether some whole line so far breaks a rule on lines.
#[derive(Debug, Drop, Clone, Copy, PartialEq, Eq)]
pub enum Fed {
    Going,
    Broken,
}

#[derive(Drop)]
enum State<'a> {
    Going(Reading<'a>),
    Broken(Break),
    Failed,
}

/// Checks the bytes of a report, which come piece by piece.
///
/// It keeps what stands behind the last line feed, and of the lines above what later rules need.
#[derive(Drop)]
pub struct Checker<'a> {
    state: State<'a>,
}

impl<'a> Checker<'a> {
    /// A checker of reports of a test's campaigns, with these choices.
    pub fn new(
        alloc: Global,
        program: &'a Program,
        test: &'a CheckedTest,
        faults: &'a Faults,
    ) -> Checker<'a>
        requires made { test.now.services ≡ program.now.tree }
        requires kinds { faults.now.kinds ≡ kinds_given program.now.tree }
        ensures { StandsFor program.now.tree test.now.tree (choices_for faults.now) [] result }
    {
        Checker {
            state: State::Going(Reading {
                alloc,
                audit: Audit::new(alloc, program, test, faults),
                count: 0,
                tail: Vec::new(alloc),
            }),
        }
    }

    /// Takes the next bytes. Once memory is refused, each later call answers so.
    ///
    /// Its time grows with the piece, and with what the rules ask of each line.
    pub fn feed<L: Ledger>(&mut self, piece: &[u8], evals: &mut Steps<L>) -> Result<Fed, AllocError>
        ensures stands { IfOk result (λ fed. (services : ServicesTree) (test : TestTree) (choices : Choices) (bytes : List ℕ)
            → StandsFor services test choices bytes self.old → StandsFor services test choices (bytes ++ piece.now) self.new) }
        ensures told { IfOk result (λ fed. (services : ServicesTree) (test : TestTree) (choices : Choices) (bytes : List ℕ)
            → StandsFor services test choices bytes self.old → IsFed services test choices (bytes ++ piece.now) fed) }
        ensures failed { OnErr result (HasFailed self.new) }
        ensures again { HasFailed self.old → IsErr result }
        ensures still { HasFailed self.old → evals.new ≡ evals.old }
        ensures ticks { (services : ServicesTree) (test : TestTree) (choices : Choices) (bytes : List ℕ)
            → StandsFor services test choices bytes self.old → IsTickedInPiece bytes piece.now evals.old evals.new }
    {
        let taken = match &mut self.state {
            State::Going(reading) => reading.take(piece, evals),
            State::Broken(_) => return Ok(Fed::Broken),
            State::Failed => return Err(AllocError),
        };
        match taken {
            Ok(None) => Ok(Fed::Going),
            Ok(Some(found)) => {
                self.state = State::Broken(found);
                Ok(Fed::Broken)
            }
            Err(error) => {
                self.state = State::Failed;
                Err(error)
            }
        }
    }

    /// What is found of all bytes that it was fed.
    pub fn finish(self) -> Result<Verdict, AllocError>
        ensures verdict { IfOk result (λ verdict. (services : ServicesTree) (test : TestTree) (choices : Choices) (bytes : List ℕ)
            → StandsFor services test choices bytes self.entry → IsVerdict services test choices bytes verdict) }
        ensures failed { HasFailed self.entry → IsErr result }
    {
        let Checker { state } = self;
        match state {
            State::Going(reading) => reading.finish(),
            State::Broken(Break { line, rule }) => Ok(Verdict::No { line, rule }),
            State::Failed => Err(AllocError),
        }
    }
}
