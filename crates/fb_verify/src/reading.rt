//! The lines of some bytes, judged as they come.
ghost use Rattle.std.specs.Prelude.{◌≡◌, ℕ, ◌+◌, ◌≤◌, [], List, ◌++◌, drop, length, IfOk};
ghost use Rattle.fb_index.specs.Pieces.{IsFree};
ghost use Rattle.fb_syntax.specs.Trees.{ServicesTree, TestTree};
ghost use Rattle.fb_campaign.specs.Runs.{Choices};
ghost use Rattle.fb_report.specs.declared.line.Line.{Line as LineOf};
ghost use Rattle.fb_report.specs.Lines.{line_feed};
ghost use Rattle.fb_reading.specs.Answers.{IsLine};
ghost use Rattle.fb_audit.specs.Standing.{StandsFor as HasTaken};
ghost use Rattle.fb_verify.specs.Reading.{HasRead};
ghost use Rattle.fb_verify.specs.Taking.{invs_in, ended, IsJudged, IsTaken, IsFound};
ghost use Rattle.fb_verify.specs.Ticks.{IsTickedBy};
ghost use Rattle.fb_verify.specs.Verdicts.{IsVerdict};

use crate::unread::rule_of;
use crate::verdict::Verdict;
use crate::whole::read_whole;
use fb_audit::{Audit, Break, Conclusion, Rule, concluded_lines_are_valid};
use fb_base::Steps;
use fb_reading::LineError;
use fb_report::{Line, Piece, split_lines};
use std::alloc::{AllocError, Global};
use std::sync::ledger::Ledger;

/// What is kept of bytes of which no line has broken a rule.
#[derive(Drop)]
pub(crate) struct Reading<'a> {
    pub(crate) alloc: Global,
    pub(crate) audit: Audit<'a>,
    /// How many lines were read.
    pub(crate) count: u64,
    /// What stands behind the last line feed.
    pub(crate) tail: Vec<u8>,
}

/// Gives the first rule that a line breaks, by what was read of its bytes.
fn judge<L: Ledger>(
    audit: &mut Audit<'_>,
    read: Result<Line, LineError>,
    evals: &mut Steps<L>,
) -> Result<Option<Rule>, AllocError>
    requires { IfOk read IsLine }
    ensures judged { IfOk result (λ told. (services : ServicesTree) (test : TestTree) (choices : Choices) (above : List LineOf)
        → HasTaken services test choices above audit.old → IsJudged services test choices above read told audit.new) }
    ensures ticks { evals.new ≤ evals.old + invs_in read }
{
    match read {
        Ok(line) => audit.take(&line, evals),
        Err(error) => Ok(Some(rule_of(&error)?)),
    }
}

/// The bytes from a place on.
fn behind(piece: &[u8], offset: u64) -> &[u8]
    requires { offset ≤ length piece.now }
    ensures { result.now ≡ drop offset piece.now }
{
    &piece[offset as usize..]
}

impl<'a> Reading<'a> {
    /// Takes the line that these bytes end, and gives the first rule that it breaks.
    fn take_line<L: Ledger>(
        &mut self,
        text: &[u8],
        evals: &mut Steps<L>,
    ) -> Result<Option<Break>, AllocError>
        ensures taken { IfOk result (λ found. (services : ServicesTree) (test : TestTree) (choices : Choices) (bytes : List ℕ) (lines : List LineOf)
            → HasRead services test choices bytes lines self.old → IsFree line_feed text.now
            → IsTaken services test choices (bytes ++ ended text.now) lines found self.new evals.old evals.new) }
        ensures ticks { (services : ServicesTree) (test : TestTree) (choices : Choices) (bytes : List ℕ) (lines : List LineOf)
            → HasRead services test choices bytes lines self.old → IsFree line_feed text.now
            → IsTickedBy (bytes ++ ended text.now) lines evals.old evals.new }
    {
        let number = self.count.checked_add(1).ok_or(AllocError)?;
        let read = read_whole(self.alloc, &mut self.tail, text);
        let broken = judge(&mut self.audit, read, evals)?;
        self.count = number;
        match broken {
            None => Ok(None),
            Some(rule) => Ok(Some(Break { line: number, rule })),
        }
    }

    /// Takes the lines that these bytes end, up to the first that breaks a rule, and keeps what stands behind the last one.
    pub(crate) fn take<L: Ledger>(
        &mut self,
        piece: &[u8],
        evals: &mut Steps<L>,
    ) -> Result<Option<Break>, AllocError>
        ensures found { IfOk result (λ found. (services : ServicesTree) (test : TestTree) (choices : Choices) (bytes : List ℕ) (lines : List LineOf)
            → HasRead services test choices bytes lines self.old → IsFound services test choices (bytes ++ piece.now) found self.new) }
        ensures ticks { (services : ServicesTree) (test : TestTree) (choices : Choices) (bytes : List ℕ) (lines : List LineOf)
            → HasRead services test choices bytes lines self.old → IsTickedBy (bytes ++ piece.now) lines evals.old evals.new }
    {
        let mut pieces = split_lines(piece);
        while let Some(next) = pieces.next() {
            match next {
                Piece::Whole(text) => {
                    if let Some(found) = self.take_line(text, evals)? {
                        return Ok(Some(found));
                    }
                }
                Piece::Cut { offset } => {
                    self.tail.extend_from_slice(behind(piece, offset))?;
                    return Ok(None);
                }
            }
        }
        Ok(None)
    }

    /// What is found of the bytes that were taken, where no more follow.
    pub(crate) fn finish(&self) -> Result<Verdict, AllocError>
        ensures { IfOk result (λ verdict. (services : ServicesTree) (test : TestTree) (choices : Choices) (bytes : List ℕ) (lines : List LineOf)
            → HasRead services test choices bytes lines self.now → IsVerdict services test choices bytes verdict) }
    {
        concluded_lines_are_valid();
        if !self.tail.as_slice().is_empty() {
            let line = self.count.checked_add(1).ok_or(AllocError)?;
            return Ok(Verdict::No {
                line,
                rule: Rule::CutLine,
            });
        }
        match self.audit.conclude()? {
            Conclusion::Valid(totals) => Ok(Verdict::Yes(totals)),
            Conclusion::Broken(Break { line, rule }) => Ok(Verdict::No { line, rule }),
        }
    }
}
