//! What all lines together come to.
ghost use Rattle.std.specs.Prelude.{◌≡◌, ◌+◌, ◌<◌, ◌^◌, List as ListOf, IfOk};
ghost use Rattle.fb_report.specs.declared.line.Line.{Line as LineOf};
ghost use Rattle.fb_tally.specs.Owned.{AreOwnersOf};
ghost use Rattle.fb_audit.specs.declared.taken.Taken.TheVariants as taken;
ghost use Rattle.fb_audit.specs.declared.verdict.Conclusion.TheVariants as conclusion;
ghost use Rattle.fb_audit.specs.Concluded.{Concludes, FirstIdleAt};
ghost use Rattle.fb_audit.specs.Judged.{basis_of};
ghost use Rattle.fb_audit.specs.Kept.{choices_of};
ghost use Rattle.fb_audit.specs.Taken.{IsTakenOf, IsTakenOfSome};

use crate::below::Below;
use crate::judge::Judge;
use crate::verdict::{Break, Conclusion, Rule};
use fb_tally::ends_are_tallied;
use std::alloc::AllocError;

/// The line with so many above it, below the header, breaks a rule.
fn broken(at: u64, rule: Rule) -> Conclusion
    requires { at + 2 < 2 ^ 64 }
    ensures { result ≡ conclusion.Broken (record { line = at + 2; rule = rule }) }
{
    Conclusion::Broken(Break { line: at + 2, rule })
}

impl Judge<'_> {
    /// With reduction, the place of the first run line that owns no record.
    fn first_idle(&self, below: &Below) -> Result<Option<u64>, AllocError>
        ensures { IfOk result (λ found. (lines : ListOf LineOf) → AreOwnersOf lines below.now.known.owners → FirstIdleAt below.now.reduction lines found) }
    {
        if below.reduction {
            return below.known.owners.first_without_record(self.grounds.alloc);
        }
        Ok(None)
    }

    /// Tries the rules on all lines.
    pub(crate) fn conclude(&self, below: &Below) -> Result<Conclusion, AllocError>
        requires { IsTakenOfSome (basis_of self.now) (taken.Lines below.now) }
        ensures { IfOk result (λ found. (lines : ListOf LineOf) → IsTakenOf (basis_of self.now) lines (taken.Lines below.now) →
            Concludes (basis_of self.now).services (basis_of self.now).test (choices_of (basis_of self.now)) lines found) }
    {
        ends_are_tallied();
        let count = below.lines.len() as u64;
        if !below.tally.has_ended() {
            return Ok(broken(count, Rule::V1));
        }
        if let Some(at) = below.known.owners.first_not_owned() {
            return Ok(broken(at, Rule::V7));
        }
        if let Some(at) = self.first_idle(below)? {
            return Ok(broken(at, Rule::V8));
        }
        let alloc = self.grounds.alloc;
        match below.known.book.first_missing(alloc, self.faults)? {
            Some(missing) => Ok(broken(
                missing.at,
                Rule::V6 {
                    index: missing.index,
                    reply: missing.reply,
                },
            )),
            None => Ok(Conclusion::Valid(below.tally.totals())),
        }
    }
}
