//! Whether a record is true: its method makes it again where its calls get its replies.
ghost use Rattle.std.specs.Prelude.{◌≡◌, ◌+◌, ◌≤◌, ◌<◌, length, map, IfOk};
ghost use Rattle.fb_check.specs.Programs.{methods_of};
ghost use Rattle.fb_eval.specs.Units.{most_units};
ghost use Rattle.fb_meaning.specs.Records.{IsTrueRecord};
ghost use Rattle.fb_meaning.specs.Replays.{IsMadeAgain};
ghost use Rattle.fb_evidence.specs.Deciding.{Decides};
ghost use Rattle.fb_evidence.specs.NewRecords.{IsJudged};
ghost use Rattle.fb_evidence.specs.Scripts.{reply_in};

use crate::grounds::Grounds;
use fb_base::{Reply, Steps};
use fb_eval::{Fuel, Stop, eval_local};
use fb_index::Entry;
use fb_meaning::{calls_are_decided, decisions_make_the_run};
use fb_report::{NamedRecord, find_record};
use fb_transport::Scripted;
use fb_tree::{Asked, Record, same_record};
use std::alloc::{AllocError, Global};
use std::sync::ledger::Ledger;

/// The reply of each call, at its entry.
fn replies_in(alloc: Global, calls: &[Asked]) -> Result<Vec<(Entry, Reply)>, AllocError>
    ensures { IfOk result (λ replies. replies.items ≡ map reply_in calls.now) }
{
    let mut replies = Vec::new(alloc);
    for asked in calls {
        replies.push((asked.entry, asked.reply.copy(alloc)?))?;
    }
    Ok(replies)
}

impl Grounds<'_> {
    /// Whether the method makes the record with so much fuel, where its calls get the record's replies.
    fn makes_again<L: Ledger>(
        &self,
        fuel: u64,
        item: &Record,
        evals: &mut Steps<L>,
    ) -> Result<bool, AllocError>
        requires within { item.now.method.0 < length (methods_of self.now.program.now.tree) }
        requires small { fuel ≤ most_units }
        ensures made { IfOk result (Decides (IsMadeAgain self.now.program.now.tree fuel item.now)) }
        ensures ticks { evals.new ≤ evals.old + 1 }
    {
        calls_are_decided();
        decisions_make_the_run();
        let replies = replies_in(self.alloc, item.calls.as_slice())?;
        let mut script = Scripted::new(self.alloc, replies)?;
        let mut units = Fuel::of(fuel);
        match eval_local(
            self.alloc,
            self.program,
            item.method,
            item.args.as_slice(),
            &mut script,
            &mut units,
            evals,
        ) {
            Ok(made) => Ok(same_record(&made, item)),
            Err(Stop::Spent) => Ok(false),
            Err(Stop::Missing) => Ok(false),
            Err(Stop::Memory) => Err(AllocError),
        }
    }

    /// Whether the record is true with so much fuel.
    fn is_true<L: Ledger>(
        &self,
        fuel: u64,
        item: &Record,
        evals: &mut Steps<L>,
    ) -> Result<bool, AllocError>
        requires small { fuel ≤ most_units }
        ensures decides { IfOk result (Decides (IsTrueRecord self.now.program.now.tree fuel item.now)) }
        ensures ticks { evals.new ≤ evals.old + 1 }
    {
        if !self.fits(item) {
            return Ok(false);
        }
        let again = self.makes_again(fuel, item, evals)?;
        Ok(again)
    }

    /// The record by the numbers of its methods, where it is true with so much fuel.
    pub(crate) fn true_record<L: Ledger>(
        &self,
        fuel: u64,
        made: &NamedRecord,
        evals: &mut Steps<L>,
    ) -> Result<Option<Record>, AllocError>
        requires small { fuel ≤ most_units }
        ensures judged { IfOk result (IsJudged self.now.program.now.tree fuel made.now) }
        ensures ticks { evals.new ≤ evals.old + 1 }
    {
        let Some(item) = find_record(self.alloc, self.program, made)? else {
            return Ok(None);
        };
        if self.is_true(fuel, &item, evals)? {
            Ok(Some(item))
        } else {
            Ok(None)
        }
    }
}
