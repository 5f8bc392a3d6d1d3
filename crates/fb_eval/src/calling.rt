//! What is done with a call before it is decided, and after it has returned.
ghost use Rattle.std.specs.Prelude.{◌≡◌, ◌+◌, ℕ, ◌≤◌, ◌<◌, ◌^◌, length, map, IfOk, IfSome, OnOk};
ghost use Rattle.std.specs.Option.{option_map};
ghost use Rattle.fb_syntax.specs.Views.{view_expr, expressions_of};
ghost use Rattle.fb_check.specs.Programs.{methods_of};
ghost use Rattle.fb_tree.specs.Calls.{calls_at};
ghost use Rattle.fb_tree.specs.Records.{records_below};
ghost use Rattle.fb_tree.specs.Views.{view_how};
ghost use Rattle.fb_meaning.specs.Bodies.{entry_at, with_call};
ghost use Rattle.fb_eval.specs.Units.{most_units};
ghost use Rattle.fb_eval.specs.States.{CountsSites, IsReady, IsReadyToCall, IsTold, calls_of, invocations, state_of};
ghost use Rattle.fb_eval.specs.Calling.{prepared_of, prepared_now};

use crate::body::Body;
use crate::progress::Progress;
use fb_base::{List, MethodId, Name, OpError, Reply, Value};
use fb_check::Counts;
use fb_expression::values_of;
use fb_index::Entry;
use fb_syntax::{Expr, Handler};
use fb_tree::{How, Made};
use std::alloc::AllocError;

/// A call as it stands in its body.
#[derive(Drop)]
pub(crate) struct Calling<'s> {
    pub(crate) at: Counts,
    /// Where its first handler's block stands.
    pub(crate) inside: Counts,
    pub(crate) target: &'s Name,
    pub(crate) service: &'s Name,
    pub(crate) method: &'s Name,
    pub(crate) args: &'s [Expr],
    pub(crate) handlers: &'s [Handler],
}

/// A call that is prepared: where it stands in its body, and what it asks for.
#[derive(Drop)]
pub(crate) struct Prepared {
    pub(crate) entry: Entry,
    pub(crate) callee: MethodId,
    pub(crate) args: List<Value>,
}

impl<'a> Body<'a> {
    /// The site of the call at this position, and how often it has called with this time.
    #[tactic(auto, using(crate::proofs::Progresses::few_at_site))]
    fn entry(&self, progress: &Progress, at: Counts) -> Entry
        requires sites { CountsSites progress.now }
        requires small { at.sites + 1 < 2 ^ 32 }
        requires few { length progress.now.calls.items < most_units }
        ensures { result ≡ entry_at (at.sites + 1) (calls_of progress.now) }
    {
        let site = at.sites + 1;
        Entry {
            site,
            count: progress.calls_at(site) + 1,
        }
    }

    /// The request of a call, none where an expression faults.
    pub(crate) fn prepare(
        &self,
        progress: &Progress,
        call: &Calling,
    ) -> Result<Option<Prepared>, AllocError>
        requires told { IsTold self.now progress.now }
        requires sites { CountsSites progress.now }
        requires small { call.now.at.sites + 1 < 2 ^ 32 }
        requires few { length progress.now.calls.items < most_units }
        ensures prepared { IfOk result (λ request. option_map prepared_of request ≡ prepared_now self.now progress.now call.now) }
        ensures within { IfOk result (λ request. IfSome request (λ r. r.callee.0 < length (methods_of self.now.program.now.tree))) }
        ensures count { IfOk result (λ request. IfSome request (λ r. r.entry.count ≡ calls_at r.entry.site (calls_of progress.now) + 1)) }
    {
        let Some(callee) = self.program.method_named(call.service, call.method) else {
            return Ok(None);
        };
        match values_of(self.alloc, &self.reads(progress), call.args) {
            Ok(args) => {
                let entry = self.entry(progress, call.at);
                Ok(Some(Prepared {
                    entry,
                    callee,
                    args,
                }))
            }
            Err(OpError::Fault) => Ok(None),
            Err(OpError::Memory) => Err(AllocError),
        }
    }

    /// Keeps a call that got its reply, and gives the reply.
    pub(crate) fn returned(
        &self,
        progress: &mut Progress,
        request: Prepared,
        how: How,
        reply: Reply,
    ) -> Result<Reply, AllocError>
        requires sites { CountsSites progress.old }
        requires count { request.entry.count ≡ calls_at request.entry.site (calls_of progress.old) + 1 }
        ensures reply { IfOk result (λ got. got ≡ reply) }
        ensures state { OnOk result ((fuel left : ℕ) →
            state_of progress.new left ≡ with_call (state_of progress.old fuel) (prepared_of request) (view_how how) reply left) }
        ensures ready { OnOk result ((fuel left : ℕ) → IsReadyToCall self.now progress.old fuel → left ≤ fuel → IsReady self.now progress.new left) }
        ensures ticks { OnOk result (invocations progress.new ≡ invocations progress.old + length (records_below (view_how how))) }
    {
        let got = reply.copy(self.alloc)?;
        let Prepared {
            entry,
            callee,
            args,
        } = request;
        progress.keep(
            self.alloc,
            Made {
                entry,
                callee,
                args,
                how,
                reply,
            },
        )?;
        Ok(got)
    }
}
