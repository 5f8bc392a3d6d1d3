//! Walks through recorded invocations, where a plan decides on their calls.
ghost use Rattle.std.specs.Prelude.{◌≡◌, ◌≤◌, ◌<◌, ◌++◌, [], ◌∷◌, Some, length, IfOk, MatchOption};
ghost use Rattle.fb_graph.specs.Chain.{IsRank};
ghost use Rattle.fb_check.specs.Calls.{graph_of};
ghost use Rattle.fb_check.specs.Programs.{methods_of};
ghost use Rattle.fb_eval.specs.Units.{most_units};
ghost use Rattle.fb_transport.specs.Sources.{fault_or_forward};
ghost use Rattle.fb_stitch.specs.Sources.{AreTrueOf};
ghost use Rattle.fb_stitch.specs.Stitched.{IsSound};
ghost use Rattle.fb_stitch.specs.Finding.{EndsAt, FindsCall, FindsTree, GoesOnWith, ground_of, prepared_of};

use crate::found::Found;
use fb_base::{MethodId, Reply, Value};
use fb_check::{Program, ranks_are_above_callees};
use fb_index::{Entry, Index, Plan};
use fb_meaning::{decisions_make_the_run, runs_go_alike};
use fb_store::{Cursor, Next, Store};
use fb_transport::{Decision, Injecting, Transport};
use std::alloc::{AllocError, Global};

/// What walks go over: the store's records, where the plan decides which calls fail.
#[derive(Drop)]
pub struct Walks<'a> {
    pub alloc: Global,
    pub program: &'a Program,
    pub store: &'a Store,
    pub plan: &'a Plan,
    /// How many steps may come together.
    pub limit: u64,
}

/// A call that a body asks for.
#[derive(Drop)]
pub struct Request<'a> {
    pub entry: Entry,
    pub callee: MethodId,
    pub args: &'a [Value],
}

impl<'a> Walks<'a> {
    /// Walks end and meet at most one tree, where the records are true.
    pub fn proper(&self)
        requires known { AreTrueOf self.now.program.now.tree self.now.store.now }
        requires small { self.now.limit ≤ most_units }
        ensures { IsSound (ground_of self.now) }
    {
        self.store.proper();
        decisions_make_the_run();
        runs_go_alike();
        ranks_are_above_callees();
    }

    /// The reply that the plan injects at a call.
    pub fn fault(
        &self,
        at: &Index,
        callee: MethodId,
        args: &[Value],
    ) -> Result<Option<Reply>, AllocError>
        ensures { IfOk result (λ fault. (ground_of self.now).source at.now callee.0 args.now ≡ Some (fault_or_forward fault)) }
    {
        let mut injecting = Injecting::new(self.program.kinds(), self.plan.copy()?);
        match injecting.begin(self.alloc, at, callee, args) {
            Ok(Decision::Fault(reply)) => Ok(Some(reply)),
            Ok(Decision::Forward) => Ok(None),
            Ok(Decision::Known { .. }) => Ok(None),
            Err(_) => Err(AllocError),
        }
    }

    /// The rank of a method, if there is one with this number.
    pub fn rank(&self, callee: MethodId) -> Option<u32>
        ensures { MatchOption result (length (methods_of self.now.program.now.tree) ≤ callee.0)
            (λ rank. IsRank (graph_of self.now.program.now.tree) callee.0 rank) }
    {
        if callee.0 >= self.program.count() {
            return None;
        }
        Some(self.program.rank(callee))
    }

    /// Walks an invocation, and gives its reply.
    ///
    /// It goes along the calls of the records that begin with the replies so far, and ends where no record goes on.
    #[cycle(walks)]
    pub fn invocation(
        &self,
        found: &mut Found,
        callee: MethodId,
        args: &[Value],
        at: &Index,
        rank: u32,
    ) -> Result<Option<Reply>, AllocError>
        requires sound { IsSound (ground_of self.now) }
        requires rank { IsRank (graph_of self.now.program.now.tree) callee.0 rank }
        requires within { found.old.steps ≤ self.now.limit }
        ensures { IfOk result (λ reply. FindsTree (ground_of self.now) callee args.now at.now found.old found.new reply) }
    {
        let Some(mut cursor) = self.store.start(callee, args) else {
            return Ok(None);
        };
        let slot = found.open()?;
        loop {
            match cursor.at() {
                Next::Done { id } => return self.end(found, slot, id),
                Next::Call { asked } => {
                    let request = Request {
                        entry: asked.entry,
                        callee: asked.callee,
                        args: asked.args.as_slice(),
                    };
                    let lower = self.program.rank(asked.callee);
                    let Some(next) = self.further(found, cursor, &request, at, lower)? else {
                        return Ok(None);
                    };
                    cursor = next;
                }
            }
        }
    }

    /// Walks the next call of a body, and goes on with its reply.
    #[cycle(walks)]
    fn further<'b>(
        &self,
        found: &mut Found,
        cursor: Cursor<'b>,
        request: &Request<'_>,
        at: &Index,
        rank: u32,
    ) -> Result<Option<Cursor<'b>>, AllocError>
        requires sound { IsSound (ground_of self.now) }
        requires rank { IsRank (graph_of self.now.program.now.tree) request.now.callee.0 rank }
        requires within { found.old.steps ≤ self.now.limit }
        ensures { IfOk result (GoesOnWith (ground_of self.now) (prepared_of request.now) (at.now ++ request.now.entry ∷ []) cursor.entry found.old found.new) }
    {
        let Some(reply) = self.call(found, request, at, rank)? else {
            return Ok(None);
        };
        Ok(cursor.take(&reply))
    }

    /// Walks a call that the body at an index makes, and gives its reply.
    #[cycle(walks)]
    pub fn call(
        &self,
        found: &mut Found,
        request: &Request<'_>,
        at: &Index,
        rank: u32,
    ) -> Result<Option<Reply>, AllocError>
        requires sound { IsSound (ground_of self.now) }
        requires rank { IsRank (graph_of self.now.program.now.tree) request.now.callee.0 rank }
        requires within { found.old.steps ≤ self.now.limit }
        ensures { IfOk result (λ reply. FindsCall (ground_of self.now) (prepared_of request.now) (at.now ++ request.now.entry ∷ []) found.old found.new reply) }
    {
        let index = at.child(self.alloc, request.entry)?;
        match self.fault(&index, request.callee, request.args)? {
            Some(reply) => {
                found.inject(index, request.callee, reply.copy(self.alloc)?)?;
                Ok(Some(reply))
            }
            None => {
                found.visit(index.copy()?, request.callee)?;
                self.invocation(found, request.callee, request.args, &index, rank)
            }
        }
    }

    /// Ends an invocation with the record that has this number, unless its steps are too many.
    fn end(&self, found: &mut Found, slot: usize, id: u64) -> Result<Option<Reply>, AllocError>
        requires id { id < length self.now.store.now }
        requires small { self.now.limit ≤ most_units }
        requires slot { slot < length found.old.uses.items }
        requires within { found.old.steps ≤ self.now.limit }
        ensures { IfOk result (λ reply. EndsAt (ground_of self.now) slot id found.old found.new reply) }
    {
        let Some(item) = self.store.item(id) else {
            return Ok(None);
        };
        if item.steps > self.limit - found.steps {
            return Ok(None);
        }
        let reply = item.reply.copy(self.alloc)?;
        found.close(slot, id, item.steps);
        Ok(Some(reply))
    }
}
