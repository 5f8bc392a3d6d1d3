//! The calls of a body, and the bodies that they evaluate.
ghost use Rattle.std.specs.Prelude.{◌≡◌, ◌+◌, ◌<◌, ◌^◌, length, map};
ghost use Rattle.fb_syntax.specs.Views.{view_handler, handlers_of};
ghost use Rattle.fb_check.specs.Programs.{methods_of};
ghost use Rattle.fb_tree.specs.Calls.{calls_at};
ghost use Rattle.fb_tree.specs.Runs.{Invocation};
ghost use Rattle.fb_meaning.specs.Bodies.{catches, reply_of_flow};
ghost use Rattle.fb_tree.specs.Views.{view_node};
ghost use Rattle.fb_eval.specs.Places.{HandlersStand};
ghost use Rattle.fb_eval.specs.Means.{decided_means, handled_means, invocation_means};
ghost use Rattle.fb_eval.specs.States.{IsBodyOf, IsReady, IsReadyToCall, calls_of, flow_of};
ghost use Rattle.fb_eval.specs.Moments.{Goes, Decided, Invokes, moment};
ghost use Rattle.fb_eval.specs.Calling.{calling_means, prepared_of, reply_means};

use crate::body::{Body, internal};
use crate::calling::{Calling, Prepared};
use crate::decides::Decides;
use crate::flow::Flow;
use crate::fuel::Fuel;
use crate::progress::Progress;
use crate::stop::Stop;
use crate::walk::{BEGINNING, behind_block};
use fb_base::{Code, List, MethodId, Reply, Steps, Value};
use fb_check::Counts;
use fb_syntax::Handler;
use fb_transport::Decision;
use fb_tree::{How, Node};
use std::rc::Rc;
use std::sync::ledger::Ledger;

impl<'a> Body<'a> {
    /// A call, whose unit is taken: it is prepared, decided, and its reply is taken.
    #[cycle(evaluation)]
    pub(crate) fn call<D: Decides, L: Ledger>(
        &self,
        progress: &mut Progress,
        decider: &mut D,
        fuel: &mut Fuel,
        evals: &mut Steps<L>,
        call: &Calling,
    ) -> Result<Flow, Stop>
        requires ready { IsReadyToCall self.now progress.old fuel.old }
        requires within { call.now.at.sites + 1 < 2 ^ 32 }
        requires statements { call.now.at.statements + 1 < 2 ^ 32 }
        requires stands { HandlersStand self.now.counts.now call.now.inside (handlers_of (map view_handler call.now.handlers.now)) }
        ensures { Goes 1 self.now (λ here. calling_means here call.now) progress.old progress.new (moment (D.ways decider.old) (D.wanted decider.old) fuel.old evals.old) (moment (D.ways decider.new) (D.wanted decider.new) fuel.new evals.new) (D.has_lacked decider.new) result }
    {
        let prepared = self.prepare(progress, call)?;
        match prepared {
            None => Ok(self.fault(call.at)),
            Some(request) => {
                let reply = self.decide(progress, decider, fuel, evals, request)?;
                self.take(progress, decider, fuel, evals, call, reply)
            }
        }
    }

    /// What comes of the decision on a call.
    #[cycle(evaluation)]
    fn decide<D: Decides, L: Ledger>(
        &self,
        progress: &mut Progress,
        decider: &mut D,
        fuel: &mut Fuel,
        evals: &mut Steps<L>,
        request: Prepared,
    ) -> Result<Reply, Stop>
        requires ready { IsReadyToCall self.now progress.old fuel.old }
        requires count { request.entry.count ≡ calls_at request.entry.site (calls_of progress.old) + 1 }
        requires within { request.callee.0 < length (methods_of self.now.program.now.tree) }
        ensures { Decided 1 self.now (λ here. decided_means here (prepared_of request)) progress.old progress.new (moment (D.ways decider.old) (D.wanted decider.old) fuel.old evals.old) (moment (D.ways decider.new) (D.wanted decider.new) fuel.new evals.new) (D.has_lacked decider.new) result }
    {
        let index = self.index.child(self.alloc, request.entry)?;
        let decision = decider.decide(self.alloc, &index, request.callee, request.args.as_slice())?;
        match decision {
            Decision::Forward => {
                evals.tick();
                let body = Body::of_method(self.alloc, self.program, request.callee, index);
                let args = request.args.copy(self.alloc)?;
                let node = body.invoke(decider, fuel, evals, request.callee, args)?;
                let reply = node.reply.copy(self.alloc)?;
                let how = How::Ran(Rc::new(self.alloc, node)?);
                let got = self.returned(progress, request, how, reply)?;
                Ok(got)
            }
            Decision::Fault(reply) => {
                let got = self.returned(progress, request, How::Fault, reply)?;
                Ok(got)
            }
            Decision::Known {
                reply,
                steps,
                injected,
            } => {
                fuel.take(steps)?;
                let how = How::Known { steps, injected };
                let got = self.returned(progress, request, how, reply)?;
                Ok(got)
            }
        }
    }

    /// An Ok goes to the target, and an Err to the handlers.
    #[cycle(evaluation)]
    fn take<D: Decides, L: Ledger>(
        &self,
        progress: &mut Progress,
        decider: &mut D,
        fuel: &mut Fuel,
        evals: &mut Steps<L>,
        call: &Calling,
        reply: Reply,
    ) -> Result<Flow, Stop>
        requires ready { IsReady self.now progress.old fuel.old }
        requires within { call.now.at.sites + 1 < 2 ^ 32 }
        requires statements { call.now.at.statements + 1 < 2 ^ 32 }
        requires stands { HandlersStand self.now.counts.now call.now.inside (handlers_of (map view_handler call.now.handlers.now)) }
        ensures { Goes 0 self.now (λ here. reply_means here call.now reply) progress.old progress.new (moment (D.ways decider.old) (D.wanted decider.old) fuel.old evals.old) (moment (D.ways decider.new) (D.wanted decider.new) fuel.new evals.new) (D.has_lacked decider.new) result }
    {
        match reply {
            Reply::Ok(value) => {
                if progress.variables.assign(call.target, value) {
                    Ok(Flow::Next)
                } else {
                    Ok(self.fault(call.at))
                }
            }
            Reply::Err(code) => {
                let site = call.at.sites + 1;
                self.handle(
                    progress,
                    decider,
                    fuel,
                    evals,
                    site,
                    call.inside,
                    code,
                    call.handlers,
                )
            }
        }
    }

    /// The first handler that takes the error is executed.
    #[cycle(evaluation)]
    fn handle<D: Decides, L: Ledger>(
        &self,
        progress: &mut Progress,
        decider: &mut D,
        fuel: &mut Fuel,
        evals: &mut Steps<L>,
        site: u32,
        mut at: Counts,
        code: Code,
        handlers: &[Handler],
    ) -> Result<Flow, Stop>
        requires ready { IsReady self.now progress.old fuel.old }
        requires stands { HandlersStand self.now.counts.now at (handlers_of (map view_handler handlers.now)) }
        ensures { Goes 0 self.now (λ here. handled_means here site at code (handlers_of (map view_handler handlers.now))) progress.old progress.new (moment (D.ways decider.old) (D.wanted decider.old) fuel.old evals.old) (moment (D.ways decider.new) (D.wanted decider.new) fuel.new evals.new) (D.has_lacked decider.new) result }
    {
        let mut left = handlers;
        while let [handler, rest @ ..] = left {
            if catches(handler, code) {
                return self.block(progress, decider, fuel, evals, at, &handler.body);
            }
            at = behind_block(self.counts, at, &handler.body);
            left = rest;
        }
        Ok(self.unhandled(site, code))
    }

    /// The method whose body this is, on arguments.
    #[cycle(evaluation)]
    pub(crate) fn invoke<D: Decides, L: Ledger>(
        &self,
        decider: &mut D,
        fuel: &mut Fuel,
        evals: &mut Steps<L>,
        callee: MethodId,
        args: List<Value>,
    ) -> Result<Node, Stop>
        requires within { callee.0 < length (methods_of self.now.program.now.tree) }
        requires body { IsBodyOf self.now callee }
        ensures { Invokes (invocation_means self.now.program.now.tree (D.ways decider.old).gives callee args self.now.index fuel.old) (moment (D.ways decider.old) (D.wanted decider.old) fuel.old evals.old) (moment (D.ways decider.new) (D.wanted decider.new) fuel.new evals.new) (D.has_lacked decider.new) result }
    {
        fuel.proper();
        let method = self.program.method_tree(callee);
        let mut progress = Progress::of_method(self.alloc, self.program, callee, args.as_slice())?;
        let flow = self.statements(
            &mut progress,
            decider,
            fuel,
            evals,
            BEGINNING,
            method.body.stmts.as_slice(),
        )?;
        Ok(node_of(callee, args, progress, flow))
    }
}

/// Whether a handler takes an error.
fn catches(handler: &Handler, code: Code) -> bool
    ensures { result ≡ catches handler.now.code code }
{
    match &handler.code {
        None => true,
        Some(wanted) => *wanted == code,
    }
}

/// What a method answers that ends so.
fn answer_of(flow: Flow) -> Reply
    ensures { result ≡ reply_of_flow (flow_of flow) }
{
    match flow {
        Flow::Gave(reply) => reply,
        Flow::Next | Flow::Broke | Flow::Ended(_) => Reply::Err(internal()),
    }
}

/// The invocation of a method that has come to its end.
fn node_of(callee: MethodId, args: List<Value>, progress: Progress, flow: Flow) -> Node
    ensures { view_node result ≡ Invocation callee args (calls_of progress) (reply_of_flow (flow_of flow)) progress.steps }
{
    let reply = answer_of(flow);
    Node {
        method: callee,
        args,
        calls: progress.calls,
        reply,
        steps: progress.steps,
    }
}
