ghost use Rattle.std.specs.Prelude.{◌≡◌, []};
ghost use Rattle.fb_transport.specs.Requests.{KeepsRequest, request_of};
ghost use Rattle.fb_transport.specs.Sources.{Answers, MayForward};

use crate::decision::{Decision, Halt};
use crate::request::Request;
use crate::transport::Transport;
use fb_base::{List, MethodId, Value};
use fb_index::Index;
use std::alloc::Global;

/// Decides as another transport does, and keeps each request.
#[derive(Drop)]
pub struct Tracing<T> {
    inner: T,
    requests: List<Request>,
}

impl<T: Transport + Drop> Tracing<T> {
    pub fn new(alloc: Global, inner: T) -> Tracing<T>
        ensures inner { result.inner ≡ inner }
        ensures requests { result.requests ≡ [] }
    {
        Tracing {
            inner,
            requests: List::new(alloc),
        }
    }

    /// Each request so far, in order, one that got no answer too. A request that was refused memory is there or not.
    pub fn requests(&self) -> &[Request]
        ensures { result.now ≡ self.now.requests }
    {
        self.requests.as_slice()
    }
}

impl<T: Transport + Drop> Transport for Tracing<T> {
    ghost gives = { λ tracing. T.gives tracing.inner };

    ghost forwards = { λ tracing. T.forwards tracing.inner };

    fn begin(
        &mut self,
        alloc: Global,
        at: &Index,
        callee: MethodId,
        args: &[Value],
    ) -> Result<Decision, Halt>
        ensures answers { Answers (T.gives self.old.inner at.now callee.0 args.now) result }
        ensures evaluates { MayForward (T.forwards self.old.inner) result }
        ensures gives { T.gives self.new.inner ≡ T.gives self.old.inner }
        ensures forwards { T.forwards self.new.inner ≡ T.forwards self.old.inner }
        ensures keeps { KeepsRequest self.old.requests (request_of at.now callee args.now) result self.new.requests }
    {
        let request = Request::of(alloc, at, callee, args)?;
        self.requests.push(request)?;
        self.inner.begin(alloc, at, callee, args)
    }
}
