ghost use Rattle.std.specs.Prelude.{◌≡◌};
ghost use Rattle.std.specs.Option.{option_copied};
ghost use Rattle.fb_transport.specs.Sources.{fits_kind, injected_at, plan_source};

use crate::decision::{Decision, Halt};
use crate::transport::Transport;
use fb_base::{Kind, MethodId, Reply, Value};
use fb_index::{Index, Plan};
use std::alloc::Global;

/// Injects the faults of a plan, and forwards every other call.
///
/// A call of the test itself is never injected, nor an Ok that hasn't the kind that the callee gives.
#[derive(Drop)]
pub struct Injecting<'a> {
    kinds: &'a [Kind],
    plan: Plan,
}

impl<'a> Injecting<'a> {
    /// `kinds` are those that the program's methods give, by number.
    pub fn new(kinds: &'a [Kind], plan: Plan) -> Injecting<'a>
        ensures { ⟦<Injecting<'a> as Transport>⟧.gives result ≡ plan_source kinds.now plan }
    {
        Injecting { kinds, plan }
    }

    /// The reply that is injected at a call.
    fn injected(&self, at: &Index, callee: MethodId) -> Option<&Reply>
        ensures { option_copied result ≡ injected_at self.now.kinds.now self.now.plan at.now callee.0 }
    {
        if at.len() < 2 {
            return None;
        }
        let Some(kind) = self.kinds.get(callee.0 as usize) else {
            return None;
        };
        let Some(reply) = self.plan.fault_at(at) else {
            return None;
        };
        if !fits_kind(reply, *kind) {
            return None;
        }
        Some(reply)
    }
}

/// Whether a method of this kind may give the reply.
fn fits_kind(reply: &Reply, kind: Kind) -> bool
    ensures { result ≡ fits_kind reply.now kind }
{
    match reply {
        Reply::Ok(value) => value.has_kind(kind),
        Reply::Err(_) => true,
    }
}

impl<'a> Transport for Injecting<'a> {
    ghost use Rattle.std.specs.Prelude.{true};
    ghost use Rattle.fb_transport.specs.Sources.{plan_source};

    ghost gives = { λ injecting. plan_source injecting.kinds.now injecting.plan };

    ghost forwards = { λ injecting. true };

    fn begin(
        &mut self,
        alloc: Global,
        at: &Index,
        callee: MethodId,
        _args: &[Value],
    ) -> Result<Decision, Halt> {
        match self.injected(at, callee) {
            None => Ok(Decision::Forward),
            Some(reply) => Ok(Decision::Fault(reply.copy(alloc)?)),
        }
    }
}
