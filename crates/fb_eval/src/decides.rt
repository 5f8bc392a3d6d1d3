ghost use Rattle.std.specs.Prelude.{◌≡◌, Option};
ghost use Rattle.fb_transport.specs.Sources.{Answers, MayForward};
ghost use Rattle.fb_transport.specs.declared.request.Request.{Request};
ghost use Rattle.fb_eval.specs.Ways.{Ways, WantedAfter, lacks_decision};

use fb_base::{MethodId, Value};
use fb_index::Index;
use fb_transport::{Decision, Halt, Scripted, Transport};
use std::alloc::Global;

/// Decides on calls, and may tell which request had no answer.
pub(crate) trait Decides {
    ghost ways: { Self → Ways };

    /// The last request that had no answer, where it is told.
    ghost wanted: { Self → Option Request };

    /// What is known after a request without an answer.
    ghost has_lacked: { Self → Type 0 };

    fn decide(
        &mut self,
        alloc: Global,
        at: &Index,
        callee: MethodId,
        args: &[Value],
    ) -> Result<Decision, Halt>
        ensures answers { Answers ((ways self.old).gives at.now callee.0 args.now) result }
        ensures evaluates { MayForward (ways self.old).forwards result }
        ensures ways { ways self.new ≡ ways self.old }
        ensures wanted { WantedAfter (lacks_decision result) (wanted self.old) (wanted self.new) (has_lacked self.new) };
}

impl<T: Transport> Decides for T {
    ghost use Rattle.std.specs.Prelude.{None};

    ghost ways = { λ t. record { gives = T.gives t; forwards = T.forwards t } };

    ghost wanted = { λ t. None };

    ghost has_lacked = { λ t. Unit {0} };

    fn decide(
        &mut self,
        alloc: Global,
        at: &Index,
        callee: MethodId,
        args: &[Value],
    ) -> Result<Decision, Halt> {
        self.begin(alloc, at, callee, args)
    }
}

/// A script, of which it is told what it lacked last.
#[derive(Drop)]
pub(crate) struct Local {
    pub(crate) script: Scripted,
}

impl Decides for Local {
    ghost use Rattle.std.specs.Prelude.{false};
    ghost use Rattle.fb_eval.specs.Ways.{IsLacked};

    ghost ways = { λ l. record { gives = ⟦<Scripted as Transport>⟧.gives l.script; forwards = false } };

    ghost wanted = { λ l. l.script.wanted };

    ghost has_lacked = { λ l. IsLacked (⟦<Scripted as Transport>⟧.gives l.script) l.script.wanted };

    fn decide(
        &mut self,
        alloc: Global,
        at: &Index,
        callee: MethodId,
        args: &[Value],
    ) -> Result<Decision, Halt> {
        self.script.begin(alloc, at, callee, args)
    }
}
