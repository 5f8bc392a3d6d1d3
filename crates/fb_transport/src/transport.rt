ghost use Rattle.std.specs.Prelude.{◌≡◌, Bool};
ghost use Rattle.fb_transport.specs.Sources.{Source, Answers, MayForward};

use crate::decision::{Decision, Halt};
use fb_base::{MethodId, Value};
use fb_index::Index;
use std::alloc::Global;

/// Decides what each call of a run is answered.
pub trait Transport {
    /// The decision for each call. No call of `begin` changes it.
    ghost gives: { Self → Source };

    /// Whether a callee may be evaluated.
    ghost forwards: { Self → Bool };

    /// Decides on a call before it is made.
    fn begin(
        &mut self,
        alloc: Global,
        at: &Index,
        callee: MethodId,
        args: &[Value],
    ) -> Result<Decision, Halt>
        ensures answers { Answers (gives self.old at.now callee.0 args.now) result }
        ensures evaluates { MayForward (forwards self.old) result }
        ensures gives { gives self.new ≡ gives self.old }
        ensures forwards { forwards self.new ≡ forwards self.old };
}
