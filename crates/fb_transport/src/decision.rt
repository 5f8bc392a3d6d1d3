ghost use Rattle.std.specs.Prelude.{◌≡◌};
ghost use Rattle.fb_transport.specs.declared.decision.Halt.TheVariants as halt;

use fb_base::{List, MethodId, Reply};
use std::alloc::AllocError;

/// What a call is answered.
#[derive(Drop)]
pub enum Decision {
    /// The callee is evaluated.
    Forward,
    /// This reply is injected.
    Fault(Reply),
    /// The reply is known, with all steps below the call and the callees of the injected calls there.
    Known {
        reply: Reply,
        steps: u64,
        injected: List<MethodId>,
    },
}

/// Why a call got no decision.
#[derive(Clone, Copy, Debug, PartialEq, Eq)]
pub enum Halt {
    /// The source has no answer for this call.
    Missing,
    /// Memory was refused.
    Memory,
}

impl From<AllocError> for Halt {
    ghost from_gives = { λ _ e. e ≡ halt.Memory };

    fn from(_: AllocError) -> Self {
        Halt::Memory
    }
}
