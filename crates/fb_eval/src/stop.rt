use fb_transport::Halt;
use std::alloc::{AllocError, AllocFailed};

/// Why an evaluation didn't come to its end.
#[derive(Clone, Copy, Debug, PartialEq, Eq)]
pub enum Stop {
    /// It needs more units of fuel than it was handed.
    Spent,
    /// The transport had no answer to a call.
    Missing,
    /// Memory was refused.
    Memory,
}

/// There are fewer units than are to be taken.
#[derive(Clone, Copy, Debug, PartialEq, Eq)]
pub(crate) struct Exhausted;

impl From<Exhausted> for Stop {
    ghost use Rattle.std.specs.Prelude.{◌≡◌};
    ghost use Rattle.fb_eval.specs.declared.stop.Stop.TheVariants.{Spent};

    ghost from_gives = { λ _ e. e ≡ Spent };

    fn from(_e: Exhausted) -> Stop {
        Stop::Spent
    }
}

impl From<AllocError> for Stop {
    ghost use Rattle.std.specs.Prelude.{◌≡◌};
    ghost use Rattle.fb_eval.specs.declared.stop.Stop.TheVariants.{Memory};

    ghost from_gives = { λ _ e. e ≡ Memory };

    fn from(_e: AllocError) -> Stop {
        Stop::Memory
    }
}

impl<T: Drop> From<AllocFailed<T>> for Stop {
    ghost use Rattle.std.specs.Prelude.{◌≡◌};
    ghost use Rattle.fb_eval.specs.declared.stop.Stop.TheVariants.{Memory};

    ghost from_gives = { λ _ e. e ≡ Memory };

    fn from(_e: AllocFailed<T>) -> Stop {
        Stop::Memory
    }
}

impl From<Halt> for Stop {
    ghost use Rattle.std.specs.Prelude.{◌≡◌};
    ghost use Rattle.fb_eval.specs.Stops.{stop_of_halt};

    ghost from_gives = { λ halt stop. stop ≡ stop_of_halt halt };

    fn from(halt: Halt) -> Stop {
        match halt {
            Halt::Missing => Stop::Missing,
            Halt::Memory => Stop::Memory,
        }
    }
}
