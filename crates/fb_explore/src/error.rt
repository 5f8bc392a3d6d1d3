//! Why a line wasn't put.
ghost use Rattle.std.specs.Prelude.{◌≡◌};
ghost use Rattle.fb_explore.specs.declared.error.PutError.TheVariants as put;

use std::alloc::AllocError;

/// Why a line wasn't put.
#[derive(Clone, Copy, Debug, PartialEq, Eq)]
pub enum PutError {
    /// The system answered with an error.
    Failed,
    /// Memory was refused.
    Memory,
}

impl From<AllocError> for PutError {
    ghost from_gives = { λ _ e. e ≡ put.Memory };

    fn from(_: AllocError) -> Self {
        PutError::Memory
    }
}
