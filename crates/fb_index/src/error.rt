//! Why a text was not read.
ghost use Rattle.std.specs.Prelude.{◌≡◌};
ghost use Rattle.fb_index.specs.declared.error.IndexError.TheVariants as index;
ghost use Rattle.fb_index.specs.declared.error.PlanError.TheVariants as plan;

use std::alloc::AllocError;
use thiserror::Error;

/// Why a text gave no index.
#[derive(Clone, Copy, Debug, PartialEq, Eq, Error)]
pub enum IndexError {
    /// The bytes are no index. So many bytes at their front still begin one.
    #[error("no index, from byte {offset} on")]
    BadIndex { offset: u64 },
    /// Memory was refused.
    #[error("out of memory")]
    Memory,
}

impl From<AllocError> for IndexError {
    ghost from_gives = { λ _ e. e ≡ index.Memory };

    fn from(_: AllocError) -> Self {
        IndexError::Memory
    }
}

/// Why a text gave no plan.
#[derive(Clone, Copy, Debug, PartialEq, Eq, Error)]
pub enum PlanError {
    /// The bytes are no plan. So many bytes at their front still begin one.
    #[error("no plan, from byte {offset} on")]
    BadPlan { offset: u64 },
    /// Memory was refused.
    #[error("out of memory")]
    Memory,
}

impl From<AllocError> for PlanError {
    ghost from_gives = { λ _ e. e ≡ plan.Memory };

    fn from(_: AllocError) -> Self {
        PlanError::Memory
    }
}
