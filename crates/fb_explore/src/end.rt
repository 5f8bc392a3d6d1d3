//! Why a campaign has no totals.
ghost use Rattle.std.specs.Prelude.{◌≡◌};
ghost use Rattle.fb_explore.specs.declared.end.ExploreEnd.TheVariants as end;
ghost use Rattle.fb_explore.specs.Ends.{end_of};

use crate::error::PutError;
use fb_index::Plan;
use std::alloc::AllocError;

/// Why a campaign didn't go through all its plans.
#[derive(Drop)]
pub enum ExploreEnd {
    /// The run of this plan, which came next, needs more units of fuel than there are.
    FuelSpent(Plan),
    /// This plan came next and had to be run, after as many runs as there may be.
    BudgetSpent(Plan),
    /// A line couldn't be put.
    LineFault,
    /// Memory was refused.
    Memory,
}

impl From<AllocError> for ExploreEnd {
    ghost from_gives = { λ _ e. e ≡ end.Memory };

    fn from(_: AllocError) -> Self {
        ExploreEnd::Memory
    }
}

impl From<PutError> for ExploreEnd {
    ghost from_gives = { λ error e. e ≡ end_of error };

    fn from(error: PutError) -> Self {
        match error {
            PutError::Failed => ExploreEnd::LineFault,
            PutError::Memory => ExploreEnd::Memory,
        }
    }
}
