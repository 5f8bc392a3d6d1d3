//! Why a fault file isn't read.

use std::alloc::{AllocError, AllocFailed};

/// The first rule that a fault file breaks. Its items are counted from 1.
#[derive(Debug, Clone, Copy, PartialEq, Eq)]
pub enum FaultsWhy {
    /// It is no TOML.
    NotToml,
    /// A key isn't known there: at the top where `item` is 0.
    UnknownKey { item: u32 },
    /// The version is neither 1 nor 2.
    BadVersion,
    /// The item is no table, or, where `item` is 0, the items are no array.
    NotATable { item: u32 },
    /// There are more than 1,024 items.
    TooMany,
    /// No service is named.
    UnknownCallee { item: u32 },
    /// What is named isn't a method of the service.
    UnknownMethod { item: u32 },
    /// The codes aren't a list of 1 to 16 codes, or neither codes nor values are there.
    BadCode { item: u32 },
    /// The values aren't a list of 1 to 16 values of the kinds that the methods give.
    BadValue { item: u32 },
}

/// Why a fault file gave no choices.
#[derive(Debug, Drop, PartialEq, Eq)]
pub enum FaultsError {
    Refused(FaultsWhy),
    Memory,
}

impl From<FaultsWhy> for FaultsError {
    ghost use Rattle.std.specs.Prelude.{◌≡◌};
    ghost use Rattle.fb_config.specs.declared.error.FaultsError.TheVariants.{Refused};

    ghost from_gives = { λ why e. e ≡ Refused why };

    fn from(why: FaultsWhy) -> FaultsError {
        FaultsError::Refused(why)
    }
}

impl From<AllocError> for FaultsError {
    ghost use Rattle.std.specs.Prelude.{◌≡◌};
    ghost use Rattle.fb_config.specs.declared.error.FaultsError.TheVariants.{Memory};

    ghost from_gives = { λ _ e. e ≡ Memory };

    fn from(_error: AllocError) -> FaultsError {
        FaultsError::Memory
    }
}
