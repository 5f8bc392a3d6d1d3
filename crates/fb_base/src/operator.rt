//! The operators, and why one gives no value.

use std::alloc::{AllocError, AllocFailed};

/// An operator of one operand.
#[derive(Debug, Clone, Copy, PartialEq, Eq)]
pub enum Op1 {
    Neg,
    Not,
    Len,
}

/// An operator of two operands.
#[derive(Debug, Clone, Copy, PartialEq, Eq)]
pub enum Op2 {
    Add,
    Sub,
    Mul,
    Div,
    Rem,
    Eq,
    Ne,
    Lt,
    Le,
    Gt,
    Ge,
    Join,
    At,
}

/// Why an operator gave no value.
#[derive(Debug, Clone, Copy, PartialEq, Eq)]
pub enum OpError {
    /// It has none for these operands.
    Fault,
    Memory,
}

impl From<AllocError> for OpError {
    ghost use Rattle.std.specs.Prelude.{◌≡◌};
    ghost use Rattle.fb_base.specs.declared.operator.OpError.TheVariants.{Memory};

    ghost from_gives = { λ _ e. e ≡ Memory };

    fn from(_e: AllocError) -> OpError {
        OpError::Memory
    }
}

impl<T: Drop> From<AllocFailed<T>> for OpError {
    ghost use Rattle.std.specs.Prelude.{◌≡◌};
    ghost use Rattle.fb_base.specs.declared.operator.OpError.TheVariants.{Memory};

    ghost from_gives = { λ _ e. e ≡ Memory };

    fn from(_e: AllocFailed<T>) -> OpError {
        OpError::Memory
    }
}
