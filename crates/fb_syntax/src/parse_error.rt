use std::alloc::{AllocError, AllocFailed};

/// Why a text is refused, and at which byte, counted from 0.
#[derive(Debug, Clone, Copy, PartialEq, Eq)]
pub enum ParseWhy {
    /// The bytes are no UTF-8: at the first byte that no text continues, or at the end inside a character.
    NotText { offset: u64 },
    /// No token, blank or comment begins here.
    BadToken { offset: u64 },
    /// This token isn't wanted here.
    Unexpected { offset: u64 },
    /// This token opens more than may be open at once.
    TooDeep { offset: u64 },
    /// This token begins a thing beyond a limit.
    TooMany { offset: u64 },
}

/// Why a text wasn't read.
#[derive(Debug, Drop)]
pub enum ParseError {
    Refused(ParseWhy),
    Memory,
}

impl From<AllocError> for ParseError {
    ghost use Rattle.std.specs.Prelude.{◌≡◌};
    ghost use Rattle.fb_syntax.specs.declared.parse_error.ParseError.TheVariants.{Memory};

    ghost from_gives = { λ _ e. e ≡ Memory };

    fn from(_error: AllocError) -> ParseError {
        ParseError::Memory
    }
}

impl<T: Drop> From<AllocFailed<T>> for ParseError {
    ghost use Rattle.std.specs.Prelude.{◌≡◌};
    ghost use Rattle.fb_syntax.specs.declared.parse_error.ParseError.TheVariants.{Memory};

    ghost from_gives = { λ _ e. e ≡ Memory };

    fn from(_error: AllocFailed<T>) -> ParseError {
        ParseError::Memory
    }
}
