//! Why a text has no tokens.
ghost use Rattle.std.specs.Prelude.{◌≡◌};

use std::alloc::AllocError;
use thiserror::Error;

/// The first thing in a text, from left to right, that cannot be read. `at` counts bytes.
#[derive(Debug, Drop, Error)]
pub enum LexFault {
    /// No token begins at this byte; or it is the backslash of an unknown escape, or the `&` of
    /// an unknown entity.
    #[error("no token begins at byte {at}")]
    BadChar { at: u32 },
    /// The text ends in the string that begins here.
    #[error("the string at byte {at} has no end")]
    OpenText { at: u32 },
    /// The text ends in the comment that begins here.
    #[error("the comment at byte {at} has no end")]
    OpenComment { at: u32 },
    /// The integer that begins here is above 9223372036854775807.
    #[error("the integer at byte {at} is above 9223372036854775807")]
    IntTooLarge { at: u32 },
    /// Memory ran out.
    #[error("out of memory")]
    Memory,
}

impl From<AllocError> for LexFault {
    ghost use Rattle.ur_lexer.specs.declared.fault.LexFault.TheVariants.{Memory};

    ghost from_gives = { λ _ e. e ≡ Memory };

    fn from(_error: AllocError) -> LexFault {
        LexFault::Memory
    }
}
