//! Why tokens are refused, and what a reader of a part asks for.
ghost use Rattle.std.specs.Prelude.{◌≡◌};

use crate::Tree;
use std::alloc::AllocError;
use thiserror::Error;

/// Why tokens are refused. `at` is the byte of the text at which the refused token begins, or the
/// text's length at its end.
#[derive(Clone, Copy, Debug, Error, PartialEq, Eq)]
pub enum ParseFault {
    /// No tree allows this token after those before it.
    #[error("Syntax")]
    Syntax { at: u32 },
    /// Only a tree more than 200 levels deep allows this token after those before it.
    #[error("TooDeep")]
    TooDeep { at: u32 },
    /// Want of memory.
    #[error("Memory")]
    Memory,
}

impl From<AllocError> for ParseFault {
    ghost use Rattle.surface_grammar.specs.declared.fault.ParseFault.TheVariants.{Memory};

    ghost from_gives = { λ _ e. e ≡ Memory };

    fn from(_error: AllocError) -> ParseFault {
        ParseFault::Memory
    }
}

/// What a reader of a part leaves to another.
#[derive(Clone, Copy)]
pub enum Hole {
    /// An expression.
    Exp,
    /// A constructor.
    Con,
}

/// How far a reader of a part has come.
#[derive(Drop)]
pub enum Step {
    /// It wants such a tree, which begins at this token, at this depth.
    Wants(Hole, u32, u32),
    /// It has read a tree, and this is the token behind it.
    Done(Tree, u32),
}
