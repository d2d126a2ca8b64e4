//! Why a pattern doesn't match.

ghost use Rattle.std.specs.Prelude.{◌≡◌};
ghost use Rattle.unknowns.specs.declared.fault.FitFault.TheVariants.{Memory};

use crate::sides::Apart;
use std::alloc::{AllocError, AllocFailed};

/// Why there is no answer.
#[derive(Drop)]
pub enum FitFault {
    /// The pattern holds an unknown, not found so far, where matching doesn't look for one.
    Open,
    /// Two parts that differ.
    Differ(Box<Apart>),
    /// A comparison takes too many steps, or meets a constructor that is too deep.
    TooLarge,
    Memory,
}

impl From<AllocError> for FitFault {
    ghost from_gives = { λ _ e. e ≡ Memory };

    fn from(_: AllocError) -> FitFault {
        FitFault::Memory
    }
}

impl<T: Drop> From<AllocFailed<T>> for FitFault {
    ghost from_gives = { λ _ e. e ≡ Memory };

    fn from(_: AllocFailed<T>) -> FitFault {
        FitFault::Memory
    }
}
