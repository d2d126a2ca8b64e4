//! Why patterns don't cover a type.
use std::alloc::{AllocError, AllocFailed, Global};
use type_faults::Shape;

/// Why patterns don't cover a type.
#[derive(Drop)]
pub enum CoverFault {
    /// The type, or that of a part that the patterns may look at, is too large.
    TooLarge,
    /// A shape that no pattern takes.
    Missed(Shape),
    Memory,
}

impl From<AllocError> for CoverFault {
    ghost use Rattle.std.specs.Prelude.{◌≡◌};
    ghost use Rattle.match_cover.specs.declared.fault.CoverFault.TheVariants.{Memory};

    ghost from_gives = { λ _ e. e ≡ Memory };

    fn from(_: AllocError) -> CoverFault {
        CoverFault::Memory
    }
}
