//! Why reading stops.
ghost use Rattle.std.specs.Prelude.{◌≡◌};

use std::alloc::AllocError;

/// Why reading stops.
#[derive(Clone, Copy)]
pub enum Stop {
    /// The token at this place is refused, or the end where the tokens have no such place.
    Refused(usize),
    /// Want of memory.
    Memory,
}

impl From<AllocError> for Stop {
    ghost use Rattle.grammar_engine.specs.declared.stop.Stop.TheVariants.{Memory};

    ghost from_gives = { λ _ e. e ≡ Memory };

    fn from(_error: AllocError) -> Stop {
        Stop::Memory
    }
}
