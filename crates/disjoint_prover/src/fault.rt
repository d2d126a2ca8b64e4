//! Why two rows are not known to be apart.

ghost use Rattle.std.specs.Prelude.{◌≡◌};

use con_terms::Con;
use std::alloc::AllocError;
use std::fmt;
use thiserror::Error;

/// Two pieces of rows.
#[derive(Drop)]
pub struct Pieces {
    pub left: Con,
    pub right: Con,
}

impl fmt::Debug for Pieces {
    fn fmt<W: fmt::Write>(&self, f: &mut fmt::Formatter<W>) -> fmt::Result {
        write!(f, "two pieces")
    }
}

/// Why two rows are not known to be apart.
#[derive(Debug, Drop, Error)]
pub enum DisjointFault {
    /// The first pair of pieces that nothing separates.
    #[error("two pieces of rows are not known to be apart")]
    Touch(Pieces),
    /// Memory ran out.
    #[error("out of memory")]
    Memory,
}

impl From<AllocError> for DisjointFault {
    ghost use Rattle.disjoint_prover.specs.declared.fault.DisjointFault.TheVariants.{Memory};

    ghost from_gives = { λ _ e. e ≡ Memory };

    fn from(_error: AllocError) -> DisjointFault {
        DisjointFault::Memory
    }
}
