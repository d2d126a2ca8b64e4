//! Why a constructor has no kind.

ghost use Rattle.std.specs.Prelude.{◌≡◌, Err};
ghost use Rattle.kind_rules.specs.View.{flaw_tree};
ghost use Rattle.kind_rules.specs.Faults.{Refuses};

use crate::flaw::{Differing, Flaw};
use con_terms::{Kind, Place};
use disjoint_prover::fault::Pieces;
use std::alloc::AllocError;
use std::fmt;
use thiserror::Error;

/// Why a constructor has no kind, and where it stands.
#[derive(Drop, Error)]
pub enum KindFault {
    /// A variable isn't bound, or a basic name has no kind.
    #[error("a constructor isn't bound")]
    Unbound {
        place: Place,
    },
    /// Two kinds differ.
    ///
    /// Where any row is wanted, `wanted` is `{Type}`; where a function is wanted, `wanted` is one from the
    /// argument's kind to `Type`; where a tuple lacks a component, or is none, `wanted` is one with a component
    /// more than are found, of kind `Type`.
    #[error("two kinds differ")]
    KindMismatch {
        place: Place,
        wanted: Kind,
        found: Kind,
    },
    /// Two rows are not known to be apart: the first two pieces of their normal forms that nothing separates, each
    /// closed by the binders of the constructor under which they touch, as `fn x :: k => piece`, the outermost binder
    /// outside. So both are constructors of the scope in which the whole stands.
    #[error("two pieces of rows are not known to be apart")]
    NotDisjoint {
        place: Place,
        pieces: Pieces,
    },
    /// A comparison takes 100,000 units or more, or a constructor is deeper than 2,000.
    #[error("the constructor is too large")]
    TooLarge {
        place: Place,
    },
    /// Memory ran out.
    #[error("out of memory")]
    Memory,
}

impl fmt::Debug for KindFault {
    fn fmt<W: fmt::Write>(&self, f: &mut fmt::Formatter<W>) -> fmt::Result {
        write!(f, "{self}")
    }
}

impl From<AllocError> for KindFault {
    ghost use Rattle.kind_rules.specs.declared.fault.KindFault.TheVariants.{Memory};

    ghost from_gives = { λ _ e. e ≡ Memory };

    fn from(_error: AllocError) -> KindFault {
        KindFault::Memory
    }
}

/// The fault that a flaw is, where the constructor stands at a place.
pub fn fault_at(flaw: Flaw, at: Place) -> KindFault
    ensures { Refuses at result (Err (flaw_tree flaw)) }
{
    match flaw {
        Flaw::Variable(_) => KindFault::Unbound { place: at },
        Flaw::Basic(_) => KindFault::Unbound { place: at },
        Flaw::Differ(differing) => {
            let Differing { wanted, found } = Box::into_inner(differing);
            KindFault::KindMismatch {
                place: at,
                wanted,
                found,
            }
        }
        Flaw::Touch(pieces) => KindFault::NotDisjoint {
            place: at,
            pieces: Box::into_inner(pieces),
        },
        Flaw::TooLarge => KindFault::TooLarge { place: at },
    }
}
