//! Flaws of kinding and types that differ, as faults.
ghost use Rattle.std.specs.Prelude.{◌≡◌, IfOk};
ghost use Rattle.con_terms.specs.View.{con_tree, kind_tree};
ghost use Rattle.core_terms.specs.View.{symbols_view};
ghost use Rattle.core_typing.specs.Faults.{mismatch as mismatch_at, too_large as too_large_at};
ghost use Rattle.core_typing.specs.Judged.{flaw_at};
ghost use Rattle.core_typing.specs.Scopes.{Sc};
ghost use Rattle.kind_rules.specs.View.{flaw_tree, found};
ghost use Rattle.told_faults.specs.Computed.{flawed as flawed_in};
ghost use Rattle.type_faults.specs.View.{fault_tree, maybe_fault};

use crate::fault::{Fault, Name, Types};
use con_terms::{Con, Kind, Place};
use core_terms::Symbols;
use kind_rules::Flaw;
use std::alloc::{AllocError, Global};

/// A flaw as the fault of a place, where the constructor variables in scope are called so.
pub fn flaw_fault(p: Place, called: Symbols, flaw: Flaw) -> Fault
    ensures { fault_tree result ≡ flaw_at p (symbols_view called) (flaw_tree flaw) }
{
    match flaw {
        Flaw::Variable(i) => Fault::Unbound(p, Name::ConVariable(i)),
        Flaw::Basic(s) => Fault::Unbound(p, Name::Symbol(s)),
        Flaw::Differ(differing) => Fault::KindMismatch(p, differing),
        Flaw::Touch(pieces) => Fault::NotDisjoint(p, called, pieces),
        Flaw::TooLarge => Fault::TooLarge(p),
    }
}

/// The fault that keeps a constructor from having a kind.
pub fn flawed(p: Place, called: Symbols, r: Result<Kind, Flaw>) -> Option<Fault>
    ensures { (G : Sc) → G.called ≡ symbols_view called → maybe_fault result ≡ flawed_in G p (found kind_tree r) }
{
    match r {
        Ok(_) => None,
        Err(flaw) => Some(flaw_fault(p, called, flaw)),
    }
}

/// Two types that differ.
pub fn mismatch(
    alloc: Global,
    p: Place,
    called: Symbols,
    wanted: Con,
    found: Con,
) -> Result<Fault, AllocError>
    ensures { IfOk result
        (λ f. fault_tree f ≡ mismatch_at p (symbols_view called) (con_tree wanted) (con_tree found)) }
{
    Ok(Fault::Mismatch(p, called, Box::new(alloc, Types { wanted, found })?))
}

/// A comparison that is too large.
pub fn too_large(p: Place) -> Fault
    ensures { fault_tree result ≡ too_large_at p }
{
    Fault::TooLarge(p)
}
