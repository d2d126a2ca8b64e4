//! Refusals, held against the modules before they are told.
ghost use Rattle.std.specs.Prelude.{◌≡◌, ◌≢◌, true, map, IfOk};
ghost use Rattle.core_terms.specs.Lists.{foreigns_view};
ghost use Rattle.plain_tree.specs.View.{plain_view};
ghost use Rattle.name_scopes.specs.declared.fault.ElabFault.TheVariants as elab;
ghost use Rattle.program_elaborator.specs.Causes.{differ as are_different, is_caused as has_its_cause, is_told_rightly, kinds_differ as have_different_kinds};

use crate::fault::{Refusal, memory};
use crate::program::Source;
use con_terms::{Kind, same_kind};
use kind_rules::compare::compare;
use kind_rules::{Comparison, Differing};
use name_scopes::ElabFault;
use std::alloc::{AllocError, Global};
use type_faults::{Fault, Types};
use unbound_names::is_unbound;

/// Whether the two sides that a mismatch keeps have normal forms that differ.
fn differ(alloc: Global, types: &Types) -> Result<bool, AllocError>
    ensures { IfOk result (λ b. b ≡ are_different types.now) }
{
    match compare(alloc, &types.wanted, &types.found, &Kind::Types)? {
        Comparison::Differing(_) => Ok(true),
        _ => Ok(false),
    }
}

/// Whether the two kinds that a mismatch keeps differ.
fn kinds_differ(kinds: &Differing) -> bool
    ensures { result ≡ have_different_kinds kinds.now }
{
    !same_kind(&kinds.wanted, &kinds.found)
}

/// Whether a fault of types is told rightly.
fn is_right(alloc: Global, fault: &Fault) -> Result<bool, AllocError>
    ensures { IfOk result (λ b. b ≡ is_told_rightly fault.now) }
{
    match fault {
        Fault::Mismatch(_, _, types) => differ(alloc, types),
        Fault::KindMismatch(_, kinds) => Ok(kinds_differ(kinds)),
        Fault::TooLarge(_) => Ok(true),
        _ => Ok(false),
    }
}

/// Whether a fault that is told of modules has its cause in them.
fn is_caused(alloc: Global, source: &Source, fault: &ElabFault) -> Result<bool, AllocError>
    ensures { IfOk result (λ b. b ≡ has_its_cause source.now.modules (map plain_view source.now.trees.items)
        (foreigns_view source.now.foreign) fault.now) }
{
    match fault {
        ElabFault::Unbound(place, name) => is_unbound(
            alloc,
            &source.modules,
            source.trees.as_slice(),
            &source.foreign,
            place.file,
            place.at,
            name,
        ),
        ElabFault::Told(told) => is_right(alloc, told),
        ElabFault::NoInstance(_) | ElabFault::NoFolder(_) => Ok(false),
        _ => Ok(true),
    }
}

/// A refusal that has its cause in the modules. One that hasn't counts as want of memory.
pub fn caused(alloc: Global, source: &Source, refusal: Refusal) -> Refusal
    ensures cause { has_its_cause source.now.modules (map plain_view source.now.trees.items)
        (foreigns_view source.now.foreign) result.fault ≡ true }
    ensures same { result.fault ≢ elab.Memory → result ≡ refusal }
{
    match is_caused(alloc, source, &refusal.fault) {
        Ok(true) => refusal,
        _ => memory(alloc),
    }
}
