//! Programs: the fault that is told.
ghost use Rattle.std.specs.Prelude.{◌≡◌, [], IfOk, None, true};
ghost use Rattle.core_terms.specs.View.{program_view};
ghost use Rattle.core_typing.specs.Accepts.{EntriesDiffer};
ghost use Rattle.core_typing.specs.FoundProgram.{DeclsFound};
ghost use Rattle.core_checker.specs.Told.{IsTold};
ghost use Rattle.judged_terms.specs.Laws.{Clean};
ghost use Rattle.node_rules.specs.View.{found_tree};
ghost use Rattle.told_faults.specs.Computed.{first as first_in};
ghost use Rattle.type_faults.specs.View.{maybe_fault};

use crate::declarations::declarations_found;
use crate::entries::entries_told;
use core_terms::Program;
use judged_terms::declared_are_found;
use node_rules::Found;
use std::alloc::{AllocError, Global};
use told_terms::judged_is_told;
use type_faults::{Fault, first};

/// What is told; where nothing is told though not all is found, a type is too large to be found.
fn settled(is_found: bool, told: Option<Fault>) -> Result<Option<Fault>, AllocError>
    ensures kept { IfOk result (λ o. o ≡ told) }
    ensures found { IfOk result (λ o. o ≡ None → is_found ≡ true) }
{
    match told {
        Some(fault) => Ok(Some(fault)),
        None => { if is_found { Ok(None) } else { Err(AllocError) } }
    }
}

/// The first fault that is told of declarations and of entries.
fn told_of(found: Found, entries: Option<Fault>) -> Result<Option<Fault>, AllocError>
    ensures clean { IfOk result (λ o. o ≡ None → Clean (found_tree found)) }
    ensures entries { IfOk result (λ o. o ≡ None → entries ≡ None) }
    ensures earliest { IfOk result (λ o. maybe_fault o
        ≡ first_in (found_tree found).kids (first_in (found_tree found).own (maybe_fault entries))) }
{
    let Found {
        found: is_found,
        kids,
        own,
    } = found;
    let later = first(own, entries);
    let told = first(kids, later);
    settled(is_found, told)
}

/// The fault that a program tells. None is told only where each term has its type: where a type is too large to be
/// found, that counts as want of memory.
pub fn fault_told(alloc: Global, p: &Program) -> Result<Option<Fault>, AllocError>
    ensures declarations { IfOk result
        (λ o. o ≡ None → DeclsFound (program_view p.now) [] [] (program_view p.now).decls) }
    ensures entries { IfOk result (λ o. o ≡ None → EntriesDiffer (program_view p.now)) }
    ensures told { IfOk result (λ o. IsTold (program_view p.now) (maybe_fault o)) }
{
    declared_are_found();
    judged_is_told();
    let found = declarations_found(alloc, p)?;
    let entries = entries_told(alloc, p)?;
    told_of(found, entries)
}
