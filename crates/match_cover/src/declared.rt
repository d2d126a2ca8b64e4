//! The datatypes that declarations make.
ghost use Rattle.std.specs.Prelude.{◌≡◌, ◌++◌, ◌∷◌, [], IfOk, OnOk, map};
ghost use Rattle.core_terms.specs.View.{constructor_view, datatype_view, decl_tree, decls_view, maybe_con};
ghost use Rattle.core_typing.specs.Declarations.{datatypes, datatypes_before as before};

use con_terms::{Con, copy_con};
use core_terms::{Constructor, Constructors, Datatype, Decl, Decls};
use std::alloc::{AllocError, Global};
use type_faults::copy_symbols;
use type_makers::basis_datatypes;

/// A copy of what a constructor holds.
fn copy_held(alloc: Global, held: &Option<Con>) -> Result<Option<Con>, AllocError>
    ensures { IfOk result (λ new. maybe_con new ≡ maybe_con held.now) }
{
    match held {
        None => Ok(None),
        Some(c) => Ok(Some(copy_con(alloc, c)?)),
    }
}

/// A copy of a constructor.
fn copy_constructor(alloc: Global, c: &Constructor) -> Result<Constructor, AllocError>
    ensures { IfOk result (λ new. constructor_view new ≡ constructor_view c.now) }
{
    Ok(Constructor {
        place: c.place,
        name: c.name,
        holds: copy_held(alloc, &c.holds)?,
    })
}

/// A copy of the constructors of a datatype.
fn copy_constructors(alloc: Global, cs: &Constructors) -> Result<Constructors, AllocError>
    ensures { IfOk result (λ new. map constructor_view new.items.items ≡ map constructor_view cs.now.items.items) }
{
    let mut items = Vec::with_capacity(alloc, cs.items.len())?;
    for j in 0..cs.items.len() {
        items.push(copy_constructor(alloc, &cs.items[j])?)?;
    }
    Ok(Constructors { items })
}

/// A copy of a datatype.
pub fn copy_datatype(alloc: Global, d: &Datatype) -> Result<Datatype, AllocError>
    ensures { IfOk result (λ new. datatype_view new ≡ datatype_view d.now) }
{
    Ok(Datatype {
        path: copy_symbols(alloc, &d.path)?,
        place: d.place,
        module: d.module,
        name: d.name,
        symbol: d.symbol,
        parameters: copy_symbols(alloc, &d.parameters)?,
        constructors: copy_constructors(alloc, &d.constructors)?,
    })
}

/// Puts the datatype of a declaration behind others, where it makes one.
fn add_datatype(alloc: Global, decl: &Decl, all: &mut Vec<Datatype>) -> Result<(), AllocError>
    ensures { OnOk result (map datatype_view all.new.items ≡
        map datatype_view all.old.items ++ datatypes (decl_tree decl.now ∷ [])) }
{
    match decl {
        Decl::Datatype(d) => Ok(all.push(copy_datatype(alloc, d)?)?),
        Decl::Val(_, _) => Ok(()),
        Decl::ValRec(_, _) => Ok(()),
        Decl::Con(_) => Ok(()),
        Decl::Thing(_) => Ok(()),
    }
}

/// The datatypes that every program has, and then those of so many declarations.
#[tactic(auto, using(crate::proofs::Before::before_all))]
pub fn datatypes_before(
    alloc: Global,
    decls: &Decls,
    counted: usize,
) -> Result<Vec<Datatype>, AllocError>
    ensures { IfOk result (λ ds. map datatype_view ds.items ≡ before counted (decls_view decls.now)) }
{
    let mut all = basis_datatypes(alloc)?;
    for i in 0..decls.items.len() {
        if i >= counted {
            return Ok(all);
        }
        add_datatype(alloc, &decls.items[i], &mut all)?;
    }
    Ok(all)
}
