//! The symbols of names, datatypes and their constructors.
ghost use Rattle.std.specs.Prelude.{◌≡◌, IsTrue, ◌↔◌, List, ◌∷◌, ◌++◌, Some, slice_get, IfOk, IfSome, IfNone};
ghost use Rattle.table_rows.specs.View.{datatype_view, maybe_shape};
ghost use Rattle.core_terms.specs.Trees.{De};
ghost use Rattle.core_terms.specs.View.{decls_view, decl_tree};
ghost use Rattle.core_terms.specs.Datatypes.{basis_datatypes};
ghost use Rattle.core_typing.specs.Declarations.{datatypes};
ghost use Rattle.wire_values.specs.Known.{symbols_in};

use crate::wires::NoValues;
use con_terms::Sym;
use core_terms::{Decl, Decls, Program};
use table_rows::{Case, Datatype, Text};
use type_makers::symbols::{BOOL, LIST, OPTION};

/// Whether two texts have the same bytes.
pub fn are_same(left: &[u8], right: &[u8]) -> bool
    ensures { IsTrue result ↔ (left.now ≡ right.now) }
{
    left == right
}

/// A number of 32 bits. A greater one counts as want of memory.
fn narrow(number: usize) -> Result<u32, NoValues>
    ensures { IfOk result (λ narrowed. narrowed ≡ number) }
{
    if number > u32::MAX as usize {
        return Err(NoValues::Memory);
    }
    Ok(number as u32)
}

/// The symbol with a text.
pub fn symbol_of(program: &Program, text: &Text) -> Result<Sym, NoValues>
    ensures { IfOk result (λ symbol. slice_get program.now.names symbol.number ≡ Some text.now) }
{
    for i in 0..program.names.len() {
        if are_same(program.names.at(i).as_bytes(), text.as_bytes()) {
            let number = narrow(i)?;
            return Ok(Sym { number });
        }
    }
    Err(NoValues::Astray)
}

/// The constructor with a name, and its place.
pub fn case_named<'r>(datatype: &'r Datatype, name: &Text) -> Result<(u32, &'r Case), NoValues>
    ensures { IfOk result (λ found. slice_get (datatype_view datatype.now) found.0
        ≡ Some (name.now, maybe_shape found.1.now.holds)) }
{
    for i in 0..datatype.cases.len() {
        let case = &datatype.cases[i];
        if are_same(case.name.as_bytes(), name.as_bytes()) {
            return Ok((narrow(i)?, case));
        }
    }
    Err(NoValues::Astray)
}

/// The symbol of the datatype with a number: those that every program has come first.
pub fn datatype_symbol(decls: &Decls, number: usize) -> Result<Sym, NoValues>
    ensures { IfOk result (λ symbol. slice_get (symbols_in (basis_datatypes ++ datatypes (decls_view decls.now))) number
        ≡ Some symbol.number) }
{
    match number {
        0 => Ok(BOOL),
        1 => Ok(OPTION),
        2 => Ok(LIST),
        _ => declared(decls, number.saturating_sub(3)),
    }
}

/// The symbol of the datatype with a number among those that a program declares.
fn declared(decls: &Decls, number: usize) -> Result<Sym, NoValues>
    ensures { IfOk result (λ symbol. slice_get (symbols_in (datatypes (decls_view decls.now))) number
        ≡ Some symbol.number) }
{
    let mut left = number;
    let mut rest = decls.items.as_slice();
    while let Some((first, others)) = rest.split_first() {
        match datatype_in(first) {
            Some(symbol) => {
                if left == 0 {
                    return Ok(symbol);
                }
                left -= 1;
            }
            None => {}
        }
        rest = others;
    }
    Err(NoValues::Astray)
}

/// The symbol of the datatype that a declaration makes.
fn datatype_in(decl: &Decl) -> Option<Sym>
    ensures some { IfSome result (λ symbol. (more : List De)
        → symbols_in (datatypes (decl_tree decl.now ∷ more)) ≡ symbol.number ∷ symbols_in (datatypes more)) }
    ensures none { IfNone result ((more : List De) → datatypes (decl_tree decl.now ∷ more) ≡ datatypes more) }
{
    match decl {
        Decl::Datatype(datatype) => Some(datatype.symbol),
        Decl::Val(_, _) => None,
        Decl::ValRec(_, _) => None,
        Decl::Con(_) => None,
        Decl::Thing(_) => None,
    }
}
